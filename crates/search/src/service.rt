// The search as a service: of a chip held as a value, and from chip text to record text.
ghost use Rattle.std.specs.Prelude.{◌≡◌};
ghost use Rattle.model.specs.Blocks.{blocks_of};
ghost use Rattle.model.specs.Meaning.{chip_of, record_of};
ghost use Rattle.text_grammar.specs.Writing.{answer_of};
ghost use Rattle.chip_text.specs.Passed.{Passed};
ghost use Rattle.chip_text.specs.Text.{read_chip};
ghost use Rattle.placement.specs.Least.{chip_record};
ghost use Rattle.search.specs.Place.{meant_found, placed_read, search_chip, place_text};

use crate::branch::search;
use crate::root::{first_fit, root};
use crate::weights::all_weights;
use chip_put::array_of;
use fit_pairs::all_dots;
use fit_slots::Direction;
use half_fit::service::first_half;
use half_fit::{HELP, POOL};
use model::{Chip, Record, Refusal};
use search_node::{Parts, no_record};
use search_tables::arrays_of;

// The parts of a chip that the search reads.
fn parts_of(c: Chip) -> Parts
    ensures { result.blocks ≡ blocks_of c }
{
    let weights = all_weights(c);
    Parts {
        blocks: model::blocks_of(c),
        weights,
    }
}

// The record of a chip whose test is passed: the search from dots alone, with no placement so far.
fn chip_record(c: Chip) -> Record
    requires { Passed c }
    ensures { record_of result ≡ chip_record (chip_of c) }
{
    let letters = all_dots();
    let p = fit_pairs::letter_count(c.n, c.k);
    let parts = parts_of(c);
    let cs = array_of(c);
    let x = arrays_of(c, Direction::Horizontal);
    let y = arrays_of(c, Direction::Vertical);
    let tx = x.tab;
    let ty = y.tab;
    let ax = x.arcs;
    let ay = y.arcs;
    let mut hx = [0u32; HELP];
    let mut hy = [0u32; HELP];
    let mut states = [0u32; POOL];
    let fx = first_half(&tx, &mut hx, &ax, &mut states, 0, 4000000000);
    let fy = first_half(&ty, &mut hy, &ay, &mut states, 1, 4000000000);
    let node = root(c, p, letters, x, y, first_fit(&cs, p, letters, fx, fy));
    search(
        &cs,
        parts,
        p,
        &tx,
        &hx,
        &ty,
        &hy,
        node,
        &states,
        0,
        &states,
        1,
        no_record(),
    )
}

// The record of a chip held as a value, into the lent buffer.
pub fn search_chip(c: Chip, out: &mut [u8]) -> Result<usize, Refusal>
    ensures { record { answer = answer_of result; buffer = out.new } ≡ search_chip (chip_of c) out.old }
{
    chip_test::test_chip(c)?;
    record_write::write_record(chip_record(c), out)
}

// What the search finds for a chip text: the chip that was read and its record.
#[derive(Clone, Copy)]
pub struct Found {
    pub chip: Chip,
    pub best: Record,
}

// The chip of a text and its record, or the refusal.
pub fn placed(text: &[u8]) -> Result<Found, Refusal>
    ensures { meant_found result ≡ placed_read (read_chip text.now) }
{
    let chip = chip_read::read_chip(text)?;
    Ok(Found {
        chip,
        best: chip_record(chip),
    })
}

// From chip text to record text.
pub fn place_text(text: &[u8], out: &mut [u8]) -> Result<usize, Refusal>
    ensures { record { answer = answer_of result; buffer = out.new } ≡ place_text text.now out.old }
{
    let found = placed(text)?;
    record_write::write_record(found.best, out)
}
