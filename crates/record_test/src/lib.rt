// A record that is held as a value, tested as its text would be.
#![tactic(auto)]

ghost use Rattle.std.specs.Prelude.{◌≡◌};
ghost use Rattle.model.specs.Meaning.{least, first_of, blank_spot, record_of};
ghost use Rattle.text_grammar.specs.Writing.{tested_as};
ghost use Rattle.record_text.specs.Text.{read_record, record_text};
ghost use Rattle.record_test.specs.Parts.{spot_fault, lines_read};

use model::{Mac, Outcome, Record, Refusal, Spot, TEXT_MOST};

// The fault of macro i's spot, or 0: count 6, range 4.
fn spot_fault(spots: [Spot; Mac::COUNT], i: usize) -> usize
    ensures { result ≡ spot_fault spots i }
{
    if Mac::COUNT <= i {
        return 6;
    }
    let p = spots[i];
    match Spot::new(p.x, p.y) {
        Some(_) => 0,
        None => 4,
    }
}

// The lines of a record with a placement: its wirelength on line 1, and the spots of n macros from line 2 on.
fn test_least(wl: u64, n: usize, spots: [Spot; Mac::COUNT]) -> Result<(), Refusal>
    ensures { tested_as (least wl (first_of blank_spot n spots)) result ≡ lines_read (least wl (first_of blank_spot n spots)) }
{
    if Record::LENGTH_MOST < wl {
        return Err(Refusal { no: 4, line: 1 });
    }
    for i in 0..n {
        let no = spot_fault(spots, i);
        if no != 0 {
            return Err(Refusal { no, line: i + 2 });
        }
    }
    Ok(())
}

// The lines of a record, whatever the length of its text.
fn test_lines(r: Record) -> Result<(), Refusal>
    ensures { tested_as (record_of r) result ≡ lines_read (record_of r) }
{
    let spots = r.spots;
    match r.outcome {
        Outcome::None => Ok(()),
        Outcome::Least(wl, n) => test_least(wl, n, spots),
    }
}

// A record tested as its text would be: its length, then its lines.
pub fn test_record(r: Record) -> Result<(), Refusal>
    ensures { tested_as (record_of r) result ≡ read_record (record_text (record_of r)) }
{
    let mut scratch = [0u8; 1];
    if TEXT_MOST < record_print::put_record(&mut scratch, 0, r) {
        return Err(Refusal { no: 1, line: 0 });
    }
    test_lines(r)
}
