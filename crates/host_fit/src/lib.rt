// The fit of a chip text, with slots and positions into lent lists.
#![tactic(auto)]

ghost use Rattle.std.specs.Prelude.{◌≡◌, ◌+◌, ◌≤◌, length};
ghost use Rattle.model.specs.Meaning.{chip_of};
ghost use Rattle.text_grammar.specs.Reading.{accepted};
ghost use Rattle.chip_text.specs.Text.{read_chip};
ghost use Rattle.chip_text.specs.Passed.{Passed};
ghost use Rattle.host_codes.specs.Code.{code};
ghost use Rattle.host_fit.specs.FitText.{of_outcome, FitDone};
ghost use Rattle.host_fit.specs.Refusing.{Refusing};

use fit::Fitted;
use host_codes::{Code, NO, YES, refusal_code};
use host_lists::{is_short, put_corners};
use model::{Chip, Refusal};

// Yes with the wirelength, no, or the refusal.
fn fit_code(outcome: Result<Option<Fitted>, Refusal>) -> Code
    ensures { result ≡ code (of_outcome outcome) }
{
    match outcome {
        Ok(Some(f)) => Code {
            number: YES,
            value: f.length,
        },
        Ok(None) => Code {
            number: NO,
            value: 0,
        },
        Err(f) => refusal_code(f),
    }
}

// The refusal where the list of positions is too short: with one slot lent, no fit of a macro is made, so 11, 12 or 15 is answered.
fn short_code(c: Chip, letters: &[u8], room: usize) -> Code
    requires { Passed c }
    ensures { Refusing c letters.now room result }
{
    let mut one = [0u16; 1];
    let a = fit::fit_letters(c, letters, &mut one);
    fit_code(a.outcome)
}

// A chip that was read, and room for its positions.
fn long_code(c: Chip, letters: &[u8], slots: &mut [u16], positions: &mut [u64]) -> Code
    requires passed { Passed c }
    requires n_in_bounds { c.n + c.n ≤ length positions.old }
    ensures { FitDone (accepted (chip_of c)) letters.now result slots.old slots.new positions.old positions.new }
{
    let a = fit::fit_letters(c, letters, slots);
    match a.outcome {
        Ok(Some(f)) => {
            put_corners(positions, a.spots, c.n);
            fit_code(Ok(Some(f)))
        }
        Ok(None) => fit_code(Ok(None)),
        Err(f) => refusal_code(f),
    }
}

// A chip that was read.
fn fit_chip(c: Chip, letters: &[u8], slots: &mut [u16], positions: &mut [u64]) -> Code
    requires { Passed c }
    ensures { FitDone (accepted (chip_of c)) letters.now result slots.old slots.new positions.old positions.new }
{
    let n = c.n;
    let room = positions.len();
    if is_short(room, n) {
        return short_code(c, letters, room);
    }
    long_code(c, letters, slots, positions)
}

pub fn fit_text(text: &[u8], letters: &[u8], slots: &mut [u16], positions: &mut [u64]) -> Code
    ensures { FitDone (read_chip text.now) letters.now result slots.old slots.new positions.old positions.new }
{
    match chip_read::read_chip(text) {
        Ok(c) => fit_chip(c, letters, slots, positions),
        Err(f) => refusal_code(f),
    }
}
