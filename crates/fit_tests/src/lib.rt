// The tests before a fit (document 01, "Refusal table"): the chip as its text would be, then the letters and the lent list.
#![tactic(auto)]

ghost use Rattle.chip_text.specs.Passed.{Passed};
ghost use Rattle.chip_text.proofs.Passing.{Whole};
ghost use Rattle.fit_tests.specs.Entry.{SlotsEach, Entered};

use chip_pins::pins_before;
use model::{Chip, Refusal};

// 2n + p + 2q slots for each direction.
fn slots_each(c: Chip) -> usize
    requires { Passed c }
    ensures { SlotsEach c result }
{
    2 * c.n + fit_pairs::letter_count(c.n, c.k) + 2 * pins_before(c.nets, c.t)
}

// A chip whose test is passed: the number of slots of each direction.
fn test_passed(c: Chip, letters: &[u8], room: usize) -> Result<usize, Refusal>
    requires passed { Passed c }
    requires whole { Whole c }
    ensures { Entered c letters.now room result }
{
    let m = slots_each(c);
    let count = fit_pairs::letter_count(c.n, c.k);
    let no = fit_faults::fit_fault(letters, count, m + m, room);
    if no != 0 {
        return Err(Refusal { no, line: 0 });
    }
    Ok(m)
}

// A chip, a letter string and a list of that many slots: the number of slots of each direction, or the refusal.
pub fn test_letters(c: Chip, letters: &[u8], room: usize) -> Result<usize, Refusal>
    ensures { Entered c letters.now room result }
{
    chip_test::test_chip(c)?;
    test_passed(c, letters, room)
}
