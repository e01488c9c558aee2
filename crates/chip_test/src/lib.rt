// A chip that is held as a value, tested as its text would be.
#![tactic(auto)]

ghost use Rattle.std.specs.Prelude.{◌≡◌};
ghost use Rattle.model.specs.Meaning.{chip_of};
ghost use Rattle.text_grammar.specs.Writing.{tested_as};
ghost use Rattle.chip_text.specs.Text.{read_chip, chip_text};

use model::{Chip, Refusal, TEXT_MOST};

// The test of a chip: its items, and where one of them is refused, first the length of its text.
pub fn test_chip(c: Chip) -> Result<(), Refusal>
    ensures { tested_as (chip_of c) result ≡ read_chip (chip_text (chip_of c)) }
{
    let Err(f) = chip_items::test_items(c) else {
        return Ok(());
    };
    let mut scratch = [0u8; 1];
    if TEXT_MOST < chip_print::put_chip(&mut scratch, 0, c) {
        return Err(Refusal { no: 1, line: 0 });
    }
    Err(f)
}
