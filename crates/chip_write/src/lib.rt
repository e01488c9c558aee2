// Writing a chip that is held as a value.
#![tactic(auto)]

ghost use Rattle.std.specs.Prelude.{◌≡◌};
ghost use Rattle.model.specs.Meaning.{chip_of};
ghost use Rattle.text_grammar.specs.Writing.{answer_of};
ghost use Rattle.chip_text.specs.Text.{write_chip};

use model::{Chip, Refusal};

// Writes the text of a chip into the buffer, or refuses and leaves the buffer as it was.
pub fn write_chip(c: Chip, out: &mut [u8]) -> Result<usize, Refusal>
    ensures { record { answer = answer_of result; buffer = out.new } ≡ write_chip (chip_of c) out.old }
{
    chip_test::test_chip(c)?;
    let mut scratch = [0u8; 1];
    if out.len() < chip_print::put_chip(&mut scratch, 0, c) {
        return Err(Refusal { no: 15, line: 0 });
    }
    Ok(chip_print::put_chip(out, 0, c))
}
