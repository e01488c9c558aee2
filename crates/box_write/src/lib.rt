// Writing a record that is held as a value with the box of each net of a chip (document 02, Card 2).
#![tactic(auto)]

ghost use Rattle.std.specs.Prelude.{◌≡◌};
ghost use Rattle.model.specs.Meaning.{record_of};
ghost use Rattle.text_grammar.specs.Writing.{answer_of, write_text};
ghost use Rattle.record_text.specs.Text.{read_record, record_text};
ghost use Rattle.box_print.specs.Held.{held_text};

use model::{Chip, Record, Refusal};

// Writes the record and, where it has a placement, the boxes of the chip's nets there into the buffer, or refuses and leaves the buffer as it was: the record as
// its text would be, then 15 where the buffer is shorter than the whole.
pub fn write_boxed(c: Chip, r: Record, out: &mut [u8]) -> Result<usize, Refusal>
    ensures { record { answer = answer_of result; buffer = out.new } ≡ write_text (read_record (record_text (record_of r))) (held_text c r) out.old }
{
    record_test::test_record(r)?;
    let mut scratch = [0u8; 1];
    if out.len() < box_print::put_boxed(&mut scratch, 0, c, r) {
        return Err(Refusal { no: 15, line: 0 });
    }
    Ok(box_print::put_boxed(out, 0, c, r))
}
