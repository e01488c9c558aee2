// Writing a record that is held as a value.
#![tactic(auto)]

ghost use Rattle.std.specs.Prelude.{◌≡◌};
ghost use Rattle.model.specs.Meaning.{record_of};
ghost use Rattle.text_grammar.specs.Writing.{answer_of};
ghost use Rattle.record_text.specs.Text.{write_record};

use model::{Record, Refusal};

// Writes the text of a record into the buffer, or refuses and leaves the buffer as it was.
pub fn write_record(r: Record, out: &mut [u8]) -> Result<usize, Refusal>
    ensures { record { answer = answer_of result; buffer = out.new } ≡ write_record (record_of r) out.old }
{
    record_test::test_record(r)?;
    let mut scratch = [0u8; 1];
    if out.len() < record_print::put_record(&mut scratch, 0, r) {
        return Err(Refusal { no: 15, line: 0 });
    }
    Ok(record_print::put_record(out, 0, r))
}
