// What the program `beside` prints for a chip and a record: `passed`, or the line of the refusal.
#![tactic(auto)]

ghost use Rattle.std.specs.Prelude.{◌≡◌, leb, length};
ghost use Rattle.text_grammar.specs.Writing.{answer_of, if_room};
ghost use Rattle.beside_print.specs.Printed.{passed_line, print_beside};

use model::Refusal;

// The line of a record that passes: 15 where the buffer is shorter.
fn write_passed(out: &mut [u8]) -> Result<usize, Refusal>
    ensures { record { answer = answer_of result; buffer = out.new } ≡ if_room (leb (length passed_line) (length out.old)) passed_line out.old }
{
    if out.len() < 7 {
        return Err(Refusal { no: 15, line: 0 });
    }
    Ok(num_text::put_bytes(out, 0, b"passed\n"))
}

// The bytes to print for a chip and a record, into the lent buffer. No record is refused by 15, so 15 is that of the buffer.
pub fn print_beside(chip: &[u8], beside: &[u8], out: &mut [u8]) -> Result<usize, Refusal>
    ensures { record { answer = answer_of result; buffer = out.new } ≡ print_beside chip.now beside.now out.old }
{
    match beside_check::check_beside(chip, beside) {
        Ok(()) => write_passed(out),
        Err(f) => text_refusal::write_refusal(f.refusal, out),
    }
}
