// What the program prints for a text: the record, or the line of the refusal.
#![tactic(auto)]

ghost use Rattle.std.specs.Prelude.{◌≡◌};
ghost use Rattle.text_grammar.specs.Writing.{answer_of};
ghost use Rattle.place_print.specs.Printed.{print_text};

use model::Refusal;

// The bytes to print for a text, into the lent buffer. No text is refused by 15, so 15 is that of the buffer.
pub fn print_text(text: &[u8], out: &mut [u8]) -> Result<usize, Refusal>
    ensures { record { answer = answer_of result; buffer = out.new } ≡ print_text text.now out.old }
{
    let answer = search::service::place_text(text, out);
    text_refusal::show_answer(answer, out)
}
