// From chip text to the record's text with the box of each net, and what the program `boxes` prints for a text (document 02, Card 2).
#![tactic(auto)]

ghost use Rattle.std.specs.Prelude.{◌≡◌};
ghost use Rattle.text_grammar.specs.Writing.{answer_of};
ghost use Rattle.place_boxes.specs.Boxes.{boxes_text, print_boxes};

use model::Refusal;

// From chip text to the record's text and, after it, the line of each net's box at the record's placement.
pub fn boxes_text(text: &[u8], out: &mut [u8]) -> Result<usize, Refusal>
    ensures { record { answer = answer_of result; buffer = out.new } ≡ boxes_text text.now out.old }
{
    let found = search::service::placed(text)?;
    box_write::write_boxed(found.chip, found.best, out)
}

// The bytes to print for a text, into the lent buffer. No text is refused by 15, so 15 is that of the buffer.
pub fn print_boxes(text: &[u8], out: &mut [u8]) -> Result<usize, Refusal>
    ensures { record { answer = answer_of result; buffer = out.new } ≡ print_boxes text.now out.old }
{
    let answer = boxes_text(text, out);
    text_refusal::show_answer(answer, out)
}
