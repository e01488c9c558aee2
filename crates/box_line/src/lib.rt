// Writing the line of a net's box into a lent buffer (document 02, Card 2).
#![tactic(auto)]

ghost use Rattle.std.specs.Prelude.{◌++◌};
ghost use Rattle.std.proofs.Math.IntN.{sub_ℕ};
ghost use Rattle.num_text.specs.Number.{number_text};
ghost use Rattle.num_text.specs.Held.{Wrote};
ghost use Rattle.model.specs.Meaning.{pin_up};
ghost use Rattle.text_grammar.specs.Words.{item_text};
ghost use Rattle.measure_nets.specs.Box.{box_of};
ghost use Rattle.box_text.specs.Words.{box_words};
ghost use Rattle.box_text.specs.Text.{box_item};
ghost use Rattle.box_line.specs.Line.{box_net, box_across};

use measure_nets::NetBox;
use model::Pin;

// Writes the mark of a field and an end of a box, as held, from `at` on, as far as the buffer goes, and answers the place after them.
fn put_end(out: &mut [u8], at: usize, mark: &[u8], v: u64) -> usize
    ensures { Wrote out.old out.new (mark.now ++ number_text (sub_ℕ v pin_up)) at result }
{
    let a = num_text::put_bytes(out, at, mark);
    num_text::put_number(out, a, v, Pin::UP)
}

// The same for the first fields of the line of net n: its word and its number.
fn put_net(out: &mut [u8], at: usize, n: u64) -> usize
    ensures { Wrote out.old out.new (box_net n) at result }
{
    let a = num_text::put_bytes(out, at, b"box,n,");
    num_text::put_natural(out, a, n)
}

// The same for these and the ends in x of its box.
fn put_across(out: &mut [u8], at: usize, n: u64, b: NetBox) -> usize
    ensures { Wrote out.old out.new (box_across n b) at result }
{
    let net = put_net(out, at, n);
    let left = put_end(out, net, b",l,", b.left);
    put_end(out, left, b",r,", b.right)
}

// Writes the line of net n with the box b from `at` on, as far as the buffer goes, and answers the place after it.
pub fn put_box(out: &mut [u8], at: usize, n: u64, b: NetBox) -> usize
    ensures { Wrote out.old out.new (item_text box_words (box_item n (box_of b))) at result }
{
    let right = put_across(out, at, n, b);
    let bottom = put_end(out, right, b",b,", b.bottom);
    let top = put_end(out, bottom, b",t,", b.top);
    num_text::put_bytes(out, top, b"\n")
}
