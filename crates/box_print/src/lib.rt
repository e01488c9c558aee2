// Writing a record with the box of each net into a lent buffer (document 02, Card 2).
#![tactic(auto)]

ghost use Rattle.num_text.specs.Held.{Wrote};
ghost use Rattle.text_grammar.specs.Words.{item_text, items_text};
ghost use Rattle.measure_nets.specs.Box.{box_of};
ghost use Rattle.measure_nets.specs.Held.{net_box_held};
ghost use Rattle.box_text.specs.Words.{box_words};
ghost use Rattle.box_text.specs.Text.{box_item};
ghost use Rattle.box_print.specs.Held.{chip_boxes, held_text};

use model::{Chip, Mac, Net, Outcome, Pin, Record, Spot};

// Writes the line of net n, whose pins stand from `from` on, with the macros at those corners, from `at` on, as far as the buffer goes, and answers the place
// after it.
fn put_net_box(
    out: &mut [u8],
    at: usize,
    n: u64,
    spots: [Spot; Mac::COUNT],
    pins: [Pin; Pin::COUNT],
    net: Net,
    from: usize,
) -> usize
    ensures { Wrote out.old out.new (item_text box_words (box_item n (box_of (net_box_held spots pins net from)))) at result }
{
    let b = measure_nets::net_box(spots, pins, from, net.pins);
    box_line::put_box(out, at, n, b)
}

// The same for the lines of all nets of a chip.
fn put_boxes(out: &mut [u8], at: usize, c: Chip, spots: [Spot; Mac::COUNT]) -> usize
    ensures { Wrote out.old out.new (items_text box_words (chip_boxes c spots)) at result }
{
    let nets = c.nets;
    let pins = c.pins;
    let mut a = at;
    let mut from: usize = 0;
    for j in 0..Net::COUNT {
        if c.t <= j {
            return a;
        }
        let net = nets[j];
        a = put_net_box(out, a, (j + 1) as u64, spots, pins, net, from);
        from = measure_nets::end_of(from, net.pins);
    }
    a
}

// Writes the text of a record and, where it has a placement, the line of each net's box there, from `at` on, as far as the buffer goes, and answers the place
// after them.
pub fn put_boxed(out: &mut [u8], at: usize, c: Chip, r: Record) -> usize
    ensures { Wrote out.old out.new (held_text c r) at result }
{
    let outcome = r.outcome;
    let spots = r.spots;
    let a = record_print::put_record(out, at, r);
    match outcome {
        Outcome::None => a,
        Outcome::Least(_, _) => put_boxes(out, a, c, spots),
    }
}
