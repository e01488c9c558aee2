// Writing the text of a record into a lent buffer.
#![tactic(auto)]

ghost use Rattle.std.specs.Prelude.{[], ◌≡◌, get_or};
ghost use Rattle.num_text.specs.Held.{Wrote};
ghost use Rattle.model.specs.Meaning.{first_of, blank_spot, record_of};
ghost use Rattle.text_grammar.specs.Words.{item_text, items_text};
ghost use Rattle.text_line.specs.Layout.{values_in};
ghost use Rattle.record_text.specs.Words.{form, record_words};
ghost use Rattle.record_text.specs.Text.{at_items, body, record_text};

use model::{Mac, Outcome, Record, Spot};
use record_text::RecordWord;

// Writes the line with that word and the values v, as held, from `at` on, as far as the buffer goes, and answers the place after it.
fn put_item(out: &mut [u8], at: usize, w: RecordWord, v: [u64; 4]) -> usize
    ensures { Wrote out.old out.new (item_text record_words (record { word = w; values = values_in (form w) [] v })) at result }
{
    let word = record_words::spelling_of(w);
    let layout = record_words::layout_of(w);
    text_put::put_line(out, at, word, layout, &[], v)
}

// Spot i of the array, or a blank one past its end.
fn spot_at(spots: [Spot; Mac::COUNT], i: usize) -> Spot
    ensures { result ≡ get_or spots i blank_spot }
{
    spots.get(i).copied().unwrap_or(Spot { x: 0, y: 0 })
}

// The same for the lines of the macros that the count n means.
fn put_spots(out: &mut [u8], at: usize, spots: [Spot; Mac::COUNT], n: usize) -> usize
    ensures { Wrote out.old out.new (items_text record_words (at_items 1 (first_of blank_spot n spots))) at result }
{
    let last = model::item_count(n, Mac::COUNT);
    let mut a = at;
    for i in 0..last {
        let p = spot_at(spots, i);
        let m = (i + 1) as u64;
        a = put_item(out, a, RecordWord::At, [m, p.x, p.y, 0]);
    }
    a
}

// The same for all lines before `done`.
fn put_body(out: &mut [u8], at: usize, r: Record) -> usize
    ensures { Wrote out.old out.new (items_text record_words (body (record_of r))) at result }
{
    let spots = r.spots;
    match r.outcome {
        Outcome::None => put_item(out, at, RecordWord::None, [0, 0, 0, 0]),
        Outcome::Least(wl, n) => {
            let a = put_item(out, at, RecordWord::Least, [wl, 0, 0, 0]);
            put_spots(out, a, spots, n)
        }
    }
}

// Writes the text of the record from `at` on, as far as the buffer goes, and answers the place after it.
pub fn put_record(out: &mut [u8], at: usize, r: Record) -> usize
    ensures { Wrote out.old out.new (record_text (record_of r)) at result }
{
    let a = put_body(out, at, r);
    put_item(out, a, RecordWord::Done, [0, 0, 0, 0])
}
