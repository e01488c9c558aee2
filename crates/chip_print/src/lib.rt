// Writing the text of a chip into a lent buffer.
#![tactic(auto)]

ghost use Rattle.std.specs.Prelude.{[], ◌≡◌, ◌+◌, ◌≤◌, min, get_or};
ghost use Rattle.model.specs.Limits.{most_pins};
ghost use Rattle.num_text.specs.Held.{Wrote};
ghost use Rattle.model.specs.Meaning.{blank_fix, blank_mac, blank_net, blank_pin, chip_of};
ghost use Rattle.text_grammar.specs.Words.{item_text, items_text};
ghost use Rattle.text_line.specs.Layout.{values_in};
ghost use Rattle.text_put.specs.Run.{run};
ghost use Rattle.chip_text.specs.Words.{chip_words, form};
ghost use Rattle.chip_text.specs.Text.{net_items, chip_text};
ghost use Rattle.chip_text.proofs.Passing.{Whole};
ghost use Rattle.chip_print.specs.Items.{item_at, net_at, block_items};

use chip_text::ChipWord;
use model::{Chip, Fix, Mac, Net, Pin};

// Fix i of the array, or a blank one past its end.
fn fix_at(fixes: [Fix; Fix::COUNT], i: usize) -> Fix
    ensures { result ≡ get_or fixes i blank_fix }
{
    fixes.get(i).copied().unwrap_or(Fix {
        x: 0,
        y: 0,
        w: 0,
        h: 0,
    })
}

// Macro i of the array, or a blank one past its end.
fn mac_at(macs: [Mac; Mac::COUNT], i: usize) -> Mac
    ensures { result ≡ get_or macs i blank_mac }
{
    macs.get(i).copied().unwrap_or(Mac { w: 0, h: 0 })
}

// Net i of the array, or a blank one past its end.
fn net_at(nets: [Net; Net::COUNT], i: usize) -> Net
    ensures { result ≡ get_or nets i blank_net }
{
    nets.get(i).copied().unwrap_or(Net { weight: 0, pins: 0 })
}

// Pin i of the array, or a blank one past its end.
fn pin_at(pins: [Pin; Pin::COUNT], i: usize) -> Pin
    ensures { result ≡ get_or pins i blank_pin }
{
    pins.get(i).copied().unwrap_or(Pin {
        m: 0,
        xup: 0,
        yup: 0,
    })
}

// The values, as held, of item i of a kind.
fn values_at(c: Chip, w: ChipWord, i: usize) -> [u64; 4]
    ensures { record { word = w; values = values_in (form w) [] result } ≡ item_at c w i }
{
    match w {
        ChipWord::Die => [c.die.w, c.die.h, 0, 0],
        ChipWord::Fix => {
            let f = fix_at(c.fixes, i);
            [f.x, f.y, f.w, f.h]
        }
        ChipWord::Mac => {
            let m = mac_at(c.macs, i);
            [m.w, m.h, 0, 0]
        }
        ChipWord::Net => {
            let t = net_at(c.nets, i);
            [t.weight, 0, 0, 0]
        }
        ChipWord::Pin => {
            let p = pin_at(c.pins, i);
            [p.m as u64, p.xup, p.yup, 0]
        }
        ChipWord::End => [0, 0, 0, 0],
    }
}

// Writes the line of item i of a kind from `at` on, as far as the buffer goes, and answers the place after it.
fn put_item(out: &mut [u8], at: usize, c: Chip, w: ChipWord, i: usize) -> usize
    ensures { Wrote out.old out.new (item_text chip_words (item_at c w i)) at result }
{
    let v = values_at(c, w, i);
    let word = chip_words::spelling_of(w);
    let layout = chip_words::layout_of(w);
    text_put::put_line(out, at, word, layout, &[], v)
}

// The same for n items from item q on.
fn put_run(out: &mut [u8], at: usize, c: Chip, w: ChipWord, q: usize, n: usize) -> usize
    requires { q + n ≤ 300 }
    ensures { Wrote out.old out.new (items_text chip_words (run (item_at c w) q n)) at result }
{
    let mut a = at;
    for i in 0..n {
        a = put_item(out, a, c, w, q + i);
    }
    a
}

// The pin after `count` pins from pin q on, where the next net's pins begin; the array's end past it.
fn past(q: usize, count: usize) -> usize
    requires { q ≤ most_pins }
    ensures { result ≡ min (q + count) most_pins }
{
    q.saturating_add(count).min(Pin::COUNT)
}

// The same for net j with its pins from pin q on.
fn put_net(out: &mut [u8], at: usize, c: Chip, j: usize, q: usize) -> usize
    requires { q ≤ most_pins }
    ensures { Wrote out.old out.new (items_text chip_words (net_at c j q)) at result }
{
    let t = net_at(c.nets, j);
    let n = model::item_count(t.pins, Pin::COUNT - q);
    let a = put_item(out, at, c, ChipWord::Net, j);
    put_run(out, a, c, ChipWord::Pin, q, n)
}

// The same for the lines of the nets, each with its pins.
fn put_nets(out: &mut [u8], at: usize, c: Chip) -> usize
    requires { Whole c }
    ensures { Wrote out.old out.new (items_text chip_words (net_items (chip_of c).nets)) at result }
{
    let n = model::item_count(c.t, Net::COUNT);
    let mut a = at;
    let mut q: usize = 0;
    for j in 0..n {
        let t = net_at(c.nets, j);
        a = put_net(out, a, c, j, q);
        q = past(q, t.pins);
    }
    a
}

// The same for the lines before the nets: die, fixes, macros.
fn put_blocks(out: &mut [u8], at: usize, c: Chip) -> usize
    requires { Whole c }
    ensures { Wrote out.old out.new (items_text chip_words (block_items (chip_of c))) at result }
{
    let fixes = model::item_count(c.k, Fix::COUNT);
    let macs = model::item_count(c.n, Mac::COUNT);
    let a = put_item(out, at, c, ChipWord::Die, 0);
    let b = put_run(out, a, c, ChipWord::Fix, 0, fixes);
    put_run(out, b, c, ChipWord::Mac, 0, macs)
}

// Writes the text of the chip from `at` on, as far as the buffer goes, and answers the place after it.
pub fn put_chip(out: &mut [u8], at: usize, c: Chip) -> usize
    ensures { Wrote out.old out.new (chip_text (chip_of c)) at result }
{
    let a = put_blocks(out, at, c);
    let b = put_nets(out, a, c);
    put_item(out, b, c, ChipWord::End, 0)
}
