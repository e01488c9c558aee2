// What the text of a chip means, and that a chip has one text; and the tests of a line before its fields and after them.
#![tactic(auto)]

ghost use Rattle.std.specs.Prelude.{◌≡◌, map, take};
ghost use Rattle.geometry.specs.Box.{box_of, clear_of};
ghost use Rattle.chip_text.specs.Tests.{last_of, counts_in, chip_following, chip_rooms};
ghost use Rattle.chip_text.specs.Faults.{placed_fault, macro_fault};

use model::{Die, Fix, Mac, Net, Pin};
use text_grammar::{Following, WORDS};

// The words of chip files.
#[derive(Clone, Copy)]
pub enum ChipWord {
    Die,
    Fix,
    Mac,
    Net,
    Pin,
    End,
}

// How many fixes, macros, nets and pins have been read.
#[derive(Clone, Copy)]
pub struct Counts {
    pub fixes: usize,
    pub macs: usize,
    pub nets: usize,
    pub pins: usize,
}

// The tests before the fields of a line are tables with an entry for each word: die, fix, mac, net, pin, end, and two more.

const YES: bool = true;

const NO: bool = false;

// What the word of the last line, or that there was none yet, says of the next line: which words may stand after it, that after a net only a pin may, and whether
// it is `end`.
#[tactic(auto, unfolding(crate::specs::Tests::chip_following, text_grammar::specs::Words::is_in, text_grammar::specs::Words::same))]
pub fn following(last: Option<ChipWord>) -> Following
    ensures { result ≡ chip_following (last_of last) }
{
    match last {
        None => text_grammar::followed_by([YES, NO, NO, NO, NO, NO, NO, NO]),
        Some(ChipWord::Die | ChipWord::Fix) => {
            text_grammar::followed_by([NO, YES, YES, YES, NO, YES, NO, NO])
        }
        Some(ChipWord::Mac) => text_grammar::followed_by([NO, NO, YES, YES, NO, YES, NO, NO]),
        Some(ChipWord::Net) => Following {
            placed: [NO, NO, NO, YES, YES, YES, NO, NO],
            pinned: [NO, NO, NO, NO, YES, NO, YES, YES],
            over: false,
        },
        Some(ChipWord::Pin) => text_grammar::followed_by([NO, NO, NO, YES, YES, YES, NO, NO]),
        Some(ChipWord::End) => text_grammar::followed_by_none(),
    }
}

// Count: the words that there is room for one more of.
#[tactic(auto, unfolding(crate::specs::Tests::chip_rooms))]
pub fn rooms(held: Counts) -> [bool; WORDS]
    ensures { result ≡ chip_rooms (counts_in held) }
{
    let fix = held.fixes < Fix::COUNT;
    let mac = held.macs < Mac::COUNT;
    let net = held.nets < Net::COUNT;
    let pin = held.pins < Pin::COUNT;
    [true, fix, mac, net, pin, true, true, true]
}

// Whether a fix overlaps none of the first k fixes.
fn clear_of_fixes(f: Fix, fixes: [Fix; Fix::COUNT], k: usize) -> bool
    ensures { result ≡ clear_of 0 (box_of f) (map box_of (take k fixes)) }
{
    geometry::clear_of(geometry::box_of(f), geometry::boxes_of(fixes), k, 0)
}

// The fault of a fix beside the first k fixes, or 0: it leaves the die 9, overlaps one of them 10.
pub fn placed_fault(d: Die, f: Fix, fixes: [Fix; Fix::COUNT], k: usize) -> usize
    ensures { result ≡ placed_fault d f (take k fixes) }
{
    let inside = geometry::in_die(d, geometry::box_of(f));
    let clear = clear_of_fixes(f, fixes, k);
    if !inside {
        return 9;
    }
    if !clear {
        return 10;
    }
    0
}

// The fault of a pin of macro m in a chip with n macros, or 0: no such macro 8.
pub fn macro_fault(n: usize, m: usize) -> usize
    ensures { result ≡ macro_fault n m }
{
    if n < m {
        return 8;
    }
    0
}
