// The words of chip files in code: how each is spelled and its line laid out, and the tables of the walk.
#![tactic(auto)]

ghost use Rattle.std.specs.Prelude.{◌≡◌, [], ◌∷◌, get_or};
ghost use Rattle.text_line.specs.Held.{spelled};
ghost use Rattle.text_line.specs.Layout.{short_rule, laid_out, layout_for};
ghost use Rattle.chip_text.specs.Words.{spell, form, chip_words};
ghost use Rattle.chip_text.specs.Tests.{last_of, counts_in};
ghost use Rattle.chip_words.specs.Meant.{chip_spellings, chip_tests};

use chip_text::{ChipWord, Counts};
use model::{Die, Fix, Mac, Net, Pin};
use text_grammar::WORDS;
use text_line::{Layout, Spelling};
use text_walk::Tests;

// How many words chip files have.
pub const COUNT: usize = 6;

// The spelling of a word.
pub fn spelling_of(w: ChipWord) -> Spelling
    ensures { result ≡ spelled (spell w) }
{
    match w {
        ChipWord::Die => Spelling {
            bytes: [b'd', b'i', b'e', 0, 0],
            size: 3,
        },
        ChipWord::Fix => Spelling {
            bytes: [b'f', b'i', b'x', 0, 0],
            size: 3,
        },
        ChipWord::Mac => Spelling {
            bytes: [b'm', b'a', b'c', 0, 0],
            size: 3,
        },
        ChipWord::Net => Spelling {
            bytes: [b'n', b'e', b't', 0, 0],
            size: 3,
        },
        ChipWord::Pin => Spelling {
            bytes: [b'p', b'i', b'n', 0, 0],
            size: 3,
        },
        ChipWord::End => Spelling {
            bytes: [b'e', b'n', b'd', 0, 0],
            size: 3,
        },
    }
}

// The spellings of all words in their order; blank past the last.
pub fn spellings() -> [Spelling; WORDS]
    ensures { result ≡ chip_spellings }
{
    let blank = Spelling {
        bytes: [0; 5],
        size: 0,
    };
    let die = spelling_of(ChipWord::Die);
    let fix = spelling_of(ChipWord::Fix);
    let mac = spelling_of(ChipWord::Mac);
    let net = spelling_of(ChipWord::Net);
    let pin = spelling_of(ChipWord::Pin);
    let end = spelling_of(ChipWord::End);
    [die, fix, mac, net, pin, end, blank, blank]
}

// The word with number i; the first past the last.
pub fn word_at(i: usize) -> ChipWord
    ensures { result ≡ get_or chip_words.all i ChipWord.Die }
{
    let all = [
        ChipWord::Die,
        ChipWord::Fix,
        ChipWord::Mac,
        ChipWord::Net,
        ChipWord::Pin,
        ChipWord::End,
    ];
    all.get(i).copied().unwrap_or(ChipWord::Die)
}

// The fields of a line of two sides.
fn sides(least: u64, most: u64) -> Layout
    ensures { result ≡ laid_out (short_rule 119 0 least most ∷ short_rule 104 0 least most ∷ []) }
{
    let w = text_line::short_rule(b'w', 0, least, most);
    let h = text_line::short_rule(b'h', 0, least, most);
    let none = text_line::no_rule();
    Layout {
        rules: [w, h, none, none],
    }
}

// The fields of a fix.
fn fix_fields() -> Layout
    ensures { result ≡ layout_for (form ChipWord.Fix) }
{
    let x = text_line::short_rule(b'x', 0, 0, Fix::CORNER_MOST);
    let y = text_line::short_rule(b'y', 0, 0, Fix::CORNER_MOST);
    let w = text_line::short_rule(b'w', 0, Fix::SIDE_LEAST, Fix::SIDE_MOST);
    let h = text_line::short_rule(b'h', 0, Fix::SIDE_LEAST, Fix::SIDE_MOST);
    Layout {
        rules: [x, y, w, h],
    }
}

// The fields of a pin; its place is held higher.
fn pin_fields() -> Layout
    ensures { result ≡ layout_for (form ChipWord.Pin) }
{
    let m = text_line::short_rule(b'm', 0, 0, Mac::COUNT as u64);
    let x = text_line::short_rule(b'x', Pin::UP, Pin::LEAST_UP, Pin::MOST_UP);
    let y = text_line::short_rule(b'y', Pin::UP, Pin::LEAST_UP, Pin::MOST_UP);
    let none = text_line::no_rule();
    Layout {
        rules: [m, x, y, none],
    }
}

// The fields of a line with that word.
pub fn layout_of(w: ChipWord) -> Layout
    ensures { result ≡ layout_for (form w) }
{
    match w {
        ChipWord::Die => sides(Die::SIDE_LEAST, Die::SIDE_MOST),
        ChipWord::Fix => fix_fields(),
        ChipWord::Mac => sides(Mac::SIDE_LEAST, Mac::SIDE_MOST),
        ChipWord::Net => text_line::one_field(text_line::short_rule(
            b'w',
            0,
            Net::WEIGHT_LEAST,
            Net::WEIGHT_MOST,
        )),
        ChipWord::Pin => pin_fields(),
        ChipWord::End => text_line::no_fields(),
    }
}

// The tests before the fields of a line, by word.
pub fn entry_tests(last: Option<ChipWord>, held: Counts) -> Tests
    ensures { result ≡ chip_tests (last_of last) (counts_in held) }
{
    let after = chip_text::following(last);
    let placed = after.placed;
    let pinned = after.pinned;
    Tests {
        placed,
        room: chip_text::rooms(held),
        pinned,
    }
}
