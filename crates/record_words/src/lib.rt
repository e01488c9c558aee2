// The words of records in code: how each is spelled and its line laid out, and the tables of the walk.
#![tactic(auto)]

ghost use Rattle.std.specs.Prelude.{◌≡◌, get_or};
ghost use Rattle.text_line.specs.Held.{spelled};
ghost use Rattle.text_line.specs.Layout.{layout_for};
ghost use Rattle.record_text.specs.Words.{spell, form, record_words};
ghost use Rattle.record_text.specs.Tests.{last_of};
ghost use Rattle.record_words.specs.Meant.{record_spellings, record_tests};

use model::{Mac, Record, Spot};
use record_text::RecordWord;
use text_grammar::WORDS;
use text_line::{Layout, Rule, Spelling};
use text_walk::Tests;

// How many words records have.
pub const COUNT: usize = 4;

// The spelling of a word.
pub fn spelling_of(w: RecordWord) -> Spelling
    ensures { result ≡ spelled (spell w) }
{
    match w {
        RecordWord::Least => Spelling {
            bytes: [b'l', b'e', b'a', b's', b't'],
            size: 5,
        },
        RecordWord::None => Spelling {
            bytes: [b'n', b'o', b'n', b'e', 0],
            size: 4,
        },
        RecordWord::At => Spelling {
            bytes: [b'a', b't', 0, 0, 0],
            size: 2,
        },
        RecordWord::Done => Spelling {
            bytes: [b'd', b'o', b'n', b'e', 0],
            size: 4,
        },
    }
}

// The spellings of all words in their order; blank past the last.
pub fn spellings() -> [Spelling; WORDS]
    ensures { result ≡ record_spellings }
{
    let blank = Spelling {
        bytes: [0; 5],
        size: 0,
    };
    let least = spelling_of(RecordWord::Least);
    let none_word = spelling_of(RecordWord::None);
    let at = spelling_of(RecordWord::At);
    let done = spelling_of(RecordWord::Done);
    [least, none_word, at, done, blank, blank, blank, blank]
}

// The word with number i; the first past the last.
pub fn word_at(i: usize) -> RecordWord
    ensures { result ≡ get_or record_words.all i RecordWord.Least }
{
    let all = [
        RecordWord::Least,
        RecordWord::None,
        RecordWord::At,
        RecordWord::Done,
    ];
    all.get(i).copied().unwrap_or(RecordWord::Least)
}

// The fields of a macro's corner.
fn at_fields() -> Layout
    ensures { result ≡ layout_for (form RecordWord.At) }
{
    let m = text_line::short_rule(b'm', 0, 1, Mac::COUNT as u64);
    let x = text_line::short_rule(b'x', 0, 0, Spot::MOST);
    let y = text_line::short_rule(b'y', 0, 0, Spot::MOST);
    let none = text_line::no_rule();
    Layout {
        rules: [m, x, y, none],
    }
}

// The fields of a line with that word.
pub fn layout_of(w: RecordWord) -> Layout
    ensures { result ≡ layout_for (form w) }
{
    match w {
        RecordWord::Least => text_line::one_field(Rule {
            mark: [44, b'w', b'l', 44],
            size: 4,
            other: 0,
            up: 0,
            least: 0,
            most: Record::LENGTH_MOST,
            set: [0; 4],
            letters: 0,
        }),
        RecordWord::None => text_line::no_fields(),
        RecordWord::At => at_fields(),
        RecordWord::Done => text_line::no_fields(),
    }
}

// The tests before the fields of a line, by word.
pub fn entry_tests(last: Option<RecordWord>, count: usize) -> Tests
    ensures { result ≡ record_tests (last_of last) count }
{
    let after = record_text::following(last);
    let placed = after.placed;
    let pinned = after.pinned;
    Tests {
        placed,
        room: record_text::rooms(count),
        pinned,
    }
}
