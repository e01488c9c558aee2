// The record of a placement: its words, what its text means, and that a record has one text; and the tests of a line before its fields and after them.
#![tactic(auto)]

ghost use Rattle.std.specs.Prelude.{◌≡◌};
ghost use Rattle.record_text.specs.Tests.{last_of, record_following, record_rooms, turn_fault};

use model::Mac;
use text_grammar::{Following, WORDS};

// The words of records.
#[derive(Clone, Copy)]
pub enum RecordWord {
    Least,
    None,
    At,
    Done,
}

// The tests before the fields of a line are tables with an entry for each word: least, none, at, done, and four more.

const YES: bool = true;

const NO: bool = false;

// What the word of the last line, or that there was none yet, says of the next line: which words may stand after it, and whether it is `done`; a record has no
// nets.
#[tactic(auto, unfolding(crate::specs::Tests::record_following, text_grammar::specs::Words::is_in, text_grammar::specs::Words::same))]
pub fn following(last: Option<RecordWord>) -> Following
    ensures { result ≡ record_following (last_of last) }
{
    match last {
        None => text_grammar::followed_by([YES, YES, NO, NO, NO, NO, NO, NO]),
        Some(RecordWord::Least) => text_grammar::followed_by([NO, NO, YES, YES, NO, NO, NO, NO]),
        Some(RecordWord::None) => text_grammar::followed_by([NO, NO, NO, YES, NO, NO, NO, NO]),
        Some(RecordWord::At) => text_grammar::followed_by([NO, NO, YES, YES, NO, NO, NO, NO]),
        Some(RecordWord::Done) => text_grammar::followed_by_none(),
    }
}

// Count: the words that there is room for one more of, beside so many macros.
#[tactic(auto, unfolding(crate::specs::Tests::record_rooms))]
pub fn rooms(count: usize) -> [bool; WORDS]
    ensures { result ≡ record_rooms count }
{
    let at = count < Mac::COUNT;
    [true, true, at, true, true, true, true, true]
}

// The fault of macro m after n others, or 0: out of turn 8.
#[tactic(auto, unfolding(crate::specs::Tests::turn_fault))]
pub fn turn_fault(n: usize, m: usize) -> usize
    ensures { result ≡ turn_fault n m }
{
    if m == 0 || m - 1 != n {
        return 8;
    }
    0
}
