// The order of refusals of document 01 for any kind of text: what a text means, and the tests that every reader makes.
#![tactic(auto)]

ghost use Rattle.std.specs.Prelude.{◌≡◌, leb, take};
ghost use Rattle.num_text.specs.Number.{all_of};
ghost use Rattle.text_grammar.specs.Line.{is_of, is_string};
ghost use Rattle.text_grammar.specs.Steps.{need, entry_by};
ghost use Rattle.text_grammar.specs.Follow.{followed_by, followed_by_none};
ghost use Rattle.text_grammar.specs.Choice.{name_fault, is_absent, next_place};

// How many words a kind of text has at most.
pub const WORDS: usize = 8;

// How many rules a line's layout has room for.
pub const RULES: usize = 4;

// How a field that is not there is held: above every number that a field can hold.
pub const ABSENT: u64 = 18446744073709551615;

// What the word of the last line says of the next line, by word: the words that may stand there, those that may for the net above, which has a pin;
// and whether that line was the text's last.
#[derive(Clone, Copy)]
pub struct Following {
    pub placed: [bool; WORDS],
    pub pinned: [bool; WORDS],
    pub over: bool,
}

// After a line that is neither a net nor the last.
pub fn followed_by(placed: [bool; WORDS]) -> Following
    ensures { result ≡ followed_by placed }
{
    Following {
        placed,
        pinned: [true; WORDS],
        over: false,
    }
}

// After the last line of a text.
pub fn followed_by_none() -> Following
    ensures { result ≡ followed_by_none }
{
    Following {
        placed: [false; WORDS],
        pinned: [true; WORDS],
        over: true,
    }
}

// The number of a text's first line.
pub fn first_line() -> usize
    ensures { result ≡ 1 }
{
    1
}

// The fault of a text of n bytes, where at most `most` are allowed: 1, or 0.
pub fn length_fault(n: usize, most: usize) -> usize
    ensures { result ≡ need (leb n most) 1 0 }
{
    if most < n {
        return 1;
    }
    0
}

// The fault of a line of n bytes whose fields end at a: leftover bytes 2, or 0.
pub fn rest_fault(n: usize, a: usize) -> usize
    ensures { result ≡ need (leb n a) 2 0 }
{
    if a < n {
        return 2;
    }
    0
}

// The first fault of a line before its fields, by the tests of place, count and pins: 5, 6, 7; or 0.
#[tactic(auto, unfolding(crate::specs::Steps::entry_by))]
pub fn entry_fault(placed: bool, room: bool, pinned: bool) -> usize
    ensures { result ≡ entry_by placed room pinned }
{
    if !placed {
        return 5;
    }
    if !room {
        return 6;
    }
    if !pinned {
        return 7;
    }
    0
}

// The fault where the name of a field does not stand here: 2 where there is no other way to go on, or 0.
pub fn name_fault(other: usize) -> usize
    ensures { result ≡ name_fault other }
{
    if other != 0 {
        return 0;
    }
    2
}

// Whether the value v stands for a field that is not there; a field without another way is always there.
pub fn is_absent(other: usize, v: u64) -> bool
    ensures { result ≡ is_absent other v }
{
    other != 0 && v == ABSENT
}

// The place of the rule after that at j: the next, or `other` places further on where the field is absent; at most RULES, where there is none.
pub fn next_place(j: usize, other: usize, absent: bool) -> usize
    ensures { result ≡ next_place j other absent }
{
    let step = if absent { other } else { 1 };
    j.saturating_add(step).min(RULES)
}

// Whether b is one of the first `letters` bytes of a set.
#[tactic(auto, unfolding(crate::specs::Line::is_of))]
fn is_of(set: [u8; 4], letters: usize, b: u8) -> bool
    ensures { result ≡ is_of (take letters set) b }
{
    set.iter().take(letters).any(|a| b == *a)
}

// Whether s has only bytes of that set.
#[tactic(auto, unfolding(num_text::specs::Number::all_of))]
fn all_of(s: &[u8], set: [u8; 4], letters: usize) -> bool
    ensures { result ≡ all_of (is_of (take letters set)) s.now }
{
    s.iter().all(|b| is_of(set, letters, *b))
}

// Whether s has only bytes of that set, and a length from least to most.
pub fn is_string(s: &[u8], set: [u8; 4], letters: usize, least: u64, most: u64) -> bool
    ensures { result ≡ is_string (take letters set) least most s.now }
{
    all_of(s, set, letters) && model::within(s.len() as u64, least, most)
}
