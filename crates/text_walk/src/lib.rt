// The walk through a line as far as its fields, for any kind of text: its LF, its word, and the tests before its fields.
#![tactic(auto)]

ghost use Rattle.std.specs.Prelude.{◌≡◌, take, position};
ghost use Rattle.text_grammar.specs.Words.{same};
ghost use Rattle.text_line.specs.Held.{text_of};
ghost use Rattle.text_grammar.specs.Steps.{line_at};
ghost use Rattle.text_walk.specs.Walk.{walk_bytes, WalkOk, WalkedOk};

use model::Refusal;
use text_grammar::WORDS;
use text_line::Spelling;

// The tests before the fields of a line, by word: place, count, and whether the net above has a pin.
#[derive(Clone, Copy)]
pub struct Tests {
    pub placed: [bool; WORDS],
    pub room: [bool; WORDS],
    pub pinned: [bool; WORDS],
}

// A line as far as its word: the number of its word and how many bytes that has.
#[derive(Clone, Copy)]
pub struct Walked {
    pub word: usize,
    pub size: usize,
}

// The number of the first of the first `count` spellings that s is.
fn find_word(s: &[u8], spellings: [Spelling; WORDS], count: usize) -> Option<usize>
    ensures { result ≡ position (λ p. same (text_of p) s.now) (take count spellings) }
{
    spellings
        .iter()
        .take(count)
        .position(|p| text_line::spells(p.bytes, p.size, s))
}

// A line with these bytes: its word, and the tests before the fields.
fn walk_bytes(
    bytes: &[u8],
    spellings: [Spelling; WORDS],
    count: usize,
    tests: Tests,
    line: usize,
) -> Result<Walked, Refusal>
    ensures { WalkOk line bytes.now (walk_bytes spellings count tests bytes.now) result }
{
    let size = text_line::bytes_before(bytes, b',');
    let Some(word) = find_word(&bytes[..size], spellings, count) else {
        return Err(Refusal { no: 2, line });
    };
    let no = text_grammar::entry_fault(tests.placed[word], tests.room[word], tests.pinned[word]);
    if no != 0 {
        return Err(Refusal { no, line });
    }
    Ok(Walked { word, size })
}

// The line from a to `end`, where its LF stands, by the first `count` words of a kind of text: missing LF 2, word 2, the fault of its word.
pub fn next_word(
    text: &[u8],
    a: usize,
    end: usize,
    spellings: [Spelling; WORDS],
    count: usize,
    tests: Tests,
    line: usize,
) -> Result<Walked, Refusal>
    ensures { WalkedOk spellings count tests line (line_at text.now a end) result }
{
    if text.len() <= end {
        return Err(Refusal { no: 2, line });
    }
    walk_bytes(&text[a.min(end)..end], spellings, count, tests, line)
}
