// Reading a record from its text.
#![tactic(auto)]

ghost use Rattle.std.specs.Prelude.{◌≡◌, ◌≤◌, ◌<◌, length, drop, replicate};
ghost use Rattle.model.specs.Limits.{most_bytes, most_macs};
ghost use Rattle.model.specs.Meaning.{blank_spot};
ghost use Rattle.text_grammar.specs.Reading.{step_line, part_read};
ghost use Rattle.text_grammar.specs.Steps.{ending, Entered, ReadAs, line_at};
ghost use Rattle.text_grammar.specs.Line.{fields};
ghost use Rattle.model.specs.Step.{on_next};
ghost use Rattle.record_text.specs.Words.{form, record_words};
ghost use Rattle.record_text.specs.Kind.{add, record_kind, Part};
ghost use Rattle.record_text.specs.Text.{read_record};
ghost use Rattle.record_read.specs.State.{Sound, part_of, record_values, TakenOk, RecordIs, ReadOk};
ghost use Rattle.record_read.specs.Answer.{meant_record, record_answer};

use model::{Mac, Outcome, Record, Refusal, Spot, TEXT_MOST};
use record_text::RecordWord;

// What has been read: the word of the last line, the wirelength of a `least` line, and the spots so far with their count.
#[derive(Clone, Copy)]
pub(crate) struct State {
    pub last: Option<RecordWord>,
    pub wl: Option<u64>,
    pub count: usize,
    pub spots: [Spot; Mac::COUNT],
}

// Blank spots: 0,0 each.
fn blank_spots() -> [Spot; Mac::COUNT]
    ensures { result ≡ replicate most_macs blank_spot }
{
    [Spot { x: 0, y: 0 }; Mac::COUNT]
}

// What a `least` line adds: the wirelength, with no spot yet.
fn add_least(s: State, v: [u64; 4], line: usize) -> Result<State, Refusal>
    requires { Sound s }
    ensures { TakenOk result line (add (part_of s) RecordWord.Least (record_values RecordWord.Least v)) }
{
    let spots = blank_spots();
    Ok(State {
        last: Some(RecordWord::Least),
        wl: Some(v[0]),
        count: 0,
        spots,
    })
}

// What a `none` line adds: that there is no placement.
fn add_none(s: State, v: [u64; 4], line: usize) -> Result<State, Refusal>
    requires { Sound s }
    ensures { TakenOk result line (add (part_of s) RecordWord.None (record_values RecordWord.None v)) }
{
    let spots = blank_spots();
    Ok(State {
        last: Some(RecordWord::None),
        wl: None,
        count: 0,
        spots,
    })
}

// What an `at` line adds: the spot of macro m. m out of turn 8. The values that were read are in their ranges, so the constructor does not refuse them.
fn add_at(s: State, v: [u64; 4], line: usize) -> Result<State, Refusal>
    requires sound { Sound s }
    requires read_as { ReadAs record_words RecordWord.At (record_values RecordWord.At v) }
    requires entered { Entered record_kind (part_of s) RecordWord.At }
    ensures { TakenOk result line (add (part_of s) RecordWord.At (record_values RecordWord.At v)) }
{
    let m = v[0] as usize;
    let n = s.count;
    let no = record_text::turn_fault(n, m);
    if no != 0 {
        return Err(Refusal { no, line });
    }
    let Some(p) = Spot::new(v[1], v[2]) else {
        return Err(Refusal { no: 4, line });
    };
    let mut spots = s.spots;
    spots[n] = p;
    Ok(State {
        last: Some(RecordWord::At),
        wl: s.wl,
        count: n + 1,
        spots,
    })
}

// What the `done` line adds: nothing.
fn add_done(s: State, v: [u64; 4], line: usize) -> Result<State, Refusal>
    requires { Sound s }
    ensures { TakenOk result line (add (part_of s) RecordWord.Done (record_values RecordWord.Done v)) }
{
    let spots = s.spots;
    Ok(State {
        last: Some(RecordWord::Done),
        wl: s.wl,
        count: s.count,
        spots,
    })
}

// What a line with the word w and the values v adds, or its fault.
fn add_item(s: State, w: RecordWord, v: [u64; 4], line: usize) -> Result<State, Refusal>
    requires sound { Sound s }
    requires read_as { ReadAs record_words w (record_values w v) }
    requires entered { Entered record_kind (part_of s) w }
    ensures { TakenOk result line (add (part_of s) w (record_values w v)) }
{
    match w {
        RecordWord::Least => add_least(s, v, line),
        RecordWord::None => add_none(s, v, line),
        RecordWord::At => add_at(s, v, line),
        RecordWord::Done => add_done(s, v, line),
    }
}

// What a line with the word w adds, by its bytes, of which the word has the first `size`; or its fault.
fn add_line(
    bytes: &[u8],
    size: usize,
    s: State,
    w: RecordWord,
    line: usize,
) -> Result<State, Refusal>
    requires sound { Sound s }
    requires entered { Entered record_kind (part_of s) w }
    requires size_in_bounds { size ≤ length bytes.now }
    ensures { TakenOk result line (on_next (fields (form w) (drop size bytes.now)) (add (part_of s) w)) }
{
    let layout = record_words::layout_of(w);
    let values = text_line::read_fields(&bytes[size..], layout, line)?;
    add_item(s, w, values, line)
}

// What the line from a to e, where its LF stands, leads to.
fn next_line(text: &[u8], a: usize, e: usize, s: State, line: usize) -> Result<State, Refusal>
    requires sound { Sound s }
    requires a_le_e { a ≤ e }
    ensures { TakenOk result line (step_line record_kind (part_of s) (line_at text.now a e)) }
{
    let tests = record_words::entry_tests(s.last, s.count);
    let spellings = record_words::spellings();
    let walked = text_walk::next_word(text, a, e, spellings, record_words::COUNT, tests, line)?;
    let w = record_words::word_at(walked.word);
    add_line(&text[a..e], walked.size, s, w, line)
}

// The record that has been read.
fn record_of(s: State) -> Record
    requires { Sound s }
    ensures { RecordIs result (part_of s).result }
{
    let spots = s.spots;
    match s.wl {
        Some(wl) => Record {
            outcome: Outcome::Least(wl, s.count),
            spots,
        },
        None => Record {
            outcome: Outcome::None,
            spots,
        },
    }
}

// The end of the text, where line `line` would begin: `done` must stand before it.
fn finish(s: State, line: usize) -> Result<Record, Refusal>
    requires { Sound s }
    ensures { ReadOk (part_read (λ (s : Part). s.result) (ending record_kind (part_of s) line)) result }
{
    if !record_text::following(s.last).over {
        return Err(Refusal { no: 5, line });
    }
    Ok(record_of(s))
}

// The lines of a text that is not too long.
fn read_lines(text: &[u8]) -> Result<Record, Refusal>
    requires { length text.now ≤ most_bytes }
    ensures { ReadOk (read_record text.now) result }
{
    let spots = blank_spots();
    let mut s = State {
        last: None,
        wl: None,
        count: 0,
        spots,
    };
    let mut a: usize = 0;
    let mut line = text_grammar::first_line();
    while a < text.len() {
        let e = text_line::line_end(text, a);
        s = next_line(text, a, e, s, line)?;
        a = e + 1;
        line += 1;
    }
    finish(s, line)
}

// The record that a text means, its spots past the count blank, or number and line of its refusal: what the answer means, and the whole answer.
pub fn read_record(text: &[u8]) -> Result<Record, Refusal>
    ensures result_value { meant_record result ≡ read_record text.now }
    ensures value { result ≡ record_answer (read_record text.now) }
{
    let no = text_grammar::length_fault(text.len(), TEXT_MOST);
    if no != 0 {
        return Err(Refusal { no, line: 0 });
    }
    read_lines(text)
}
