// Reading a chip from its text.
#![tactic(auto)]

ghost use Rattle.std.specs.Prelude.{◌≡◌, ◌≤◌, ◌<◌, length, drop};
ghost use Rattle.model.specs.Limits.{most_bytes};
ghost use Rattle.model.specs.Held.{held_chip};
ghost use Rattle.text_grammar.specs.Reading.{step_line, part_read};
ghost use Rattle.text_grammar.specs.Steps.{ending, Entered, ReadAs, line_at};
ghost use Rattle.text_grammar.specs.Line.{fields};
ghost use Rattle.model.specs.Step.{on_next};
ghost use Rattle.chip_text.specs.Words.{form, chip_words};
ghost use Rattle.chip_text.specs.Kind.{add_fix, add, chip_kind, Part, start};
ghost use Rattle.chip_text.specs.Text.{read_chip};
ghost use Rattle.chip_read.specs.State.{Sound, part_of, chip_values, with_chip, TakenOk, ReadOk};
ghost use Rattle.chip_read.specs.Answer.{meant_chip, chip_answer};

use chip_text::{ChipWord, Counts};
use model::{Chip, Die, Fix, Mac, Net, Pin, Refusal, TEXT_MOST};

// What has been read: the word of the last line, the chip so far, and the number of its pins.
#[derive(Clone, Copy)]
pub(crate) struct State {
    pub last: Option<ChipWord>,
    pub pins: usize,
    pub chip: Chip,
}

// A chip that holds nothing.
fn blank_chip() -> Chip
    ensures { result ≡ held_chip start.chip }
{
    Chip {
        die: Die { w: 0, h: 0 },
        k: 0,
        fixes: [Fix {
            x: 0,
            y: 0,
            w: 0,
            h: 0,
        }; Fix::COUNT],
        n: 0,
        macs: [Mac { w: 0, h: 0 }; Mac::COUNT],
        t: 0,
        nets: [Net { weight: 0, pins: 0 }; Net::COUNT],
        pins: [Pin {
            m: 0,
            xup: 0,
            yup: 0,
        }; Pin::COUNT],
    }
}

// What has been read after a line with the word w, which made the chip this one.
fn with_chip(s: State, w: ChipWord, chip: Chip) -> State
    ensures { result ≡ with_chip s w chip }
{
    State {
        last: Some(w),
        pins: s.pins,
        chip,
    }
}

// What a line adds is made by the constructors. The values that were read are in their ranges, so none refuses them.

// What a `die` line adds: the die.
fn add_die(s: State, v: [u64; 4], line: usize) -> Result<State, Refusal>
    requires sound { Sound s }
    requires read_as { ReadAs chip_words ChipWord.Die (chip_values ChipWord.Die v) }
    ensures { TakenOk result line (add (part_of s) ChipWord.Die (chip_values ChipWord.Die v)) }
{
    let Some(die) = Die::new(v[0], v[1]) else {
        return Err(Refusal { no: 4, line });
    };
    let mut chip = s.chip;
    chip.die = die;
    Ok(with_chip(s, ChipWord::Die, chip))
}

// What a fix adds: a last fix. Fix leaves the die 9; fix overlaps an earlier fix 10.
fn put_fix(s: State, f: Fix, line: usize) -> Result<State, Refusal>
    requires sound { Sound s }
    requires entered { Entered chip_kind (part_of s) ChipWord.Fix }
    ensures { TakenOk result line (add_fix (part_of s) f) }
{
    let mut chip = s.chip;
    let k = chip.k;
    let fixes = chip.fixes;
    let no = chip_text::placed_fault(chip.die, f, fixes, k);
    if no != 0 {
        return Err(Refusal { no, line });
    }
    chip.fixes[k] = f;
    chip.k = k + 1;
    Ok(with_chip(s, ChipWord::Fix, chip))
}

// What a `fix` line adds.
fn add_fix(s: State, v: [u64; 4], line: usize) -> Result<State, Refusal>
    requires sound { Sound s }
    requires read_as { ReadAs chip_words ChipWord.Fix (chip_values ChipWord.Fix v) }
    requires entered { Entered chip_kind (part_of s) ChipWord.Fix }
    ensures { TakenOk result line (add (part_of s) ChipWord.Fix (chip_values ChipWord.Fix v)) }
{
    let Some(f) = Fix::new(v[0], v[1], v[2], v[3]) else {
        return Err(Refusal { no: 4, line });
    };
    put_fix(s, f, line)
}

// What a `mac` line adds: a last macro.
fn add_mac(s: State, v: [u64; 4], line: usize) -> Result<State, Refusal>
    requires sound { Sound s }
    requires read_as { ReadAs chip_words ChipWord.Mac (chip_values ChipWord.Mac v) }
    requires entered { Entered chip_kind (part_of s) ChipWord.Mac }
    ensures { TakenOk result line (add (part_of s) ChipWord.Mac (chip_values ChipWord.Mac v)) }
{
    let Some(mac) = Mac::new(v[0], v[1]) else {
        return Err(Refusal { no: 4, line });
    };
    let mut chip = s.chip;
    let n = chip.n;
    chip.macs[n] = mac;
    chip.n = n + 1;
    Ok(with_chip(s, ChipWord::Mac, chip))
}

// What a `net` line adds: a last net, without pins.
fn add_net(s: State, v: [u64; 4], line: usize) -> Result<State, Refusal>
    requires sound { Sound s }
    requires read_as { ReadAs chip_words ChipWord.Net (chip_values ChipWord.Net v) }
    requires entered { Entered chip_kind (part_of s) ChipWord.Net }
    ensures { TakenOk result line (add (part_of s) ChipWord.Net (chip_values ChipWord.Net v)) }
{
    let Some(net) = Net::new(v[0], 0) else {
        return Err(Refusal { no: 4, line });
    };
    let mut chip = s.chip;
    let t = chip.t;
    chip.nets[t] = net;
    chip.t = t + 1;
    Ok(with_chip(s, ChipWord::Net, chip))
}

// What a `pin` line adds: a last pin of the last net. No such macro 8.
fn add_pin(s: State, v: [u64; 4], line: usize) -> Result<State, Refusal>
    requires sound { Sound s }
    requires read_as { ReadAs chip_words ChipWord.Pin (chip_values ChipWord.Pin v) }
    requires entered { Entered chip_kind (part_of s) ChipWord.Pin }
    ensures { TakenOk result line (add (part_of s) ChipWord.Pin (chip_values ChipWord.Pin v)) }
{
    let m = v[0] as usize;
    let Some(pin) = Pin::held(m, v[1], v[2]) else {
        return Err(Refusal { no: 4, line });
    };
    let mut chip = s.chip;
    let no = chip_text::macro_fault(chip.n, m);
    if no != 0 {
        return Err(Refusal { no, line });
    }
    let last = chip.t - 1;
    let q = s.pins;
    let net = chip.nets[last];
    chip.nets[last] = Net {
        weight: net.weight,
        pins: net.pins + 1,
    };
    chip.pins[q] = pin;
    Ok(State {
        last: Some(ChipWord::Pin),
        pins: q + 1,
        chip,
    })
}

// What a line with the word w and the values v adds, or its fault.
fn add_item(s: State, w: ChipWord, v: [u64; 4], line: usize) -> Result<State, Refusal>
    requires sound { Sound s }
    requires read_as { ReadAs chip_words w (chip_values w v) }
    requires entered { Entered chip_kind (part_of s) w }
    ensures { TakenOk result line (add (part_of s) w (chip_values w v)) }
{
    match w {
        ChipWord::Die => add_die(s, v, line),
        ChipWord::Fix => add_fix(s, v, line),
        ChipWord::Mac => add_mac(s, v, line),
        ChipWord::Net => add_net(s, v, line),
        ChipWord::Pin => add_pin(s, v, line),
        ChipWord::End => Ok(with_chip(s, ChipWord::End, s.chip)),
    }
}

// What a line with the word w adds, by its bytes, of which the word has the first `size`; or its fault.
fn add_line(bytes: &[u8], size: usize, s: State, w: ChipWord, line: usize) -> Result<State, Refusal>
    requires sound { Sound s }
    requires entered { Entered chip_kind (part_of s) w }
    requires size_in_bounds { size ≤ length bytes.now }
    ensures { TakenOk result line (on_next (fields (form w) (drop size bytes.now)) (add (part_of s) w)) }
{
    let layout = chip_words::layout_of(w);
    let values = text_line::read_fields(&bytes[size..], layout, line)?;
    add_item(s, w, values, line)
}

// What the line from a to e, where its LF stands, leads to.
fn next_line(text: &[u8], a: usize, e: usize, s: State, line: usize) -> Result<State, Refusal>
    requires sound { Sound s }
    requires a_le_e { a ≤ e }
    ensures { TakenOk result line (step_line chip_kind (part_of s) (line_at text.now a e)) }
{
    let held = Counts {
        fixes: s.chip.k,
        macs: s.chip.n,
        nets: s.chip.t,
        pins: s.pins,
    };
    let tests = chip_words::entry_tests(s.last, held);
    let spellings = chip_words::spellings();
    let walked = text_walk::next_word(text, a, e, spellings, chip_words::COUNT, tests, line)?;
    let w = chip_words::word_at(walked.word);
    add_line(&text[a..e], walked.size, s, w, line)
}

// The end of the text, where line `line` would begin: `end` must stand before it.
fn finish(s: State, line: usize) -> Result<Chip, Refusal>
    requires { Sound s }
    ensures { ReadOk (part_read (λ (s : Part). s.chip) (ending chip_kind (part_of s) line)) result }
{
    if !chip_text::following(s.last).over {
        return Err(Refusal { no: 5, line });
    }
    Ok(s.chip)
}

// The lines of a text that is not too long.
fn read_lines(text: &[u8]) -> Result<Chip, Refusal>
    requires { length text.now ≤ most_bytes }
    ensures { ReadOk (read_chip text.now) result }
{
    let mut s = State {
        last: None,
        pins: 0,
        chip: blank_chip(),
    };
    let mut a: usize = 0;
    let mut line = text_grammar::first_line();
    while a < text.len() {
        let e = text_line::line_end(text, a);
        s = next_line(text, a, e, s, line)?;
        a = e + 1;
        line += 1;
    }
    finish(s, line)
}

// The chip that a text means, its entries past the counts blank, or number and line of its refusal: what the answer means, and the whole answer.
pub fn read_chip(text: &[u8]) -> Result<Chip, Refusal>
    ensures result_value { meant_chip result ≡ read_chip text.now }
    ensures value { result ≡ chip_answer (read_chip text.now) }
{
    let no = text_grammar::length_fault(text.len(), TEXT_MOST);
    if no != 0 {
        return Err(Refusal { no, line: 0 });
    }
    read_lines(text)
}
