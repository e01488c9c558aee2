// One line of a text: where it ends, its word and its fields.
#![tactic(auto)]

ghost use Rattle.std.specs.Prelude.{◌≡◌, ◌==◌, [], ◌∷◌, ◌≤◌, leb, length, take, drop, position};
ghost use Rattle.text_grammar.specs.Line.{up_to};
ghost use Rattle.text_grammar.specs.Steps.{line_end, need};
ghost use Rattle.text_grammar.specs.Words.{same};
ghost use Rattle.text_line.specs.Layout.{short_rule, with_letters, with_other, no_rule, rule_at, laid_out, Sane, is_sane, is_layout, Laid, FieldsOk};
ghost use Rattle.text_line.specs.Steps.{Starts, if_in_range, within, FieldOk, end_answer};

use model::{Pin, Refusal};
use text_grammar::{ABSENT, RULES};

// The spelling of a word: five bytes, and how many of them are the word's; the others are 0.
#[derive(Clone, Copy)]
pub struct Spelling {
    pub bytes: [u8; 5],
    pub size: usize,
}

// A field: its name between two commas (the first `size` bytes of `mark`), where the line goes on if that does not stand here (`other` rules further on;
// 0: it must), how much higher its value is held, and its range, as held. Where `letters` is not 0, the field is a string of the first `letters` bytes of
// `set`, from `least` to `most` bytes long.
#[derive(Clone, Copy)]
pub struct Rule {
    pub mark: [u8; 4],
    pub size: usize,
    pub other: usize,
    pub up: u64,
    pub least: u64,
    pub most: u64,
    pub set: [u8; 4],
    pub letters: usize,
}

// The fields of a line, at most four: each way through its rules ends with a rule without mark, or past the last.
#[derive(Clone, Copy)]
pub struct Layout {
    pub rules: [Rule; RULES],
}

// The place of the first d.
fn first(s: &[u8], d: u8) -> Option<usize>
    ensures { result ≡ position (λ b. b == d) s.now }
{
    s.iter().position(|b| *b == d)
}

// The number of bytes before the first d, or of all where there is no d.
pub fn bytes_before(s: &[u8], d: u8) -> usize
    ensures { result ≡ length (up_to d s.now) }
{
    first(s, d).unwrap_or(s.len())
}

// The place of the first LF from a on, or the end of the text.
pub fn line_end(text: &[u8], a: usize) -> usize
    ensures { result ≡ line_end text.now a }
{
    if text.len() < a {
        return text.len();
    }
    a + bytes_before(&text[a..], b'\n')
}

// Whether the bytes s are the first `size` of those given.
pub fn spells(bytes: [u8; 5], size: usize, s: &[u8]) -> bool
    ensures { result ≡ same (take size bytes) s.now }
{
    &bytes[..size.min(5)] == s
}

// A field whose name is the byte `name`.
pub fn short_rule(name: u8, up: u64, least: u64, most: u64) -> Rule
    ensures { result ≡ short_rule name up least most }
{
    Rule {
        mark: [b',', name, b',', 0],
        size: 3,
        other: 0,
        up,
        least,
        most,
        set: [0; 4],
        letters: 0,
    }
}

// The same field with a string of the first `letters` bytes of a set, from `least` to `most` bytes long.
pub fn of_letters(rule: Rule, set: [u8; 4], letters: usize) -> Rule
    ensures { result ≡ with_letters set letters rule }
{
    let mark = rule.mark;
    Rule {
        mark,
        size: rule.size,
        other: rule.other,
        up: rule.up,
        least: rule.least,
        most: rule.most,
        set,
        letters,
    }
}

// The same field, where the line goes on `other` rules further on if its name does not stand here.
pub fn or_else(rule: Rule, other: usize) -> Rule
    ensures { result ≡ with_other other rule }
{
    let mark = rule.mark;
    let set = rule.set;
    Rule {
        mark,
        size: rule.size,
        other,
        up: rule.up,
        least: rule.least,
        most: rule.most,
        set,
        letters: rule.letters,
    }
}

// The rule that ends a way.
pub fn no_rule() -> Rule
    ensures { result ≡ no_rule }
{
    Rule {
        mark: [0; 4],
        size: 0,
        other: 0,
        up: 0,
        least: 0,
        most: 0,
        set: [0; 4],
        letters: 0,
    }
}

// The rule at place j; one that ends a way past the last.
pub fn rule_at(rules: [Rule; RULES], j: usize) -> Rule
    ensures { result ≡ rule_at rules j }
{
    rules.get(j).copied().unwrap_or(no_rule())
}

// The layout of a line with one field, and of a line with none.
pub fn one_field(rule: Rule) -> Layout
    ensures { result ≡ laid_out (rule ∷ []) }
{
    let none = no_rule();
    Layout {
        rules: [rule, none, none, none],
    }
}

pub fn no_fields() -> Layout
    ensures { result ≡ laid_out [] }
{
    let none = no_rule();
    Layout {
        rules: [none, none, none, none],
    }
}

// Whether a field is within the limits of reading and writing.
fn is_sane(rule: Rule) -> bool
    ensures { result ≡ is_sane rule }
{
    rule.size <= 4 && rule.up <= Pin::UP && rule.most < num_text::MOST
}

// Whether a layout is within the limits of reading and writing.
#[tactic(auto, unfolding(crate::specs::Layout::is_layout))]
pub fn is_layout(rules: [Rule; RULES]) -> bool
    ensures { result ≡ is_layout rules }
{
    rules.iter().all(|rule| is_sane(*rule))
}

// Whether the first `size` bytes of the mark stand in the text from a on.
fn starts_at(text: &[u8], a: usize, mark: [u8; 4], size: usize) -> bool
    requires { (a ≤ length text.now) × (size ≤ 4) }
    ensures { Starts mark size (drop a text.now) result }
{
    if text.len() - a < size {
        return false;
    }
    for i in 0..size {
        if text[a + i] != mark[i] {
            return false;
        }
    }
    true
}

// The value v of a field that ends at b, and that place, if it is in the range.
fn in_range(v: u64, b: usize, rule: Rule, line: usize) -> Result<(u64, usize), Refusal>
    ensures { result ≡ if_in_range (within rule v) v b line }
{
    if !model::within(v, rule.least, rule.most) {
        return Err(Refusal { no: 4, line });
    }
    Ok((v, b))
}

// The field that begins in the text at a, with the comma before its name: its value, as held, and the place after it; where its name does not stand here and the
// line may go on without it, ABSENT.
pub(crate) fn read_field(
    text: &[u8],
    a: usize,
    rule: Rule,
    line: usize,
) -> Result<(u64, usize), Refusal>
    requires { (a ≤ length text.now) × Sane rule }
    ensures { FieldOk text.now a rule line result }
{
    let size = rule.size;
    let mark = rule.mark;
    if !starts_at(text, a, mark, size) {
        let no = text_grammar::name_fault(rule.other);
        if no != 0 {
            return Err(Refusal { no, line });
        }
        return Ok((ABSENT, a));
    }
    let p = a + size;
    let b = p + bytes_before(&text[p..], b',');
    if rule.letters != 0 {
        let set = rule.set;
        if !text_grammar::is_string(&text[p..b], set, rule.letters, rule.least, rule.most) {
            return Err(Refusal { no: 3, line });
        }
        return Ok((p as u64, b));
    }
    let Some(number) = num_text::read_number(&text[p..b]) else {
        return Err(Refusal { no: 3, line });
    };
    let up = rule.up;
    if number.negative {
        if up < number.magnitude {
            return Err(Refusal { no: 4, line });
        }
        return in_range(up - number.magnitude, b, rule, line);
    }
    in_range(up + number.magnitude, b, rule, line)
}

// The answer for a line of n bytes after its word, whose fields have these values and end at a.
fn end_fields(n: usize, a: usize, values: [u64; 4], line: usize) -> Result<[u64; 4], Refusal>
    ensures { result ≡ end_answer (need (leb n a) 2 0) line values }
{
    let no = text_grammar::rest_fault(n, a);
    if no != 0 {
        return Err(Refusal { no, line });
    }
    Ok(values)
}

// The fields by their rules, read from the bytes after a line's word.
fn read_laid(text: &[u8], rules: [Rule; RULES], line: usize) -> Result<[u64; 4], Refusal>
    requires { Laid rules }
    ensures { FieldsOk rules line text.now result }
{
    let mut values = [0u64; 4];
    let mut a: usize = 0;
    let mut j: usize = 0;
    for i in 0..4 {
        let rule = rule_at(rules, j);
        if rule.size == 0 {
            return end_fields(text.len(), a, values, line);
        }
        let (v, b) = read_field(text, a, rule, line)?;
        let absent = text_grammar::is_absent(rule.other, v);
        j = text_grammar::next_place(j, rule.other, absent);
        values[i] = v;
        a = b;
    }
    end_fields(text.len(), a, values, line)
}

// The values of the fields of a line with that layout, read from the bytes after its word: x and y of a pin held 4,096 higher, a string by the place where it
// begins in these bytes (it goes up to the next comma); ABSENT for a field that is not there, 0 past the last field. Or the refusal; a layout beyond the limits
// is refused by 2.
pub fn read_fields(text: &[u8], layout: Layout, line: usize) -> Result<[u64; 4], Refusal>
    ensures { FieldsOk layout.rules line text.now result }
{
    let rules = layout.rules;
    if !is_layout(rules) {
        return Err(Refusal { no: 2, line });
    }
    read_laid(text, rules, line)
}
