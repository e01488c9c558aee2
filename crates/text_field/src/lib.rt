// One field of a line, written into a lent buffer.
#![tactic(auto)]

ghost use Rattle.std.specs.Prelude.{[], take, drop};
ghost use Rattle.num_text.specs.Held.{Wrote};
ghost use Rattle.text_grammar.specs.Line.{comma, up_to};
ghost use Rattle.text_line.specs.Layout.{pick};
ghost use Rattle.text_field.specs.FieldText.{held_text};

use text_line::Rule;

// Writes the first `size` of the bytes, or all where there are fewer, from `at` on, as far as the buffer goes, and answers the place after them.
pub fn put_first(out: &mut [u8], at: usize, bytes: &[u8], size: usize) -> usize
    ensures { Wrote out.old out.new (take size bytes.now) at result }
{
    if bytes.len() < size {
        return num_text::put_bytes(out, at, bytes);
    }
    num_text::put_bytes(out, at, &bytes[..size])
}

// The same for the bytes of the source from place v up to the next comma.
fn put_string(out: &mut [u8], at: usize, source: &[u8], v: u64) -> usize
    ensures { Wrote out.old out.new (up_to comma (drop v source.now)) at result }
{
    if (source.len() as u64) < v {
        return at;
    }
    let p = v as usize;
    let b = p + text_line::bytes_before(&source[p..], 44);
    num_text::put_bytes(out, at, &source[p..b])
}

// The same for a field: its mark, then its value v, as held, a string from the source; nothing for one that is absent.
pub fn put_field(
    out: &mut [u8],
    at: usize,
    rule: Rule,
    source: &[u8],
    v: u64,
    absent: bool,
) -> usize
    ensures { Wrote out.old out.new (pick absent [] (held_text source.now rule v)) at result }
{
    if absent {
        return at;
    }
    let mark = rule.mark;
    let a = put_first(out, at, &mark, rule.size);
    if rule.letters != 0 {
        return put_string(out, a, source, v);
    }
    num_text::put_number(out, a, v, rule.up)
}
