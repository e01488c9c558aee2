// Writing the lines of a text into a lent buffer.
#![tactic(auto)]

ghost use Rattle.num_text.specs.Held.{Wrote};
ghost use Rattle.text_grammar.specs.Line.{fields_text};
ghost use Rattle.text_line.specs.Layout.{form_of, values_of};
ghost use Rattle.text_put.specs.LineText.{line_text};

use text_grammar::RULES;
use text_line::{Layout, Rule, Spelling};

// Writes the fields by their rules, with the values v, as held, from `at` on, as far as the buffer goes, and answers the place after them.
fn put_fields(out: &mut [u8], at: usize, rules: [Rule; RULES], source: &[u8], v: [u64; 4]) -> usize
    ensures { Wrote out.old out.new (fields_text (form_of rules) (values_of rules source.now v)) at result }
{
    let mut a = at;
    let mut j: usize = 0;
    for i in 0..4 {
        let rule = text_line::rule_at(rules, j);
        if rule.size == 0 {
            return a;
        }
        let absent = text_grammar::is_absent(rule.other, v[i]);
        a = text_field::put_field(out, a, rule, source, v[i], absent);
        j = text_grammar::next_place(j, rule.other, absent);
    }
    a
}

// Writes the line with that word, that layout and the values v, as held, from `at` on, as far as the buffer goes, and answers the place after it. Strings
// are taken from the source.
pub fn put_line(
    out: &mut [u8],
    at: usize,
    word: Spelling,
    layout: Layout,
    source: &[u8],
    v: [u64; 4],
) -> usize
    ensures { Wrote out.old out.new (line_text word layout source.now v) at result }
{
    let bytes = word.bytes;
    let rules = layout.rules;
    let a = text_field::put_first(out, at, &bytes, word.size);
    let b = put_fields(out, a, rules, source, v);
    num_text::put_bytes(out, b, b"\n")
}
