// The line of a refusal, as the program prints it.
#![tactic(auto)]

ghost use Rattle.std.specs.Prelude.{◌≡◌, ◌++◌, leb, length};
ghost use Rattle.num_text.specs.Number.{digits};
ghost use Rattle.num_text.specs.Held.{Wrote};
ghost use Rattle.text_grammar.specs.Writing.{answer_of, if_room};
ghost use Rattle.text_refusal.specs.Refusal.{refusal_line, shown};

use model::Refusal;

// Writes a mark and the decimal digits of n from `at` on, as far as the buffer goes, and answers the place after them.
fn put_marked(out: &mut [u8], at: usize, mark: &[u8], n: u64) -> usize
    ensures { Wrote out.old out.new (mark.now ++ digits n) at result }
{
    let a = num_text::put_bytes(out, at, mark);
    num_text::put_natural(out, a, n)
}

// The same for the line of a refusal.
fn put_refusal(out: &mut [u8], at: usize, f: Refusal) -> usize
    ensures { Wrote out.old out.new (refusal_line f.no f.line) at result }
{
    let a = put_marked(out, at, b"refused,no,", f.no as u64);
    let b = put_marked(out, a, b",line,", f.line as u64);
    num_text::put_bytes(out, b, b"\n")
}

// The line of a refusal: 15 where the buffer is shorter.
pub fn write_refusal(f: Refusal, out: &mut [u8]) -> Result<usize, Refusal>
    ensures { record { answer = answer_of result; buffer = out.new } ≡ if_room (leb (length (refusal_line f.no f.line)) (length out.old)) (refusal_line f.no f.line) out.old }
{
    let mut scratch = [0u8; 1];
    let n = put_refusal(&mut scratch, 0, f);
    if out.len() < n {
        return Err(Refusal { no: 15, line: 0 });
    }
    Ok(put_refusal(out, 0, f))
}

// What is shown for an answer: the text that was written, or the line of the refusal; 15 is that of the buffer and stays.
pub fn show_answer(answer: Result<usize, Refusal>, out: &mut [u8]) -> Result<usize, Refusal>
    ensures { record { answer = answer_of result; buffer = out.new } ≡ shown (answer_of answer) out.old }
{
    match answer {
        Err(f) if f.no != 15 => write_refusal(f, out),
        _ => answer,
    }
}
