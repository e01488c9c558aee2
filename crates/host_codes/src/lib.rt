// The one encoding of answers: a number, and a value beside it.
#![tactic(auto)]

ghost use Rattle.std.specs.Prelude.{◌≡◌};
ghost use Rattle.text_grammar.specs.Writing.{answer_of};
ghost use Rattle.chip_read.specs.Answer.{meant_chip};
ghost use Rattle.record_read.specs.Answer.{meant_record};
ghost use Rattle.measure_held.specs.Answer.{measured, measured_as};
ghost use Rattle.host_codes.specs.Code.{code, refused, of_reading, of_answer, of_measure};

use measure_held::Measurement;
use model::{Chip, Record, Refusal};

// What an exported function answers.
#[derive(Clone, Copy)]
pub struct Code {
    pub number: u64,
    pub value: u64,
}

// The numbers that are no refusal.
pub const YES: u64 = 0;

pub const NO: u64 = 255;

// Document 01's number and line.
pub fn refusal_code(f: Refusal) -> Code
    ensures { result ≡ code (refused f.no f.line) }
{
    Code {
        number: f.no as u64,
        value: f.line as u64,
    }
}

pub fn chip_code(read: Result<Chip, Refusal>) -> Code
    ensures { result ≡ code (of_reading (meant_chip read)) }
{
    match read {
        Ok(_) => Code {
            number: YES,
            value: 0,
        },
        Err(f) => refusal_code(f),
    }
}

pub fn record_code(read: Result<Record, Refusal>) -> Code
    ensures { result ≡ code (of_reading (meant_record read)) }
{
    match read {
        Ok(_) => Code {
            number: YES,
            value: 0,
        },
        Err(f) => refusal_code(f),
    }
}

pub fn answer_code(answer: Result<usize, Refusal>) -> Code
    ensures { result ≡ code (of_answer (answer_of answer)) }
{
    match answer {
        Ok(n) => Code {
            number: YES,
            value: n as u64,
        },
        Err(f) => refusal_code(f),
    }
}

// Yes where the positions are legal.
fn legal_code(legal: bool, wl: u64) -> Code
    ensures { result ≡ code (of_measure (measured legal wl)) }
{
    Code {
        number: if legal { YES } else { NO },
        value: wl,
    }
}

pub fn measure_code(answer: Result<Measurement, Refusal>) -> Code
    ensures { result ≡ code (of_measure (measured_as answer)) }
{
    match answer {
        Ok(m) => legal_code(m.legal, m.length),
        Err(f) => refusal_code(f),
    }
}
