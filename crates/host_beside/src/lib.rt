// A record read beside its chip, answered for a C host: a number, a value, and the text at fault.
#![tactic(auto)]

ghost use Rattle.std.specs.Prelude.{◌≡◌};
ghost use Rattle.beside_check.specs.Beside.{beside_as};
ghost use Rattle.host_beside.specs.CodeBeside.{text_number, beside_code};

use beside_check::{AtFault, BesideRefusal};
use host_codes::{Code, YES, refusal_code};

// What jizdovel_check_beside answers.
#[derive(Clone, Copy)]
pub struct BesideCode {
    pub code: Code,
    pub text: u64,
}

// The numbers of the texts.
const NEITHER: u64 = 0;

const CHIP: u64 = 1;

const RECORD: u64 = 2;

fn text_number(fault: AtFault) -> u64
    ensures { result ≡ text_number fault }
{
    match fault {
        AtFault::Neither => NEITHER,
        AtFault::Chip => CHIP,
        AtFault::Record => RECORD,
    }
}

pub fn beside_code(answer: Result<(), BesideRefusal>) -> BesideCode
    ensures { result ≡ beside_code (beside_as answer) }
{
    match answer {
        Ok(()) => BesideCode {
            code: Code {
                number: YES,
                value: 0,
            },
            text: NEITHER,
        },
        Err(f) => BesideCode {
            code: refusal_code(f.refusal),
            text: text_number(f.text),
        },
    }
}
