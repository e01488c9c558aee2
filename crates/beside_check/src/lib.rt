// A record read beside its chip (document 02, Card 1).
#![tactic(auto)]

ghost use Rattle.std.specs.Prelude.{◌≡◌};
ghost use Rattle.model.specs.Meaning.{chip_of, record_of};
ghost use Rattle.text_grammar.specs.Reading.{accepted};
ghost use Rattle.chip_text.specs.Passed.{Passed};
ghost use Rattle.beside_check.specs.Beside.{beside_as, beside_read, check_beside};

use model::{Chip, Record, Refusal};

// The text at fault, whose line a refusal tells; neither where both are accepted.
#[derive(Clone, Copy)]
pub enum AtFault {
    Neither,
    Chip,
    Record,
}

// The refusal of a record beside its chip, and the text at fault.
#[derive(Clone, Copy)]
pub struct BesideRefusal {
    pub refusal: Refusal,
    pub text: AtFault,
}

// A chip and a record that were read.
fn compared(c: Chip, r: Record) -> Result<(), BesideRefusal>
    requires { Passed c }
    ensures { beside_as result ≡ beside_read (accepted (chip_of c)) (accepted (record_of r)) }
{
    let no = beside_tests::record_fault(c, r);
    if no != 0 {
        return Err(BesideRefusal {
            refusal: Refusal { no, line: 0 },
            text: AtFault::Neither,
        });
    }
    Ok(())
}

// The chip is read, then the record; then the record is tested beside the chip.
pub fn check_beside(chip: &[u8], beside: &[u8]) -> Result<(), BesideRefusal>
    ensures { beside_as result ≡ check_beside chip.now beside.now }
{
    let first = chip_read::read_chip(chip);
    let second = record_read::read_record(beside);
    match first {
        Err(refusal) => Err(BesideRefusal {
            refusal,
            text: AtFault::Chip,
        }),
        Ok(c) => match second {
            Err(refusal) => Err(BesideRefusal {
                refusal,
                text: AtFault::Record,
            }),
            Ok(r) => compared(c, r),
        },
    }
}
