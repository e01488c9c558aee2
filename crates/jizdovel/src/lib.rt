// The C interface of the placer, as a static library: bytes and numbers in, a number and a value out. embed/jizdovel.h declares the functions for C.
#![tactic(auto)]

ghost use Rattle.std.specs.Prelude.{◌≡◌, length};
ghost use Rattle.chip_text.specs.Text.{read_chip};
ghost use Rattle.record_text.specs.Text.{read_record};
ghost use Rattle.search.specs.Place.{place_text};
ghost use Rattle.quote.specs.Quote.{quote_text};
ghost use Rattle.place_boxes.specs.Boxes.{boxes_text};
ghost use Rattle.beside_check.specs.Beside.{check_beside};
ghost use Rattle.host_codes.specs.Code.{code, of_reading, of_answer, of_measure, of_fit};
ghost use Rattle.host_beside.specs.CodeBeside.{beside_code};
ghost use Rattle.host_measure.specs.MeasureText.{measure_text};
ghost use Rattle.host_fit.specs.FitText.{fit_text, SlotsFilled, places_after};

use host_beside::beside_code;
use host_codes::{answer_code, chip_code, record_code};
use host_fit::fit_text;
use host_measure::measure_text;

// Chip text to record text.
#[unsafe(no_mangle)]
pub extern "C" fn jizdovel_place(text: &[u8], out: &mut [u8], value: &mut u64) -> u64
    ensures value_after { record { number = result; value = value.new } ≡ code (of_answer (place_text text.now out.old).answer) }
    ensures out_after { out.new ≡ (place_text text.now out.old).buffer }
{
    let r = answer_code(search::service::place_text(text, out));
    *value = r.value;
    r.number
}

// Chip text to record text, within the limits of the quoting page.
#[unsafe(no_mangle)]
pub extern "C" fn jizdovel_quote(text: &[u8], out: &mut [u8], value: &mut u64) -> u64
    ensures value_after { record { number = result; value = value.new } ≡ code (of_answer (quote_text text.now out.old).answer) }
    ensures out_after { out.new ≡ (quote_text text.now out.old).buffer }
{
    let r = answer_code(quote::quote_text(text, out));
    *value = r.value;
    r.number
}

// Chip text to record text, and after it the box of each net.
#[unsafe(no_mangle)]
pub extern "C" fn jizdovel_boxes(text: &[u8], out: &mut [u8], value: &mut u64) -> u64
    ensures value_after { record { number = result; value = value.new } ≡ code (of_answer (boxes_text text.now out.old).answer) }
    ensures out_after { out.new ≡ (boxes_text text.now out.old).buffer }
{
    let r = answer_code(place_boxes::boxes_text(text, out));
    *value = r.value;
    r.number
}

// A chip text, checked.
#[unsafe(no_mangle)]
pub extern "C" fn jizdovel_check_chip(text: &[u8], value: &mut u64) -> u64
    ensures { record { number = result; value = value.new } ≡ code (of_reading (read_chip text.now)) }
{
    let r = chip_code(chip_read::read_chip(text));
    *value = r.value;
    r.number
}

// A record text, checked by itself.
#[unsafe(no_mangle)]
pub extern "C" fn jizdovel_check_record(text: &[u8], value: &mut u64) -> u64
    ensures { record { number = result; value = value.new } ≡ code (of_reading (read_record text.now)) }
{
    let r = record_code(record_read::read_record(text));
    *value = r.value;
    r.number
}

// A record text, checked beside its chip's text; the text at fault too.
#[unsafe(no_mangle)]
pub extern "C" fn jizdovel_check_beside(
    chip: &[u8],
    beside: &[u8],
    value: &mut u64,
    fault: &mut u64,
) -> u64
    ensures { record { code = record { number = result; value = value.new }; text = fault.new } ≡ beside_code (check_beside chip.now beside.now) }
{
    let r = beside_code(beside_check::check_beside(chip, beside));
    let code = r.code;
    *value = code.value;
    *fault = r.text;
    code.number
}

// Positions x1, y1, x2, y2 .. of the macros of a chip text, measured.
#[unsafe(no_mangle)]
pub extern "C" fn jizdovel_measure(text: &[u8], positions: &[u64], value: &mut u64) -> u64
    ensures { record { number = result; value = value.new } ≡ code (of_measure (measure_text text.now positions.now)) }
{
    let r = measure_text(text, positions);
    *value = r.value;
    r.number
}

// The fit of a letter string to the chip of a text, with slots and positions into the lent lists.
#[unsafe(no_mangle)]
pub extern "C" fn jizdovel_fit(
    text: &[u8],
    letters: &[u8],
    slots: &mut [u16],
    positions: &mut [u64],
    value: &mut u64,
) -> u64
    ensures value_after { record { number = result; value = value.new } ≡ code (of_fit (fit_text text.now letters.now (length slots.old) (length positions.old))) }
    ensures slots_filled { SlotsFilled (read_chip text.now) letters.now (fit_text text.now letters.now (length slots.old) (length positions.old)) slots.old slots.new }
    ensures positions_after { positions.new ≡ places_after (fit_text text.now letters.now (length slots.old) (length positions.old)) positions.old }
{
    let r = fit_text(text, letters, slots, positions);
    *value = r.value;
    r.number
}
