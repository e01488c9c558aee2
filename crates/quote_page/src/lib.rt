// The limits of the quoting page, and what it makes of a chip text that was read (document 02, Card 11).
#![tactic(auto)]

ghost use Rattle.std.specs.Prelude.{◌≡◌};
ghost use Rattle.model.specs.Meaning.{chip_of};
ghost use Rattle.chip_text.specs.Kind.{counts_of};
ghost use Rattle.chip_text.specs.Tests.{counts_in};
ghost use Rattle.chip_read.specs.Answer.{meant_chip};
ghost use Rattle.quote_page.specs.Page.{within_page, page_read};

use chip_pins::pins_before;
use chip_text::Counts;
use model::{Chip, Refusal};

// How many macros, fixes and pins a chip has at most on the page. Nets have no limit of their own.
pub const MACROS: usize = 4;

pub const FIXES: usize = 2;

pub const PINS: usize = 16;

// Whether a chip with these counts is within the page's limits.
fn within_page(held: Counts) -> bool
    ensures { result ≡ within_page (counts_in held) }
{
    held.macs <= MACROS && held.fixes <= FIXES && held.pins <= PINS
}

// Whether a chip is within the page's limits.
pub fn on_page(c: Chip) -> bool
    ensures { result ≡ within_page (counts_of (chip_of c)) }
{
    within_page(Counts {
        fixes: c.k,
        macs: c.n,
        nets: c.t,
        pins: pins_before(c.nets, c.t),
    })
}

// The answer of reading, for the page: beyond its limits the refusal of the text comes first, then 22.
pub fn page_answer(read: Result<Chip, Refusal>) -> Result<Chip, Refusal>
    ensures { meant_chip result ≡ page_read (meant_chip read) }
{
    let c = read?;
    if !on_page(c) {
        return Err(Refusal { no: 22, line: 0 });
    }
    Ok(c)
}
