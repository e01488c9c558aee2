// The search behind the quoting page: from chip text to record text, within the page's limits (document 02, Card 11).
#![tactic(auto)]

ghost use Rattle.std.specs.Prelude.{◌≡◌};
ghost use Rattle.text_grammar.specs.Writing.{answer_of};
ghost use Rattle.quote.specs.Quote.{quote_text};

use model::Refusal;

// From chip text to record text. Within the limits it is the design desk's search, which reads the text again.
pub fn quote_text(text: &[u8], out: &mut [u8]) -> Result<usize, Refusal>
    ensures { record { answer = answer_of result; buffer = out.new } ≡ quote_text text.now out.old }
{
    quote_page::page_answer(chip_read::read_chip(text))?;
    search::service::place_text(text, out)
}
