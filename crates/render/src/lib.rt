// What the listing program prints for a card, rendered into a lent buffer.
//
// The text is that of specs/Printed.antt; how long a buffer holds it whole stands in specs/Theorems.antt.
// Assumes nothing.
#![tactic(auto)]

ghost use Rattle.std.specs.Prelude.{◌≡◌, Ok, length};
ghost use Rattle.flat.specs.Cards.{code_of, edition_one};
ghost use Rattle.flat.specs.Faults.{card_report, erasures_slice};
ghost use Rattle.card.specs.Reports.{report as check_report};
ghost use Rattle.text.specs.Answers.{text_answer, text_buffer};
ghost use Rattle.render.specs.Printed.{printed, shown_part};

use card::{Code, Edition};
use erasures::ListError;
use text::TooShort;

// The text for a card that the check found good.
fn listing(
    card: &[u8],
    code: &Code<'_>,
    entries: &mut [u32],
    out: &mut [u8],
) -> Result<usize, TooShort>
    requires accepted { check_report (Ok code.now) ≡ card_report (edition_one card.now) }
    requires code { code.now ≡ code_of (edition_one card.now) }
    ensures value { result ≡ text_answer (printed card.now (length entries.old)) (length out.old) }
    ensures out_after { out.new ≡ text_buffer (printed card.now (length entries.old)) out.old }
    ensures entries_after { entries.new ≡ erasures_slice (edition_one card.now) entries.old }
{
    let k = code.k();
    let m = code.m();
    match erasures::list(Edition::First, card, entries) {
        Ok(listed) => {
            let vector = listed.vector;
            text::listing(k, m, &entries[..listed.count], &vector[..m + 1], out)
        }
        Err(ListError::Short(_)) => text::refused(10, out),
        Err(ListError::Card(fault)) => text::refused(fault.number(), out),
    }
}

// The text for a card, with the entries lent for its list. A buffer too short for the text stays as it
// was, and the answer is the length needed.
pub fn render(card: &[u8], entries: &mut [u32], out: &mut [u8]) -> Result<usize, TooShort>
    ensures value { result ≡ text_answer (printed card.now (length entries.old)) (length out.old) }
    ensures out_after { out.new ≡ text_buffer (printed card.now (length entries.old)) out.old }
    ensures entries_after { entries.new ≡ erasures_slice (edition_one card.now) entries.old }
{
    match card::check(Edition::First, card) {
        Ok(code) => listing(card, &code, entries, out),
        Err(fault) => text::refused(fault.number(), out),
    }
}

// The part of the buffer that holds the text that was rendered; an empty part where it was too short.
#[tactic(auto, unfolding(crate::specs::Printed::shown_part))]
pub fn shown(answer: Result<usize, TooShort>, out: &[u8]) -> &[u8]
    ensures { result.now ≡ shown_part answer out.now }
{
    match answer {
        Ok(length) if length <= out.len() => &out[..length],
        _ => &out[..0],
    }
}
