// The card writer: the card of a code, in either edition, into a buffer of exactly the card's length.
//
// Every number, list and buffer is a legal argument of `write`. What is answered for which input is said
// in flat/specs/Faults.antt.
#![tactic(auto)]

ghost use Rattle.std.specs.Prelude.{◌≡◌, [], ℕ, ◌+◌, ◌*◌, ◌≤◌, length, IfErr, OnOk};
ghost use Rattle.flat.specs.Lists.{each, bytes, put};
ghost use Rattle.flat.specs.Cards.{code, edition_bytes, edition_length, wear_count};
ghost use Rattle.flat.specs.Faults.{card_write_report, card_write_buffer};
ghost use Rattle.card.specs.Reports.{fault_report};
ghost use Rattle.card_writer.specs.declared.CardWriteError.TheVariants.{Card};
ghost use Rattle.card_writer.specs.Forms.{counts, Sound};
ghost use Rattle.card_writer.specs.Reports.{report};

use card::{CardFault, Edition};
use copies::copy;

// Why no card was written: a fault of the card that was to be, or a buffer of another length.
#[derive(Clone, Copy, Debug, PartialEq, Eq)]
pub enum CardWriteError {
    Card(CardFault),
    Buffer,
}

impl From<CardFault> for CardWriteError {
    ghost from_gives = { λ fault error. error ≡ Card fault };

    fn from(fault: CardFault) -> CardWriteError {
        CardWriteError::Card(fault)
    }
}

// The first fault of the card that is to be, whatever the buffer.
fn check(
    edition: Edition,
    k: usize,
    m: usize,
    columns: &[u16],
    wears: &[u8],
) -> Result<(), CardFault>
    ensures fault { IfErr result (λ fault. (n : ℕ) → fault_report fault ≡ card_write_report edition (code k m columns.now) wears.now n) }
    ensures sound { OnOk result (Sound edition (code k m columns.now) wears.now) }
{
    if !card::count_ok(k) {
        return Err(CardFault::DataCount);
    }
    if !card::count_ok(m) {
        return Err(CardFault::ParityCount);
    }
    if columns.len() != m {
        return Err(CardFault::Length);
    }
    if wears.len() != card::wear_count(edition, k + m) {
        return Err(CardFault::Length);
    }
    if let Some(bad) = card::first_bad(k, columns) {
        return Err(CardFault::Column(bad));
    }
    if card::has_zero(wears) {
        return Err(CardFault::ZeroWear);
    }
    Ok(())
}

// Puts what stands before the columns at the buffer's front, and answers where the columns go.
#[tactic(auto, unfolding(crate::specs::Forms::counts))]
fn put_counts(edition: Edition, k: usize, m: usize, out: &mut [u8]) -> usize
    requires { (k ≤ 16) × (m ≤ 16) × (3 ≤ length out.old) }
    ensures value { (result ≡ length (counts edition k m)) × (result ≤ 3) }
    ensures out_after { out.new ≡ put out.old 0 (counts edition k m) }
{
    match edition {
        Edition::First => {
            copy(out, 0, &[k as u8, m as u8]);
            2
        }
        Edition::Second => {
            copy(out, 0, &[2, k as u8, m as u8]);
            3
        }
    }
}

// Puts the columns, two bytes each, low byte first, from a place on.
fn put_columns(columns: &[u16], at: usize, out: &mut [u8])
    requires { (at ≤ 3) × (length columns.now ≤ 16) × (at + 2 * length columns.now ≤ length out.old) }
    ensures { out.new ≡ put out.old at (each (bytes 2) columns.now) }
{
    for (j, column) in columns.iter().enumerate() {
        copy(out, at + 2 * j, &column.to_le_bytes());
    }
}

// Puts the card's bytes into a buffer of their length.
fn put_card(edition: Edition, k: usize, m: usize, columns: &[u16], wears: &[u8], out: &mut [u8])
    requires { (k ≤ 16) × (1 ≤ m) × (m ≤ 16) × (length columns.now ≡ m) × (length wears.now ≡ wear_count edition (k + m)) × (length out.old ≡ edition_length edition (code k m [])) }
    ensures { out.new ≡ edition_bytes edition (code k m columns.now) wears.now }
{
    let at = put_counts(edition, k, m, out);
    put_columns(columns, at, out);
    copy(out, at + 2 * m, wears);
}

// The card writer: the card of k, m, the columns and the wears into a buffer of exactly its length. There is
// a wear for each disk in the second edition, and none in the first.
pub fn write(
    edition: Edition,
    k: usize,
    m: usize,
    columns: &[u16],
    wears: &[u8],
    out: &mut [u8],
) -> Result<(), CardWriteError>
    ensures result_value { report result ≡ card_write_report edition (code k m columns.now) wears.now (length out.old) }
    ensures out_after { out.new ≡ card_write_buffer edition (code k m columns.now) wears.now out.old }
{
    check(edition, k, m, columns, wears)?;
    if out.len() != card::length(edition, k, m) {
        return Err(CardWriteError::Buffer);
    }
    put_card(edition, k, m, columns, wears, out);
    Ok(())
}
