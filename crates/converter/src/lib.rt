// The converter between the card's two editions: a card is read in the one and written in the other, into
// a buffer of exactly its new length.
//
// Every byte string and buffer is a legal argument. What is answered for which input is said in
// editions/specs/Converting.antt.
#![tactic(auto)]

ghost use Rattle.std.specs.Prelude.{◌≡◌, length};
ghost use Rattle.editions.specs.Converting.{all_one, up_report, up_buffer, down_report, down_buffer};
ghost use Rattle.converter.specs.declared.ConvertError.TheVariants.{Card};
ghost use Rattle.converter.specs.Reports.{report};

use card::{CardFault, Edition};

// Why no card was converted: its fault, a buffer of another length, or, on the way down, a wear that edition 1
// can't hold.
#[derive(Clone, Copy, Debug, PartialEq, Eq)]
pub enum ConvertError {
    Card(CardFault),
    Buffer,
    Lossy,
}

impl From<CardFault> for ConvertError {
    ghost from_gives = { λ fault error. error ≡ Card fault };

    fn from(fault: CardFault) -> ConvertError {
        ConvertError::Card(fault)
    }
}

// Whether each wear is 1.
fn all_one(wears: &[u8]) -> bool
    ensures { result ≡ all_one wears.now }
{
    wears.iter().all(|wear| *wear == 1)
}

// Up, from edition 1 to edition 2, with wear 1 for each disk. The card writer refuses nothing that comes from
// here.
pub fn up(card: &[u8], out: &mut [u8]) -> Result<(), ConvertError>
    ensures result_value { report result ≡ up_report card.now (length out.old) }
    ensures out_after { out.new ≡ up_buffer card.now out.old }
{
    let read = card::read(Edition::First, card)?;
    if out.len() != card::length(Edition::Second, read.k, read.m) {
        return Err(ConvertError::Buffer);
    }
    let columns = &read.columns[..read.m];
    let wears = &read.wears[..read.k + read.m];
    let _ = card_writer::write(Edition::Second, read.k, read.m, columns, wears, out);
    Ok(())
}

// Down, from edition 2 to edition 1, where each wear is 1. The card writer refuses nothing that comes from
// here.
pub fn down(card: &[u8], out: &mut [u8]) -> Result<(), ConvertError>
    ensures result_value { report result ≡ down_report card.now (length out.old) }
    ensures out_after { out.new ≡ down_buffer card.now out.old }
{
    let read = card::read(Edition::Second, card)?;
    if out.len() != card::length(Edition::First, read.k, read.m) {
        return Err(ConvertError::Buffer);
    }
    if !all_one(&read.wears[..read.k + read.m]) {
        return Err(ConvertError::Lossy);
    }
    let columns = &read.columns[..read.m];
    let _ = card_writer::write(Edition::First, read.k, read.m, columns, b"", out);
    Ok(())
}
