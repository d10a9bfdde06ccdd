// The record writer: it puts the record of a stripe, without the strips of the lost disks, at the
// output's front, or refuses and leaves the output as it was.
//
// Every byte string, number and buffer is a legal argument of `write`. A record's layout is said in
// record_format/specs/Records.antt, and what is answered for which input in record_format/specs/Faults.antt.
#![tactic(auto)]

ghost use Rattle.std.specs.Prelude.{◌≡◌, eqb, length};
ghost use Rattle.record_format.specs.Faults.{record_write_tests, record_write_report, record_write_output};
ghost use Rattle.record_writer.specs.Reports.{report};
ghost use Rattle.record_writer.specs.declared.RecordWriteError.TheVariants.{Card as CardError};

use card::{CardFault, Code, Edition};
use record_contents::Layout;

mod parts;

// Why no record was written: the card's fault, a strip length that is none, a lost set with a disk that the
// code lacks, a stripe of another length, or an output that is too short.
#[derive(Clone, Copy, Debug, PartialEq, Eq)]
pub enum RecordWriteError {
    Card(CardFault),
    StripLength,
    OutsideSet,
    StripeLength,
    Output,
}

impl From<CardFault> for RecordWriteError {
    ghost from_gives = { λ fault error. error ≡ CardError fault };

    fn from(fault: CardFault) -> RecordWriteError {
        RecordWriteError::Card(fault)
    }
}

// How long the record is, for a stripe of size bytes and an output of room bytes, or why there is none.
#[tactic(auto, using(crate::proofs::WriterAnswers::length_tests))]
fn record_length(
    code: &Code<'_>,
    l: usize,
    lost: u32,
    size: usize,
    room: usize,
) -> Result<usize, RecordWriteError>
    ensures { report result ≡ record_write_tests code.now l lost size room }
{
    let n = code.n();
    if !card::length_ok(l) {
        return Err(RecordWriteError::StripLength);
    }
    if !gf2::below(lost, n as u32) {
        return Err(RecordWriteError::OutsideSet);
    }
    if size != n * l {
        return Err(RecordWriteError::StripeLength);
    }
    let start = record_contents::strips_at(n, code.m());
    let layout = Layout { start, l, lost };
    let len = layout.body_at(n);
    if room < len {
        return Err(RecordWriteError::Output);
    }
    Ok(len)
}

// Whether the record is to be written. An output that is too short keeps its content, as after every refusal.
fn accepts(answer: &Result<usize, RecordWriteError>) -> bool
    ensures { result ≡ eqb (report answer.now).number 0 }
{
    match answer {
        Ok(_) => true,
        Err(RecordWriteError::Output) => false,
        Err(_) => false,
    }
}

// The writer: the record of the stripe at the output's front.
#[tactic(auto, using(crate::proofs::WriterAnswers::reports))]
pub fn write(
    card: &[u8],
    l: usize,
    lost: u32,
    stripe: &[u8],
    out: &mut [u8],
) -> Result<usize, RecordWriteError>
    ensures result_value { report result ≡ record_write_report card.now l lost (length stripe.now) (length out.old) }
    ensures out_after { out.new ≡ record_write_output card.now l lost stripe.now out.old }
{
    let code = card::check(Edition::First, card)?;
    let answer = record_length(&code, l, lost, stripe.len(), out.len());
    if accepts(&answer) {
        parts::put_record(card, code.n(), l, lost, stripe, out);
    }
    answer
}
