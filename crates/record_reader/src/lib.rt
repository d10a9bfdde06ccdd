// The record reader, and the check that it makes. It reads the contents and the card, and no other body.
//
// Every byte string is a legal argument. A record's layout is said in record_format/specs/Records.antt, and what
// is answered for which input in record_format/specs/Faults.antt.
#![tactic(auto)]

ghost use Rattle.std.specs.Prelude.{◌≡◌, [], ◌∷◌, ◌≤◌, IfOk, IfErr, MatchResult};
ghost use Rattle.flat.specs.Cards.{code_of, edition_one};
ghost use Rattle.flat.specs.Faults.{accepted};
ghost use Rattle.record_format.specs.Records.{body_in};
ghost use Rattle.record_format.specs.Faults.{record_report, record_columns};
ghost use Rattle.record_reader.specs.Reports.{record_fault_report, report};
ghost use Rattle.record_reader.specs.declared.RecordFault.TheVariants.{Card as CardsFault};

use card::{CardFault, Code, Edition};

mod front;
mod strips;

// A fault of whoever sent the record: another mark, a strip length that is none, other contents, the
// card's fault, or another length of the file.
#[derive(Clone, Copy, Debug, PartialEq, Eq)]
pub enum RecordFault {
    Mark,
    StripLength,
    Contents,
    Card(CardFault),
    FileLength,
}

impl From<CardFault> for RecordFault {
    ghost from_gives = { λ fault mine. mine ≡ CardsFault fault };

    fn from(fault: CardFault) -> RecordFault {
        RecordFault::Card(fault)
    }
}

// What the check tells of a record: k data disks and m parity disks, the length of its strips and its lost
// set.
#[derive(Clone, Copy, Debug, PartialEq, Eq)]
pub struct RecordInfo {
    pub k: usize,
    pub m: usize,
    pub l: usize,
    pub lost: u32,
}

// The same, and the columns: they stand in the first m places, and the others are 0.
#[derive(Clone, Copy, Debug, PartialEq, Eq)]
pub struct RecordRead {
    pub k: usize,
    pub m: usize,
    pub l: usize,
    pub lost: u32,
    pub columns: [u16; 16],
}

// What stands in a record before the strips: its card's code, the length of the strips and the lost set.
#[derive(Drop)]
struct Contents<'a> {
    code: Code<'a>,
    l: usize,
    lost: u32,
}

// The contents of a record, or its fault.
#[tactic(auto, using(crate::proofs::Answers::all_tests))]
fn read_contents(file: &[u8]) -> Result<Contents<'_>, RecordFault>
    ensures value { MatchResult result
        (λ found. accepted (found.code.k ∷ found.code.m ∷ found.l ∷ found.lost ∷ []) ≡ record_report file.now)
        (λ fault. record_fault_report fault ≡ record_report file.now) }
    ensures code { IfOk result (λ found. found.code ≡ code_of (edition_one (body_in file.now 0))) }
{
    let l = front::strip_length(file)?;
    let code = card::check(Edition::First, front::card_body(file))?;
    let entries = record_contents::number::<2>(file, 8);
    if entries != code.n() + 1 {
        return Err(RecordFault::Contents);
    }
    let lost = strips::lost_set(file, &code, l)?;
    Ok(Contents { code, l, lost })
}

// Whether the bytes are a record, and of what.
pub fn check(file: &[u8]) -> Result<RecordInfo, RecordFault>
    ensures value { report result ≡ record_report file.now }
    ensures bound { IfOk result (λ found. (found.k ≤ 16) × (found.m ≤ 16) × (found.l ≤ 65536)) }
{
    let found = read_contents(file)?;
    Ok(RecordInfo {
        k: found.code.k(),
        m: found.code.m(),
        l: found.l,
        lost: found.lost,
    })
}

// The record reader: k, m, the length of the strips, the lost set and the columns of a record, or its fault.
#[tactic(auto, using(crate::proofs::Callers::columns_good))]
pub fn read(file: &[u8]) -> Result<RecordRead, RecordFault>
    ensures counts { IfOk result (λ read. record_report file.now ≡ accepted (read.k ∷ read.m ∷ read.l ∷ read.lost ∷ [])) }
    ensures columns { IfOk result (λ read. read.columns ≡ record_columns file.now) }
    ensures fault { IfErr result (λ fault. record_report file.now ≡ record_fault_report fault) }
{
    let found = read_contents(file)?;
    Ok(RecordRead {
        k: found.code.k(),
        m: found.code.m(),
        l: found.l,
        lost: found.lost,
        columns: found.code.columns(),
    })
}
