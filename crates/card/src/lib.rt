// Cards: the bytes that describe a code, k, m, then m columns of two bytes, low byte first. In the second
// edition a byte 0x02 comes before them, and a wear for each disk after them. The check that every call
// makes of a card, its faults with their numbers, the part that the columns stand in, the card reader, one
// column out of the bytes, the tests of counts and columns that the card writer shares, and the test of a
// strip length, which goes with a card in every call that takes strips. What the check answers for a good
// card is its code (module `codes`), or its counts alone. Where the parts of an edition stand, those who read
// a card learn from module `editions` alone.
//
// Every byte string is a legal argument of `check`, `disk_counts` and `read`, in either edition. What is
// answered for which input is said in flat/specs/Faults.antt.
#![tactic(auto)]

ghost use Rattle.std.specs.Prelude.{◌≡◌, ◌∷◌, [], get_or, IfOk, IfErr};
ghost use Rattle.flat.specs.Cards.{count_ok, card_of, code_of, disks};
ghost use Rattle.flat.specs.Strips.{length_ok};
ghost use Rattle.flat.specs.Faults.{accepted, card_report, card_columns, card_wears};
ghost use Rattle.card.specs.Codes.{Legal};
ghost use Rattle.card.specs.Editions.{Counted, Worn};
ghost use Rattle.card.specs.Reports.{fault_report, report, counts_report};

mod codes;
mod column_bytes;
mod editions;

pub use codes::Code;
pub use column_bytes::{column, first_bad};
pub use editions::{columns, has_zero, length, wear_count, wears};
pub use flat::Edition;

// A fault of whoever wrote the card. Column names the first column that is 0 or has a bit at k or above.
// FirstByte and ZeroWear are faults of the second edition alone.
#[derive(Clone, Copy, Debug, PartialEq, Eq)]
pub enum CardFault {
    Short,
    FirstByte,
    DataCount,
    ParityCount,
    Length,
    Column(usize),
    ZeroWear,
}

impl CardFault {
    // The fault's number.
    pub fn number(self) -> usize
        ensures { result ≡ (fault_report self).number }
    {
        match self {
            CardFault::Short => 1,
            CardFault::FirstByte => 22,
            CardFault::DataCount => 2,
            CardFault::ParityCount => 3,
            CardFault::Length => 4,
            CardFault::Column(_) => 5,
            CardFault::ZeroWear => 23,
        }
    }

    // The value that the fault's report names, 0 where it names none.
    pub fn value(self) -> usize
        ensures { result ≡ get_or (fault_report self).values 0 0 }
    {
        match self {
            CardFault::Column(j) => j,
            _ => 0,
        }
    }
}

// How many data disks and parity disks a good card has.
#[derive(Clone, Copy, Debug, PartialEq, Eq)]
pub struct Counts {
    pub k: usize,
    pub m: usize,
}

// What the card reader reads from a good card. The columns stand in the first m places and the wears of the
// disks in the first k + m; the others are 0.
#[derive(Clone, Copy)]
pub struct CardRead {
    pub k: usize,
    pub m: usize,
    pub columns: [u16; 16],
    pub wears: [u8; 32],
}

// 1 to 16.
#[tactic(auto, unfolding(flat::specs::Cards::count_ok))]
pub fn count_ok(n: usize) -> bool
    ensures { result ≡ count_ok n }
{
    1 <= n && n <= 16
}

// A strip length: 1 to 65,536.
#[tactic(auto, unfolding(flat::specs::Strips::length_ok))]
pub fn length_ok(l: usize) -> bool
    ensures { result ≡ length_ok l }
{
    1 <= l && l <= 65536
}

// The counts that a card begins with, where they may be those of a code.
fn first_counts(edition: Edition, card: &[u8]) -> Result<(usize, usize), CardFault>
    ensures counted { IfOk result (λ counts. Counted (card_of edition card.now) counts.0 counts.1) }
    ensures fault { IfErr result (λ fault. fault_report fault ≡ card_report (card_of edition card.now)) }
{
    let at = editions::start(edition);
    if card.len() < at + 2 {
        return Err(CardFault::Short);
    }
    if !editions::first_byte_ok(edition, card) {
        return Err(CardFault::FirstByte);
    }
    let k = card[at] as usize;
    let m = card[at + 1] as usize;
    if !count_ok(k) {
        return Err(CardFault::DataCount);
    }
    if !count_ok(m) {
        return Err(CardFault::ParityCount);
    }
    Ok((k, m))
}

// The code of a card of the edition, or the card's fault. Every call makes this check, and that of a small stripe
// takes little longer than it: so it stands in line.
#[inline(always)]
pub fn check(edition: Edition, card: &[u8]) -> Result<Code<'_>, CardFault>
    ensures value { report result ≡ card_report (card_of edition card.now) }
    ensures code { IfOk result (λ code. code ≡ code_of (card_of edition card.now)) }
    ensures legal { IfOk result (λ code. Legal code) }
    ensures worn { IfOk result (λ code. Worn (card_of edition card.now) (disks code)) }
{
    let (k, m) = first_counts(edition, card)?;
    if card.len() != length(edition, k, m) {
        return Err(CardFault::Length);
    }
    let columns = editions::columns(edition, card);
    if let Some(bad) = column_bytes::first_bad_in(k, m, columns) {
        return Err(CardFault::Column(bad));
    }
    if editions::has_zero(editions::held(edition, card)) {
        return Err(CardFault::ZeroWear);
    }
    Ok(Code::new(columns, k, m))
}

// The check alone: of how many disks the card is, or its fault. The answer holds no loan of the card.
pub fn disk_counts(edition: Edition, card: &[u8]) -> Result<Counts, CardFault>
    ensures { counts_report result ≡ card_report (card_of edition card.now) }
{
    let found = check(edition, card)?;
    Ok(found.counts())
}

// The card reader: k, m, the columns and the wears of a good card, or its fault.
pub fn read(edition: Edition, card: &[u8]) -> Result<CardRead, CardFault>
    ensures counts { IfOk result (λ read. card_report (card_of edition card.now) ≡ accepted (read.k ∷ read.m ∷ [])) }
    ensures columns { IfOk result (λ read. read.columns ≡ card_columns (card_of edition card.now)) }
    ensures wears { IfOk result (λ read. read.wears ≡ card_wears (card_of edition card.now)) }
    ensures fault { IfErr result (λ fault. card_report (card_of edition card.now) ≡ fault_report fault) }
{
    let code = check(edition, card)?;
    Ok(CardRead {
        k: code.k(),
        m: code.m(),
        columns: code.columns(),
        wears: wears(edition, card, code.n()),
    })
}
