// The encoder: reads the k data strips of a stripe and writes its m parity strips, each byte the XOR of
// the same byte of the parity's data disks.
//
// Every data byte is multiplied by the bit of every column, 0 or 1. Once the card is checked, no branch, no
// address and no count follows from a column: what is read and written, and how often, follows from k, m
// and l alone.
//
// Every byte string, number and stripe is a legal argument. What is answered for which input is said in
// flat/specs/Faults.antt.
#![tactic(auto)]

ghost use Rattle.std.specs.Prelude.{◌≡◌, ◌⊎◌, ℕ, ◌+◌, ◌*◌, ◌<◌, ◌≤◌, length, get_or, OnOk};
ghost use Rattle.gf2.specs.Sets.{bit};
ghost use Rattle.flat.specs.Cards.{card_of, column, disks};
ghost use Rattle.flat.specs.Strips.{encoded};
ghost use Rattle.flat.specs.Faults.{encode_tests, encode_report, encode_stripe};
ghost use Rattle.encoder.specs.declared.EncodeError.TheVariants.{Card};
ghost use Rattle.encoder.specs.Reports.{report};

use card::{CardFault, Code, Edition};
use strip_products::BitTable;

// Why nothing was encoded: the card's fault, a strip length that is none, or a stripe of another length.
#[derive(Clone, Copy, Debug, PartialEq, Eq)]
pub enum EncodeError {
    Card(CardFault),
    StripLength,
    StripeLength,
}

impl From<CardFault> for EncodeError {
    ghost from_gives = { λ fault error. error ≡ Card fault };

    fn from(fault: CardFault) -> EncodeError {
        EncodeError::Card(fault)
    }
}

// Row i of the table: bit i of each column.
#[tactic(auto, using(crate::proofs::Laws::row_none, crate::proofs::Laws::row_more), unfolding(gf2::specs::Sets::bit))]
fn row(bits: &mut BitTable, i: usize, code: &Code)
    requires { i < 16 }
    ensures row { (j : ℕ) → j < code.now.m → get_or bits.new (i * 16 + j) 0 ≡ bit (column code.now j) i }
    ensures kept { (p : ℕ) → (p < i * 16) ⊎ (i * 16 + code.now.m ≤ p) → get_or bits.new p 0 ≡ get_or bits.old p 0 }
{
    for j in 0..code.m() {
        bits.set(i, j, ((code.column(j) >> i) % 2) as u8);
    }
}

// The same of an array of columns. It has as many places as the row, so that the compiler shifts eight at once and none is
// left over.
#[tactic(auto, using(crate::proofs::Laws::row_none, crate::proofs::Laws::row_more), unfolding(gf2::specs::Sets::bit))]
fn whole_row(bits: &mut BitTable, i: usize, columns: &[u16; 16])
    requires { i < 16 }
    ensures row { (j : ℕ) → j < 16 → get_or bits.new (i * 16 + j) 0 ≡ bit (get_or columns.now j 0) i }
    ensures kept { (p : ℕ) → (p < i * 16) ⊎ (i * 16 + 16 ≤ p) → get_or bits.new p 0 ≡ get_or bits.old p 0 }
{
    for j in 0..16 {
        bits.set(i, j, ((columns[j] >> i) % 2) as u8);
    }
}

// The columns' bits into the table, out of an array of the columns. The other places mean nothing.
fn fill_whole_rows(bits: &mut BitTable, code: &Code)
    ensures { (i j : ℕ) → i < code.now.k → j < code.now.m → get_or bits.new (i * 16 + j) 0 ≡ bit (column code.now j) i }
{
    let columns = code.columns();
    let k = code.k();
    for i in 0..k {
        whole_row(bits, i, &columns);
    }
}

// The same out of the columns where they stand in the card.
fn fill_rows(bits: &mut BitTable, code: &Code)
    ensures { (i j : ℕ) → i < code.now.k → j < code.now.m → get_or bits.new (i * 16 + j) 0 ≡ bit (column code.now j) i }
{
    for i in 0..code.k() {
        row(bits, i, code);
    }
}

// The same in the way that suits their number: for fewer than four the array takes longer to make than it saves.
fn fill_table(bits: &mut BitTable, code: &Code)
    ensures { (i j : ℕ) → i < code.now.k → j < code.now.m → get_or bits.new (i * 16 + j) 0 ≡ bit (column code.now j) i }
{
    if code.m() < 4 {
        fill_rows(bits, code);
    } else {
        fill_whole_rows(bits, code);
    }
}

// Whether strips of l bytes and a stripe of size bytes may be encoded, in the document's order of the tests.
#[tactic(auto, unfolding(flat::specs::Faults::encode_tests))]
fn tests(code: &Code, l: usize, size: usize) -> Result<(), EncodeError>
    ensures value { report result ≡ encode_tests code.now l size }
    ensures fits { OnOk result ((1 ≤ l) × (l ≤ 65536) × (disks code.now * l ≡ size)) }
{
    if !card::length_ok(l) {
        return Err(EncodeError::StripLength);
    }
    if size != code.n() * l {
        return Err(EncodeError::StripeLength);
    }
    Ok(())
}

// The parity strips of a stripe of the code's length.
fn encode_code(code: &Code, l: usize, stripe: &mut [u8])
    requires { (1 ≤ l) × (l ≤ 65536) × (disks code.now * l ≡ length stripe.old) }
    ensures { stripe.new ≡ encoded code.now l stripe.old }
{
    let mut bits = BitTable::new();
    fill_table(&mut bits, code);
    strip_steady::fill(stripe, l, code.k(), code.m(), &bits);
}

// The encoder.
#[tactic(auto, using(card::proofs::Callers::good_with, card::proofs::Callers::bad_card), unfolding(flat::specs::Faults::encode_report))]
pub fn encode(edition: Edition, card: &[u8], l: usize, stripe: &mut [u8]) -> Result<(), EncodeError>
    ensures result_value { report result ≡ encode_report (card_of edition card.now) l (length stripe.old) }
    ensures stripe_after { stripe.new ≡ encode_stripe (card_of edition card.now) l stripe.old }
{
    let code = card::check(edition, card)?;
    tests(&code, l, stripe.len())?;
    encode_code(&code, l, stripe);
    Ok(())
}
