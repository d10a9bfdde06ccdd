// Stripes turned and turned back, document 02's request [11], each into a second buffer: two copies.
//
// Every byte string, number, stripe and buffer is a legal argument. What is answered for which input, and what
// is left in the buffer, is said in turning/specs/Faults.antt.
#![tactic(auto)]

ghost use Rattle.std.specs.Prelude.{◌≡◌, ◌*◌, ◌≤◌, length};
ghost use Rattle.flat.specs.Cards.{Code as FlatCode, disks, card_of};
ghost use Rattle.flat.specs.Faults.{unless_refused};
ghost use Rattle.turning.specs.Slots.{cut};
ghost use Rattle.turning.specs.Faults.{turn_tests, turn_report, turn_buffer, turn_back_buffer};
ghost use Rattle.turner.specs.declared.TurnError.TheVariants.{Card};
ghost use Rattle.turner.specs.Reports.{report};

use card::{CardFault, Edition};
use copies::copy;
use slots::Turn;

// Why nothing was turned: the card's fault, a strip length that is none, or a stripe or a second buffer of another
// length.
#[derive(Clone, Copy, Debug, PartialEq, Eq)]
pub enum TurnError {
    Card(CardFault),
    StripLength,
    BufferLength,
}

impl From<CardFault> for TurnError {
    ghost from_gives = { λ fault error. error ≡ Card fault };

    fn from(fault: CardFault) -> TurnError {
        TurnError::Card(fault)
    }
}

// The stripe from a place on, and then what stands before that place, into a buffer of its length.
fn copy_cut(stripe: &[u8], at: usize, out: &mut [u8])
    requires { (at ≤ length stripe.now) × (length out.old ≡ length stripe.now) }
    ensures { out.new ≡ cut at stripe.now }
{
    copy(out, 0, &stripe[at..]);
    copy(out, stripe.len() - at, &stripe[..at]);
}

// The strips of n disks from the first on, and then those before it; the tests come before a byte is written.
fn turn_to(n: usize, l: usize, first: usize, stripe: &[u8], out: &mut [u8]) -> Result<(), TurnError>
    requires { (n ≤ 32) × (first ≤ n) }
    ensures answer { (C : FlatCode) → disks C ≡ n → report result ≡ turn_tests C l (length stripe.now) (length out.old) }
    ensures out { out.new ≡ unless_refused (report result) (cut (first * l) stripe.now) out.old }
{
    if !card::length_ok(l) {
        return Err(TurnError::StripLength);
    }
    if stripe.len() != n * l {
        return Err(TurnError::BufferLength);
    }
    if out.len() != n * l {
        return Err(TurnError::BufferLength);
    }
    copy_cut(stripe, first * l, out);
    Ok(())
}

// Turns a stripe: slot (i + r) modulo n of the buffer gets the strip of disk i.
pub fn turn(
    edition: Edition,
    card: &[u8],
    l: usize,
    r: u32,
    stripe: &[u8],
    out: &mut [u8],
) -> Result<(), TurnError>
    ensures result_value { report result ≡ turn_report (card_of edition card.now) l (length stripe.now) (length out.old) }
    ensures out_after { out.new ≡ turn_buffer (card_of edition card.now) l r stripe.now out.old }
{
    let code = card::check(edition, card)?;
    let n = code.n();
    let turn = Turn::of(r, n);
    turn_to(n, l, n - turn.by, stripe, out)
}

// Turns it back: disk i of the buffer gets the strip of slot (i + r) modulo n.
pub fn turn_back(
    edition: Edition,
    card: &[u8],
    l: usize,
    r: u32,
    stripe: &[u8],
    out: &mut [u8],
) -> Result<(), TurnError>
    ensures result_value { report result ≡ turn_report (card_of edition card.now) l (length stripe.now) (length out.old) }
    ensures out_after { out.new ≡ turn_back_buffer (card_of edition card.now) l r stripe.now out.old }
{
    let code = card::check(edition, card)?;
    let n = code.n();
    let turn = Turn::of(r, n);
    turn_to(n, l, turn.by, stripe, out)
}
