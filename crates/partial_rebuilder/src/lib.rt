// Partial rebuild, document 02's request [5]: the lost strips that the survivors determine, and which lost
// disks they don't.
//
// Every byte string, length, set and stripe is a legal argument. What is answered for which input, and
// what is left in the stripe, is said in partial_rebuilding/specs/Faults.antt. No byte is written before every
// refusal is decided.
#![tactic(auto)]

ghost use Rattle.std.specs.Prelude.{◌≡◌, ◌*◌, ◌^◌, ◌<◌, ◌≤◌, length};
ghost use Rattle.flat.specs.Cards.{disks, card_of};
ghost use Rattle.flat.specs.Erasures.{undetermined_set, determined_set};
ghost use Rattle.flat.specs.Rebuilding.{agreeing, restored};
ghost use Rattle.flat.specs.Faults.{unless_refused};
ghost use Rattle.partial_rebuilding.specs.Faults.{found_report, partial_tests, partial_report, partial_stripe};
ghost use Rattle.partial_rebuilder.specs.declared.PartialError.TheVariants.{Card, Stripe};
ghost use Rattle.partial_rebuilder.specs.Reports.{report};

use card::{CardFault, Code, Edition};
pub use restorer::StripeFault;

// Why nothing was rebuilt: the card's fault, that of a strip length, a lost set or a stripe, or survivors of no
// content.
#[derive(Clone, Copy, Debug, PartialEq, Eq)]
pub enum PartialError {
    Card(CardFault),
    Stripe(StripeFault),
    Inconsistent,
}

impl From<CardFault> for PartialError {
    ghost from_gives = { λ fault error. error ≡ Card fault };

    fn from(fault: CardFault) -> PartialError {
        PartialError::Card(fault)
    }
}

impl From<StripeFault> for PartialError {
    ghost from_gives = { λ fault error. error ≡ Stripe fault };

    fn from(fault: StripeFault) -> PartialError {
        PartialError::Stripe(fault)
    }
}

// A partial rebuild past the tests of its arguments: the strips of the determined lost disks are restored where
// some content agrees with the survivors.
fn restore(code: &Code<'_>, l: usize, lost: u32, stripe: &mut [u8]) -> Result<u32, PartialError>
    requires set { lost < 2 ^ disks code.now }
    requires sizes { (1 ≤ l) × (l ≤ 65536) × (length stripe.old ≡ disks code.now * l) }
    ensures answer { report result ≡ found_report (undetermined_set code.now lost) (agreeing code.now l lost stripe.old) }
    ensures stripe { stripe.new ≡ unless_refused (report result) (restored code.now l (determined_set code.now lost) stripe.old (agreeing code.now l lost stripe.old)) stripe.old }
{
    let undetermined = repairs::undetermined(&bases::rows(code), lost);
    let determined = gf2::outside(lost, undetermined);
    if !restorer::restore(code, l, lost, determined, stripe) {
        return Err(PartialError::Inconsistent);
    }
    Ok(undetermined)
}

// A partial rebuild, for the code of an accepted card.
fn rebuild_code(
    code: &Code<'_>,
    l: usize,
    lost: u32,
    stripe: &mut [u8],
) -> Result<u32, PartialError>
    ensures answer { report result ≡ partial_tests code.now l lost stripe.old }
    ensures stripe { stripe.new ≡ unless_refused (report result) (restored code.now l (determined_set code.now lost) stripe.old (agreeing code.now l lost stripe.old)) stripe.old }
{
    restorer::tested(code.n(), l, lost, stripe.len())?;
    restore(code, l, lost, stripe)
}

// A partial rebuild: the strips of the determined lost disks become those that every content gives which
// agrees with the survivors, and all others keep their bytes. The answer is the lost disks that the survivors don't
// determine.
pub fn rebuild(
    edition: Edition,
    card: &[u8],
    l: usize,
    lost: u32,
    stripe: &mut [u8],
) -> Result<u32, PartialError>
    ensures result_value { report result ≡ partial_report (card_of edition card.now) l lost stripe.old }
    ensures stripe_after { stripe.new ≡ partial_stripe (card_of edition card.now) l lost stripe.old }
{
    let code = card::check(edition, card)?;
    rebuild_code(&code, l, lost, stripe)
}
