// The rebuilder: lost strips out of the survivors.
//
// Every byte string, length, set and stripe is a legal argument. What is answered for which input, and
// what is left in the stripe, is said in flat/specs/Faults.antt. No byte is written before every refusal is
// decided.
#![tactic(auto)]

ghost use Rattle.std.specs.Prelude.{◌≡◌, ◌*◌, ◌^◌, ◌<◌, ◌≤◌, length};
ghost use Rattle.flat.specs.Cards.{disks, card_of};
ghost use Rattle.flat.specs.Rebuilding.{agreeing, restored};
ghost use Rattle.flat.specs.Faults.{unless_refused, disks_report, rebuild_tests, rebuild_report, rebuild_stripe};
ghost use Rattle.rebuilder.specs.declared.RebuildError.TheVariants.{Card, Stripe};
ghost use Rattle.rebuilder.specs.Reports.{report};

use card::{CardFault, Code, Edition};
pub use restorer::StripeFault;

// Why nothing was rebuilt: the card's fault, that of a strip length, a lost set or a stripe, a fatal set, or survivors
// of no content.
#[derive(Clone, Copy, Debug, PartialEq, Eq)]
pub enum RebuildError {
    Card(CardFault),
    Stripe(StripeFault),
    Fatal,
    Inconsistent,
}

impl From<CardFault> for RebuildError {
    ghost from_gives = { λ fault error. error ≡ Card fault };

    fn from(fault: CardFault) -> RebuildError {
        RebuildError::Card(fault)
    }
}

impl From<StripeFault> for RebuildError {
    ghost from_gives = { λ fault error. error ≡ Stripe fault };

    fn from(fault: StripeFault) -> RebuildError {
        RebuildError::Stripe(fault)
    }
}

// The rebuilder past the tests of its arguments: the set is fatal where some disk stays undetermined; else all
// lost strips are restored where some content agrees with the survivors.
fn restore(code: &Code<'_>, l: usize, lost: u32, stripe: &mut [u8]) -> Result<u32, RebuildError>
    requires set { lost < 2 ^ disks code.now }
    requires sizes { (1 ≤ l) × (l ≤ 65536) × (length stripe.old ≡ disks code.now * l) }
    ensures answer { report result ≡ disks_report code.now l lost stripe.old }
    ensures stripe { stripe.new ≡ unless_refused (report result) (restored code.now l lost stripe.old (agreeing code.now l lost stripe.old)) stripe.old }
{
    if repairs::undetermined(&bases::rows(code), lost) != 0 {
        return Err(RebuildError::Fatal);
    }
    if !restorer::restore(code, l, lost, lost, stripe) {
        return Err(RebuildError::Inconsistent);
    }
    let count = gf2::size(lost);
    Ok(count)
}

// The rebuilder, for the code of an accepted card.
fn rebuild_code(
    code: &Code<'_>,
    l: usize,
    lost: u32,
    stripe: &mut [u8],
) -> Result<u32, RebuildError>
    ensures answer { report result ≡ rebuild_tests code.now l lost stripe.old }
    ensures stripe { stripe.new ≡ unless_refused (report result) (restored code.now l lost stripe.old (agreeing code.now l lost stripe.old)) stripe.old }
{
    restorer::tested(code.n(), l, lost, stripe.len())?;
    restore(code, l, lost, stripe)
}

// The rebuilder: the lost strips become those of the only content that agrees with the survivors. The answer is how
// many disks were lost.
pub fn rebuild(
    edition: Edition,
    card: &[u8],
    l: usize,
    lost: u32,
    stripe: &mut [u8],
) -> Result<u32, RebuildError>
    ensures result_value { report result ≡ rebuild_report (card_of edition card.now) l lost stripe.old }
    ensures stripe_after { stripe.new ≡ rebuild_stripe (card_of edition card.now) l lost stripe.old }
{
    let code = card::check(edition, card)?;
    rebuild_code(&code, l, lost, stripe)
}
