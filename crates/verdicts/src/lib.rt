// The verdict on one set of disks: which of them the survivors of its loss don't determine.
//
// Every byte string and set is a legal argument. What is answered for which input is said in
// flat/specs/Faults.antt.
#![tactic(auto)]

ghost use Rattle.std.specs.Prelude.{◌≡◌};
ghost use Rattle.flat.specs.Cards.{card_of};
ghost use Rattle.flat.specs.Faults.{verdict_tests, verdict_report};
ghost use Rattle.verdicts.specs.declared.VerdictError.TheVariants.{Card};
ghost use Rattle.verdicts.specs.Reports.{report};

use card::{CardFault, Code, Edition};

// Why there is no verdict: the card's fault, or a set with a disk that the code lacks.
#[derive(Clone, Copy, Debug, PartialEq, Eq)]
pub enum VerdictError {
    Card(CardFault),
    OutsideSet,
}

impl From<CardFault> for VerdictError {
    ghost from_gives = { λ fault error. error ≡ Card fault };

    fn from(fault: CardFault) -> VerdictError {
        VerdictError::Card(fault)
    }
}

// The verdict, for the code of an accepted card.
fn verdict_code(code: &Code<'_>, set: u32) -> Result<u32, VerdictError>
    ensures { report result ≡ verdict_tests code.now set }
{
    if !gf2::below(set, code.n() as u32) {
        return Err(VerdictError::OutsideSet);
    }
    let undetermined = repairs::undetermined(&bases::rows(code), set);
    Ok(undetermined)
}

// The verdict call: the disks of the set that the survivors don't determine. The loss of the set is fatal where
// there is such a disk.
#[tactic(auto, using(card::proofs::Callers::good_with, card::proofs::Callers::bad_card), unfolding(flat::specs::Faults::verdict_report))]
pub fn verdict(edition: Edition, card: &[u8], set: u32) -> Result<u32, VerdictError>
    ensures { report result ≡ verdict_report (card_of edition card.now) set }
{
    let code = card::check(edition, card)?;
    verdict_code(&code, set)
}
