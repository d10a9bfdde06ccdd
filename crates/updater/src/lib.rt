// One strip rewritten, document 02's request [4]: a data disk gets a new strip, and the parities that name it
// change with it. In the field's words, an update.
//
// Every byte string, number, stripe, disk and new strip is a legal argument. What is answered for which
// input, and what is left in the stripe, is said in updating/specs/Faults.antt.
#![tactic(auto)]

ghost use Rattle.std.specs.Prelude.{◌≡◌, ◌∷◌, [], ◌+◌, ◌*◌, ◌<◌, ◌≤◌, length, IfErr, OnOk};
ghost use Rattle.flat.specs.Cards.{card_of, disks};
ghost use Rattle.flat.specs.Faults.{accepted};
ghost use Rattle.updating.specs.Updating.{updated, naming};
ghost use Rattle.updating.specs.Faults.{update_tests, update_report, update_stripe};
ghost use Rattle.updater.specs.declared.UpdateError.TheVariants.{Card};
ghost use Rattle.updater.specs.Reports.{error_report, report};

mod parities;

use crate::parities::NamingParities;
use card::{CardFault, Code, Edition};

// Why nothing was rewritten: the card's fault, a strip length that is none, a disk that the code lacks, a
// parity disk, a stripe of another length, or a new strip of another length.
#[derive(Clone, Copy, Debug, PartialEq, Eq)]
pub enum UpdateError {
    Card(CardFault),
    StripLength,
    NoDisk,
    ParityDisk,
    StripeLength,
    NewLength,
}

impl From<CardFault> for UpdateError {
    ghost from_gives = { λ fault error. error ≡ Card fault };

    fn from(fault: CardFault) -> UpdateError {
        UpdateError::Card(fault)
    }
}

// Whether a new strip of new bytes may be written for a disk of a stripe of size bytes, in strips of l bytes:
// the tests stand in the document's order.
#[tactic(auto, unfolding(updating::specs::Faults::update_tests))]
fn tests(code: &Code, l: usize, size: usize, disk: usize, new: usize) -> Result<(), UpdateError>
    ensures refused { IfErr result (λ error. error_report error ≡ update_tests code.now l size disk new) }
    ensures accepted { OnOk result (accepted ((1 + naming code.now disk) ∷ []) ≡ update_tests code.now l size disk new) }
    ensures disk { OnOk result (disk < code.now.k) }
    ensures lengths { OnOk result ((1 ≤ l) × (l ≤ 65536) × (size ≡ disks code.now * l) × (new ≡ l)) }
{
    if !card::length_ok(l) {
        return Err(UpdateError::StripLength);
    }
    if code.n() <= disk {
        return Err(UpdateError::NoDisk);
    }
    if code.k() <= disk {
        return Err(UpdateError::ParityDisk);
    }
    if size != code.n() * l {
        return Err(UpdateError::StripeLength);
    }
    if new != l {
        return Err(UpdateError::NewLength);
    }
    Ok(())
}

// The new strip and the parities that name its disk; how many parities.
#[tactic(auto, using(crate::proofs::Named::own_inside))]
fn rewrite(code: &Code, stripe: &mut [u8], disk: usize, new: &[u8]) -> usize
    requires disk { disk < code.now.k }
    requires lengths { (1 ≤ length new.now) × (length new.now ≤ 65536) × (length stripe.old ≡ disks code.now * length new.now) }
    ensures count { result ≡ naming code.now disk }
    ensures bound { result ≤ 16 }
    ensures stripe_after { stripe.new ≡ updated code.now (length new.now) disk new.now stripe.old }
{
    let l = new.len();
    let mut naming = NamingParities::new();
    naming.list(code, disk, l);
    let places = naming.places();
    strip_updates::update(stripe, disk * l, places, new);
    places.len()
}

// The update: the strip of the data disk becomes the new one, and each byte of the parities that name the
// disk is XORed with the old and the new data byte. It answers how many strips were rewritten. No byte is
// written before every refusal is decided.
#[tactic(auto, using(card::proofs::Callers::good_with, card::proofs::Callers::bad_card), unfolding(updating::specs::Faults::update_report))]
pub fn update(
    edition: Edition,
    card: &[u8],
    l: usize,
    stripe: &mut [u8],
    disk: usize,
    new: &[u8],
) -> Result<usize, UpdateError>
    ensures result_value { report result ≡ update_report (card_of edition card.now) l (length stripe.old) disk (length new.now) }
    ensures stripe_after { stripe.new ≡ update_stripe (card_of edition card.now) l stripe.old disk new.now }
{
    let code = card::check(edition, card)?;
    tests(&code, l, stripe.len(), disk, new.len())?;
    let count = rewrite(&code, stripe, disk, new);
    Ok(1 + count)
}
