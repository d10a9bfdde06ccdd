// The static library for C and Rust: the documents' calls, exported. Here stand those on sets and stripes,
// in `cards`, `records`, `trays` and `turns` the others.
//
// An answer is one number: the report's number, 0 where the call is accepted, and 256 times the value
// that the report names, if it names one; so its low 8 bits tell whether the call is refused. Where an
// accepted call names several, they go into arrays that the caller lends. A slice is passed as a pointer
// and a count. A card has its edition before it: `second` says that it is the second. Every byte string,
// set and slice is a legal argument.
#![tactic(auto)]

ghost use Rattle.std.specs.Prelude.{◌≡◌, length};
ghost use Rattle.flat.specs.Cards.{card_of};
ghost use Rattle.flat.specs.Faults.{unless_refused, encode_report, encode_stripe, verdict_report, erasures_report, erasures_vector, erasures_slice, equations_report, equations_slice, rebuild_report, rebuild_stripe};
ghost use Rattle.wear.specs.Wear.{least_wear_report};
ghost use Rattle.updating.specs.Faults.{update_report, update_stripe};
ghost use Rattle.partial_rebuilding.specs.Faults.{partial_report, partial_stripe};
ghost use Rattle.export_bounds.specs.Coded.{coded, named};

use export_codes::{
    edition, encoded_code, least_wear_code, listed_code, partly_rebuilt_code, rebuilt_code,
    told_code, updated_code, verdict_code,
};

mod cards;
mod records;
mod trays;
mod turns;

// The encoder: the parity strips of the stripe, each byte the XOR of the same byte of its data disks. A
// refused call writes nothing.
#[tactic(auto, using(export_bounds::proofs::Values::encode_fits))]
#[unsafe(no_mangle)]
pub extern "C" fn bridgecrumb_encode(second: bool, card: &[u8], l: usize, stripe: &mut [u8]) -> u64
    ensures value { result ≡ coded (encode_report (card_of (named second) card.now) l (length stripe.old)) }
    ensures stripe_after { stripe.new ≡ encode_stripe (card_of (named second) card.now) l stripe.old }
{
    encoded_code(encoder::encode(edition(second), card, l, stripe))
}

// The update: the strip of the data disk becomes the new one, and each byte of the parities that name the
// disk is XORed with the old and the new data byte. A refused call writes nothing.
#[tactic(auto, using(export_bounds::proofs::UpdateValues::update_fits))]
#[unsafe(no_mangle)]
pub extern "C" fn bridgecrumb_update(
    second: bool,
    card: &[u8],
    l: usize,
    stripe: &mut [u8],
    disk: usize,
    new: &[u8],
) -> u64
    ensures value { result ≡ coded (update_report (card_of (named second) card.now) l (length stripe.old) disk (length new.now)) }
    ensures stripe_after { stripe.new ≡ update_stripe (card_of (named second) card.now) l stripe.old disk new.now }
{
    updated_code(updater::update(edition(second), card, l, stripe, disk, new))
}

// The verdict call: the disks of the set that the survivors don't determine. The loss of the set is fatal where
// there is such a disk.
#[tactic(auto, using(export_bounds::proofs::Values::verdict_fits))]
#[unsafe(no_mangle)]
pub extern "C" fn bridgecrumb_verdict(second: bool, card: &[u8], set: u32) -> u64
    ensures { result ≡ coded (verdict_report (card_of (named second) card.now) set) }
{
    verdict_code(verdicts::verdict(edition(second), card, set))
}

// The lister: all minimal erasures into the slice, smaller size first, then smaller data part, and how
// many of them hold i disks into place i - 1 of the vector. A refused call writes nothing.
#[tactic(auto, using(export_bounds::proofs::Values::erasures_fits))]
#[unsafe(no_mangle)]
pub extern "C" fn bridgecrumb_list(
    second: bool,
    card: &[u8],
    out: &mut [u32],
    vector: &mut [usize; 17],
) -> u64
    ensures value { result ≡ coded (erasures_report (card_of (named second) card.now) (length out.old)) }
    ensures out_after { out.new ≡ erasures_slice (card_of (named second) card.now) out.old }
    ensures vector_after { vector.new ≡ unless_refused (erasures_report (card_of (named second) card.now) (length out.old)) (erasures_vector (card_of (named second) card.now) (length out.old)) vector.old }
{
    match erasures::list(edition(second), card, out) {
        Ok(listing) => {
            let counts = listing.vector;
            *vector = counts;
            listed_code(Ok(listing))
        }
        Err(error) => listed_code(Err(error)),
    }
}

// The equation call: the equations of the disk into the slice, smaller size first, then fewer parity
// disks, then smaller set number. A refused call writes nothing.
#[tactic(auto, using(export_bounds::proofs::Values::equations_fits))]
#[unsafe(no_mangle)]
pub extern "C" fn bridgecrumb_equations(
    second: bool,
    card: &[u8],
    disk: usize,
    out: &mut [u32],
) -> u64
    ensures value { result ≡ coded (equations_report (card_of (named second) card.now) disk (length out.old)) }
    ensures out_after { out.new ≡ equations_slice (card_of (named second) card.now) disk out.old }
{
    told_code(equations::list(edition(second), card, disk, out))
}

// The least-wear call: of the equations of the disk among the survivors, the one with the least total wear.
#[tactic(auto, using(export_bounds::proofs::WearValues::least_wear_fits))]
#[unsafe(no_mangle)]
pub extern "C" fn bridgecrumb_least_wear(second: bool, card: &[u8], disk: usize, lost: u32) -> u64
    ensures { result ≡ coded (least_wear_report (card_of (named second) card.now) disk lost) }
{
    least_wear_code(least_wear::least(edition(second), card, disk, lost))
}

// The rebuilder: the lost strips become those of the only content that agrees with the survivors. A
// refused call writes nothing.
#[tactic(auto, using(export_bounds::proofs::Values::rebuild_fits))]
#[unsafe(no_mangle)]
pub extern "C" fn bridgecrumb_rebuild(
    second: bool,
    card: &[u8],
    l: usize,
    lost: u32,
    stripe: &mut [u8],
) -> u64
    ensures value { result ≡ coded (rebuild_report (card_of (named second) card.now) l lost stripe.old) }
    ensures stripe_after { stripe.new ≡ rebuild_stripe (card_of (named second) card.now) l lost stripe.old }
{
    rebuilt_code(rebuilder::rebuild(edition(second), card, l, lost, stripe))
}

// A partial rebuild: the lost strips that the survivors determine become those of any content that agrees with
// them, and the other strips keep their bytes. The value is the set of lost disks that they don't determine.
// A refused call writes nothing.
#[tactic(auto, using(export_bounds::proofs::PartialValues::partial_fits))]
#[unsafe(no_mangle)]
pub extern "C" fn bridgecrumb_partial_rebuild(
    second: bool,
    card: &[u8],
    l: usize,
    lost: u32,
    stripe: &mut [u8],
) -> u64
    ensures value { result ≡ coded (partial_report (card_of (named second) card.now) l lost stripe.old) }
    ensures stripe_after { stripe.new ≡ partial_stripe (card_of (named second) card.now) l lost stripe.old }
{
    partly_rebuilt_code(partial_rebuilder::rebuild(edition(second), card, l, lost, stripe))
}
