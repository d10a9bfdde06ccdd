// Document 02's calls on turned stripes, exported.
ghost use Rattle.std.specs.Prelude.{◌≡◌, length};
ghost use Rattle.flat.specs.Cards.{card_of};
ghost use Rattle.turning.specs.Faults.{turn_report, turn_buffer, turn_back_buffer, turned_report, turned_stripe};
ghost use Rattle.export_bounds.specs.Coded.{coded, named};

use export_codes::{edition, rebuilt_code, turned_code};

// Turns a stripe into a second buffer: slot (i + r) modulo n gets the strip of disk i. A refused call writes
// nothing.
#[tactic(auto, using(export_bounds::proofs::TurnValues::turn_fits))]
#[unsafe(no_mangle)]
pub extern "C" fn bridgecrumb_turn(
    second: bool,
    card: &[u8],
    l: usize,
    r: u32,
    stripe: &[u8],
    out: &mut [u8],
) -> u64
    ensures value { result ≡ coded (turn_report (card_of (named second) card.now) l (length stripe.now) (length out.old)) }
    ensures out_after { out.new ≡ turn_buffer (card_of (named second) card.now) l r stripe.now out.old }
{
    turned_code(turner::turn(edition(second), card, l, r, stripe, out))
}

// Turns it back: disk i gets the strip of slot (i + r) modulo n. A refused call writes nothing.
#[tactic(auto, using(export_bounds::proofs::TurnValues::turn_fits))]
#[unsafe(no_mangle)]
pub extern "C" fn bridgecrumb_turn_back(
    second: bool,
    card: &[u8],
    l: usize,
    r: u32,
    stripe: &[u8],
    out: &mut [u8],
) -> u64
    ensures value { result ≡ coded (turn_report (card_of (named second) card.now) l (length stripe.now) (length out.old)) }
    ensures out_after { out.new ≡ turn_back_buffer (card_of (named second) card.now) l r stripe.now out.old }
{
    turned_code(turner::turn_back(edition(second), card, l, r, stripe, out))
}

// The turned rebuild, in place: the lost slots of stripe r get the strips that the only content which agrees with
// the survivors gives their disks. A refused call writes nothing.
#[tactic(auto, using(export_bounds::proofs::TurnValues::turned_fits))]
#[unsafe(no_mangle)]
pub extern "C" fn bridgecrumb_rebuild_turned(
    second: bool,
    card: &[u8],
    l: usize,
    r: u32,
    slots: u32,
    stripe: &mut [u8],
) -> u64
    ensures value { result ≡ coded (turned_report (card_of (named second) card.now) l r slots stripe.old) }
    ensures stripe_after { stripe.new ≡ turned_stripe (card_of (named second) card.now) l r slots stripe.old }
{
    rebuilt_code(turned_rebuilder::rebuild(edition(second), card, l, r, slots, stripe))
}
