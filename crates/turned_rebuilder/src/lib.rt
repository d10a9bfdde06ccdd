// The turned rebuild, document 02's request [11]: the lost slots of a turned stripe out of the others, in place. No
// strip is moved: what is to be tested and filled is decided on sets of disks, and these become sets of slots.
//
// Every byte string, number, set and stripe is a legal argument. What is answered for which input, and what is
// left in the stripe, is said in turning/specs/Faults.antt. No byte is written before every refusal is decided.
#![tactic(auto)]

ghost use Rattle.std.specs.Prelude.{◌≡◌, map, ◌-◌, ◌*◌, ◌^◌, ◌<◌, ◌≤◌, length, if◌then◌else◌};
ghost use Rattle.gf2.specs.Within.{within};
ghost use Rattle.flat.specs.Cards.{disks, card_of};
ghost use Rattle.flat.specs.Repairs.{filled, consistent, equation_among};
ghost use Rattle.flat.specs.Rebuilding.{agreeing, restored};
ghost use Rattle.flat.specs.Faults.{unless_refused, disks_report};
ghost use Rattle.rebuilder.specs.Reports.{report};
ghost use Rattle.turning.specs.Turning.{turned, turned_back, disks_of};
ghost use Rattle.turning.specs.Slots.{rotated};
ghost use Rattle.turning.specs.Faults.{turned_tests, turned_report, turned_stripe};

use card::{Code, Edition};
use gf2::Basis;
use rebuilder::RebuildError;
use slots::Turn;

// The lost disks: those whose slots are lost.
fn lost_disks(turn: Turn, slots: u32) -> u32
    requires { slots < 2 ^ turn.n }
    ensures { result ≡ disks_of turn.n turn.by slots }
{
    turn.disks_of(slots)
}

// The check words among the disks that are left, as sets of slots.
fn words_of_slots(turn: Turn, checks: &Basis, left: u32) -> Basis
    ensures { result ≡ map (rotated turn.n (turn.n - turn.by)) (within left checks.now) }
{
    turn.basis(&checks.within(left))
}

// Whether no check word among the survivors of the lost disks tells against them. Where none does, the slot of each
// lost disk is filled by the slots of its equation, and where some does, nothing is written.
fn restore_slots(code: &Code<'_>, l: usize, turn: Turn, lost: u32, stripe: &mut [u8]) -> bool
    requires disks { (turn.n ≡ disks code.now) × (lost < 2 ^ disks code.now) }
    requires sizes { (1 ≤ l) × (l ≤ 65536) × (length stripe.old ≡ disks code.now * l) }
    ensures answer { result ≡ consistent code.now l lost (turned_back (disks code.now) l turn.by stripe.old) }
    ensures stripe { stripe.new ≡ (if result then turned (disks code.now) l turn.by (filled (disks code.now) l (equation_among code.now lost) lost (turned_back (disks code.now) l turn.by stripe.old)) else stripe.old) }
{
    let n = turn.n;
    let checks = bases::checks(code);
    let left = gf2::survivors(n, lost);
    let words = words_of_slots(turn, &checks, left);
    if !strips::all_vanish(stripe, l, n, &words) {
        return false;
    }
    let targets = turn.slots_of(lost);
    let sets = turn.equations(&checks, left, targets);
    strips::fill(stripe, l, n, targets, sets);
    true
}

// The turned rebuild past the tests of its arguments: the lost slots are fatal where some disk stays undetermined;
// else they are all restored where some content agrees with the survivors.
fn restore(
    code: &Code<'_>,
    l: usize,
    turn: Turn,
    lost: u32,
    stripe: &mut [u8],
) -> Result<u32, RebuildError>
    requires disks { (turn.n ≡ disks code.now) × (lost < 2 ^ disks code.now) }
    requires sizes { (1 ≤ l) × (l ≤ 65536) × (length stripe.old ≡ disks code.now * l) }
    ensures answer { report result ≡ disks_report code.now l lost (turned_back (disks code.now) l turn.by stripe.old) }
    ensures stripe { stripe.new ≡ unless_refused (report result) (turned (disks code.now) l turn.by (restored code.now l lost (turned_back (disks code.now) l turn.by stripe.old) (agreeing code.now l lost (turned_back (disks code.now) l turn.by stripe.old)))) stripe.old }
{
    if repairs::undetermined(&bases::rows(code), lost) != 0 {
        return Err(RebuildError::Fatal);
    }
    if !restore_slots(code, l, turn, lost, stripe) {
        return Err(RebuildError::Inconsistent);
    }
    let count = gf2::size(lost);
    Ok(count)
}

// The turned rebuild, for the code of an accepted card.
fn rebuild_code(
    code: &Code<'_>,
    l: usize,
    r: u32,
    slots: u32,
    stripe: &mut [u8],
) -> Result<u32, RebuildError>
    ensures answer { report result ≡ turned_tests code.now l r slots stripe.old }
    ensures stripe { stripe.new ≡ unless_refused (report result) (turned (disks code.now) l r (restored code.now l (disks_of (disks code.now) r slots) (turned_back (disks code.now) l r stripe.old) (agreeing code.now l (disks_of (disks code.now) r slots) (turned_back (disks code.now) l r stripe.old)))) stripe.old }
{
    let n = code.n();
    restorer::tested(n, l, slots, stripe.len())?;
    let turn = Turn::of(r, n);
    let lost = lost_disks(turn, slots);
    restore(code, l, turn, lost, stripe)
}

// The turned rebuild: each lost slot of stripe r gets the strip that the only content which agrees with the survivors
// gives its disk, slot (i + r) modulo n being that of disk i.
pub fn rebuild(
    edition: Edition,
    card: &[u8],
    l: usize,
    r: u32,
    slots: u32,
    stripe: &mut [u8],
) -> Result<u32, RebuildError>
    ensures result_value { report result ≡ turned_report (card_of edition card.now) l r slots stripe.old }
    ensures stripe_after { stripe.new ≡ turned_stripe (card_of edition card.now) l r slots stripe.old }
{
    let code = card::check(edition, card)?;
    rebuild_code(&code, l, r, slots, stripe)
}
