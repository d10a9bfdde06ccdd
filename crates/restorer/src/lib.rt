// Lost strips out of the survivors, for every call that rebuilds: the tests of its arguments; whether some content
// agrees with the survivors; and where one does, the strips of the disks that are to be restored, each by its
// equation.
//
// The code is that of an accepted card. What the survivors tell is found on sets (crate repairs); the strips are read and
// written by these sets alone (crate strips).
#![tactic(auto)]

ghost use Rattle.std.specs.Prelude.{◌≡◌, ◌*◌, ◌^◌, ◌<◌, ◌≤◌, T, length, if◌then◌else◌};
ghost use Rattle.gf2.specs.Sets.{◌⊆◌};
ghost use Rattle.flat.specs.Cards.{Code as FlatCode, disks};
ghost use Rattle.flat.specs.Faults.{Report, stripe_tests};
ghost use Rattle.flat.specs.Repairs.{filled, consistent, equation_among};
ghost use Rattle.restorer.specs.Reports.{report_before};

use card::Code;

// A fault of the arguments beside a card: a strip length that is none, a set with a disk that the code lacks, or a
// stripe of another length.
#[derive(Clone, Copy, Debug, PartialEq, Eq)]
pub enum StripeFault {
    StripLength,
    OutsideSet,
    StripeLength,
}

// The tests of a strip length, a lost set and a stripe of len bytes, in the documents' order, for every code of n
// disks.
pub fn tested(n: usize, l: usize, lost: u32, len: usize) -> Result<(), StripeFault>
    requires { n ≤ 32 }
    ensures { (C : FlatCode) (next : Report) → disks C ≡ n → report_before result next ≡ stripe_tests C l lost len next }
{
    if !card::length_ok(l) {
        return Err(StripeFault::StripLength);
    }
    if !gf2::below(lost, n as u32) {
        return Err(StripeFault::OutsideSet);
    }
    if len != n * l {
        return Err(StripeFault::StripeLength);
    }
    Ok(())
}

// Whether no check word among the survivors of the lost set tells against them. Where none does, the strip of
// each target, a lost disk, is filled by its equation among them, and where some does, nothing is written. A
// target that they don't determine would be filled with zeros: no caller names one.
pub fn restore(code: &Code<'_>, l: usize, lost: u32, targets: u32, stripe: &mut [u8]) -> bool
    requires sets { (lost < 2 ^ disks code.now) × T (targets ⊆ lost) }
    requires sizes { (1 ≤ l) × (l ≤ 65536) × (length stripe.old ≡ disks code.now * l) }
    ensures answer { result ≡ consistent code.now l lost stripe.old }
    ensures stripe { stripe.new ≡ (if result then filled (disks code.now) l (equation_among code.now lost) targets stripe.old else stripe.old) }
{
    let n = code.n();
    let checks = bases::checks(code);
    let left = gf2::survivors(n, lost);
    if !strips::all_vanish(stripe, l, n, &checks.within(left)) {
        return false;
    }
    let equations = repairs::equations(&checks, n, left, targets);
    strips::fill(stripe, l, n, targets, equations);
    true
}
