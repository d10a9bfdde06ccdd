// Quick repair of one stripe, document 02's request [1]: easy losses mended step by step, each by one check. In
// the field's words, peeling.
//
// The code is that of an accepted card, and the stripe has as many bytes as its strips. What a step is, and what
// all of them do, is said in peeling/specs/Peeling.antt.
#![tactic(auto)]

ghost use Rattle.std.specs.Prelude.{◌≡◌, ◌≢◌, ℕ, ◌*◌, ◌≤◌, T, length, MatchOption};
ghost use Rattle.gf2.specs.Sets.{has, ◌∖◌};
ghost use Rattle.flat.specs.Cards.{disks};
ghost use Rattle.flat.specs.Repairs.{filled};
ghost use Rattle.peeling.specs.Peeling.{peeled};
ghost use Rattle.peeler.specs.Forms.{better, found};

use card::Code;
use gf2::Basis;

// A step: the disk that it restores, as a set, and the others of its check.
#[derive(Clone, Copy)]
struct Step {
    disk: u32,
    others: u32,
}

// Whether the members of a check that are lost are one disk, and a lower one than was found; none is the
// empty set.
fn better(lost: u32, found: u32) -> bool
    ensures { result ≡ better lost found }
{
    gf2::size(lost) == 1 && (found == 0 || lost < found)
}

// The step of the rule, if there is one, in one pass over the checks: the lowest lone disk, and the first of its
// checks.
fn next(checks: &Basis, left: u32) -> Option<Step>
    ensures { MatchOption result ((found checks.now left (length checks.now)).set ≡ 0) (λ step. (step.disk ≢ 0) × (step.disk ≡ (found checks.now left (length checks.now)).set) × (step.others ≡ (found checks.now left (length checks.now)).word ∖ step.disk)) }
{
    let mut disk = 0u32;
    let mut word = 0u32;
    for check in checks.words() {
        let lost = *check & left;
        if better(lost, disk) {
            disk = lost;
            word = *check;
        }
    }
    if disk == 0 {
        return None;
    }
    Some(Step {
        disk,
        others: gf2::outside(word, disk),
    })
}

// A step's disk gets the XOR of the others' strips.
fn mend(s: &mut [u8], l: usize, n: usize, step: Step)
    requires sizes { (1 ≤ l) × (n ≤ 32) × (n * l ≡ length s.old) }
    requires apart { (i : ℕ) → T (has step.others i) → T (has step.disk i) → ⊥ }
    ensures { s.new ≡ filled n l (λ d. step.others) step.disk s.old }
{
    strips::fill(s, l, n, step.disk, [step.others; 32]);
}

// How many steps were made, and what is left of the lost set.
#[derive(Clone, Copy)]
pub struct Made {
    pub steps: usize,
    pub left: u32,
}

// One stripe: steps until it sticks or the budget is used up.
pub fn peel(code: &Code<'_>, l: usize, lost: u32, budget: usize, stripe: &mut [u8]) -> Made
    requires { (1 ≤ l) × (length stripe.old ≡ disks code.now * l) }
    ensures steps { result.steps ≡ (peeled code.now l budget lost stripe.old).steps }
    ensures left { result.left ≡ (peeled code.now l budget lost stripe.old).left }
    ensures stripe { stripe.new ≡ (peeled code.now l budget lost stripe.old).stripe }
{
    let checks = bases::checks(code);
    let n = code.n();
    let mut left = lost;
    for steps in 0..budget {
        let Some(step) = next(&checks, left) else {
            return Made { steps, left };
        };
        mend(stripe, l, n, step);
        left = gf2::outside(left, step.disk);
    }
    Made {
        steps: budget,
        left,
    }
}
