// What the survivors of a lost set tell, in sets alone, out of the rows and the checks of a code: which
// lost disks stay undetermined, and an equation of each lost disk that they determine. No strip is read
// here, and no card. Which sets of survivors must XOR to 0, `within` of the checks answers.
//
// What these are is said in flat/specs: Erasures, Spans and Repairs, with the theorems of Theorems and
// Rebuilt.
#![tactic(auto)]

ghost use Rattle.std.specs.Prelude.{◌≡◌, ◌&&◌, ◌<◌, ◌≤◌, ltb, if◌then◌else◌};
ghost use Rattle.gf2.specs.Sets.{has, union};
ghost use Rattle.gf2.specs.Within.{within};
ghost use Rattle.flat.specs.Lists.{tabulate};
ghost use Rattle.flat.specs.Repairs.{holder, equation_in};

use gf2::Basis;

// The lost disks that stay undetermined: those that a row left inside the lost set holds.
pub fn undetermined(rows: &Basis, lost: u32) -> u32
    ensures { result ≡ union (within lost rows.now) }
{
    rows.within(lost).union()
}

// The first word that holds disk d, and the empty set where there is none.
pub fn holder(words: &Basis, d: usize) -> u32
    requires { d < 32 }
    ensures { result ≡ holder d words.now }
{
    words
        .words()
        .iter()
        .find(|word| gf2::has(**word, d as u32))
        .copied()
        .unwrap_or(0)
}

// A check word of disk d and of disks that are left, less d: an equation of d.
pub fn equation_in(checks: &Basis, left: u32, d: usize) -> u32
    requires { d < 32 }
    ensures { result ≡ equation_in checks.now left d }
{
    let disk = 1u32 << d;
    gf2::outside(holder(&checks.within(left ^ disk), d), disk)
}

// The same where d is a target; the empty set where it is not.
fn equation_if_target(checks: &Basis, left: u32, targets: u32, d: usize) -> u32
    requires { d < 32 }
    ensures { result ≡ (if has targets d then equation_in checks.now left d else 0) }
{
    if gf2::has(targets, d as u32) {
        equation_in(checks, left, d)
    } else {
        0
    }
}

// The same of each disk below n, at its place. Where the disks that are left are the survivors, that of a
// lost disk that they determine is an equation, and that of an undetermined disk is empty.
pub fn equations(checks: &Basis, n: usize, left: u32, targets: u32) -> [u32; 32]
    requires { n ≤ 32 }
    ensures { result ≡ tabulate 32 (λ d. if ltb d n && has targets d then equation_in checks.now left d else 0) }
{
    let mut out = [0; 32];
    for d in 0..n {
        out[d] = equation_if_target(checks, left, targets, d);
    }
    out
}
