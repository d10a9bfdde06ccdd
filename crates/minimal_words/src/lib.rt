// The minimal words of a span, one candidate for each number that selects rows.
#![tactic(auto)]

ghost use Rattle.std.specs.Prelude.{◌≡◌, ◌≢◌, ℕ, ◌^◌, ◌<◌, eqb, length};
ghost use Rattle.gf2.specs.Span.{select};
ghost use Rattle.gf2.specs.Within.{within};
ghost use Rattle.flat.specs.Lists.{tabulate};
ghost use Rattle.minimal_words.specs.Systematic.{Systematic};
ghost use Rattle.minimal_words.specs.Listed.{step_of};

use gf2::Basis;

// Whether one row is left inside the word w that x selects: whether the word is minimal.
// Only the rows that x selects are looked at. Their XOR stays w: the last of them is w itself, which
// needs no clearing to be known, and a row inside w before the last leaves another word inside.
pub fn minimal(basis: &Basis, x: u32, w: u32) -> bool
    requires systematic { (n : ℕ) × Systematic n basis.now }
    requires selected { (x ≢ 0) × (x < 2 ^ length basis.now) × (w ≡ select basis.now x) }
    ensures { result ≡ eqb (length (within w basis.now)) 1 }
{
    let mut rows = basis.rows();
    let mut left = x;
    loop {
        let i = gf2::lowest(left);
        let next = left ^ (1u32 << i);
        if next == 0 {
            return true;
        }
        let b = rows[i as usize];
        if gf2::inside(b, w) {
            return false;
        }
        if next == 1u32 << gf2::lowest(next) {
            return true;
        }
        rows = gf2::cleared_all(gf2::lowest(gf2::outside(b, w)), b, rows);
        left = next;
    }
}

// What the words of two numbers in a row differ by: at the place of the later number's lowest bit stands
// the XOR of the rows up to that bit.
pub fn steps(mut rows: [u32; 16]) -> [u32; 16]
    ensures { result ≡ tabulate 16 (step_of rows) }
{
    let mut sum = 0;
    for row in &mut rows {
        sum ^= *row;
        *row = sum;
    }
    rows
}
