// The rows and the checks of a code. Document 01's questions about a code are questions about the spans of
// these (flat/specs/Theorems.antt).
//
// The code is that of an accepted card.
#![tactic(auto)]

ghost use Rattle.std.specs.Prelude.{◌≡◌, ◌<◌, length};
ghost use Rattle.flat.specs.Checks.{row, check};
ghost use Rattle.flat.specs.Spans.{rows, checks};
ghost use Rattle.card.specs.Codes.{Legal};

use card::Code;
use gf2::Basis;

// Row i: data disk i with the parity disks whose column names it.
fn row(code: &Code<'_>, i: usize) -> u32
    requires { i < code.now.k }
    ensures { result ≡ row code.now i }
{
    let k = code.k();
    let mut row = 1u32 << i;
    for j in 0..code.m() {
        if gf2::has(code.column(j) as u32, i as u32) {
            row += 1u32 << (k + j);
        }
    }
    row
}

// The rows, which span the codewords.
pub fn rows(code: &Code<'_>) -> Basis
    ensures value { result ≡ rows code.now }
    ensures count { length result ≡ code.now.k }
    ensures legal { Legal code.now }
{
    let k = code.k();
    let mut rows = [0u32; 16];
    for i in 0..k {
        rows[i] = row(code, i);
    }
    Basis::padded(rows, k)
}

// Check j: parity disk k + j with its data disks.
fn check(code: &Code<'_>, j: usize) -> u32
    requires { j < code.now.m }
    ensures { result ≡ check code.now j }
{
    code.column(j) as u32 + (1u32 << (code.k() + j))
}

// The checks, which span the sets whose bits XOR to 0.
pub fn checks(code: &Code<'_>) -> Basis
    ensures value { result ≡ checks code.now }
    ensures count { length result ≡ code.now.m }
    ensures legal { Legal code.now }
{
    let m = code.m();
    let mut checks = [0u32; 16];
    for j in 0..m {
        checks[j] = check(code, j);
    }
    Basis::padded(checks, m)
}
