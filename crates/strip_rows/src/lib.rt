// Parity strips of fewer than 16 bytes, by products: a byte of one data strip goes into that byte of all
// parity disks at once, times the disk's row of bits.
//
// In the sums byte t of parity disk k + j stands at place j of row t, as its bit stands at place j of a data
// disk's row. What is read, and how often, follows from k, m and l alone.
#![tactic(auto)]

ghost use Rattle.std.specs.Prelude.{◌≡◌, ℕ, ◌+◌, ◌*◌, ◌/◌, ◌%◌, ◌<◌, ◌≤◌, length, get_or};
ghost use Rattle.gf2.specs.Sets.{◌⊕◌};
ghost use Rattle.flat.specs.Lists.{tabulate, put};
ghost use Rattle.strip_products.specs.Products.{parity_byte, multiplied};

use strip_products::{BitTable, product};

// A byte times each bit of disk i's row goes into the row at a place. `% 2` changes no bit; it tells the
// compiler that the number is one, and the product becomes one AND. With `^=` the place would be read after
// the product, and strips of one byte took a tenth longer.
fn add_byte(rows: &mut [u8; 256], at: usize, byte: u8, bits: &BitTable, i: usize)
    requires { (at + 16 ≤ 256) × (i < 16) }
    ensures { rows.new ≡ put rows.old at (tabulate 16 (λ j. get_or rows.old (at + j) 0 ⊕ byte * get_or bits.now (i * 16 + j) 0)) }
{
    for j in 0..16 {
        rows[at + j] = rows[at + j] ^ product(byte, bits.at(i, j) % 2);
    }
}

// The l bytes from a place on, each into its row.
fn add_strip(rows: &mut [u8; 256], s: &[u8], at: usize, l: usize, bits: &BitTable, i: usize)
    requires { (l ≤ 16) × (at + l ≤ length s.now) × (i < 16) }
    ensures { rows.new ≡ put rows.old 0 (tabulate (l * 16) (λ p. get_or rows.old p 0 ⊕ get_or s.now (at + p / 16) 0 * get_or bits.now (i * 16 + p % 16) 0)) }
{
    for t in 0..l {
        add_byte(rows, t * 16, s[at + t], bits, i);
    }
}

// The parity bytes of the k data strips. The rows from l on mean nothing.
fn sums(s: &[u8], l: usize, k: usize, bits: &BitTable) -> [u8; 256]
    requires { (l ≤ 16) × (k ≤ 16) × (k * l ≤ length s.now) }
    ensures { (t j : ℕ) → t < l → j < 16 → get_or result (t * 16 + j) 0 ≡ parity_byte k l bits.now s.now j t }
{
    let mut rows = [0u8; 256];
    for i in 0..k {
        add_strip(&mut rows, s, i * l, l, bits, i);
    }
    rows
}

// Place j of the rows becomes the l bytes from a place on.
fn put_strip(s: &mut [u8], at: usize, l: usize, rows: &[u8; 256], j: usize)
    requires { (l ≤ 16) × (at + l ≤ length s.old) × (j < 16) }
    ensures { s.new ≡ put s.old at (tabulate l (λ t. get_or rows.now (t * 16 + j) 0)) }
{
    for t in 0..l {
        s[at + t] = rows[t * 16 + j];
    }
}

// The parity strips.
pub fn fill(s: &mut [u8], l: usize, k: usize, m: usize, bits: &BitTable)
    requires { (l ≤ 16) × (k ≤ 16) × (m ≤ 16) × ((k + m) * l ≡ length s.old) }
    ensures { s.new ≡ multiplied k l bits.now s.old }
{
    let rows = sums(s, l, k, bits);
    for j in 0..m {
        put_strip(s, (k + j) * l, l, &rows, j);
    }
}
