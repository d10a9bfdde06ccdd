// Parity strips by products, in the way that suits k, m and the strips' length: which way is taken, what is
// read and how often follow from these alone, and never from a bit or a byte.
#![tactic(auto)]

ghost use Rattle.std.specs.Prelude.{◌≡◌, ◌&&◌, ◌+◌, ◌*◌, ◌<◌, ◌≤◌, leb, ltb, length};
ghost use Rattle.flat.specs.Lists.{put};
ghost use Rattle.strip_products.specs.Products.{parity_strip, multiplied};

use strip_products::BitTable;

mod gathered;

// Whether a block of 128 bytes over the end of a shorter strip is there, and does less work than blocks of 16.
fn over_ok(l: usize, m: usize) -> bool
    requires { (l ≤ 65536) × (m ≤ 16) }
    ensures { result ≡ (ltb 32 l && leb 128 ((m + 1) * l)) }
{
    if l <= 32 {
        return false;
    }
    128 <= (m + 1) * l
}

// The strip of parity disk k + j, of 16 bytes or more.
fn fill_strip(s: &mut [u8], l: usize, k: usize, m: usize, bits: &BitTable, j: usize)
    requires { (16 ≤ l) × (l ≤ 65536) × (k ≤ 16) × (m ≤ 16) × ((k + m) * l ≡ length s.old) × (j < m) }
    ensures { s.new ≡ put s.old ((k + j) * l) (parity_strip k l bits.now s.old j) }
{
    if 128 <= l {
        strip_lanes::fill_long(s, l, k, bits, j);
    } else if over_ok(l, m) {
        strip_lanes::fill_over(s, l, k, bits, j);
    } else {
        strip_lanes::fill_short(s, l, k, bits, j);
    }
}

// The parity strips, one after the other.
fn fill_each(s: &mut [u8], l: usize, k: usize, m: usize, bits: &BitTable)
    requires { (16 ≤ l) × (l ≤ 65536) × (k ≤ 16) × (m ≤ 16) × ((k + m) * l ≡ length s.old) }
    ensures { s.new ≡ multiplied k l bits.now s.old }
{
    for j in 0..m {
        fill_strip(s, l, k, m, bits, j);
    }
}

// Whether so many long strips are read so often that gathering their blocks pays.
fn gather_ok(l: usize, k: usize, m: usize) -> bool
    ensures { result ≡ (leb 4096 l && (leb 8 k && leb 4 m)) }
{
    if l < 4096 {
        return false;
    }
    if k < 8 {
        return false;
    }
    4 <= m
}

// The parity strips.
pub fn fill(s: &mut [u8], l: usize, k: usize, m: usize, bits: &BitTable)
    requires { (1 ≤ l) × (l ≤ 65536) × (k ≤ 16) × (m ≤ 16) × ((k + m) * l ≡ length s.old) }
    ensures { s.new ≡ multiplied k l bits.now s.old }
{
    if l < 16 {
        strip_rows::fill(s, l, k, m, bits);
    } else if gather_ok(l, k, m) {
        gathered::fill(s, l, k, m, bits);
    } else {
        fill_each(s, l, k, m, bits);
    }
}
