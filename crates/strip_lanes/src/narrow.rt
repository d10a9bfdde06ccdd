// The same in blocks of 16 bytes, for strips shorter than 128 bytes. Here a bit is a number out of memory,
// of which the compiler does not know that it is 0 or 1; so it multiplies.
ghost use Rattle.std.specs.Prelude.{◌≡◌, ℕ, ◌+◌, ◌*◌, ◌<◌, ◌≤◌, length, get_or, take, drop};
ghost use Rattle.gf2.specs.Sets.{◌⊕◌};
ghost use Rattle.flat.specs.Lists.{tabulate, put};
ghost use Rattle.strip_products.specs.Products.{parity_byte, parity_strip};

use strip_products::{BitTable, product};

// 16 bytes of the slice times a bit go into the sums.
fn add_16(sums: &mut [u8; 128], to: usize, s: &[u8], at: usize, bit: u8)
    requires { (to + 16 ≤ 128) × (at + 16 ≤ length s.now) × (bit ≤ 1) }
    ensures { sums.new ≡ put sums.old to (tabulate 16 (λ t. get_or sums.old (to + t) 0 ⊕ get_or s.now (at + t) 0 * bit)) }
{
    for t in 0..16 {
        sums[to + t] ^= product(s[at + t], bit);
    }
}

// The 16 bytes from o on of the strip of parity disk k + j, into sums that are 0.
fn sum_16(
    sums: &mut [u8; 128],
    to: usize,
    s: &[u8],
    l: usize,
    k: usize,
    bits: &BitTable,
    j: usize,
    o: usize,
)
    requires zeros { (to + 16 ≤ 128) × ((t : ℕ) → t < 16 → get_or sums.old (to + t) 0 ≡ 0) }
    requires inside { (k ≤ 16) × (o + 16 ≤ l) × (k * l ≤ length s.now) × (j < 16) }
    ensures long { length sums.new ≡ 128 }
    ensures sums { (t : ℕ) → t < 16 → get_or sums.new (to + t) 0 ≡ parity_byte k l bits.now s.now j (o + t) }
    ensures kept { ((p : ℕ) → p < to → get_or sums.new p 0 ≡ get_or sums.old p 0) × ((p : ℕ) → to + 16 ≤ p → get_or sums.new p 0 ≡ get_or sums.old p 0) }
{
    for i in 0..k {
        add_16(sums, to, s, i * l + o, bits.at(i, j));
    }
}

// Puts 16 of the sums into the slice. `copy_from_slice` would test first whether the two overlap, and strips of
// 16 to 32 bytes would take 3 to 6 percent longer.
fn put_16(s: &mut [u8], at: usize, sums: &[u8; 128], from: usize)
    requires { (at + 16 ≤ length s.old) × (from + 16 ≤ 128) }
    ensures { s.new ≡ put s.old at (take 16 (drop from sums.now)) }
{
    for t in 0..16 {
        s[at + t] = sums[from + t];
    }
}

// The strip of parity disk k + j, of 16 to 128 bytes. Each block has sums at a place of its own: the
// compiler would take 16 sums at a fixed place apart.
pub fn fill_short(s: &mut [u8], l: usize, k: usize, bits: &BitTable, j: usize)
    requires { (16 ≤ l) × (l ≤ 128) × (k ≤ 16) × ((k + j) * l + l ≤ length s.old) × (j < 16) }
    ensures { s.new ≡ put s.old ((k + j) * l) (parity_strip k l bits.now s.old j) }
{
    let mut sums = [0u8; 128];
    let at = (k + j) * l;
    for b in 0..l.div_ceil(16) {
        let start = strip_blocks::block_start(b * 16, 16, l);
        sum_16(&mut sums, b * 16, s, l, k, bits, j, start);
        put_16(s, at + start, &sums, b * 16);
    }
}
