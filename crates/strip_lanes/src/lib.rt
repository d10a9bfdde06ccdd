// Parity strips of 16 bytes and more, by products, block by block: 128 bytes of one parity disk, which
// stay in the machine's registers while the data strips go by, and 16 bytes for short strips.
//
// What is read, and how often, follows from k, m and l alone.
#![tactic(auto)]

ghost use Rattle.std.specs.Prelude.{◌≡◌, ◌+◌, ◌*◌, ◌<◌, ◌≤◌, length};
ghost use Rattle.flat.specs.Lists.{put};
ghost use Rattle.strip_products.specs.Products.{parity_strip};

use strip_products::BitTable;

mod lanes;
mod narrow;

pub use lanes::Lanes;
pub use narrow::fill_short;

// The strip of parity disk k + j, of 128 bytes or more. With a `for` over the blocks, counted by `div_ceil`, the
// compiler makes other code of the sums, and strips of up to 4,096 bytes took 2 to 7 percent longer.
pub fn fill_long(s: &mut [u8], l: usize, k: usize, bits: &BitTable, j: usize)
    requires { (128 ≤ l) × (k ≤ 16) × ((k + j) * l + l ≤ length s.old) × (j < 16) }
    ensures { s.new ≡ put s.old ((k + j) * l) (parity_strip k l bits.now s.old j) }
{
    let mut lanes = Lanes::new();
    lanes.spread(k, bits, j);
    let at = (k + j) * l;
    let mut o = 0;
    while o < l {
        let start = strip_blocks::block_start(o, 128, l);
        let block = lanes.sum(s, l, k, start);
        strip_blocks::put(s, at + start, block);
        o = start + 128;
    }
}

// The strip of parity disk k + j, of up to 128 bytes, in one block over its end. The slice has to have its
// bytes.
pub fn fill_over(s: &mut [u8], l: usize, k: usize, bits: &BitTable, j: usize)
    requires { (l ≤ 128) × (k ≤ 16) × (k * l + 128 ≤ length s.old + l) × ((k + j) * l + l ≤ length s.old) × (j < 16) }
    ensures { s.new ≡ put s.old ((k + j) * l) (parity_strip k l bits.now s.old j) }
{
    let mut lanes = Lanes::new();
    lanes.spread(k, bits, j);
    let block = lanes.sum(s, l, k, 0);
    strip_blocks::put_first(s, (k + j) * l, block, l);
}
