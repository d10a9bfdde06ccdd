// The same where many long strips are read often: the 128 bytes at one offset of all data strips go into a
// local array, and that block of every parity strip is computed from it. Strips that lie a power of two
// apart drive each other out of the cache, and so their bytes are read from the stripe once.
ghost use Rattle.std.specs.Prelude.{◌≡◌, ◌&&◌, [], ℕ, ◌+◌, ◌-◌, ◌*◌, ◌%◌, ◌<◌, ◌≤◌, leb, ltb, length, get_or, if◌then◌else◌};
ghost use Rattle.flat.specs.Strips.{byte_of};
ghost use Rattle.strip_products.specs.Products.{products, striped, multiplied};

use strip_lanes::Lanes;
use strip_products::BitTable;

// The lanes of each parity disk. Those of disks from m on mean nothing.
fn lanes_of(k: usize, m: usize, bits: &BitTable) -> [Lanes; 16]
    requires { (k ≤ 16) × (m ≤ 16) }
    ensures { (j i u : ℕ) → j < m → i < k → u < 16 → get_or (get_or result j []) (i * 16 + u) 0 ≡ get_or bits.now (i * 16 + j) 0 }
{
    let mut lanes = [Lanes::new(); 16];
    for j in 0..m {
        lanes[j].spread(k, bits, j);
    }
    lanes
}

// The 128 bytes from o on of each parity strip, from the data strips' blocks.
fn fill_block(
    s: &mut [u8],
    local: &[u8],
    l: usize,
    k: usize,
    m: usize,
    lanes: &[Lanes; 16],
    o: usize,
)
    requires { (k ≤ 16) × (m ≤ 16) × (k * 128 ≤ length local.now) × (o + 128 ≤ l) × ((k + m) * l ≡ length s.old) }
    ensures { s.new ≡ striped k l (λ j t. if leb o t && ltb t (o + 128) then products k (byte_of 128 local.now (t - o)) (λ i. get_or (get_or lanes.now j []) (i * 16 + (t - o) % 16) 0) else byte_of l s.old t (k + j)) s.old }
{
    for j in 0..m {
        let block = lanes[j].sum(local, 128, k, 0);
        strip_blocks::put(s, (k + j) * l + o, block);
    }
}

// The parity strips, of 128 bytes or more.
pub(crate) fn fill(s: &mut [u8], l: usize, k: usize, m: usize, bits: &BitTable)
    requires { (128 ≤ l) × (k ≤ 16) × (m ≤ 16) × ((k + m) * l ≡ length s.old) }
    ensures { s.new ≡ multiplied k l bits.now s.old }
{
    let lanes = lanes_of(k, m, bits);
    let mut local = [0u8; 4096];
    for b in 0..l.div_ceil(128) {
        let start = strip_blocks::block_start(b * 128, 128, l);
        strip_dense::gather(&mut local, s, l, k, start);
        fill_block(s, &local, l, k, m, &lanes, start);
    }
}
