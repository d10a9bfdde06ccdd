// The XOR of the strips of a set of disks, block by block. A block has W bytes, and each width is compiled by itself:
// 128 bytes stay in the machine's registers while the strips go by, 16 bytes are for short strips, and blocks of one
// byte for strips of up to 3. Here each disk is tested whether it is in the set; the form of walking.rt goes from one
// disk of the set to the next.
//
// A stripe is here any slice with the strips of n disks in it, l bytes each. A block may reach past its strip's end,
// not past the slice's: strips of 4 to 15 bytes are first copied to where bytes follow.
#![tactic(auto)]

ghost use Rattle.std.specs.Prelude.{◌≡◌, ◌+◌, ◌-◌, ◌*◌, ◌<◌, ◌≤◌, min, eqb, length, get_or, take, if◌then◌else◌};
ghost use Rattle.gf2.specs.Sets.{has, ◌⊕◌, over};
ghost use Rattle.flat.specs.Lists.{every, tabulate, put};
ghost use Rattle.flat.specs.Strips.{byte_of};

mod places;
mod walking;
mod ways;

pub use places::Members;
pub use walking::{is_sparse, sum_walked};
pub use ways::{ByStep, ByTest, Way, suited_sum};

// The block, XORed with the bytes of the slice from a place on.
pub(crate) fn added<const W: usize>(block: [u8; W], s: &[u8], at: usize) -> [u8; W]
    requires { at + W ≤ length s.now }
    ensures { result ≡ tabulate W (λ t. get_or block.entry t 0 ⊕ get_or s.now (at + t) 0) }
{
    let mut out = block;
    for t in 0..W {
        out[t] = block[t] ^ s[at + t];
    }
    out
}

// The same where disk i is in the set, else the block as it is.
fn added_if<const W: usize>(block: [u8; W], s: &[u8], at: usize, set: u32, i: usize) -> [u8; W]
    requires { (i < 32) × (at + W ≤ length s.now) }
    ensures { result ≡ (if has set i then tabulate W (λ t. get_or block.entry t 0 ⊕ get_or s.now (at + t) 0) else block.entry) }
{
    if gf2::has(set, i as u32) {
        added(block, s, at)
    } else {
        block
    }
}

// Of the XOR of the strips of the disks below n that are in the set: the W bytes from o on.
#[tactic(auto, using(crate::proofs::Within::strip_fits))]
pub fn sum<const W: usize>(s: &[u8], l: usize, n: usize, set: u32, o: usize) -> [u8; W]
    requires { (n ≤ 32) × (n * l + o + W ≤ length s.now + l) }
    ensures { result ≡ tabulate W (λ t. over n set (byte_of l s.now (o + t))) }
{
    let mut block = [0u8; W];
    for i in 0..n {
        block = added_if(block, s, i * l + o, set, i);
    }
    block
}

// Puts the block into the slice.
pub fn put<const W: usize>(s: &mut [u8], at: usize, block: [u8; W])
    requires { at + W ≤ length s.old }
    ensures { s.new ≡ put s.old at block.entry }
{
    s[at..at + W].copy_from_slice(&block);
}

// Puts the first bytes of the block into the slice.
pub fn put_first<const W: usize>(s: &mut [u8], at: usize, block: [u8; W], count: usize)
    requires { (count ≤ W) × (at + count ≤ length s.old) }
    ensures { s.new ≡ put s.old at (take count block.entry) }
{
    s[at..at + count].copy_from_slice(&block[..count]);
}

// Copies the first count bytes of the slice to the front of a local array, which has room for 32 strips of 15 bytes
// and a block of 16.
pub fn copy_first(local: &mut [u8; 512], s: &[u8], count: usize)
    requires { (length local.old ≡ 512) × (count ≤ 512) × (count ≤ length s.now) }
    ensures local_len { length local.new ≡ 512 }
    ensures local_after { local.new ≡ put local.old 0 (take count s.now) }
{
    local[..count].copy_from_slice(&s[..count]);
}

// Where the block of w bytes starts that holds byte o of a strip: there, or so far before it that the block
// ends with the strip.
pub fn block_start(o: usize, w: usize, l: usize) -> usize
    requires { (o < l) × (w ≤ l) }
    ensures { result ≡ min o (l - w) }
{
    o.min(l - w)
}

// Whether the first bytes of the block are 0.
pub fn starts_zero<const W: usize>(block: [u8; W], count: usize) -> bool
    requires { count ≤ W }
    ensures { result ≡ every count (λ t. eqb (get_or block.entry t 0) 0) }
{
    let mut any = 0u8;
    for t in 0..count {
        any |= block[t];
    }
    any == 0
}

// Whether the block has no byte but 0.
pub fn is_zero<const W: usize>(block: [u8; W]) -> bool
    ensures { result ≡ every W (λ t. eqb (get_or block.entry t 0) 0) }
{
    starts_zero(block, W)
}
