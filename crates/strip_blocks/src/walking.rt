// The same from one disk of the set to the next, so that only its strips are visited: for sets of few disks,
// and for blocks of 128 bytes that are only read.
ghost use Rattle.std.specs.Prelude.{◌≡◌, false, ◌+◌, ◌-◌, ◌*◌, ◌/◌, ◌≤◌, leb, ltb, length, if◌then◌else◌};
ghost use Rattle.gf2.specs.Sets.{size, over};
ghost use Rattle.flat.specs.Lists.{tabulate};
ghost use Rattle.flat.specs.Strips.{byte_of};

use crate::added;

// Whether the set holds at most half of n disks. It chooses the way, and no more. With few disks and short strips
// it answers no without counting, which would cost more than it brings: with 32 disks it always counts, with 14
// from 54 bytes on, as was measured.
pub fn is_sparse(set: u32, n: usize, l: usize) -> bool
    requires { n ≤ 32 }
    ensures { result ≡ (if ltb l (96 - 3 * n) then false else leb (size set) (n / 2)) }
{
    if l < 96 - 3 * n {
        return false;
    }
    gf2::size(set) <= n as u32 / 2
}

// Of the XOR of the strips of the disks below n that are in the set: the W bytes from o on. What is left of the set is
// both the loop's measure and its index, so a `for` over an iterator of its disks would be no plainer.
#[tactic(auto, using(crate::proofs::Within::lowest_fits, crate::proofs::Within::lowest_less))]
pub fn sum_walked<const W: usize>(s: &[u8], l: usize, n: usize, set: u32, o: usize) -> [u8; W]
    requires { (n ≤ 32) × (n * l + o + W ≤ length s.now + l) }
    ensures { result ≡ tabulate W (λ t. over n set (byte_of l s.now (o + t))) }
{
    let mut block = [0u8; W];
    let mut left = gf2::first_of(set, n as u32);
    while left != 0 {
        let i = gf2::lowest(left);
        block = added(block, s, i as usize * l + o);
        left = gf2::without(left, i);
    }
    block
}
