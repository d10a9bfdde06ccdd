// The two ways through the strips of a set, as types. What goes block by block takes its way as a type parameter, so
// that each way is compiled to a loop of its own: a choice for each block is slower.
ghost use Rattle.std.specs.Prelude.{◌≡◌, ◌+◌, ◌*◌, ◌≤◌, length};
ghost use Rattle.gf2.specs.Sets.{over};
ghost use Rattle.flat.specs.Lists.{tabulate};
ghost use Rattle.flat.specs.Strips.{byte_of};

use crate::sum;
use crate::walking::{is_sparse, sum_walked};

// A way to sum the strips of a set of disks.
pub trait Way<const W: usize> {
    // Of the XOR of the strips of the disks below n that are in the set: the W bytes from o on.
    fn block(s: &[u8], l: usize, n: usize, set: u32, o: usize) -> [u8; W]
        requires { (n ≤ 32) × (n * l + o + W ≤ length s.now + l) }
        ensures { result ≡ tabulate W (λ t. over n set (byte_of l s.now (o + t))) };
}

// By a test for each disk.
pub struct ByTest;

// From one disk of the set to the next.
pub struct ByStep;

impl<const W: usize> Way<W> for ByTest {
    fn block(s: &[u8], l: usize, n: usize, set: u32, o: usize) -> [u8; W] {
        sum(s, l, n, set, o)
    }
}

impl<const W: usize> Way<W> for ByStep {
    fn block(s: &[u8], l: usize, n: usize, set: u32, o: usize) -> [u8; W] {
        sum_walked(s, l, n, set, o)
    }
}

// The same in the way that suits the set, for strips of one block.
pub fn suited_sum<const W: usize>(s: &[u8], l: usize, n: usize, set: u32, o: usize) -> [u8; W]
    requires { (n ≤ 32) × (n * l + o + W ≤ length s.now + l) }
    ensures { result ≡ tabulate W (λ t. over n set (byte_of l s.now (o + t))) }
{
    if is_sparse(set, n, l) {
        ByStep::block(s, l, n, set, o)
    } else {
        ByTest::block(s, l, n, set, o)
    }
}
