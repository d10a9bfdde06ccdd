// The bits of one parity disk as lanes, 16 for each data disk, and sums of strips times their lanes.
//
// Why lanes: where the compiler sees that one number, 0 or 1, is multiplied with many bytes, it makes the
// product a choice, and the choice a branch. So a bit goes to memory first, 16 times, and is read back as
// 16 lanes. `% 2` changes none of them; it tells the compiler that each is a bit, and the product becomes
// one AND.
ghost use Rattle.std.specs.Prelude.{◌≡◌, ◌+◌, ◌*◌, ◌/◌, ◌%◌, ◌<◌, ◌≤◌, length, get_or, replicate};
ghost use Rattle.gf2.specs.Sets.{◌⊕◌};
ghost use Rattle.flat.specs.Lists.{tabulate, put};
ghost use Rattle.flat.specs.Strips.{byte_of};
ghost use Rattle.strip_products.specs.Products.{products};

use std::marker::Model;
use strip_products::{BitTable, product};

// Disk after disk, each lane 0 or 1.
#[derive(Clone, Copy)]
pub struct Lanes {
    lanes: [u8; 256],
}

// Clauses see the 256 lanes.
impl Model for Lanes {
    ghost use Rattle.std.specs.Prelude.{List, ℕ};
    ghost use Rattle.strip_products.specs.Products.{Bits};

    ghost Value = { List ℕ };

    ghost view = { λ a. a.lanes };

    ghost inverse = { λ xs. record { lanes = xs } };

    ghost invariant = { λ a. Bits a.lanes };
}

// A bit into 16 lanes.
fn splat(lanes: &mut [u8], at: usize, bit: u8)
    requires { at + 16 ≤ length lanes.old }
    ensures { lanes.new ≡ put lanes.old at (tabulate 16 (λ _. bit)) }
{
    for t in 0..16 {
        lanes[at + t] = bit;
    }
}

impl Lanes {
    // Lanes that are all 0.
    pub fn new() -> Self
        ensures { result ≡ replicate 256 0 }
    {
        Lanes { lanes: [0; 256] }
    }

    // The bits of parity disk k + j, each in 16 lanes. The lanes of disks from k on stay.
    pub fn spread(&mut self, k: usize, bits: &BitTable, j: usize)
        requires { (k ≤ 16) × (j < 16) }
        ensures { self.new ≡ put self.old 0 (tabulate (k * 16) (λ p. get_or bits.now (p / 16 * 16 + j) 0)) }
    {
        for i in 0..k {
            splat(&mut self.lanes, i * 16, bits.at(i, j));
        }
    }

    // 16 bytes of the slice times the lanes of disk i go into the block.
    fn add_piece(&self, block: &mut [u8; 128], to: usize, s: &[u8], at: usize, i: usize)
        requires { (to + 16 ≤ 128) × (at + 16 ≤ length s.now) × (i < 16) }
        ensures { block.new ≡ put block.old to (tabulate 16 (λ t. get_or block.old (to + t) 0 ⊕ get_or s.now (at + t) 0 * get_or self.now (i * 16 + t) 0)) }
    {
        for t in 0..16 {
            block[to + t] ^= product(s[at + t], self.lanes[i * 16 + t] % 2);
        }
    }

    // 128 bytes of the slice times the lanes of disk i go into the block.
    fn add(&self, block: &mut [u8; 128], s: &[u8], at: usize, i: usize)
        requires { (at + 128 ≤ length s.now) × (i < 16) }
        ensures { block.new ≡ tabulate 128 (λ t. get_or block.old t 0 ⊕ get_or s.now (at + t) 0 * get_or self.now (i * 16 + t % 16) 0) }
    {
        for q in 0..8 {
            self.add_piece(block, q * 16, s, at + q * 16, i);
        }
    }

    // Of the XOR of the strips of the disks below k, each times its lanes: the 128 bytes from o on. They may
    // go over the strips' end, as long as the slice has them.
    pub fn sum(&self, s: &[u8], l: usize, k: usize, o: usize) -> [u8; 128]
        requires { (k ≤ 16) × (k * l + o + 128 ≤ length s.now + l) }
        ensures { result ≡ tabulate 128 (λ t. products k (byte_of l s.now (o + t)) (λ i. get_or self.now (i * 16 + t % 16) 0)) }
    {
        let mut block = [0u8; 128];
        for i in 0..k {
            self.add(&mut block, s, i * l + o, i);
        }
        block
    }
}
