// The columns' bits by data disk: a row of 16 places for each of 16 data disks, place j for parity disk k + j.
ghost use Rattle.std.specs.Prelude.{◌≡◌, ◌≢◌, ℕ, ◌+◌, ◌*◌, ◌<◌, ◌≤◌, get_or, replicate};

use std::marker::Model;

// Row after row, each place 0 or 1.
#[derive(Drop)]
pub struct BitTable {
    places: [u8; 256],
}

// Clauses see the 256 places.
impl Model for BitTable {
    ghost use Rattle.std.specs.Prelude.{List, ℕ};
    ghost use Rattle.strip_products.specs.Products.{Bits};

    ghost Value = { List ℕ };

    ghost view = { λ t. t.places };

    ghost invariant = { λ t. Bits t.places };
}

impl BitTable {
    // A table in which each place is 0.
    pub fn new() -> Self
        ensures { result ≡ replicate 256 0 }
    {
        BitTable { places: [0; 256] }
    }

    // Place j of row i.
    pub fn at(&self, i: usize, j: usize) -> u8
        requires { (i < 16) × (j < 16) }
        ensures place { result ≡ get_or self.now (i * 16 + j) 0 }
        ensures is_bit { result ≤ 1 }
    {
        self.places[i * 16 + j]
    }

    // Place j of row i becomes the bit, and the others stay.
    pub fn set(&mut self, i: usize, j: usize, bit: u8)
        requires place { (i < 16) × (j < 16) }
        requires is_bit { bit ≤ 1 }
        ensures placed { get_or self.new (i * 16 + j) 0 ≡ bit }
        ensures kept { (p : ℕ) → p ≢ i * 16 + j → get_or self.new p 0 ≡ get_or self.old p 0 }
    {
        let place = i * 16 + j;
        self.places[place] = bit;
    }
}
