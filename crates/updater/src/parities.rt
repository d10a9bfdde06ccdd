// The strips of the parity disks that name a data disk, as a list of places.
ghost use Rattle.std.specs.Prelude.{◌≡◌, [], ℕ, ◌+◌, ◌*◌, ◌<◌, ◌≤◌, length, get_or};
ghost use Rattle.gf2.specs.Sets.{over};
ghost use Rattle.strip_blocks.specs.Totals.{total};
ghost use Rattle.updating.specs.Updating.{naming};
ghost use Rattle.updater.specs.Names.{names};

use card::Code;
use std::marker::Model;

// Where these strips start, at most 16: the first count places; what stands after them means nothing.
#[derive(Drop)]
pub(crate) struct NamingParities {
    at: [u32; 16],
    count: usize,
}

// Clauses see the list of places.
impl Model for NamingParities {
    ghost use Rattle.std.specs.Prelude.{List, ℕ, ◌≤◌, take};

    ghost Value = { List ℕ };

    ghost view = { λ p. take p.count p.at };

    ghost invariant = { λ p. p.count ≤ 16 };
}

impl NamingParities {
    // No places.
    pub(crate) fn new() -> NamingParities
        ensures { result ≡ [] }
    {
        NamingParities {
            at: [0; 16],
            count: 0,
        }
    }

    // The list becomes that of the strips of l bytes of the parity disks that name a data disk. It is lent, since an
    // array that a function answers is copied.
    pub(crate) fn list(&mut self, code: &Code, disk: usize, l: usize)
        requires { (disk < code.now.k) × (l ≤ 65536) }
        ensures count { length self.new ≡ naming code.now disk }
        ensures bound { length self.new ≤ 16 }
        ensures strips { (i : ℕ) → i < length self.new → (j : ℕ) × (j < code.now.m) × (get_or self.new i 0 ≡ (code.now.k + j) * l) }
        ensures sums { (f : ℕ → ℕ) → total (length self.new) (λ i. f (get_or self.new i 0)) ≡ over code.now.m (names code.now disk) (λ j. f ((code.now.k + j) * l)) }
    {
        let mut count = 0;
        for j in 0..code.m() {
            self.at[count] = ((code.k() + j) * l) as u32;
            if gf2::has(code.column(j) as u32, disk as u32) {
                count += 1;
            }
        }
        self.count = count;
    }

    // The places as a slice.
    pub(crate) fn places(&self) -> &[u32]
        ensures { result.now ≡ self.now }
    {
        &self.at[..self.count]
    }
}
