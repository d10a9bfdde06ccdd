// The strips of a set as a list of places, for strips that are read from end to end.
ghost use Rattle.std.specs.Prelude.{◌≡◌, ℕ, ◌*◌, ◌^◌, ◌<◌, ◌≤◌, T, length, get_or};
ghost use Rattle.gf2.specs.Sets.{has, over};
ghost use Rattle.strip_blocks.specs.Totals.{total};

use std::marker::Model;

// Where some strips start, at most 32: the first count places. Those after them are 0, so that the list of places says
// what all the fields are.
#[derive(Clone, Copy)]
pub struct Members {
    at: [usize; 32],
    count: usize,
}

// Clauses see the list of places.
impl Model for Members {
    ghost use Rattle.std.specs.Prelude.{◌≡◌, ◌≤◌, ◌-◌, ◌++◌, List, ℕ, length, get_or, take, replicate};
    ghost use Rattle.gf2.specs.Padded.{padded-back, count-back};

    ghost Value = { List ℕ };

    ghost view = { λ m. take m.count m.at };

    ghost invariant = { λ m. (length m.at ≡ 32) × (m.count ≤ 32) × ((j : ℕ) → m.count ≤ j → get_or m.at j 0 ≡ 0) };

    ghost inverse = { λ places. record { at = places ++ replicate (32 - length places) 0; count = length places } };

    ghost inverse_ok = { λ m h i. record {
      at = padded-back 32 m.count m.at h.0 h.1 h.2 i;
      count = count-back 32 m.count m.at h.0 h.1 i;
    } };
}

impl Members {
    // The strips of the disks below n that are in the set.
    pub fn of_set(set: u32, n: usize, l: usize) -> Members
        requires { (n ≤ 32) × (n * l < 2 ^ 64) }
        ensures count { length result ≤ n }
        ensures strips { (j : ℕ) → j < length result → (i : ℕ) × (i < n) × T (has set i) × (get_or result j 0 ≡ i * l) }
        ensures sums { (f : ℕ → ℕ) → total (length result) (λ j. f (get_or result j 0)) ≡ over n set (λ i. f (i * l)) }
    {
        let mut at = [0usize; 32];
        let mut count = 0;
        for i in 0..n {
            if gf2::has(set, i as u32) {
                at[count] = i * l;
                count += 1;
            }
        }
        Members { at, count }
    }

    // The places as a slice.
    pub fn places(&self) -> &[usize]
        ensures { result.now ≡ self.now }
    {
        &self.at[..self.count]
    }
}
