// The parity sets of a Stepped Combination code, each placed by counts of combinations.
//
// What the parity sets are, and in what order, is said in stepped_codes/specs/Stepped.antt. A row of counts has eight
// places, so there are at most 7 parity disks; no card is made of more than 6 (`SixAtMost` in
// stepped_codes/specs/Theorems.antt).
#![tactic(auto)]

ghost use Rattle.std.specs.Prelude.{◌≡◌, ◌+◌, ◌-◌, ◌≤◌, ◌<◌, length};
ghost use Rattle.flat.specs.Lists.{tabulate, padded};
ghost use Rattle.stepped_codes.specs.Stepped.{step, parity_sets, parity_set, choose};
ghost use Rattle.stepped_codes.specs.Placing.{placed};
ghost use Rattle.stepped_sets.specs.Distances.{number_of, Names};

use std::marker::Model;

// The distance of a Stepped Combination code.
#[derive(Clone, Copy, Debug, PartialEq, Eq)]
pub enum Distance {
    Three,
    Four,
}

// A number that is no distance of such a code.
#[derive(Clone, Copy, Debug, PartialEq, Eq)]
pub struct OtherDistance;

impl TryFrom<usize> for Distance {
    type Error = OtherDistance;

    ghost try_from_gives = { Names };

    fn try_from(d: usize) -> Result<Distance, OtherDistance> {
        match d {
            3 => Ok(Distance::Three),
            4 => Ok(Distance::Four),
            _ => Err(OtherDistance),
        }
    }
}

impl Distance {
    // The size of the smallest parity sets.
    fn first_size(self) -> usize
        ensures { result ≡ number_of self - 1 }
    {
        match self {
            Distance::Three => 2,
            Distance::Four => 3,
        }
    }

    // By how much the sizes of parity sets go up.
    fn step(self) -> usize
        ensures { result ≡ step (number_of self) }
    {
        match self {
            Distance::Three => 1,
            Distance::Four => 2,
        }
    }
}

// Rows of Pascal's triangle, from row 0 to the last one filled. A row has eight places: place r of row p counts the
// sets of r of p disks. They stand in one array: rows that are arrays are not added as vectors, and a card's call takes
// 1.2 times as long with them.
#[derive(Drop)]
struct Triangle {
    counts: [u8; 64],
    last: usize,
}

// Clauses see the number of the last row.
impl Model for Triangle {
    ghost use Rattle.std.specs.Prelude.{◌≡◌, ℕ, ◌≤◌};
    ghost use Rattle.stepped_sets.specs.Triangle.{rows_to};

    ghost Value = { ℕ };

    ghost view = { λ t. t.last };

    ghost invariant = { λ t. (t.last ≤ 7) × (t.counts ≡ rows_to t.last) };
}

impl Triangle {
    // Row 0, which has the empty set alone.
    fn new() -> Triangle
        ensures { result ≡ 0 }
    {
        let mut counts = [0u8; 64];
        counts[0] = 1;
        Triangle { counts, last: 0 }
    }

    // Puts the next row under the last one: each count but the first is the sum of the two above it.
    fn add_row(&mut self)
        requires { self.old < 7 }
        ensures { self.new ≡ self.old + 1 }
    {
        let above = 8 * self.last;
        let at = above + 8;
        self.counts[at] = 1;
        for r in 1..8 {
            self.counts[at + r] = self.counts[above + r - 1] + self.counts[above + r];
        }
        self.last += 1;
    }

    // Fills rows 0 to n, the rows above row n first.
    fn binomials(&mut self, n: usize)
        requires { (n ≤ 7) × (self.old ≡ 0) }
        ensures { self.new ≡ n }
    {
        if 0 < n {
            self.binomials(n - 1);
            self.add_row();
        }
    }

    // How many sets of r of n disks there are.
    fn choose(&self, n: usize, r: usize) -> usize
        requires { (n ≤ self.now) × (r ≤ 7) }
        ensures { result ≡ choose n r }
    {
        let counts = &self.counts;
        counts[8 * n + r] as usize
    }

    // The i-th of the sets of `size` of the disks that the last row counts, smaller number first, counted from 0. From
    // the highest disk down, until all are found: the sets that lack the disk come first, `lacking` of them; a set past
    // these has it, and the rest of it is one of the sets of a disk less below.
    fn placed(&self, size: usize, i: usize) -> u32
        requires { (size ≤ 7) × (i < choose self.now size) }
        ensures { result ≡ placed self.now size i }
    {
        let mut set = 0u32;
        let mut missing = size;
        let mut left = i;
        let mut j = self.last;
        // A `for` over the disks, left when none is missing, makes the largest card's call take 1.4 times as long.
        while 0 < missing {
            j -= 1;
            let lacking = self.choose(j, missing);
            if lacking <= left {
                set += 1u32 << j;
                missing -= 1;
                left -= lacking;
            }
        }
        set
    }

    // Data disk i's parity set among the disks that the last row counts: first its size, by the counts of the sizes
    // before it.
    fn parity_set(&self, distance: Distance, i: usize) -> u32
        requires { (self.now ≤ 6) × (i < length (parity_sets (number_of distance) self.now)) }
        ensures { result ≡ parity_set (number_of distance) self.now i }
    {
        let mut size = distance.first_size();
        let mut left = i;
        let mut here = self.choose(self.last, size);
        // The size that is sought ends it: a `for` over the sizes would have an end that never comes.
        while here <= left {
            left -= here;
            size += distance.step();
            here = self.choose(self.last, size);
        }
        self.placed(size, left)
    }
}

// The parity sets of data disks 0 to k - 1, then zeros.
pub fn sets(distance: Distance, m: usize, k: usize) -> [u32; 16]
    requires { (m ≤ 6) × (k ≤ 16) × (k ≤ length (parity_sets (number_of distance) m)) }
    ensures { result ≡ padded 16 (tabulate k (parity_set (number_of distance) m)) }
{
    let mut triangle = Triangle::new();
    triangle.binomials(m);
    let mut out = [0u32; 16];
    for i in 0..k {
        out[i] = triangle.parity_set(distance, i);
    }
    out
}
