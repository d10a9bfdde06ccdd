// Slots of a turned stripe, document 02's request [11], in sets alone: which disk stands in a slot, lost slots as
// lost disks, and sets of disks, check words and equations among them, as the sets of their slots. No strip is read
// here, and no card.
//
// A set of n disks is a number of n bits, and turning rotates it. What these are is said in turning/specs: Turning
// and Slots.
#![tactic(auto)]

ghost use Rattle.std.specs.Prelude.{◌≡◌, ◌&&◌, map, ◌-◌, ◌%◌, ◌^◌, ◌<◌, ◌≤◌, ltb, if◌then◌else◌};
ghost use Rattle.gf2.specs.Sets.{has};
ghost use Rattle.flat.specs.Lists.{tabulate};
ghost use Rattle.flat.specs.Repairs.{equation_in};
ghost use Rattle.turning.specs.Turning.{disk_in, disks_of};
ghost use Rattle.turning.specs.Slots.{rotated, slots_of};

use gf2::Basis;

// A number of n bits, its first a bits moved to its end. The shift is by n - a, into 64 bits, so that neither n nor
// 0 is a case of its own.
fn rotated(set: u32, n: usize, a: usize) -> u32
    requires { (n ≤ 32) × (a ≤ n) }
    ensures { result ≡ rotated n a set }
{
    let up = (set as u64) << (n - a);
    (up % (1u64 << n) | up >> n) as u32
}

// By how many slots, fewer than n, a stripe of n disks is turned: by its number modulo n.
#[derive(Clone, Copy)]
pub struct Turn {
    pub n: usize,
    pub by: usize,
    pub ghost few: { n ≤ 32 },
    pub ghost below: { by < n },
}

impl Turn {
    // The turn of stripe r of n disks.
    pub fn of(r: u32, n: usize) -> Self
        requires { (1 ≤ n) × (n ≤ 32) }
        ensures disks { result.n ≡ n }
        ensures turn { (result.by ≡ r % n) × (result.by < n) }
    {
        Turn {
            n,
            by: (r % n as u32) as usize,
        }
    }

    // The disks whose slots are in the set.
    pub fn disks_of(self, set: u32) -> u32
        requires { set < 2 ^ self.n }
        ensures { result ≡ disks_of self.n self.by set }
    {
        rotated(set, self.n, self.by)
    }

    // The slots of the disks in the set.
    pub fn slots_of(self, set: u32) -> u32
        requires { set < 2 ^ self.n }
        ensures { result ≡ slots_of self.n self.by set }
    {
        rotated(set, self.n, self.n - self.by)
    }

    // The words of a basis as sets of slots. All sixteen rows are rotated, in registers; 0 stays 0.
    pub fn basis(self, words: &Basis) -> Basis
        ensures { result ≡ map (rotated self.n (self.n - self.by)) words.now }
    {
        let mut rows = words.rows();
        for row in &mut rows {
            *row = rotated(*row, self.n, self.n - self.by);
        }
        Basis::padded(rows, words.words().len())
    }

    // The disk whose strip stands in slot s.
    fn disk_in(self, s: usize) -> usize
        requires { s < self.n }
        ensures { (result ≡ disk_in self.n self.by s) × (result < self.n) }
    {
        if s < self.by {
            return s + (self.n - self.by);
        }
        s - self.by
    }

    // Where slot s is a target, an equation of its disk among the disks that are left, by slots; the empty set where
    // it is not.
    fn equation_if_target(self, checks: &Basis, left: u32, targets: u32, s: usize) -> u32
        requires { s < self.n }
        ensures { result ≡ (if has targets s then rotated self.n (self.n - self.by) (equation_in checks.now left (disk_in self.n self.by s)) else 0) }
    {
        if gf2::has(targets, s as u32) {
            let equation = repairs::equation_in(checks, left, self.disk_in(s));
            rotated(equation, self.n, self.n - self.by)
        } else {
            0
        }
    }

    // The same of each slot below n, at its place.
    pub fn equations(self, checks: &Basis, left: u32, targets: u32) -> [u32; 32]
        ensures { result ≡ tabulate 32 (λ s. if ltb s self.n && has targets s then rotated self.n (self.n - self.by) (equation_in checks.now left (disk_in self.n self.by s)) else 0) }
    {
        let mut out = [0; 32];
        for s in 0..self.n {
            out[s] = self.equation_if_target(checks, left, targets, s);
        }
        out
    }
}
