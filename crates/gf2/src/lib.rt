// Sets of disks as 32-bit numbers, and spans of such numbers over GF(2): a row is a set, and two
// rows are added by XOR.
//
// The contracts cite specs/; what `within` means is said in specs/Theorems.antt.
#![tactic(auto)]

ghost use Rattle.std.specs.Prelude.{◌≡◌, not, map, ◌≢◌, ◌%◌, ◌^◌, ◌≤◌, ◌<◌, ltb, [], ◌∷◌, ◌++◌, ℕ, length, get_or, take, if◌then◌else◌};
ghost use Rattle.gf2.specs.Sets.{has, size, first, set_of, ◌⊆◌, ◌∖◌, union};
ghost use Rattle.gf2.specs.Span.{select};
ghost use Rattle.gf2.specs.Within.{lowest, clear, within};

use std::marker::Model;

// Whether disk d is in the set.
pub fn has(set: u32, d: u32) -> bool
    requires { d < 32 }
    ensures { result ≡ has set d }
{
    (set >> d) & 1 == 1
}

// How many disks the set holds.
pub fn size(set: u32) -> u32
    ensures { result ≡ size set }
{
    set.count_ones()
}

// Whether the set has no disk at n or above. At n = 32 every set is so.
pub fn below(set: u32, n: u32) -> bool
    requires { n ≤ 32 }
    ensures { result ≡ ltb set (2 ^ n) }
{
    n == 32 || set < 1u32 << n
}

// The disks below n.
pub fn first(n: u32) -> u32
    requires { (1 ≤ n) × (n ≤ 32) }
    ensures { result ≡ first n }
{
    u32::MAX >> (32 - n)
}

// Whether every disk of r is in s.
pub fn inside(r: u32, s: u32) -> bool
    ensures { result ≡ (r ⊆ s) }
{
    r & s == r
}

// The disks of r that are not in s.
pub fn outside(r: u32, s: u32) -> u32
    ensures { result ≡ r ∖ s }
{
    r ^ (r & s)
}

// The disks below n that are not lost.
pub fn survivors(n: usize, lost: u32) -> u32
    requires { (1 ≤ n) × (n ≤ 32) }
    ensures { result ≡ set_of n (λ i. not (has lost i)) }
{
    outside(first(n as u32), lost)
}

// The lowest disk of a set that is not empty.
pub fn lowest(set: u32) -> u32
    requires { set ≢ 0 }
    ensures { (result ≡ lowest set) × (result < 32) }
{
    set.trailing_zeros()
}

// The set without disk d.
pub fn without(set: u32, d: u32) -> u32
    requires { d < 32 }
    ensures { result ≡ set ∖ 2 ^ d }
{
    outside(set, 1u32 << d)
}

// The disks of the set below n.
pub fn first_of(set: u32, n: u32) -> u32
    requires { n ≤ 32 }
    ensures { result ≡ set % 2 ^ n }
{
    if n < 32 { set % (1u32 << n) } else { set }
}

// Row v, XORed with row b where v holds disk d.
fn cleared(d: u32, b: u32, v: u32) -> u32
    requires { d < 32 }
    ensures { result ≡ clear d b v }
{
    if has(v, d) { v ^ b } else { v }
}

// The same of all sixteen rows, which keeps them in registers.
pub fn cleared_all(d: u32, b: u32, mut rows: [u32; 16]) -> [u32; 16]
    requires { d < 32 }
    ensures { result ≡ map (clear d b) rows }
{
    for row in &mut rows {
        *row = cleared(d, b, *row);
    }
    rows
}

// The row where x selects it, being row i, else 0.
fn chosen(x: u32, i: u32, row: u32) -> u32
    requires { i < 32 }
    ensures { result ≡ (if has x i then row else 0) }
{
    if has(x, i) { row } else { 0 }
}

// The XOR of the rows that x selects.
pub fn select(rows: [u32; 16], x: u32) -> u32
    ensures { result ≡ select rows x }
{
    let mut word = 0;
    for (i, row) in rows.iter().enumerate() {
        word ^= chosen(x, i as u32, *row);
    }
    word
}

// A list of at most sixteen words, as the rows and the checks of a code are: the first count of the rows. The rows after
// them are 0, so that the words say what all the fields are.
#[derive(Clone, Copy)]
pub struct Basis {
    rows: [u32; 16],
    count: usize,
}

impl Model for Basis {
    ghost use Rattle.std.specs.Prelude.{◌≡◌, ◌≤◌, ◌-◌, ◌++◌, List, ℕ, length, get_or, take, replicate};
    ghost use Rattle.gf2.specs.Padded.{padded-back, count-back};

    ghost Value = { List ℕ };

    ghost view = { λ b. take b.count b.rows };

    ghost invariant = { λ b. (length b.rows ≡ 16) × (b.count ≤ 16) × ((i : ℕ) → b.count ≤ i → get_or b.rows i 0 ≡ 0) };

    ghost inverse = { λ words. record { rows = words ++ replicate (16 - length words) 0; count = length words } };

    ghost inverse_ok = { λ b h i. record {
      rows = padded-back 16 b.count b.rows h.0 h.1 h.2 i;
      count = count-back 16 b.count b.rows h.0 h.1 i;
    } };
}

impl Basis {
    // No words.
    pub fn new() -> Self
        ensures { result ≡ [] }
    {
        Basis {
            rows: [0; 16],
            count: 0,
        }
    }

    // The first count of the rows. Each of the sixteen is kept or cleared by its number.
    pub fn of(rows: [u32; 16], count: usize) -> Self
        requires { count ≤ 16 }
        ensures { result ≡ take count rows }
    {
        let mut kept = [0; 16];
        for i in 0..16 {
            kept[i] = if i < count { rows[i] } else { 0 };
        }
        Basis { rows: kept, count }
    }

    // The first count of the rows, where the rows after them are 0 already: they are stored as they are.
    pub fn padded(rows: [u32; 16], count: usize) -> Self
        requires room { count ≤ 16 }
        requires rest { (i : ℕ) → count ≤ i → get_or rows i 0 ≡ 0 }
        ensures { result ≡ take count rows }
    {
        Basis { rows, count }
    }

    // One more word at the end.
    pub fn push(&mut self, word: u32)
        requires { length self.old < 16 }
        ensures { self.new ≡ self.old ++ word ∷ [] }
    {
        self.rows[self.count] = word;
        self.count += 1;
    }

    // The words.
    pub fn words(&self) -> &[u32]
        ensures value { result.now ≡ self.now }
        ensures bound { length result.now ≤ 16 }
    {
        &self.rows[..self.count]
    }

    // All sixteen rows, for loops that keep them in registers: the words, and zeros after them.
    pub fn rows(&self) -> [u32; 16]
        ensures words { take (length self.now) result ≡ self.now }
        ensures bound { length self.now ≤ 16 }
        ensures rest { (i : ℕ) → length self.now ≤ i → get_or result i 0 ≡ 0 }
    {
        let rows = self.rows;
        rows
    }

    // What is left of the basis inside the set: a basis of the words of its span that lie inside. The count of those that
    // are left stands in a register, where pushes would keep it in memory.
    pub fn within(&self, set: u32) -> Self
        ensures value { result ≡ within set self.now }
        ensures fewer { length result ≤ length self.now }
    {
        let mut rows = self.rows;
        let mut left = [0; 16];
        let mut count = 0;
        for i in 0..self.count {
            let b = rows[i];
            if inside(b, set) {
                left[count] = b;
                count += 1;
            } else {
                rows = cleared_all(lowest(outside(b, set)), b, rows);
            }
        }
        Basis { rows: left, count }
    }

    // The disks that some word of the basis holds: those that some word of its span holds.
    pub fn union(&self) -> u32
        ensures { result ≡ union self.now }
    {
        let mut held = 0;
        for word in self.words() {
            held |= *word;
        }
        held
    }
}
