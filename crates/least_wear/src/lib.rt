// The least-wear call: of the equations of a disk among the survivors, the one with the least total wear.
//
// Every byte string, disk and set is a legal argument of `least`. What is answered for which input is said in
// wear/specs/Wear.antt. No list is made: one equation, XORed with each check
// word among the survivors, gives them all (`OthersByWords` in wear/specs/Theorems.antt), and one that none goes before has
// no smaller one inside (`BestIsLeast`).
#![tactic(auto)]

ghost use Rattle.std.specs.Prelude.{◌≡◌, ℕ, ◌+◌, ◌^◌, ◌≤◌, ◌<◌, length, get_or, replicate};
ghost use Rattle.gf2.specs.Sets.{◌⊕◌};
ghost use Rattle.gf2.specs.Span.{select};
ghost use Rattle.flat.specs.Cards.{disks, card_of};
ghost use Rattle.wear.specs.Wear.{least_wear_tests, least_wear_report};
ghost use Rattle.least_wear.specs.declared.LeastWearError.TheVariants.{Card};
ghost use Rattle.least_wear.specs.Reports.{report};
ghost use Rattle.least_wear.specs.Forms.{weight_of, places_for, table_to, rank_in, LeastOf};

use card::{CardFault, Code, Edition};
use gf2::Basis;
use std::marker::Model;

// Why no equation is answered: the card's fault, a set with a disk that the code lacks, a disk that it lacks, or that no
// equation survives.
#[derive(Clone, Copy, Debug, PartialEq, Eq)]
pub enum LeastWearError {
    Card(CardFault),
    OutsideSet,
    NoDisk,
    NoneSurvives,
}

impl From<CardFault> for LeastWearError {
    ghost from_gives = { λ fault error. error ≡ Card fault };

    fn from(fault: CardFault) -> LeastWearError {
        LeastWearError::Card(fault)
    }
}

// What disk i adds to the weight of a set: its wear, then one disk, then one parity disk where it is one.
fn weight(wears: &[u8], k: usize, i: usize) -> u32
    requires { i < length wears.now }
    ensures { result ≡ weight_of k wears.now i }
{
    let alone = (wears[i] as u32) * 2048 + 32;
    if i < k { alone } else { alone + 1 }
}

// The weights of the sets of some disks, eight disks by eight: a place for each set of the first eight, then for each set
// of the next, four times in all.
#[derive(Drop)]
struct Weights {
    table: [u32; 1024],
}

// Clauses see the table. Its entries can be added.
impl Model for Weights {
    ghost use Rattle.std.specs.Prelude.{List, ℕ};
    ghost use Rattle.least_wear.specs.Forms.{Table};

    ghost Value = { List ℕ };

    ghost view = { λ w. w.table };

    ghost invariant = { λ w. Table w.table };
}

impl Weights {
    // Of no disk.
    fn new() -> Weights
        ensures { result ≡ replicate 1024 0 }
    {
        Weights { table: [0; 1024] }
    }

    // Takes disk i into the table of the disks below it: each set of those among its eight, with it.
    fn add_disk(&mut self, wears: &[u8], k: usize, i: usize)
        requires { (i < 32) × (i < length wears.now) × (self.old ≡ table_to (weight_of k wears.now) (places_for i)) }
        ensures { self.new ≡ table_to (weight_of k wears.now) (places_for (i + 1)) }
    {
        let more = weight(wears, k, i);
        let at = 256 * (i / 8);
        let half = 1usize << (i % 8);
        for b in 0..half {
            self.table[at + half + b] = self.table[at + b] + more;
        }
    }

    // Takes the disks that have a wear into the table of no disk.
    fn fill(&mut self, wears: &[u8], k: usize)
        requires { (length wears.now ≤ 32) × (self.old ≡ replicate 1024 0) }
        ensures { self.new ≡ table_to (weight_of k wears.now) (places_for (length wears.now)) }
    {
        for i in 0..wears.len() {
            self.add_disk(wears, k, i);
        }
    }

    // A set's rank: its weight, a place of the table for each byte of its number, and then its number. Both are in one
    // number, since a comparison of two fields takes 1.3 times as long on a walk.
    fn rank(&self, set: u32) -> u64
        ensures { result ≡ rank_in self.now set }
    {
        let table = &self.table;
        let a = table[(set % 256) as usize];
        let b = table[256 + (set / 256 % 256) as usize];
        let c = table[512 + (set / 65536 % 256) as usize];
        let d = table[768 + (set / 16777216) as usize];
        ((a + b + c + d) as u64) * 4294967296 + (set as u64)
    }
}

// The least rank of the set XORed with a word of the span.
fn walk(weights: &Weights, set: u32, words: &Basis) -> u64
    ensures { LeastOf (λ x. rank_in weights.now (set ⊕ select words.now x)) (2 ^ length words.now) result }
{
    let end = minimal_marks::end(words);
    let steps = minimal_words::steps(words.rows());
    let mut w = 0;
    let mut least = weights.rank(set);
    for x in 1..end {
        w ^= steps[gf2::lowest(x) as usize];
        least = weights.rank(set ^ w).min(least);
    }
    least
}

// The least-wear call, on the code of an accepted card and the wears of its disks.
fn least_equation(
    code: &Code<'_>,
    wears: &[u8],
    disk: usize,
    lost: u32,
) -> Result<u32, LeastWearError>
    requires { (length wears.now ≡ disks code.now) × ((i : ℕ) → i < disks code.now → 1 ≤ get_or wears.now i 0) }
    ensures { report result ≡ least_wear_tests code.now wears.now disk lost }
{
    let n = code.n();
    if !gf2::below(lost, n as u32) {
        return Err(LeastWearError::OutsideSet);
    }
    if n <= disk {
        return Err(LeastWearError::NoDisk);
    }
    let own = 1u32 << disk;
    let left = gf2::survivors(n, lost | own);
    let words = bases::checks(code).within(left ^ own);
    let word = repairs::holder(&words, disk);
    if word == 0 {
        return Err(LeastWearError::NoneSurvives);
    }
    let mut weights = Weights::new();
    weights.fill(wears, code.k());
    let least = walk(&weights, gf2::outside(word, own), &words.within(left));
    Ok((least % 4294967296) as u32)
}

// The least-wear call: of the equations of the disk among the survivors, the one with the least total wear; of several, the
// first in the list's order. The disk counts as lost, named or not.
#[tactic(auto, using(card::proofs::Callers::bad_card), unfolding(wear::specs::Wear::least_wear_report))]
pub fn least(edition: Edition, card: &[u8], disk: usize, lost: u32) -> Result<u32, LeastWearError>
    ensures { report result ≡ least_wear_report (card_of edition card.now) disk lost }
{
    let code = card::check(edition, card)?;
    let n = code.n();
    let wears = card::wears(edition, card, n);
    least_equation(&code, &wears[..n], disk, lost)
}
