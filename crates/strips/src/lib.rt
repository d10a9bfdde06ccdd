// Strips computed from other strips: those of some disks filled with the XOR of the strips of a set each.
//
// A stripe has the strips of all n disks, l bytes each. Strips go in blocks of 128 bytes, shorter ones in
// blocks of 16; the last block lies over the end of the one before it. Strips of 4 to 15 bytes are first copied
// to where bytes follow, and go in one block that reaches past them; shorter ones go byte by byte. It assumes at
// most 32 disks, and that no strip that is read is a target's.
#![tactic(auto)]

ghost use Rattle.std.specs.Prelude.{◌≡◌, ◌≢◌, ℕ, ◌+◌, ◌*◌, ◌^◌, ◌<◌, ◌≤◌, T, length, get_or};
ghost use Rattle.gf2.specs.Sets.{has};
ghost use Rattle.flat.specs.Repairs.{filled};

use strip_blocks::{ByStep, ByTest, Members, Way};
pub use strip_vanishing::all_vanish;

// The strip of disk d becomes the XOR of the strips of the disks below n that are in the set, which d is
// not, in blocks of W bytes, by a way. This is for strips of W bytes or more. It is kept out of line: where the
// compiler sees a caller's bound on l, it writes the loop out block by block, and short strips take a tenth longer.
#[tactic(auto, using(strip_blocks::proofs::Widths::block_fits))]
#[inline(never)]
fn fill_blocks<const W: usize, P: Way<W>>(s: &mut [u8], l: usize, n: usize, set: u32, d: usize)
    requires width { (1 ≤ W) × (W ≤ 128) × (W ≤ l) }
    requires sizes { (n ≤ 32) × (n * l ≤ length s.old) × (d * l + l ≤ length s.old) }
    requires apart { (i : ℕ) → i < n → T (has set i) → i ≢ d }
    ensures { s.new ≡ filled n l (λ _. set) (2 ^ d) s.old }
{
    let at = d * l;
    for b in 0..l / W {
        let block = P::block(s, l, n, set, b * W);
        strip_blocks::put(s, at + b * W, block);
    }
    if l % W != 0 {
        let last = l - W;
        let block = P::block(s, l, n, set, last);
        strip_blocks::put(s, at + last, block);
    }
}

// The same for long strips: one to four as streams.
fn fill_few(s: &mut [u8], l: usize, n: usize, set: u32, d: usize)
    requires sizes { (128 ≤ l) × (n ≤ 32) × (n * l ≤ length s.old) × (d * l + l ≤ length s.old) }
    requires apart { (i : ℕ) → i < n → T (has set i) → i ≢ d }
    ensures { s.new ≡ filled n l (λ _. set) (2 ^ d) s.old }
{
    let members = Members::of_set(set, n, l);
    let places = members.places();
    match places.len() {
        1..=4 => strip_streams::fill(s, d * l, l, places),
        _ => fill_blocks::<128, ByTest>(s, l, n, set, d),
    }
}

// The same for strips of any length, byte by byte: a loop that is compiled into its caller, since a call would cost
// strips of 1 to 3 bytes a fifth of their time.
fn fill_bytes(s: &mut [u8], l: usize, n: usize, set: u32, d: usize)
    requires sizes { (1 ≤ l) × (n ≤ 32) × (n * l ≤ length s.old) × (d * l + l ≤ length s.old) }
    requires apart { (i : ℕ) → i < n → T (has set i) → i ≢ d }
    ensures { s.new ≡ filled n l (λ _. set) (2 ^ d) s.old }
{
    for t in 0..l {
        let block = strip_blocks::sum::<1>(s, l, n, set, t);
        strip_blocks::put(s, d * l + t, block);
    }
}

// The same in the way that suits the strips' length and the set.
fn fill_strip(s: &mut [u8], l: usize, n: usize, set: u32, d: usize)
    requires sizes { (1 ≤ l) × (n ≤ 32) × (n * l ≤ length s.old) × (d * l + l ≤ length s.old) }
    requires apart { (i : ℕ) → i < n → T (has set i) → i ≢ d }
    ensures { s.new ≡ filled n l (λ _. set) (2 ^ d) s.old }
{
    if 1024 <= l {
        fill_few(s, l, n, set, d);
    } else if 128 <= l {
        fill_blocks::<128, ByTest>(s, l, n, set, d);
    } else if l < 16 {
        fill_bytes(s, l, n, set, d);
    } else if strip_blocks::is_sparse(set, n, l) {
        fill_blocks::<16, ByStep>(s, l, n, set, d);
    } else {
        fill_blocks::<16, ByTest>(s, l, n, set, d);
    }
}

// The strips of the targets, one after the other.
#[tactic(auto, using(strip_blocks::proofs::Within::strip_fits))]
fn fill_each(s: &mut [u8], l: usize, n: usize, targets: u32, sets: [u32; 32])
    requires sizes { (1 ≤ l) × (n ≤ 32) × (n * l ≡ length s.old) }
    requires apart { (d i : ℕ) → T (has targets d) → i < n → T (has (get_or sets d 0) i) → T (has targets i) → ⊥ }
    ensures { s.new ≡ filled n l (λ d. get_or sets d 0) targets s.old }
{
    for d in 0..n {
        if gf2::has(targets, d as u32) {
            fill_strip(s, l, n, sets[d], d);
        }
    }
}

// The same for strips shorter than 16 bytes, out of a copy after which bytes follow.
#[tactic(auto, using(strip_blocks::proofs::Within::strip_fits))]
fn fill_narrow(s: &mut [u8], l: usize, n: usize, targets: u32, sets: [u32; 32])
    requires sizes { (1 ≤ l) × (l < 16) × (n ≤ 32) × (n * l ≡ length s.old) }
    requires apart { (d i : ℕ) → T (has targets d) → i < n → T (has (get_or sets d 0) i) → T (has targets i) → ⊥ }
    ensures { s.new ≡ filled n l (λ d. get_or sets d 0) targets s.old }
{
    let mut local = [0u8; 512];
    strip_blocks::copy_first(&mut local, s, n * l);
    for disk in 0..n {
        if gf2::has(targets, disk as u32) {
            let block = strip_blocks::suited_sum::<16>(&local, l, n, sets[disk], 0);
            strip_blocks::put_first(s, disk * l, block, l);
        }
    }
}

// The strip of each target d becomes the XOR of the strips of the disks in set d; none of those is a
// target. Long strips that are read often go block by block; up to 3 bytes a strip is not worth a copy.
pub fn fill(s: &mut [u8], l: usize, n: usize, targets: u32, sets: [u32; 32])
    requires le_l { (1 ≤ l) × (n ≤ 32) × (n * l ≡ length s.old) }
    requires by_index { (d i : ℕ) → T (has targets d) → i < n → T (has (get_or sets d 0) i) → T (has targets i) → ⊥ }
    ensures { s.new ≡ filled n l (λ d. get_or sets d 0) targets s.old }
{
    if l < 16 {
        if 3 < l {
            fill_narrow(s, l, n, targets, sets);
            return;
        }
    }
    if 8192 <= l {
        if strip_dense::is_dense(n, targets, sets) {
            strip_dense::fill(s, l, n, targets, sets);
            return;
        }
    }
    fill_each(s, l, n, targets, sets);
}
