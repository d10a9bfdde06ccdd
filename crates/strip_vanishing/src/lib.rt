// Whether the XOR of the strips of each of some sets of disks vanishes. It only reads.
//
// A stripe has the strips of all disks, l bytes each. Strips go in blocks of 128 bytes, shorter ones in
// blocks of 16; the last block lies over the end of the one before it. Strips of 4 to 15 bytes are first copied
// to where bytes follow, and go in one block that reaches past them; shorter ones go byte by byte. It assumes
// strips of at most 65,536 bytes, at most 32 disks, whose strips the slice has, and at most 16 sets.
#![tactic(auto)]

ghost use Rattle.std.specs.Prelude.{◌≡◌, ◌+◌, ◌*◌, ◌<◌, ◌≤◌, length};
ghost use Rattle.flat.specs.Repairs.{vanishes, all_vanish};

use gf2::Basis;
use strip_blocks::{ByStep, ByTest, Members, Way};

// Whether the XOR of the strips of the disks below n that are in the set vanishes, in blocks of W bytes, by a way.
// This is for strips of W bytes or more.
#[tactic(auto, using(strip_blocks::proofs::Widths::block_fits))]
fn vanishes_blocks<const W: usize, P: Way<W>>(s: &[u8], l: usize, n: usize, set: u32) -> bool
    requires { (1 ≤ W) × (W ≤ 128) × (W ≤ l) × (n ≤ 32) × (n * l ≤ length s.now) }
    ensures { result ≡ vanishes n l s.now set }
{
    for b in 0..l / W {
        if !strip_blocks::is_zero(P::block(s, l, n, set, b * W)) {
            return false;
        }
    }
    if l % W != 0 {
        return strip_blocks::is_zero(P::block(s, l, n, set, l - W));
    }
    true
}

// The same for long strips: four to six as streams.
fn vanishes_few(s: &[u8], l: usize, n: usize, set: u32) -> bool
    requires { (128 ≤ l) × (n ≤ 32) × (n * l ≤ length s.now) }
    ensures { result ≡ vanishes n l s.now set }
{
    let members = Members::of_set(set, n, l);
    let places = members.places();
    match places.len() {
        4..=6 => strip_streams::vanishes(s, l, places),
        _ => vanishes_blocks::<128, ByStep>(s, l, n, set),
    }
}

// The same for strips shorter than 16 bytes, after the last of which bytes follow.
fn vanishes_narrow(s: &[u8], l: usize, n: usize, set: u32) -> bool
    requires { (l < 16) × (n ≤ 32) × (n * l + 16 ≤ length s.now) }
    ensures { result ≡ vanishes n l s.now set }
{
    strip_blocks::starts_zero(strip_blocks::suited_sum::<16>(s, l, n, set, 0), l)
}

// The same in the way that suits the strips' length and the set.
fn strip_vanishes(s: &[u8], l: usize, n: usize, set: u32) -> bool
    requires { (n ≤ 32) × (n * l ≤ length s.now) }
    ensures { result ≡ vanishes n l s.now set }
{
    if l == 0 {
        true
    } else if l < 16 {
        vanishes_blocks::<1, ByTest>(s, l, n, set)
    } else if 1024 <= l {
        vanishes_few(s, l, n, set)
    } else if 128 <= l {
        vanishes_blocks::<128, ByStep>(s, l, n, set)
    } else if strip_blocks::is_sparse(set, n, l) {
        vanishes_blocks::<16, ByStep>(s, l, n, set)
    } else {
        vanishes_blocks::<16, ByTest>(s, l, n, set)
    }
}

// Whether it vanishes for every word of a basis. This is for strips shorter than 16 bytes: they are copied to
// where bytes follow.
fn all_narrow_vanish(s: &[u8], l: usize, n: usize, words: &Basis) -> bool
    requires { (l < 16) × (n ≤ 32) × (n * l ≤ length s.now) }
    ensures { result ≡ all_vanish n l s.now words.now }
{
    let mut local = [0u8; 512];
    strip_blocks::copy_first(&mut local, s, n * l);
    for word in words.words() {
        if !vanishes_narrow(&local, l, n, *word) {
            return false;
        }
    }
    true
}

// Whether it vanishes for every word of a basis. Up to 3 bytes a strip is not worth a copy.
pub fn all_vanish(s: &[u8], l: usize, n: usize, words: &Basis) -> bool
    requires { (l ≤ 65536) × (n ≤ 32) × (n * l ≤ length s.now) }
    ensures { result ≡ all_vanish n l s.now words.now }
{
    if 3 < l && l < 16 {
        return all_narrow_vanish(s, l, n, words);
    }
    for word in words.words() {
        if !strip_vanishes(s, l, n, *word) {
            return false;
        }
    }
    true
}
