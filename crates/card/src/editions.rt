// Where the parts of a card stand, in either edition: the first byte, the counts, the columns and the
// wears.
//
// What they are is said in flat/specs/Cards.antt.
ghost use Rattle.std.specs.Prelude.{◌≡◌, [], ◌≤◌, ◌<◌, length, replicate};
ghost use Rattle.flat.specs.Lists.{padded, member};
ghost use Rattle.flat.specs.Cards.{code, start, first_byte_ok, card_of, parity_count, column_bytes, edition_length, wear_count, wears_of};
ghost use Rattle.card.specs.Editions.{Long, Whole, Worn, held_bytes};

use flat::Edition;

// The place of k.
#[tactic(auto, unfolding(flat::specs::Cards::start))]
pub fn start(edition: Edition) -> usize
    ensures { result ≡ start edition }
{
    match edition {
        Edition::First => 0,
        Edition::Second => 1,
    }
}

// Whether the byte before k is what it has to be.
#[tactic(auto, unfolding(flat::specs::Cards::first_byte_ok))]
pub fn first_byte_ok(edition: Edition, card: &[u8]) -> bool
    requires { Long (card_of edition card.now) }
    ensures { result ≡ first_byte_ok edition card.now }
{
    match edition {
        Edition::First => true,
        Edition::Second => card[0] == 2,
    }
}

// The length of a card of k and m.
#[tactic(auto, unfolding(flat::specs::Cards::edition_length, flat::specs::Cards::card_length, flat::specs::Cards::disks))]
pub fn length(edition: Edition, k: usize, m: usize) -> usize
    requires { (k ≤ 16) × (m ≤ 16) }
    ensures { result ≡ edition_length edition (code k m []) }
{
    match edition {
        Edition::First => 2 + 2 * m,
        Edition::Second => 3 + 2 * m + (k + m),
    }
}

// How many wears a card of n disks holds.
#[tactic(auto, unfolding(flat::specs::Cards::wear_count))]
pub fn wear_count(edition: Edition, n: usize) -> usize
    ensures { result ≡ wear_count edition n }
{
    match edition {
        Edition::First => 0,
        Edition::Second => n,
    }
}

// How many parity disks a card says that it has.
fn parities(edition: Edition, card: &[u8]) -> usize
    requires { Long (card_of edition card.now) }
    ensures { (result ≡ parity_count (card_of edition card.now)) × (result < 256) }
{
    card[start(edition) + 1] as usize
}

// The part of a card that its columns stand in.
#[tactic(auto, using(crate::proofs::Places::columns_lent))]
pub fn columns(edition: Edition, card: &[u8]) -> &[u8]
    requires { Whole (card_of edition card.now) }
    ensures { result.now ≡ column_bytes (card_of edition card.now) }
{
    let at = start(edition) + 2;
    let m = parities(edition, card);
    &card[at..at + 2 * m]
}

// What follows the columns: the wears that a card holds. The first edition holds none.
#[tactic(auto, using(crate::proofs::Places::held_lent))]
pub fn held(edition: Edition, card: &[u8]) -> &[u8]
    requires { Whole (card_of edition card.now) }
    ensures { result.now ≡ held_bytes (card_of edition card.now) }
{
    let at = start(edition) + 2;
    let m = parities(edition, card);
    &card[at + 2 * m..]
}

// Whether a wear is 0. Not by `contains`, which is a call where cards are checked at more than one place: 1.6 ns of the smallest card's 6.5.
pub fn has_zero(wears: &[u8]) -> bool
    ensures { result ≡ member 0 wears.now }
{
    wears.iter().any(|wear| *wear == 0)
}

// A wear of 1 for each of n disks, then zeros.
fn ones(n: usize) -> [u8; 32]
    requires { n ≤ 32 }
    ensures { result ≡ padded 32 (replicate n 1) }
{
    let mut out = [0u8; 32];
    out[..n].fill(1);
    out
}

// The wears, then zeros.
fn padded(wears: &[u8]) -> [u8; 32]
    requires { length wears.now ≤ 32 }
    ensures { result ≡ padded 32 wears.now }
{
    let mut out = [0u8; 32];
    out[..wears.len()].copy_from_slice(wears);
    out
}

// A wear for each of the n disks of a good card, then zeros.
#[tactic(auto, using(crate::proofs::Places::wears_first, crate::proofs::Places::wears_second, crate::proofs::Places::held_few))]
pub fn wears(edition: Edition, card: &[u8], n: usize) -> [u8; 32]
    requires { Worn (card_of edition card.now) n }
    ensures { result ≡ padded 32 (wears_of (card_of edition card.now)) }
{
    match edition {
        Edition::First => ones(n),
        Edition::Second => padded(held(edition, card)),
    }
}
