// One strip rewritten, and with it the strips that each of its bytes goes into: every byte of these is
// XORed with the old and the new byte.
//
// The strip starts at q of a slice, the others at the places of a list, and none of them meets it. Strips go
// in blocks of 64 bytes, which stay in the machine's registers, shorter ones in blocks of 16, and those
// below 16 byte by byte. Where many long strips change, the blocks have 512 bytes, so that each strip is
// read and written in longer runs.
#![tactic(auto)]

ghost use Rattle.std.specs.Prelude.{◌≡◌, ℕ, ◌+◌, ◌<◌, ◌≤◌, length, get_or};
ghost use Rattle.gf2.specs.Sets.{◌⊕◌};
ghost use Rattle.flat.specs.Lists.{tabulate, put};
ghost use Rattle.strip_blocks.specs.Places.{Inside, Apart};
ghost use Rattle.strip_updates.specs.Changes.{from, added, changed};

// The change: bytes of the slice from a place on, XORed with those of the new strip from o on.
fn take_change(change: &mut [u8], s: &[u8], at: usize, new: &[u8], o: usize)
    requires { (at + length change.old ≤ length s.now) × (o + length change.old ≤ length new.now) }
    ensures { change.new ≡ tabulate (length change.old) (λ t. get_or s.now (at + t) 0 ⊕ get_or new.now (o + t) 0) }
{
    for t in 0..change.len() {
        change[t] = s[at + t] ^ new[o + t];
    }
}

// XORs the change into the bytes of the slice from a place on.
fn add(s: &mut [u8], at: usize, change: &[u8])
    requires { at + length change.now ≤ length s.old }
    ensures { s.new ≡ put s.old at (tabulate (length change.now) (λ t. get_or s.old (at + t) 0 ⊕ get_or change.now t 0)) }
{
    for t in 0..change.len() {
        s[at + t] ^= change[t];
    }
}

// The same for the strips of the list, from their byte o on.
fn add_each(s: &mut [u8], places: &[u32], o: usize, change: &[u8])
    requires { (j : ℕ) → j < length places.now → get_or places.now j 0 + o + length change.now ≤ length s.old }
    ensures { s.new ≡ added o places.now (length places.now) change.now s.old }
{
    for place in places {
        add(s, *place as usize + o, change);
    }
}

// The W bytes from o on: the change is taken from the strip at q and its new bytes, and added to that strip,
// which makes it the new one, and to each strip of the list.
fn update_block<const W: usize>(s: &mut [u8], q: usize, places: &[u32], new: &[u8], o: usize)
    requires block { o + W ≤ length new.now }
    requires own { q + length new.now ≤ length s.old }
    requires inside { Inside s.old (length new.now) places.now (length places.now) }
    ensures { s.new ≡ changed (from o W) q places.now (length places.now) new.now s.old }
{
    let mut change = [0u8; W];
    take_change(&mut change, s, q + o, new, o);
    add(s, q + o, &change);
    add_each(s, places, o, &change);
}

// The whole strip in blocks of W bytes. The last block comes first, and the one before it may lie over its
// beginning: what is rewritten there already has no change any more. A `for` over `(0..l - W).step_by(W)`
// tests once more in each turn, and took up to 8 percent longer.
fn update_by<const W: usize>(s: &mut [u8], q: usize, places: &[u32], new: &[u8])
    requires block { (0 < W) × (W ≤ length new.now) }
    requires own { q + length new.now ≤ length s.old }
    requires inside { Inside s.old (length new.now) places.now (length places.now) }
    requires apart { Apart q (length new.now) places.now (length places.now) }
    ensures { s.new ≡ changed (from 0 (length new.now)) q places.now (length places.now) new.now s.old }
{
    let l = new.len();
    update_block::<W>(s, q, places, new, l - W);
    let mut o = 0;
    while o + W < l {
        update_block::<W>(s, q, places, new, o);
        o += W;
    }
}

// The same for strips of 64 bytes or more.
fn update_long(s: &mut [u8], q: usize, places: &[u32], new: &[u8])
    requires long { 64 ≤ length new.now }
    requires own { q + length new.now ≤ length s.old }
    requires inside { Inside s.old (length new.now) places.now (length places.now) }
    requires apart { Apart q (length new.now) places.now (length places.now) }
    ensures { s.new ≡ changed (from 0 (length new.now)) q places.now (length places.now) new.now s.old }
{
    if new.len() < 1024 {
        update_by::<64>(s, q, places, new);
    } else if places.len() < 6 {
        update_by::<64>(s, q, places, new);
    } else {
        update_by::<512>(s, q, places, new);
    }
}

// The same in the way that suits the strips' length.
pub fn update(s: &mut [u8], q: usize, places: &[u32], new: &[u8])
    requires not_empty { 1 ≤ length new.now }
    requires own { q + length new.now ≤ length s.old }
    requires inside { Inside s.old (length new.now) places.now (length places.now) }
    requires apart { Apart q (length new.now) places.now (length places.now) }
    ensures { s.new ≡ changed (from 0 (length new.now)) q places.now (length places.now) new.now s.old }
{
    if 64 <= new.len() {
        update_long(s, q, places, new);
    } else if 16 <= new.len() {
        update_by::<16>(s, q, places, new);
    } else {
        update_by::<1>(s, q, places, new);
    }
}
