// The table of contents of a record file: numbers as bytes, entries, and where the bodies start.
// Writer and reader share the entries: the one puts their bytes, the other compares them.
//
// A record's layout is said in record_format/specs/Records.antt. Module layout has the place of each strip.
// Each contract says what is assumed of the arguments.
#![tactic(auto)]

ghost use Rattle.std.specs.Prelude.{◌≡◌, ◌+◌, ◌*◌, ◌^◌, ◌<◌, ◌≤◌, ◌++◌, length, take, drop};
ghost use Rattle.flat.specs.Lists.{bytes, field, same};
ghost use Rattle.flat.specs.Cards.{card_length};
ghost use Rattle.record_format.specs.Records.{entry, strips_at};
ghost use Rattle.record_contents.specs.Kinds.{kind_number};

mod layout;

pub use layout::Layout;

// What an entry is of: the card, a strip, or a strip that is lost and has no body.
#[derive(Clone, Copy, PartialEq, Eq, Debug)]
pub enum Kind {
    Card,
    Strip,
    LostStrip,
}

impl Kind {
    // The number that stands for it in a record.
    pub fn number(self) -> u8
        ensures { result ≡ kind_number self }
    {
        self as u8
    }
}

// Whether the bytes stand in the slice at a place.
pub fn stands(s: &[u8], at: usize, wanted: &[u8]) -> bool
    requires { at + length wanted.now ≤ length s.now }
    ensures { result ≡ same (take (length wanted.now) (drop at s.now)) wanted.now }
{
    s[at..].starts_with(wanted)
}

// The number in W bytes, low byte first.
pub fn number<const W: usize>(s: &[u8], at: usize) -> usize
    requires { (W ≤ 4) × (at + W ≤ length s.now) }
    ensures value { result ≡ field at W s.now }
    ensures bound { result < 256 ^ W }
{
    let mut word = [0u8; 8];
    word[..W].copy_from_slice(&s[at..at + W]);
    usize::from_le_bytes(word)
}

// The bytes of a strip length and of the number of entries.
pub fn sizes(l: usize, e: usize) -> [u8; 6]
    ensures { result ≡ bytes 4 l ++ bytes 2 e }
{
    let [l0, l1, l2, l3, ..] = l.to_le_bytes();
    let [e0, e1, ..] = e.to_le_bytes();
    [l0, l1, l2, l3, e0, e1]
}

// The bytes of an entry.
pub fn entry(kind: u8, disk: u8, offset: usize, len: usize) -> [u8; 10]
    ensures { result ≡ entry kind disk offset len }
{
    let [o0, o1, o2, o3, ..] = offset.to_le_bytes();
    let [n0, n1, n2, n3, ..] = len.to_le_bytes();
    [kind, disk, o0, o1, o2, o3, n0, n1, n2, n3]
}

// Where the strips' bodies start, for n disks of which m are parity: after the contents and the card.
pub fn strips_at(n: usize, m: usize) -> usize
    requires { (n ≤ 32) × (m ≤ 16) }
    ensures value { result ≡ strips_at n (card_length m) }
    ensures bound { result ≤ 374 }
{
    20 + 10 * n + 2 + 2 * m
}
