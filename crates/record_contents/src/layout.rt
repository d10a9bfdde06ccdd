// Where each strip of a record stands: its body's place and its entry.
//
// Assumes that the disk's number is in range, as each contract says; the bounds of the sizes are the type's.
ghost use Rattle.std.specs.Prelude.{◌≡◌, ◌<◌, ◌≤◌};
ghost use Rattle.record_format.specs.Records.{body_at, strip_entry};

use crate::{Kind, entry};

// The strips of a record: where the first strip's body goes, after contents and card, the length of a strip,
// and the disks whose strips are lost.
#[derive(Clone, Copy)]
pub struct Layout {
    pub start: usize,
    pub l: usize,
    pub lost: u32,
    ghost start_bound: { start ≤ 65536 },
    ghost length_bound: { l ≤ 65536 },
}

impl Layout {
    // Where the body of disk i goes.
    pub fn body_at(self, i: usize) -> usize
        requires { i ≤ 32 }
        ensures { result ≡ body_at self.start self.l self.lost i }
    {
        if i == 0 {
            return self.start;
        }
        let before = gf2::size(gf2::survivors(i, self.lost)) as usize;
        self.start + self.l * before
    }

    // The entry of disk i.
    pub fn strip_entry(self, i: usize) -> [u8; 10]
        requires { i < 32 }
        ensures { result ≡ strip_entry self.start self.l self.lost i }
    {
        if gf2::has(self.lost, i as u32) {
            return entry(Kind::LostStrip.number(), i as u8, 0, 0);
        }
        entry(Kind::Strip.number(), i as u8, self.body_at(i), self.l)
    }
}
