// Bytes copied into a slice at a place. The writers of cards and records put each part by it, and stripes are
// turned by it.
//
// Few bytes go one by one, since a call takes longer than they do, and more by the library's copying.
//
// Assumes that the bytes have room at their place, as the contracts say.
#![tactic(auto)]

ghost use Rattle.std.specs.Prelude.{◌≡◌, ◌+◌, ◌≤◌, length};
ghost use Rattle.flat.specs.Lists.{put};

// Puts the bytes into the slice at a place, one by one.
fn copy_few(out: &mut [u8], at: usize, new: &[u8])
    requires { at + length new.now ≤ length out.old }
    ensures { out.new ≡ put out.old at new.now }
{
    for t in 0..new.len() {
        out[at + t] = new[t];
    }
}

// Puts the bytes into the slice at a place.
pub fn copy(out: &mut [u8], at: usize, new: &[u8])
    requires { at + length new.now ≤ length out.old }
    ensures { out.new ≡ put out.old at new.now }
{
    if new.len() < 16 {
        copy_few(out, at, new);
    } else {
        out[at..at + new.len()].copy_from_slice(new);
    }
}
