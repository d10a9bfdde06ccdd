// The parts of a record, put into a slice with room for them: the mark, the sizes, the entries, the card and
// the bodies.
//
// It assumes at most 32 disks, strips of at most 65,536 bytes and a stripe with the strips of all disks.
ghost use Rattle.std.specs.Prelude.{◌≡◌, suc, ◌+◌, ◌*◌, ◌<◌, ◌≤◌, length};
ghost use Rattle.flat.specs.Lists.{range, each, put};
ghost use Rattle.record_format.specs.Records.{strips_at, body_at, strip_entry, strip_body, record_bytes};

use copies::copy;
use record_contents::{Kind, Layout, entry, sizes};

// Puts the entries of the disks below n.
#[tactic(auto, using(crate::proofs::Runs::entries_laws))]
fn put_entries(out: &mut [u8], layout: Layout, n: usize)
    requires { (n ≤ 32) × (20 + 10 * n ≤ length out.old) }
    ensures { out.new ≡ put out.old 20 (each (strip_entry layout.start layout.l layout.lost) (range 0 n)) }
{
    for i in 0..n {
        let entry = layout.strip_entry(i);
        copy(out, 20 + 10 * i, &entry);
    }
}

// Puts the body of disk i, if it has one.
#[tactic(auto, using(crate::proofs::Lent::body_laws))]
fn put_body(out: &mut [u8], layout: Layout, stripe: &[u8], i: usize)
    requires { (i < 32) × (i * layout.l + layout.l ≤ length stripe.now) × (body_at layout.start layout.l layout.lost (suc i) ≤ length out.old) }
    ensures { out.new ≡ put out.old (body_at layout.start layout.l layout.lost i) (strip_body layout.l layout.lost stripe.now i) }
{
    if !gf2::has(layout.lost, i as u32) {
        let from = i * layout.l;
        let end = from + layout.l;
        copy(out, layout.body_at(i), &stripe[from..end]);
    }
}

// Puts the bodies of the disks below n.
#[tactic(auto, using(crate::proofs::Runs::bodies_laws))]
fn put_bodies(out: &mut [u8], layout: Layout, stripe: &[u8], n: usize)
    requires { (n ≤ 32) × (n * layout.l ≤ length stripe.now) × (body_at layout.start layout.l layout.lost n ≤ length out.old) }
    ensures { out.new ≡ put out.old layout.start (each (strip_body layout.l layout.lost stripe.now) (range 0 n)) }
{
    for i in 0..n {
        put_body(out, layout, stripe, i);
    }
}

// Puts the mark, the contents, the card and the bodies.
#[tactic(auto, using(crate::proofs::Recorded::room))]
pub fn put_record(card: &[u8], n: usize, l: usize, lost: u32, stripe: &[u8], out: &mut [u8])
    requires { (n ≤ 32) × (l ≤ 65536) × (length card.now ≤ 34) × (n * l ≤ length stripe.now) × (body_at (strips_at n (length card.now)) l lost n ≤ length out.old) }
    ensures { out.new ≡ put out.old 0 (record_bytes card.now n l lost stripe.now) }
{
    let bodies = 20 + 10 * n;
    let start = bodies + card.len();
    let layout = Layout { start, l, lost };
    copy(out, 0, b"FXC1");
    let sizes = sizes(l, n + 1);
    copy(out, 4, &sizes);
    let entry = entry(Kind::Card.number(), 0, bodies, card.len());
    copy(out, 10, &entry);
    put_entries(out, layout, n);
    copy(out, bodies, card);
    put_bodies(out, layout, stripe, n);
}
