// The last tests of a record file: the strips' entries, and then the file's length. They read no body.
//
// Assumes that the file is as long as its entries ask, as the tests before have found.
ghost use Rattle.std.specs.Prelude.{◌≡◌, suc, [], ◌∷◌, ◌+◌, ◌*◌, ◌<◌, ◌≤◌, length, MatchResult};
ghost use Rattle.flat.specs.Lists.{same};
ghost use Rattle.flat.specs.Cards.{disks};
ghost use Rattle.flat.specs.Faults.{accepted};
ghost use Rattle.record_format.specs.Records.{length_in, entry_in, strip_entry, lost_in, strip_entries_ok};
ghost use Rattle.record_format.specs.Faults.{strips_report, read_report};
ghost use Rattle.record_reader.specs.Reports.{record_fault_report};

use crate::RecordFault;
use card::Code;
use record_contents::{Kind, Layout, stands, strips_at};

// The lost disks: those below n whose entry is a lost strip's.
fn lost_in(file: &[u8], n: usize) -> u32
    requires { (n ≤ 32) × (20 + 10 * n ≤ length file.now) }
    ensures { result ≡ lost_in n file.now }
{
    let mut lost = 0u32;
    for i in 0..n {
        if file[20 + 10 * i] == Kind::LostStrip.number() {
            lost += 1u32 << i;
        }
    }
    lost
}

// Whether disk i has the entry that is written for it.
fn entry_stands(file: &[u8], layout: Layout, i: usize) -> bool
    requires { (i < 32) × (30 + 10 * i ≤ length file.now) }
    ensures { result ≡ same (entry_in file.now (suc i)) (strip_entry layout.start layout.l layout.lost i) }
{
    let entry = layout.strip_entry(i);
    stands(file, 20 + 10 * i, &entry)
}

// Whether each disk below n has the entry that is written for it.
fn entries_stand(file: &[u8], layout: Layout, n: usize) -> bool
    requires { (n ≤ 32) × (20 + 10 * n ≤ length file.now) }
    ensures { result ≡ strip_entries_ok n layout.start layout.l layout.lost file.now }
{
    (0..n).all(|i| entry_stands(file, layout, i))
}

// The last tests, the strips' entries and then the file's length: the lost set of a file with strips of l
// bytes and as many entries as its card's code needs, or the record's fault.
#[tactic(auto, using(crate::proofs::StripTests::last_tests))]
pub fn lost_set(file: &[u8], code: &Code<'_>, l: usize) -> Result<u32, RecordFault>
    requires { (l ≤ 65536) × (20 + 10 * disks code.now ≤ length file.now) × (l ≡ length_in file.now) }
    ensures { MatchResult result
        (λ lost. accepted (code.now.k ∷ code.now.m ∷ l ∷ lost ∷ []) ≡ strips_report code.now file.now (read_report file.now code.now))
        (λ fault. record_fault_report fault ≡ strips_report code.now file.now (read_report file.now code.now)) }
{
    let n = code.n();
    let start = strips_at(n, code.m());
    let lost = lost_in(file, n);
    let layout = Layout { start, l, lost };
    let listed = entries_stand(file, layout, n);
    let sized = file.len() == layout.body_at(n);
    if !listed {
        return Err(RecordFault::Contents);
    }
    if !sized {
        return Err(RecordFault::FileLength);
    }
    Ok(lost)
}
