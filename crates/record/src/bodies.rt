// The body call: a strip as a part of the caller's file. And the call beside it, which says why there is
// none.
ghost use Rattle.std.specs.Prelude.{◌≡◌, suc, ◌+◌, ◌≤◌, length, IfOk};
ghost use Rattle.record_format.specs.Records.{offset_in, body_length_in};
ghost use Rattle.record_format.specs.Faults.{body_report, body_part};
ghost use Rattle.record.specs.Reports.{report, there};
ghost use Rattle.record.specs.declared.bodies.BodyError.TheVariants.{Record as RecordsFault};

use record_contents::Layout;
use record_reader::{RecordFault, RecordInfo, check};

// Why the strip is not there: the reader's fault, a disk that the code lacks, or a lost disk.
#[derive(Clone, Copy, Debug, PartialEq, Eq)]
pub enum BodyError {
    Record(RecordFault),
    NoDisk,
    Lost,
}

impl From<RecordFault> for BodyError {
    ghost from_gives = { λ fault error. error ≡ RecordsFault fault };

    fn from(fault: RecordFault) -> BodyError {
        BodyError::Record(fault)
    }
}

// Where in the file a strip stands.
#[derive(Clone, Copy, Debug, PartialEq, Eq)]
pub struct BodyPlace {
    pub at: usize,
    pub len: usize,
}

// Where the strip of the disk stands.
#[tactic(auto, using(crate::proofs::Places::places))]
pub fn body_place(file: &[u8], disk: usize) -> Result<BodyPlace, BodyError>
    ensures value { report (there result) ≡ body_report file.now disk }
    ensures place { IfOk result (λ place. (place.at ≡ offset_in file.now (suc disk)) × (place.len ≡ body_length_in file.now (suc disk))) }
    ensures bound { IfOk result (λ place. place.at + place.len ≤ length file.now) }
{
    let RecordInfo { k, m, l, lost } = check(file)?;
    let n = k + m;
    if disk >= n {
        return Err(BodyError::NoDisk);
    }
    if gf2::has(lost, disk as u32) {
        return Err(BodyError::Lost);
    }
    let start = record_contents::strips_at(n, m);
    let layout = Layout { start, l, lost };
    Ok(BodyPlace {
        at: layout.body_at(disk),
        len: l,
    })
}

// The call beside the body call: whether the strip is there.
pub fn body_check(file: &[u8], disk: usize) -> Result<(), BodyError>
    ensures { report result ≡ body_report file.now disk }
{
    body_place(file, disk)?;
    Ok(())
}

// The body call: the strip as a part of the file, no byte of it copied. The part is empty where the strip
// is not there.
pub fn body(file: &[u8], disk: usize) -> &[u8]
    ensures { result.now ≡ body_part file.now disk }
{
    let BodyPlace { at, len } = body_place(file, disk).unwrap_or(BodyPlace { at: 0, len: 0 });
    let end = at + len;
    &file[at..end]
}
