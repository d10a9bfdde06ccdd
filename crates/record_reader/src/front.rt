// The first tests of a record file, up to the card's entry: the mark, the length of the strips, the number of
// entries and the card's entry. And the card's bytes, once these have passed.
//
// Each contract says what is assumed of the arguments: of a later test that the file is long enough, as
// the tests before it have found.
ghost use Rattle.std.specs.Prelude.{◌≡◌, true, ◌≤◌, length, MatchResult};
ghost use Rattle.record_format.specs.Records.{length_in, body_in, mark_ok, entries_ok, card_entry_ok};
ghost use Rattle.record_format.specs.Faults.{record_report};
ghost use Rattle.record_reader.specs.Passed.{Listed};
ghost use Rattle.record_reader.specs.Reports.{record_fault_report};

use crate::RecordFault;
use record_contents::{Kind, number, stands};

// Ten bytes, and the mark at the front.
#[tactic(auto, using(crate::proofs::Heads::mark_tests))]
fn mark_ok(file: &[u8]) -> bool
    ensures { result ≡ mark_ok file.now }
{
    10 <= file.len() && stands(file, 0, b"FXC1")
}

// E is 3 to 33, and no entry lies past the end.
#[tactic(auto, using(crate::proofs::Heads::entry_count_tests))]
fn entries_ok(file: &[u8]) -> bool
    requires { 10 ≤ length file.now }
    ensures { result ≡ entries_ok file.now }
{
    let e = number::<2>(file, 8);
    3 <= e && e <= 33 && 10 + 10 * e <= file.len()
}

// The card's entry: its kind, disk 0, the body after the contents and not past the end.
#[tactic(auto, using(crate::proofs::Heads::card_entry_tests))]
fn card_entry_ok(file: &[u8]) -> bool
    requires { entries_ok file.now ≡ true }
    ensures { result ≡ card_entry_ok file.now }
{
    let e = number::<2>(file, 8);
    let at = number::<4>(file, 12);
    let len = number::<4>(file, 16);
    let bodies = 10 + 10 * e;
    file[10] == Kind::Card.number() && file[11] == 0 && at == bodies && at + len <= file.len()
}

// The first tests, up to the card's entry: the length of the strips, or the record's fault.
#[tactic(auto, using(crate::proofs::Answers::first_tests))]
pub fn strip_length(file: &[u8]) -> Result<usize, RecordFault>
    ensures { MatchResult result
        (λ l. Listed file.now × (l ≡ length_in file.now))
        (λ fault. record_fault_report fault ≡ record_report file.now) }
{
    if !mark_ok(file) {
        return Err(RecordFault::Mark);
    }
    let l = number::<4>(file, 4);
    if !card::length_ok(l) {
        return Err(RecordFault::StripLength);
    }
    if !entries_ok(file) {
        return Err(RecordFault::Contents);
    }
    if !card_entry_ok(file) {
        return Err(RecordFault::Contents);
    }
    Ok(l)
}

// The card's bytes.
#[tactic(auto, using(crate::proofs::Heads::card_part_laws))]
pub fn card_body(file: &[u8]) -> &[u8]
    requires { Listed file.now }
    ensures { result.now ≡ body_in file.now 0 }
{
    let at = number::<4>(file, 12);
    let end = at + number::<4>(file, 16);
    &file[at..end]
}
