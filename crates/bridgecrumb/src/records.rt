// The calls on record files: the writer, the reader, and where a body stands.
ghost use Rattle.std.specs.Prelude.{◌≡◌, [], ◌∷◌, suc, length};
ghost use Rattle.record_format.specs.Records.{offset_in, body_length_in};
ghost use Rattle.flat.specs.Faults.{unless_refused};
ghost use Rattle.record_format.specs.Faults.{record_write_report, record_write_output, record_report, record_columns, body_report};
ghost use Rattle.export_bounds.specs.Coded.{coded, coded_fault};

use export_codes::{record_fault_code, record_written_code, there_code};
use record::{BodyPlace, RecordRead};

// The record writer: the record of the stripe at the output's front. A refused call writes nothing.
#[tactic(auto, using(export_bounds::proofs::RecordValues::record_write_fits))]
#[unsafe(no_mangle)]
pub extern "C" fn bridgecrumb_record_write(
    card: &[u8],
    l: usize,
    lost: u32,
    stripe: &[u8],
    out: &mut [u8],
) -> u64
    ensures value { result ≡ coded (record_write_report card.now l lost (length stripe.now) (length out.old)) }
    ensures out_after { out.new ≡ record_write_output card.now l lost stripe.now out.old }
{
    record_written_code(record::write(card, l, lost, stripe, out))
}

// The record reader: k, m, the strips' length and the lost set, and the columns, then zeros. A refused
// call writes nothing.
#[tactic(auto, using(export_bounds::proofs::RecordValues::record_fits))]
#[unsafe(no_mangle)]
pub extern "C" fn bridgecrumb_record_read(
    file: &[u8],
    fields: &mut [usize; 4],
    columns: &mut [u16; 16],
) -> u64
    ensures value { result ≡ coded_fault (record_report file.now) }
    ensures fields_after { fields.new ≡ unless_refused (record_report file.now) (record_report file.now).values fields.old }
    ensures columns_after { columns.new ≡ unless_refused (record_report file.now) (record_columns file.now) columns.old }
{
    match record::read(file) {
        Ok(read) => {
            let RecordRead { k, m, l, lost, .. } = read;
            let found = read.columns;
            *fields = [k, m, l, lost as usize];
            *columns = found;
            0
        }
        Err(fault) => record_fault_code(fault),
    }
}

// Where the disk's strip starts in the file, and its length: a part of a slice cannot be handed to C. A
// refused call writes nothing.
#[tactic(auto, using(export_bounds::proofs::RecordValues::body_fits))]
#[unsafe(no_mangle)]
pub extern "C" fn bridgecrumb_record_body(file: &[u8], disk: usize, place: &mut [usize; 2]) -> u64
    ensures value { result ≡ coded (body_report file.now disk) }
    ensures place_after { place.new ≡ unless_refused (body_report file.now disk) (offset_in file.now (suc disk) ∷ body_length_in file.now (suc disk) ∷ []) place.old }
{
    let found = record::body_place(file, disk);
    let code = there_code(found);
    if code % 256 != 0 {
        return code;
    }
    // No error has the number 0, so there is a place.
    let BodyPlace { at, len } = found.unwrap_or(BodyPlace { at: 0, len: 0 });
    *place = [at, len];
    code
}
