// The answers of the calls on record files as one number each.
//
// Every function assumes that the report fits.
ghost use Rattle.std.specs.Prelude.{◌≡◌};
ghost use Rattle.record_writer.specs.Reports.{report as record_written_report};
ghost use Rattle.record_reader.specs.Reports.{record_fault_report};
ghost use Rattle.record.specs.Reports.{report as there_report, there};
ghost use Rattle.export_bounds.specs.Coded.{coded, Fits};

use crate::{fault_code, packed};
use record::{BodyError, BodyPlace, RecordFault, RecordWriteError};

// The writer's answer.
pub fn record_written_code(written: Result<usize, RecordWriteError>) -> u64
    requires { Fits (record_written_report written) }
    ensures { result ≡ coded (record_written_report written) }
{
    match written {
        Ok(length) => packed(0, length),
        Err(RecordWriteError::Card(fault)) => fault_code(fault),
        Err(RecordWriteError::StripLength) => 6,
        Err(RecordWriteError::OutsideSet) => 8,
        Err(RecordWriteError::StripeLength) => 7,
        Err(RecordWriteError::Output) => 16,
    }
}

// A record's fault.
pub fn record_fault_code(fault: RecordFault) -> u64
    requires { Fits (record_fault_report fault) }
    ensures { result ≡ coded (record_fault_report fault) }
{
    match fault {
        RecordFault::Mark => 13,
        RecordFault::StripLength => 6,
        RecordFault::Contents => 14,
        RecordFault::Card(card) => fault_code(card),
        RecordFault::FileLength => 15,
    }
}

// The answer to where a body stands.
pub fn there_code(answer: Result<BodyPlace, BodyError>) -> u64
    requires { Fits (there_report (there answer)) }
    ensures { result ≡ coded (there_report (there answer)) }
{
    match answer {
        Ok(_) => 0,
        Err(BodyError::Record(fault)) => record_fault_code(fault),
        Err(BodyError::NoDisk) => 9,
        Err(BodyError::Lost) => 16,
    }
}
