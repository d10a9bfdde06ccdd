// The record file that clinics exchange: a table of contents, then the card and the strips that are not
// lost. The body call, which hands a strip back as a part of the file, and, passed on from their own
// crates, the writer and the reader.
//
// Every byte string, number and buffer is a legal argument. A record's layout is said in
// record_format/specs/Records.antt, and what is answered for which input in record_format/specs/Faults.antt.
#![tactic(auto)]

mod bodies;

pub use bodies::{BodyError, BodyPlace, body, body_check, body_place};
pub use record_reader::{RecordFault, RecordInfo, RecordRead, check, read};
pub use record_writer::{RecordWriteError, write};
