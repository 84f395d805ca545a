// The reader of a log: from its bytes to the calls that they ask for, one record at a time.
#![tactic(auto)]

mod format;
mod laws;
mod reader;
mod records;

pub use format::{KeyKind, LogFault, Record, RecordKind, UnknownByte, UnknownWord};
pub use laws::{read_was_written, written_is_read};
pub use reader::Reader;
pub use records::Records;

#[cfg(test)]
mod tests;
