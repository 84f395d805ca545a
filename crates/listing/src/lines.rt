// A log as lines of text.
ghost use Rattle.std.specs.Prelude.{◌≡◌, ◌≤◌, ◌++◌, length, IfOk, string_bytes, OnOk};
ghost use Rattle.journal.specs.Readers.{log_of, keys_of, left};
ghost use Rattle.journal.specs.Readings.{records_left};
ghost use Rattle.listing.specs.Tallies.{none_counted};
ghost use Rattle.listing.specs.Listings.{all_lines, listed};

use crate::call::Request;
use crate::tally::Tally;
use journal::Reader;
use std::alloc::{AllocError, Global};
use std::fmt;

// Adds a line for each record, then a closing line, or that of the log's fault.
fn list_records(out: &mut String, reader: Reader) -> Result<(), AllocError>
    requires { records_left (left reader) ≤ length (log_of reader) }
    ensures { OnOk result (string_bytes out.new ≡ string_bytes out.old ++ all_lines (keys_of reader.entry) (log_of reader.entry) 0 none_counted (left reader.entry)) }
{
    let mut tally = Tally::default();
    for (before, answer) in reader.records().enumerate() {
        match answer {
            Ok(record) => {
                tally.add(&record);
                writeln!(out, "{} {}", before + 1, Request::of(&reader, record))?;
            }
            Err(fault) => return writeln!(out, "{fault}"),
        }
    }
    writeln!(out, "{} records: {tally}", tally.total())
}

// What a log asks for: a line a record with its number, then a line that counts them by kind.
// A fault of the log has a line of its own, which is then the last. The only error is want of memory.
pub fn list(heap: Global, log: &[u8]) -> Result<String, fmt::Error>
    ensures { IfOk result (λ s. string_bytes s ≡ listed log.now) }
{
    let mut out = String::new(heap);
    match Reader::new(log) {
        Ok(reader) => list_records(&mut out, reader)?,
        Err(fault) => writeln!(out, "{fault}")?,
    }
    Ok(out)
}
