// Reads a log record by record.
ghost use Rattle.std.specs.Prelude.{◌≡◌, ◌+◌, ◌^◌, ◌<◌, ◌≤◌, length, IfOk};
ghost use Rattle.keys.specs.Bytes.{number};
ghost use Rattle.journal.specs.KeyKinds.{key_width};
ghost use Rattle.journal.specs.Readers.{log_of, keys_of, left, told, KeyInside, AnswerInside};
ghost use Rattle.journal.specs.Entries.{key_at};
ghost use Rattle.journal.specs.Readings.{ends, record_of, first_of, rest_of, log_reading, records_told, records_left};
ghost use Rattle.journal.specs.RecordKinds.{body_width};

use crate::format::{KeyKind, LogFault, Record, RecordKind};
use crate::records::Records;
use keys::bytes_at;

// A log and the place in it from which the next record is read.
#[derive(Clone, Copy)]
pub struct Reader<'a> {
    log: &'a [u8],
    keys: KeyKind,
    at: usize,
}

// The number that eight bytes write, highest first.
fn word(body: &[u8], at: usize) -> u64
    requires { at + 8 ≤ length body.now }
    ensures { result ≡ number 8 at body.now }
{
    u64::from_be_bytes(bytes_at(body, at))
}

// The record of a kind whose body is the first of these bytes, and begins at `place` of the log.
fn record_of(keys: KeyKind, kind: RecordKind, place: usize, body: &[u8]) -> Record
    requires whole { body_width keys kind ≤ length body.now }
    requires fits { place + length body.now < 2 ^ 64 }
    ensures { result ≡ record_of keys kind place body.now }
{
    let key = keys.width();
    match kind {
        RecordKind::Put => Record::Put {
            low: place,
            high: place + key,
            rows: word(body, 2 * key),
        },
        RecordKind::Drop => Record::Drop { key: place },
        RecordKind::Split => Record::Split {
            key: place,
            lower: word(body, key),
            upper: word(body, key + 8),
        },
        RecordKind::Advance => Record::Advance,
        RecordKind::Open => Record::Open {
            session: body[0],
            key: place + 1,
        },
        RecordKind::Step => Record::Step { session: body[0] },
        RecordKind::Close => Record::Close { session: body[0] },
        RecordKind::Counts => Record::Counts,
    }
}

impl<'a> Reader<'a> {
    // A reader at the first record of a log, whose first byte tells the kind of its keys.
    pub fn new(log: &'a [u8]) -> Result<Reader<'a>, LogFault>
        ensures answer { told result ≡ log_reading log.now }
        ensures same { IfOk result (λ reader. log_of reader ≡ log.now) }
    {
        let first = *log.first().ok_or(LogFault::Cut { at: 0 })?;
        let keys = KeyKind::try_from(first).map_err(|_| LogFault::Unknown { at: 0 })?;
        Ok(Reader { log, keys, at: 1 })
    }

    // The kind of the log's keys.
    pub fn key_kind(&self) -> KeyKind
        ensures { result ≡ keys_of self.now }
    {
        self.keys
    }

    // The body of the key that begins at a place of the log.
    pub fn body_at(&self, place: usize) -> &'a [u8]
        requires { KeyInside (length (log_of self.now)) (key_width (keys_of self.now)) place }
        ensures { result.now ≡ key_at (key_width (keys_of self.now)) (log_of self.now) place }
    {
        &self.log[place..place + self.keys.width()]
    }

    // The next record, or none at the end of the log. The place moves past what was read; at the end and at a fault it stays.
    #[tactic(auto, using(crate::proofs::Steps::at_record, crate::proofs::Steps::from_place))]
    pub fn next(&mut self) -> Result<Option<Record>, LogFault>
        ensures answer { result ≡ first_of (left self.old) }
        ensures after { left self.new ≡ rest_of (left self.old) }
        ensures same { (log_of self.new ≡ log_of self.old) × (keys_of self.new ≡ keys_of self.old) }
        ensures inside { AnswerInside (length (log_of self.old)) (key_width (keys_of self.old)) result }
        ensures fewer { records_left (left self.new) + records_told result ≡ records_left (left self.old) }
    {
        let at = self.at;
        let Some(&byte) = self.log.get(at) else {
            return Ok(None);
        };
        let kind = RecordKind::try_from(byte).map_err(|_| LogFault::Unknown { at })?;
        let body = &self.log[at + 1..];
        let width = kind.body_width(self.keys);
        if width > body.len() {
            return Err(LogFault::Cut { at });
        }
        self.at = at + 1 + width;
        Ok(Some(record_of(self.keys, kind, at + 1, body)))
    }

    // Goes to the end of the log, where nothing is left.
    pub(crate) fn finish(&mut self)
        ensures ended { left self.new ≡ ends }
        ensures same { (log_of self.new ≡ log_of self.old) × (keys_of self.new ≡ keys_of self.old) }
    {
        self.at = self.log.len();
    }

    // The records from here on.
    pub fn records(self) -> Records<'a>
        ensures { result.reader ≡ self.entry }
    {
        Records { reader: self }
    }
}
