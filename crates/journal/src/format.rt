// What a log is made of: the kinds of keys and of records, the records themselves, and the faults of a log.
ghost use Rattle.std.specs.Prelude.{◌≡◌, Some, MatchResult};
ghost use Rattle.journal.specs.Faults.{fault_number, fault_byte, fault_shown};
ghost use Rattle.journal.specs.KeyKinds.{key_kind, key_width};
ghost use Rattle.journal.specs.RecordKinds.{record_kind, body_width};
ghost use Rattle.journal.specs.Unknown.{known};
ghost use Rattle.journal.specs.Words.{KindNamed, NoKindNamed};

use keys::{Decimal, Key, Text, Whole};
use requests::Call;
use std::error::Error;
use std::fmt;
use std::str::FromStr;

// The kind of a log's keys, which its first byte tells.
#[derive(Clone, Copy, PartialEq, Eq, Debug)]
pub enum KeyKind {
    Whole,
    Decimal,
    Text,
}

// The kind of a record, which its first byte tells. Beside the record itself, since the kind is known, and with it the width, before the rest is read.
#[derive(Clone, Copy, PartialEq, Eq, Debug)]
pub enum RecordKind {
    Put,
    Drop,
    Split,
    Advance,
    Open,
    Step,
    Close,
    Counts,
}

// A record as plain numbers. A key is told by its place: the offset in the log, from 0, at which its body begins.
pub type Record = Call<usize>;

// A byte that stands for no kind.
#[derive(Clone, Copy, PartialEq, Eq, Debug)]
pub struct UnknownByte(pub u8);

// A word that names no kind of keys.
#[derive(Clone, Copy, PartialEq, Eq, Debug)]
pub struct UnknownWord;

// Why a log cannot be read on. `at` is the offset of the kind byte in question; it stands in each case, since a promise names each case with its values.
#[derive(Clone, Copy, PartialEq, Eq, Debug)]
pub enum LogFault {
    // The byte stands for no kind.
    Unknown { at: usize },
    // The log ends before the record does, or before its first byte.
    Cut { at: usize },
}

impl TryFrom<u8> for KeyKind {
    type Error = UnknownByte;

    ghost try_from_gives = { known key_kind };

    fn try_from(byte: u8) -> Result<KeyKind, UnknownByte> {
        match byte {
            1 => Ok(KeyKind::Whole),
            2 => Ok(KeyKind::Decimal),
            3 => Ok(KeyKind::Text),
            _ => Err(UnknownByte(byte)),
        }
    }
}

impl FromStr for KeyKind {
    type Err = UnknownWord;

    ghost from_str_gives = { λ word result. MatchResult result (λ k. KindNamed word k) (λ _. NoKindNamed word) };

    fn from_str(word: &str) -> Result<KeyKind, UnknownWord> {
        match word {
            "whole" => Ok(KeyKind::Whole),
            "decimal" => Ok(KeyKind::Decimal),
            "text" => Ok(KeyKind::Text),
            _ => Err(UnknownWord),
        }
    }
}

impl KeyKind {
    // How many bytes the body of a key has.
    pub fn width(self) -> usize
        ensures { result ≡ key_width self }
    {
        match self {
            KeyKind::Whole => Whole::width(),
            KeyKind::Decimal => Decimal::width(),
            KeyKind::Text => Text::width(),
        }
    }
}

impl TryFrom<u8> for RecordKind {
    type Error = UnknownByte;

    ghost try_from_gives = { known record_kind };

    fn try_from(byte: u8) -> Result<RecordKind, UnknownByte> {
        match byte {
            1 => Ok(RecordKind::Put),
            2 => Ok(RecordKind::Drop),
            3 => Ok(RecordKind::Split),
            4 => Ok(RecordKind::Advance),
            5 => Ok(RecordKind::Open),
            6 => Ok(RecordKind::Step),
            7 => Ok(RecordKind::Close),
            8 => Ok(RecordKind::Counts),
            _ => Err(UnknownByte(byte)),
        }
    }
}

impl RecordKind {
    // How many bytes follow the kind byte.
    pub fn body_width(self, keys: KeyKind) -> usize
        ensures { result ≡ body_width keys self }
    {
        let key = keys.width();
        match self {
            RecordKind::Put => 2 * key + 8,
            RecordKind::Drop => key,
            RecordKind::Split => key + 16,
            RecordKind::Open => 1 + key,
            RecordKind::Step | RecordKind::Close => 1,
            RecordKind::Advance | RecordKind::Counts => 0,
        }
    }
}

impl LogFault {
    // The number that the fault is told by.
    pub fn number(&self) -> u8
        ensures { result ≡ fault_number self.now }
    {
        match self {
            LogFault::Unknown { .. } => 15,
            LogFault::Cut { .. } => 16,
        }
    }

    // The offset of the kind byte that the fault is about.
    pub fn at(&self) -> usize
        ensures { result ≡ fault_byte self.now }
    {
        match self {
            LogFault::Unknown { at } | LogFault::Cut { at } => *at,
        }
    }
}

impl Error for LogFault {}

impl fmt::Display for LogFault {
    ghost output = { λ e. Some (fault_shown e) };

    fn fmt<W: fmt::Write>(&self, f: &mut fmt::Formatter<W>) -> fmt::Result {
        let at = self.at();
        let number = self.number();
        write!(f, "byte {at} refused {number}")
    }
}
