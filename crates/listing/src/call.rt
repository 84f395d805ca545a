// The records of a log with their keys read, and how they are printed.
ghost use Rattle.std.specs.Prelude.{◌≡◌, length, Some};
ghost use Rattle.journal.specs.KeyKinds.{key_width};
ghost use Rattle.journal.specs.Readers.{log_of, keys_of, KeyInside, KeysInside};
ghost use Rattle.listing.specs.declared.call.AnyKey.TheVariants as kind;
ghost use Rattle.listing.specs.Calls.{key_at_place, any_fault, call_of};
ghost use Rattle.listing.specs.Lines.{any_fault_shown, key_shown, note_shown, call_shown};

use journal::{KeyKind, Reader, Record};
use keys::{Decimal, DecimalFault, Key, Ordered, Text, TextFault, Whole};
use requests::Call;
use std::fmt;

// A key of the kind that its log has. Beside `KeyKind`, which says the kind where there is no key yet.
#[derive(Clone, Copy, PartialEq, Eq, Debug)]
pub enum AnyKey {
    Whole(Whole),
    Decimal(Decimal),
    Text(Text),
}

// The fault of such a key; whole keys have none.
#[derive(Clone, Copy, PartialEq, Eq, Debug)]
pub enum AnyFault {
    Decimal(DecimalFault),
    Text(TextFault),
}

impl From<Whole> for AnyKey {
    ghost from_gives = { λ key any. any ≡ kind.Whole key };

    fn from(key: Whole) -> AnyKey {
        AnyKey::Whole(key)
    }
}

impl From<Decimal> for AnyKey {
    ghost from_gives = { λ key any. any ≡ kind.Decimal key };

    fn from(key: Decimal) -> AnyKey {
        AnyKey::Decimal(key)
    }
}

impl From<Text> for AnyKey {
    ghost from_gives = { λ key any. any ≡ kind.Text key };

    fn from(key: Text) -> AnyKey {
        AnyKey::Text(key)
    }
}

impl AnyKey {
    // The key whose body begins at a place of the log.
    fn at(log: &Reader, place: usize) -> AnyKey
        requires { KeyInside (length (log_of log.now)) (key_width (keys_of log.now)) place }
        ensures { result ≡ key_at_place (keys_of log.now) (log_of log.now) place }
    {
        let body = log.body_at(place);
        match log.key_kind() {
            KeyKind::Whole => Whole::read_body(body).into(),
            KeyKind::Decimal => Decimal::read_body(body).into(),
            KeyKind::Text => Text::read_body(body).into(),
        }
    }

    // What is wrong with the key, if anything is.
    pub fn fault(&self) -> Option<AnyFault>
        ensures { result ≡ any_fault self.now }
    {
        match self {
            AnyKey::Whole(_) => None,
            AnyKey::Decimal(key) => key.check().err().map(AnyFault::Decimal),
            AnyKey::Text(key) => key.check().err().map(AnyFault::Text),
        }
    }
}

impl fmt::Display for AnyFault {
    ghost output = { λ e. Some (any_fault_shown e) };

    fn fmt<W: fmt::Write>(&self, f: &mut fmt::Formatter<W>) -> fmt::Result {
        match self {
            AnyFault::Decimal(fault) => write!(f, "{fault}"),
            AnyFault::Text(fault) => write!(f, "{fault}"),
        }
    }
}

impl fmt::Display for AnyKey {
    ghost output = { λ k. Some (key_shown k) };

    fn fmt<W: fmt::Write>(&self, f: &mut fmt::Formatter<W>) -> fmt::Result {
        match self {
            AnyKey::Whole(key) => write!(f, "{key}"),
            AnyKey::Decimal(key) => write!(f, "{key}"),
            AnyKey::Text(key) => write!(f, "{key}"),
        }
    }
}

// What is said of a key behind the fields of its line: nothing of a well-formed one, else its argument and its fault.
#[derive(Drop)]
pub struct Note<'a> {
    argument: &'a str,
    key: &'a AnyKey,
}

impl<'a> Note<'a> {
    pub fn new(argument: &'a str, key: &'a AnyKey) -> Note<'a>
        ensures { (result.argument.now ≡ argument.now) × (result.key.now ≡ key.now) }
    {
        Note { argument, key }
    }
}

impl fmt::Display for Note<'_> {
    ghost output = { λ n. Some (note_shown n.argument.now n.key.now) };

    fn fmt<W: fmt::Write>(&self, f: &mut fmt::Formatter<W>) -> fmt::Result {
        let argument = self.argument;
        match self.key.fault() {
            None => Ok(()),
            Some(fault) => write!(f, " ill-formed {argument} {fault}"),
        }
    }
}

// A record with its keys read: the call that it asks for, as a line tells it.
#[derive(Clone, Copy, PartialEq, Eq, Debug)]
pub struct Request(pub Call<AnyKey>);

impl Request {
    // The request of a record, whose keys lie whole in the log.
    pub(crate) fn of(log: &Reader, record: Record) -> Request
        requires { KeysInside (length (log_of log.now)) (key_width (keys_of log.now)) «record» }
        ensures { result.0 ≡ call_of (keys_of log.now) (log_of log.now) «record» }
    {
        Request(record.map(|place| AnyKey::at(log, place)))
    }
}

impl fmt::Display for Request {
    ghost output = { λ r. Some (call_shown r.0) };

    fn fmt<W: fmt::Write>(&self, f: &mut fmt::Formatter<W>) -> fmt::Result {
        match &self.0 {
            Call::Put { low, high, rows } => {
                let first = Note::new("low", low);
                let second = Note::new("high", high);
                write!(f, "put {low} {high} {rows}{first}{second}")
            }
            Call::Drop { key } => write!(f, "drop {key}{}", Note::new("key", key)),
            Call::Split { key, lower, upper } => {
                write!(f, "split {key} {lower} {upper}{}", Note::new("key", key))
            }
            Call::Advance => f.write_str("advance"),
            Call::Open { session, key } => write!(
                f,
                "open {session} {key}{}",
                Note::new("key", key)
            ),
            Call::Step { session } => write!(f, "step {session}"),
            Call::Close { session } => write!(f, "close {session}"),
            Call::Counts => f.write_str("counts"),
        }
    }
}
