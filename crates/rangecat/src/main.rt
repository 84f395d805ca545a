// rangecat: makes a catalogue's logs and memory readable. `rangecat --help` says what it can do.
#![tactic(auto)]

mod command;

use anyhow::anyhow;
use command::Command;
use dumping::dump;
use journal::KeyKind;
use keys::{Decimal, Text, Whole};
use listing::list;
use packed::ByteStore;
use std::env;
use std::io::Read;
use std::process::ExitCode;

// Bytes of a log past this many are not read.
const MOST_LOG: u64 = 65536;

// A memory image longer than this is refused.
const MOST_IMAGE: usize = 16777216;

const HELP: &str = "rangecat: makes the logs and the memory of a range catalogue readable

usage:
  rangecat list < LOG          print a line for each record of a log, then a line that counts them by kind
  rangecat dump KIND < IMAGE   print a line for each node of a byte store's memory that is not free, then
                               a line that counts the nodes by mark; KIND is whole, decimal or text
  rangecat --help              print this help (as do -h, help, and no word at all)

A log or an image is read from standard input: of a log at most 65,536 bytes, of an image 16 MiB.
docs/FORMATS.md describes both. A fault of a log is printed as: byte OFFSET refused NUMBER
(15: unknown kind byte; 16: cut short).
";

// At most so many bytes of standard input.
fn read_input(rt: &HostRuntime, most: u64) -> anyhow::Result<Vec<u8>> {
    let mut bytes = Vec::new(rt.alloc());
    let mut input = rt.stdin().take(most);
    let _ = input.read_to_end(&mut bytes)?;
    Ok(bytes)
}

fn print_list(rt: &HostRuntime) -> anyhow::Result<()> {
    let log = read_input(rt, MOST_LOG)?;
    let lines = list(rt.alloc(), &log).map_err(|_| anyhow!("out of memory"))?;
    Ok(print!(rt; "{lines}")?)
}

fn print_dump(rt: &HostRuntime, kind: KeyKind) -> anyhow::Result<()> {
    let mut image = read_input(rt, MOST_IMAGE as u64 + 1)?;
    if image.len() > MOST_IMAGE {
        return Err(anyhow!("the image is longer than 16 MiB"));
    }
    let text = match kind {
        KeyKind::Whole => dump(rt.alloc(), &ByteStore::<Whole>::new(&mut image)),
        KeyKind::Decimal => dump(rt.alloc(), &ByteStore::<Decimal>::new(&mut image)),
        KeyKind::Text => dump(rt.alloc(), &ByteStore::<Text>::new(&mut image)),
    };
    let lines = text.map_err(|_| anyhow!("out of memory"))?;
    Ok(print!(rt; "{lines}")?)
}

fn unknown(rt: &HostRuntime, what: &str, word: &str) -> anyhow::Result<()> {
    let text = format!(in rt.alloc(); "unknown {what} '{word}'; see rangecat --help")?;
    Err(anyhow!(text))
}

fn run(rt: &HostRuntime) -> anyhow::Result<()> {
    let mut words = env::args(rt)?.skip(1);
    let Some(word) = words.next() else {
        return Ok(print!(rt; "{HELP}")?);
    };
    let second = words.next();
    if words.next().is_some() {
        return Err(anyhow!("too many words; see rangecat --help"));
    }
    let Ok(command) = word.parse::<Command>() else {
        return unknown(rt, "word", word.as_str());
    };
    match (command, second) {
        (Command::Dump, None) => Err(anyhow!("dump takes a kind of keys: whole, decimal or text")),
        (Command::Dump, Some(name)) => match name.parse::<KeyKind>() {
            Ok(kind) => print_dump(rt, kind),
            Err(_) => unknown(rt, "kind of keys", name.as_str()),
        },
        (_, Some(_)) => Err(anyhow!("too many words; see rangecat --help")),
        (Command::Help, None) => Ok(print!(rt; "{HELP}")?),
        (Command::List, None) => print_list(rt),
    }
}

// A failure is told in one line, and ends the program with status 1.
fn main(rt: HostRuntime) -> ExitCode {
    match run(&rt) {
        Ok(()) => ExitCode::SUCCESS,
        Err(error) => {
            let _ = eprintln!(rt; "rangecat: {error}");
            ExitCode::FAILURE
        }
    }
}
