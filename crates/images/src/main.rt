// Dumps the sample memory images in data/, one for each kind of keys.
#![tactic(auto)]

use anyhow::anyhow;
use dumping::dump;
use keys::{Decimal, Text, Whole};
use packed::ByteStore;
use std::{fmt, fs};
use store::{Guard, Store};

fn print_text(
    rt: &HostRuntime,
    title: &str,
    text: Result<String, fmt::Error>,
) -> anyhow::Result<()> {
    println!(rt; "== {title}")?;
    let lines = text.map_err(|_| anyhow!("out of memory"))?;
    Ok(print!(rt; "{lines}")?)
}

fn dump_all(rt: &HostRuntime) -> anyhow::Result<()> {
    let mut image = fs::read(rt, "whole.img")?;
    let text = dump(rt.alloc(), &ByteStore::<Whole>::new(&mut image));
    print_text(rt, "whole", text)?;
    // The guard closes free nodes, which have no line anyway.
    let text = dump(rt.alloc(), &Guard::new(ByteStore::<Whole>::new(&mut image)));
    print_text(rt, "whole under the guard", text)?;
    let mut image = fs::read(rt, "decimal.img")?;
    let text = dump(rt.alloc(), &ByteStore::<Decimal>::new(&mut image));
    print_text(rt, "decimal", text)?;
    let mut image = fs::read(rt, "text.img")?;
    let text = dump(rt.alloc(), &ByteStore::<Text>::new(&mut image));
    print_text(rt, "text", text)
}

fn main(rt: HostRuntime) -> anyhow::Result<()> {
    dump_all(&rt)
}
