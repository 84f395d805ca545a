// Lists each sample log that an argument names, from the files in data/.
#![tactic(auto)]

use anyhow::anyhow;
use std::{env, fs};

fn list_all(rt: &HostRuntime) -> anyhow::Result<()> {
    for name in env::args(rt)?.skip(1) {
        let log = fs::read(rt, name.as_str())?;
        println!(rt; "== {name}")?;
        let lines = listing::list(rt.alloc(), &log).map_err(|_| anyhow!("out of memory"))?;
        print!(rt; "{lines}")?;
    }
    Ok(())
}

fn main(rt: HostRuntime) -> anyhow::Result<()> {
    list_all(&rt)
}
