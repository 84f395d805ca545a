// A whole store as text.
ghost use Rattle.std.specs.Prelude.{◌≡◌, ◌<◌, ◌≤◌, ◌++◌, length, IfOk, string_bytes, OnOk};
ghost use Rattle.store.specs.Cells.{mark_of, cell_at};
ghost use Rattle.dumping.specs.Marks.{marked, all_marked};
ghost use Rattle.dumping.specs.Dumps.{cell_line, dumped};

use crate::line::{Line, Mark};
use crate::printable::Printable;
use crate::totals::Totals;
use std::alloc::{AllocError, Global};
use std::fmt;
use store::{FREE, Store};

// Adds the line of node n, if it has one, and counts its mark.
#[tactic(auto, using(store::proofs::Uses::mark_is))]
fn dump_cell<K: Printable, S: Store<Key = K>>(
    out: &mut String,
    totals: &mut Totals,
    store: &S,
    n: usize,
) -> Result<(), AllocError>
    requires from { 0 < n }
    requires to { n ≤ length (S.Store.cells store.now) }
    requires few { all_marked totals.old < 18446744073709551615 }
    ensures text { OnOk result (string_bytes out.new ≡ string_bytes out.old ++ cell_line K.Printable.held n (cell_at (S.Store.cells store.now) n)) }
    ensures marks { totals.new ≡ marked (mark_of (cell_at (S.Store.cells store.now) n)) totals.old }
{
    let mark = store.mark(n).unwrap();
    totals.add(mark);
    if mark == FREE {
        return Ok(());
    }
    match store.read(n) {
        Ok(node) => writeln!(out, "{}", Line::of(n, &node)),
        Err(_) => writeln!(out, "{n} {} closed", Mark(mark)),
    }
}

// What a store holds: a line for each node that is not free, with its number, then a line that counts the nodes by mark.
// The only error is want of memory.
pub fn dump<K: Printable, S: Store<Key = K>>(heap: Global, store: &S) -> Result<String, fmt::Error>
    ensures { IfOk result (λ s. string_bytes s ≡ dumped K.Printable.held (S.Store.cells store.now)) }
{
    let mut out = String::new(heap);
    let mut totals = Totals::default();
    let count = store.count();
    for n in 1..=count {
        dump_cell(&mut out, &mut totals, store, n)?;
    }
    writeln!(out, "{count} nodes: {totals}")?;
    Ok(out)
}
