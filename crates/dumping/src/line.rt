// A node as a line of text.
ghost use Rattle.std.specs.Prelude.{◌≡◌, Some};
ghost use Rattle.dumping.specs.Marks.{mark_shown};
ghost use Rattle.dumping.specs.Dumps.{line_of};
ghost use Rattle.dumping.specs.Nodes.{waits_shown, bounds_shown, line_shown};

use crate::printable::Printable;
use listing::{AnyKey, Note};
use std::fmt;
use store::{FREE, LIVE, Node, SEAT, WAITING};

// A mark by its name; one that is none of the four by its number.
#[derive(Clone, Copy)]
pub(crate) struct Mark(pub(crate) u8);

impl fmt::Display for Mark {
    ghost output = { λ m. Some (mark_shown m.0) };

    fn fmt<W: fmt::Write>(&self, f: &mut fmt::Formatter<W>) -> fmt::Result {
        match self.0 {
            FREE => f.write_str("free"),
            LIVE => f.write_str("live"),
            WAITING => f.write_str("waiting"),
            SEAT => f.write_str("seat"),
            mark => write!(f, "unknown-{mark}"),
        }
    }
}

// The sessions that a node waits for, by their bits.
#[derive(Clone, Copy)]
struct Waits(u32);

impl fmt::Display for Waits {
    ghost output = { λ w. Some (waits_shown w.0) };

    fn fmt<W: fmt::Write>(&self, f: &mut fmt::Formatter<W>) -> fmt::Result {
        if self.0 == 0 {
            return f.write_str(" none");
        }
        for session in 0..32u32 {
            if (self.0 >> session) % 2 == 1 {
                write!(f, " {session}")?;
            }
        }
        Ok(())
    }
}

// The keys of a node, and what is wrong with them.
#[derive(Clone, Copy)]
struct Bounds {
    low: AnyKey,
    high: AnyKey,
}

impl fmt::Display for Bounds {
    ghost output = { λ b. Some (bounds_shown b) };

    fn fmt<W: fmt::Write>(&self, f: &mut fmt::Formatter<W>) -> fmt::Result {
        let (low, high) = (&self.low, &self.high);
        let first = Note::new("low", low);
        let second = Note::new("high", high);
        write!(f, " low {low} high {high}{first}{second}")
    }
}

// A node that is not free, with its keys in any kind.
#[derive(Clone, Copy)]
pub(crate) struct Line {
    number: usize,
    mark: Mark,
    left: u16,
    right: u16,
    size: u16,
    rows: u64,
    waits: Waits,
    keys: Bounds,
}

impl Line {
    pub(crate) fn of<K: Printable>(number: usize, node: &Node<K>) -> Line
        ensures { result ≡ line_of K.Printable.held number node.now }
    {
        Line {
            number,
            mark: Mark(node.mark),
            left: node.left,
            right: node.right,
            size: node.size,
            rows: node.rows,
            waits: Waits(node.waits),
            keys: Bounds {
                low: node.low.any(),
                high: node.high.any(),
            },
        }
    }
}

impl fmt::Display for Line {
    ghost output = { λ l. Some (line_shown l) };

    fn fmt<W: fmt::Write>(&self, f: &mut fmt::Formatter<W>) -> fmt::Result {
        let Line {
            number,
            mark,
            left,
            right,
            size,
            rows,
            waits,
            keys,
        } = *self;
        write!(f, "{number} {mark} left {left} right {right} size {size}")?;
        write!(f, " rows {rows} waits{waits}{keys}")
    }
}
