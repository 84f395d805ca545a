// How many records of each kind were read.
ghost use Rattle.std.specs.Prelude.{◌≡◌, ◌<◌, ◌^◌, Some};
ghost use Rattle.listing.specs.Tallies.{counted, total, tally_shown};

use journal::Record;
use std::fmt;

#[derive(Clone, Copy, Default)]
pub struct Tally {
    puts: usize,
    drops: usize,
    splits: usize,
    advances: usize,
    opens: usize,
    steps: usize,
    closes: usize,
    counts: usize,
}

impl Tally {
    // One record more of its kind.
    pub(crate) fn add(&mut self, record: &Record)
        requires { total self.old < 18446744073709551615 }
        ensures { self.new ≡ counted «record».now self.old }
    {
        match record {
            Record::Put { .. } => self.puts += 1,
            Record::Drop { .. } => self.drops += 1,
            Record::Split { .. } => self.splits += 1,
            Record::Advance => self.advances += 1,
            Record::Open { .. } => self.opens += 1,
            Record::Step { .. } => self.steps += 1,
            Record::Close { .. } => self.closes += 1,
            Record::Counts => self.counts += 1,
        }
    }

    // All records together.
    pub(crate) fn total(&self) -> usize
        requires { total self.now < 2 ^ 64 }
        ensures { result ≡ total self.now }
    {
        self.puts
            + self.drops
            + self.splits
            + self.advances
            + self.opens
            + self.steps
            + self.closes
            + self.counts
    }
}

impl fmt::Display for Tally {
    ghost output = { λ t. Some (tally_shown t) };

    fn fmt<W: fmt::Write>(&self, f: &mut fmt::Formatter<W>) -> fmt::Result {
        let Tally {
            puts,
            drops,
            splits,
            advances,
            opens,
            steps,
            closes,
            counts,
        } = *self;
        write!(
            f,
            "{puts} put, {drops} drop, {splits} split, {advances} advance, "
        )?;
        write!(
            f,
            "{opens} open, {steps} step, {closes} close, {counts} counts"
        )
    }
}
