// How many nodes have each mark, whichever it is and wherever they are. The counts of `sessions` are another thing: three marks, in the pool alone.
ghost use Rattle.std.specs.Prelude.{◌≡◌, ◌<◌, Some};
ghost use Rattle.dumping.specs.Marks.{marked, all_marked, totals_shown};

use std::fmt;
use store::{FREE, LIVE, SEAT, WAITING};

#[derive(Clone, Copy, Default)]
pub struct Totals {
    live: usize,
    waiting: usize,
    free: usize,
    seats: usize,
    unknown: usize,
}

impl Totals {
    // One node more with a mark.
    pub(crate) fn add(&mut self, mark: u8)
        requires { all_marked self.old < 18446744073709551615 }
        ensures { self.new ≡ marked mark self.old }
    {
        match mark {
            FREE => self.free += 1,
            LIVE => self.live += 1,
            WAITING => self.waiting += 1,
            SEAT => self.seats += 1,
            _ => self.unknown += 1,
        }
    }
}

impl fmt::Display for Totals {
    ghost output = { λ t. Some (totals_shown t) };

    fn fmt<W: fmt::Write>(&self, f: &mut fmt::Formatter<W>) -> fmt::Result {
        let Totals {
            live,
            waiting,
            free,
            seats,
            unknown,
        } = *self;
        write!(
            f,
            "{live} live, {waiting} waiting, {free} free, {seats} seat, {unknown} unknown"
        )
    }
}
