// One of the 32 sessions: the number of its row, its seat in the store, and its bit among the sessions that a node waits for.
ghost use Rattle.std.specs.Prelude.{◌≡◌, ◌<◌};
ghost use Rattle.sessions.specs.Lookups.{session_at, seat_of};
ghost use Rattle.sessions.specs.Waiting.{bit, without_bit};

use crate::fault::SessionFault;
use crate::pool::SEATS;
use std::convert::TryFrom;
use std::marker::Model;

#[derive(Clone, Copy, PartialEq, Eq, Debug)]
pub struct Session {
    number: u8,
}

impl Model for Session {
    ghost use Rattle.std.specs.Prelude.{ℕ, ◌<◌};

    ghost Value = { ℕ };

    ghost view = { λ s. s.number };

    ghost invariant = { λ s. s.number < 32 };

    ghost inverse = { λ n. record { number = n } };
}

impl TryFrom<u8> for Session {
    type Error = SessionFault;

    ghost try_from_gives = { λ number r. r ≡ session_at number };

    fn try_from(number: u8) -> Result<Session, SessionFault> {
        if usize::from(number) >= SEATS {
            return Err(SessionFault::NoSession);
        }
        Ok(Session { number })
    }
}

impl Session {
    // Its row in the table.
    pub fn index(self) -> usize
        ensures value { result ≡ self }
        ensures below { result < 32 }
    {
        usize::from(self.number)
    }

    // The node that is its seat.
    pub fn seat(self) -> usize
        ensures { result ≡ seat_of self }
    {
        self.index() + 1
    }

    // Whether it is one of these sessions.
    pub fn is_in(self, sessions: u32) -> bool
        ensures { result ≡ bit self sessions }
    {
        (sessions >> self.number) % 2 == 1
    }

    // These sessions without it, where it is one of them.
    pub fn taken_from(self, sessions: u32) -> u32
        ensures { result ≡ without_bit self sessions }
    {
        sessions ^ (1 << self.number)
    }
}
