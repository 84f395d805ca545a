// Why a call of a session is refused, and why a catalogue is not made.
ghost use Rattle.std.specs.Prelude.{◌≡◌, Some};
ghost use Rattle.sessions.specs.declared.fault.SessionFault.TheVariants.{Lookup};
ghost use Rattle.sessions.specs.declared.fault.MakeFault.TheVariants.{Store};
ghost use Rattle.sessions.specs.Faults.{fault_number, session_fault_shown, make_fault_number, make_fault_shown};

use std::error::Error;
use std::fmt;
use store::StoreFault;

#[derive(Clone, Copy, PartialEq, Eq, Debug)]
pub enum SessionFault {
    // There are the sessions 0 to 31.
    NoSession,
    // Open: the session has a lookup.
    HasLookup,
    // Step and close: the session has none.
    NoLookup,
    // The store refused while a lookup was being done; its fault, whole.
    Lookup(StoreFault),
}

impl SessionFault {
    // The number under which the refusal is told.
    pub fn number(&self) -> u8
        ensures { result ≡ fault_number self.now }
    {
        match self {
            SessionFault::NoSession => 2,
            SessionFault::HasLookup => 3,
            SessionFault::NoLookup => 4,
            SessionFault::Lookup(_) => 14,
        }
    }
}

impl From<StoreFault> for SessionFault {
    ghost from_gives = { λ e r. r ≡ Lookup e };

    fn from(fault: StoreFault) -> SessionFault {
        SessionFault::Lookup(fault)
    }
}

impl fmt::Display for SessionFault {
    ghost output = { λ e. Some (session_fault_shown e) };

    fn fmt<W: fmt::Write>(&self, f: &mut fmt::Formatter<W>) -> fmt::Result {
        match self {
            SessionFault::NoSession => f.write_str("no such session"),
            SessionFault::HasLookup => f.write_str("the session has a lookup"),
            SessionFault::NoLookup => f.write_str("the session has no lookup"),
            SessionFault::Lookup(fault) => write!(f, "lookup {fault}"),
        }
    }
}

impl Error for SessionFault {}

#[derive(Clone, Copy, PartialEq, Eq, Debug)]
pub enum MakeFault {
    // The store has fewer than 160 nodes or more than 4,096.
    Size { count: usize },
    // The store refused a write; its fault, whole.
    Store(StoreFault),
}

impl MakeFault {
    // The number under which the refusal is told.
    pub fn number(&self) -> u8
        ensures { result ≡ make_fault_number self.now }
    {
        match self {
            MakeFault::Size { .. } => 1,
            MakeFault::Store(_) => 14,
        }
    }
}

impl From<StoreFault> for MakeFault {
    ghost from_gives = { λ e r. r ≡ Store e };

    fn from(fault: StoreFault) -> MakeFault {
        MakeFault::Store(fault)
    }
}

impl fmt::Display for MakeFault {
    ghost output = { λ e. Some (make_fault_shown e) };

    fn fmt<W: fmt::Write>(&self, f: &mut fmt::Formatter<W>) -> fmt::Result {
        match self {
            MakeFault::Size { count } => write!(f, "{count} nodes"),
            MakeFault::Store(fault) => write!(f, "making {fault}"),
        }
    }
}

impl Error for MakeFault {}
