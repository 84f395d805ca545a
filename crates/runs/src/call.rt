// What the calls of a catalogue answer, and why one is refused.
ghost use Rattle.std.specs.Prelude.{◌≡◌};
ghost use Rattle.runs.specs.Calls.{number_of};

use store::{Region, StoreFault};

// An argument that is a key.
#[derive(Clone, Copy, PartialEq, Eq, Debug)]
pub enum Argument {
    Low,
    High,
    Key,
}

// What was being done when the store refused.
#[derive(Clone, Copy, PartialEq, Eq, Debug)]
pub enum Doing {
    Search,
    Copy,
    Rotation,
    Lookup,
}

// Why a call is refused. F is the fault type of the kind of keys.
#[derive(Clone, Copy)]
pub enum Refusal<F> {
    // 1: the store has fewer than 160 or more than 4,096 nodes.
    BadSize,
    // 2: the session is above 31.
    NoSession,
    // 3: the session has a lookup.
    HasLookup,
    // 4: the session has none.
    NoLookup,
    // 5: an argument is ill formed; its fault.
    IllFormed(Argument, F),
    // 6: the low key is not below the high key.
    NotBelow,
    // 7: an edit is under way.
    UnderWay,
    // 8: no edit is under way.
    AtRest,
    // 9: the region overlaps one of the set.
    Overlaps,
    // 10: no region holds the key.
    NoRegion,
    // 11: the key is the same as the low key of the region that holds it.
    SameAsLow,
    // 12: as many regions stand as may.
    Full,
    // 13: there are fewer free nodes than the call may take.
    FewFree,
    // 14: the store refused; its fault, whole.
    StoreRefused(Doing, StoreFault),
}

impl<F> Refusal<F> {
    // The number under which the refusal is told.
    pub fn number(&self) -> u8
        ensures { result ≡ number_of self.now }
    {
        match self {
            Refusal::BadSize => 1,
            Refusal::NoSession => 2,
            Refusal::HasLookup => 3,
            Refusal::NoLookup => 4,
            Refusal::IllFormed(_, _) => 5,
            Refusal::NotBelow => 6,
            Refusal::UnderWay => 7,
            Refusal::AtRest => 8,
            Refusal::Overlaps => 9,
            Refusal::NoRegion => 10,
            Refusal::SameAsLow => 11,
            Refusal::Full => 12,
            Refusal::FewFree => 13,
            Refusal::StoreRefused(_, _) => 14,
        }
    }
}

// What an accepted call answers; a refused one comes to an `Err` with its refusal.
#[derive(Clone, Copy)]
pub enum Answer<K> {
    // Put, drop, split and advance: so many nodes are pending; with none the catalogue is at rest.
    Pending(u16),
    // Open: the lookup has begun.
    Opened,
    // Close: the lookup has ended.
    Closed,
    // Step: the lookup goes on; the steps that it has made.
    On(u64),
    // Step: no region holds the key; the steps made.
    Nothing(u64),
    // Step: the region that holds the key; the steps made.
    Found(Region<K>, u64),
    // Counts: live, waiting and free nodes.
    Nodes(u16, u16, u16),
}
