// Why an edit is refused. A store's fault travels up whole: inside the tree's fault, with what was being done, and that inside the refusal.
ghost use Rattle.std.specs.Prelude.{◌≡◌, Result};
ghost use Rattle.edits.specs.declared.fault.Doing.{Doing};
ghost use Rattle.edits.specs.declared.fault.TreeFault.{TreeFault};
ghost use Rattle.edits.specs.declared.fault.Refusal.TheVariants.{Refused};
ghost use Rattle.edits.specs.Refusals.{during, number_of};

use store::StoreFault;

// What was being done when the store refused: the way down, the work after it, or a rotation. Beside what `runs` has, since an edit does no
// lookup, and the narrower type says so.
#[derive(Clone, Copy, Debug, PartialEq, Eq)]
pub enum Doing {
    Search,
    Copy,
    Rotation,
}

#[derive(Clone, Copy, Debug, PartialEq, Eq)]
pub struct TreeFault {
    pub doing: Doing,
    pub fault: StoreFault,
}

// The refusals of the edits. Beside the refusals of a call, of which they are a part: the narrower type says which ones an edit can meet.
#[derive(Clone, Copy, Debug, PartialEq, Eq)]
pub enum Refusal {
    // An edit is under way.
    Busy,
    // No edit is under way.
    Resting,
    // The range overlaps a region.
    Overlaps,
    // No region holds the key.
    Missing,
    // The key is the same as the low key of the region that holds it.
    SameAsLow,
    // The pool has no room for one more region.
    Full,
    // Too few nodes are free while lookups hold others.
    Crowded,
    // The store refused.
    Refused(TreeFault),
}

impl Refusal {
    pub fn number(&self) -> u8
        ensures { result ≡ number_of self.now }
    {
        match self {
            Refusal::Busy => 7,
            Refusal::Resting => 8,
            Refusal::Overlaps => 9,
            Refusal::Missing => 10,
            Refusal::SameAsLow => 11,
            Refusal::Full => 12,
            Refusal::Crowded => 13,
            Refusal::Refused(_) => 14,
        }
    }
}

impl From<TreeFault> for Refusal {
    ghost from_gives = { λ e r. r ≡ Refused e };

    fn from(fault: TreeFault) -> Refusal {
        Refusal::Refused(fault)
    }
}

// A store's answer, with what was being done put to its fault: `From` alone could not know it.
pub trait During<T> {
    // The answer with that put to it.
    ghost put_to: { Doing → Self → Result T TreeFault };

    fn during(self, doing: Doing) -> Result<T, TreeFault>
        ensures { result ≡ put_to doing self };
}

impl<T> During<T> for Result<T, StoreFault> {
    ghost put_to = { during };

    fn during(self, doing: Doing) -> Result<T, TreeFault>
        ensures { result ≡ during doing self }
    {
        self.map_err(|fault| TreeFault { doing, fault })
    }
}
