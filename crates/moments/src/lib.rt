// The invariant over the runs of a catalogue: the tree, the pool, the nodes that wait, the seats and the rows of the sessions. There is
// nothing to run here: each function stands for a theorem, which its contract names. The definitions are in specs/.
#![tactic(auto)]

ghost use Rattle.runs.specs.Calls.{kind};
ghost use Rattle.moments.specs.Theorems.{MadeInv, InvGives, EditKeeps, EditSteps, OpenKeeps, StepKeeps, CloseKeeps, CountsKeep, RefusedKeeps, CallsKeep, ClosingFrees, ThirteenOnlyWhileOpen, RowsTell, OpenSeated, RunsKeep, KeptWhole, BitsLose};

use keys::Key;

// A catalogue just made over a fit store has it.
pub fn making_begins<K: Key>()
    ensures { MadeInv (kind K.Ordered.fault K.Ordered.order K.Key.blank) }
{}

// It gives the promise, but for the last call's answer and what lookups answer.
pub fn invariant_gives<K: Key>()
    ensures { InvGives (kind K.Ordered.fault K.Ordered.order K.Key.blank) }
{}

// Accepted edits keep it.
pub fn edits_keep<K: Key>()
    ensures { EditKeeps (kind K.Ordered.fault K.Ordered.order K.Key.blank) }
{}

// They take the tree on as the theory of trees says, and take no node but free ones.
pub fn edits_step<K: Key>()
    ensures { EditSteps (kind K.Ordered.fault K.Ordered.order K.Key.blank) }
{}

// An accepted open keeps it.
pub fn opens_keep<K: Key>()
    ensures { OpenKeeps (kind K.Ordered.fault K.Ordered.order K.Key.blank) }
{}

// An accepted step keeps it.
pub fn steps_keep<K: Key>()
    ensures { StepKeeps (kind K.Ordered.fault K.Ordered.order K.Key.blank) }
{}

// An accepted close keeps it.
pub fn closes_keep<K: Key>()
    ensures { CloseKeeps (kind K.Ordered.fault K.Ordered.order K.Key.blank) }
{}

// So does counts.
pub fn counts_keep<K: Key>()
    ensures { CountsKeep (kind K.Ordered.fault K.Ordered.order K.Key.blank) }
{}

// A refused call keeps it.
pub fn refusals_keep<K: Key>()
    ensures { RefusedKeeps (kind K.Ordered.fault K.Ordered.order K.Key.blank) }
{}

// Any call keeps it.
pub fn calls_keep<K: Key>()
    ensures { CallsKeep (kind K.Ordered.fault K.Ordered.order K.Key.blank) }
{}

// Once every lookup is closed no node waits, and at least 96 are free.
pub fn closing_frees<K: Key>()
    ensures { ClosingFrees (kind K.Ordered.fault K.Ordered.order K.Key.blank) }
{}

// So only while a lookup is open can a call be refused for want of free nodes.
pub fn thirteen_only_while_open<K: Key>()
    ensures { ThirteenOnlyWhileOpen (kind K.Ordered.fault K.Ordered.order K.Key.blank) }
{}

// The rows tell which sessions have a lookup.
pub fn rows_tell<K: Key>()
    ensures { RowsTell (kind K.Ordered.fault K.Ordered.order K.Key.blank) }
{}

// The seat of an open lookup can be read, and has its key.
pub fn lookups_seated<K: Key>()
    ensures { OpenSeated (kind K.Ordered.fault K.Ordered.order K.Key.blank) }
{}

// A run of exact calls has it at its end.
pub fn runs_keep<K: Key>()
    ensures { RunsKeep (kind K.Ordered.fault K.Ordered.order K.Key.blank) }
{}

// With true lookups the promise is whole there.
pub fn promise_is_whole<K: Key>()
    ensures { KeptWhole (kind K.Ordered.fault K.Ordered.order K.Key.blank) }
{}

// A session's bit is told and taken away as the code does it.
pub fn bits_lose()
    ensures { BitsLose }
{}
