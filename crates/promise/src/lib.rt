// The promise over runs, for the making and the calls of a catalogue. There is nothing to run here: each function stands for a theorem,
// which its contract names. The definitions are in specs/.
#![tactic(auto)]

ghost use Rattle.runs.specs.Calls.{kind};
ghost use Rattle.promise.specs.Theorems.{Parts, MakingWell, CallsExact, Promised};
ghost use Rattle.store.specs.Fits.{FitCells};

use keys::Key;
use store::Store;

// The making over a fit store leaves a catalogue just made; where there are too few nodes or too many, it writes nothing.
pub fn making_is_just_made<K: Key>()
    ensures { MakingWell (kind K.Ordered.fault K.Ordered.order K.Key.blank) }
{}

// Every call is exact and leaves every cell as it may, if what it asks first, the calls of sessions and the edits are shown to be.
pub fn call_is_exact<K: Key>()
    ensures { CallsExact (kind K.Ordered.fault K.Ordered.order K.Key.blank) }
{}

// The promise over every run, from those parts: over cells themselves.
pub fn runs_keep_promise<K: Key>()
    ensures { Parts (kind K.Ordered.fault K.Ordered.order K.Key.blank) → Promised (kind K.Ordered.fault K.Ordered.order K.Key.blank) (λ cs. cs) FitCells }
{}

// And over any store.
pub fn stores_keep_promise<S: Store>()
    ensures { Parts (kind S.Key.fault S.Key.order S.Key.blank) → Promised (kind S.Key.fault S.Key.order S.Key.blank) S.Store.cells S.Store.fit }
{}
