// The promise over runs, put together: the invariant of the tree and the pool, and the walks of the lookups. There is nothing to run
// here: the function stands for a theorem, which its contract names.
#![tactic(auto)]

ghost use Rattle.runs.specs.Calls.{kind};
ghost use Rattle.throughout.specs.Promises.{ExactRunsKeep, LookupsReady};

use keys::Key;

// A run of exact calls keeps the whole promise.
pub fn exact_runs_keep<K: Key>()
    ensures { ExactRunsKeep (kind K.Ordered.fault K.Ordered.order K.Key.blank) }
{}

// What a step of an open lookup finds after such a run: its row, its seat, and at its place a node that can be read, with the region
// that was told once it is answered.
pub fn lookups_are_ready<K: Key>()
    ensures { LookupsReady (kind K.Ordered.fault K.Ordered.order K.Key.blank) }
{}
