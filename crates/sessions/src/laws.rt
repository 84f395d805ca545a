// Laws of the sessions, as theorems.
ghost use Rattle.sessions.specs.Laws.{WaysTell, MakingLaw, AnswersRepeat, ReleaseLaw};

use keys::{Key, Ordered};

// At a node a search for a well-formed key goes left exactly if the key is below low, ends exactly if the region holds it,
// and goes right otherwise.
pub fn ways_tell<K: Ordered>()
    ensures { WaysTell K.Ordered.fault K.Ordered.order }
{}

// After the making the seats have mark 3, the pool is free, and the counts say so.
pub fn making_frees<K: Key>()
    ensures { MakingLaw K }
{}

// Once a lookup is answered, a step tells the same again and leaves the row as it is, as long as the node that was found
// can be read and has its region.
pub fn answers_repeat<K: Key>()
    ensures { AnswersRepeat K }
{}

// After a close no node waits for the session; what waited for it waits for the others alone, or is free;
// every other node is as it was.
pub fn close_releases<K: Key>()
    ensures { ReleaseLaw K }
{}
