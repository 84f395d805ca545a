// What the writes of an edit leave in memory, as a tree. There is nothing to run here: each function stands for a
// theorem, which its contract names and its proof proves. The definitions are in specs/.
#![tactic(auto)]

ghost use Rattle.placing.specs.Theorems.{WritesReadBack, PlacesSpell, CommitSpells, ResizeSpells, WaitingStays};

// What stands in the cells after some writes.
pub fn writes_read_back<K>()
    ensures { WritesReadBack K }
{}

// A grown tree that was put into the store spells the tree that it stands for.
pub fn places_spell<K>()
    ensures { PlacesSpell K }
{}

// A commit leaves the tree with one link changed, the nodes above it pending.
pub fn commit_spells<K>()
    ensures { CommitSpells K }
{}

// Setting the size of the lowest pending node leaves the tree, that node pending no more.
pub fn resize_spells<K>()
    ensures { ResizeSpells K }
{}

// A node that waits after a commit is as it was, but for its mark, its waits and a size that was set.
pub fn waiting_stays<K>()
    ensures { WaitingStays K }
{}
