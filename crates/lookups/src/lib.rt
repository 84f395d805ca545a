// Lookups that go through memory while edits go on: what they tell is what the region set gave at some moment since
// their opening, and they end. There is nothing to run here: each function stands for a theorem, which its contract
// names and its proof proves. The definitions are in specs/.
#![tactic(auto)]

ghost use Rattle.lookups.specs.Theorems.{SpelledWalk, Opens, EditCarries, OthersCarry, StepCarries, StepsEnd, EditKeepsFound, OthersKeepFound};
ghost use Rattle.lookups.specs.Throughout.{LookupsFollow};
ghost use Rattle.runs.specs.Calls.{kind};

use keys::Key;

// A walk through the tree that memory spells is the search's path in it.
pub fn walk_is_path<K: Key>()
    ensures { SpelledWalk K }
{}

// A lookup that has just been opened.
pub fn lookup_opens<K: Key>()
    ensures { Opens (kind K.Ordered.fault K.Ordered.order K.Key.blank) }
{}

// A going lookup, over a call that changes the tree.
pub fn edit_carries_lookup<K: Key>()
    ensures { EditCarries (kind K.Ordered.fault K.Ordered.order K.Key.blank) }
{}

// A going lookup, over a call that leaves the tree.
pub fn others_carry_lookup<K: Key>()
    ensures { OthersCarry (kind K.Ordered.fault K.Ordered.order K.Key.blank) }
{}

// One step of a going lookup.
pub fn step_carries_lookup<K: Key>()
    ensures { StepCarries (kind K.Ordered.fault K.Ordered.order K.Key.blank) }
{}

// A lookup comes to an end.
pub fn lookup_ends<K: Key>()
    ensures { StepsEnd (kind K.Ordered.fault K.Ordered.order K.Key.blank) }
{}

// What a lookup has found can be told again.
pub fn found_stays<K: Key>()
    ensures edits { EditKeepsFound (kind K.Ordered.fault K.Ordered.order K.Key.blank) }
    ensures others { OthersKeepFound (kind K.Ordered.fault K.Ordered.order K.Key.blank) }
{}

// Over every run that keeps the rest of the promise: what lookups tell is true, they stand at nodes that can be read, and they end.
pub fn lookups_follow<K: Key>()
    ensures { LookupsFollow (kind K.Ordered.fault K.Ordered.order K.Key.blank) }
{}
