// The worked examples of the rules, proved as one list.
#![tactic(auto)]

ghost use Rattle.examples.specs.Worked.{Worked};

// A theorem: every example of the list.
pub fn examples_stand()
    ensures { Worked }
{}
