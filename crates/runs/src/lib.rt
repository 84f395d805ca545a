// What is promised over every run of a catalogue: the calls, what follows from their history alone, the refusals,
// what an accepted call does, and what holds at every moment. The definitions are in specs/.
#![tactic(auto)]

mod call;
mod theorems;

pub use call::{Answer, Argument, Doing, Refusal};
pub use requests::Call;
pub use theorems::{
    cheats_fail, edits_rename, examples_stand, first_put_can_keep, kept_renames, making_keeps,
    place_is_enough, refusal_is_one, second_put_leaves_one, thirteen_is_true, tree_is_one,
};
