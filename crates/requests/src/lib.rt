// The calls of a catalogue, for keys in any form: read, or told by their places in a log.
#![tactic(auto)]

mod call;

pub use call::Call;
