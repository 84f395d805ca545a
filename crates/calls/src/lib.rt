// The eight calls of a catalogue, as one relation between states.
#![tactic(auto)]

ghost use Rattle.calls.specs.Does.{EditDoes};
ghost use Rattle.calls.specs.Exacts.{CallExact};

// Checks the definitions.
pub fn calls_read() {}
