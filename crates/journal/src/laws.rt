// What the format promises of every log.
ghost use Rattle.journal.specs.Laws.{WrittenIsRead, ReadWasWritten};

// What is written can be read: the very entries come back, and no fault.
pub fn written_is_read()
    ensures { WrittenIsRead }
{}

// What is read was written: a log is the writing of the entries that are read from it,
// and then nothing, or what the fault says, at the very place that the fault tells.
pub fn read_was_written()
    ensures { ReadWasWritten }
{}
