// The records of a log one after another.
ghost use Rattle.std.specs.Iterator.{item_count};
ghost use Rattle.journal.specs.Records.{answers_left, Tells};

use crate::format::{LogFault, Record};
use crate::reader::Reader;

// What a reader has yet to read, as an iterator. A fault of the log is the last item.
#[derive(Clone, Drop)]
pub struct Records<'a> {
    pub(crate) reader: Reader<'a>,
}

impl Iterator for Records<'_> {
    type Item = Result<Record, LogFault>;

    ghost next_gives = { Tells };

    ghost remaining = { item_count answers_left };

    fn next(&mut self) -> Option<Result<Record, LogFault>> {
        let answer = self.reader.next().transpose()?;
        if answer.is_err() {
            self.reader.finish();
        }
        Some(answer)
    }
}
