// The sessions of a catalogue: 32 rows, a seat for each in the store, and the lookups that go down the tree one node at a time.
#![tactic(auto)]

mod fault;
mod laws;
mod lookup;
mod meeting;
mod pool;
mod session;
mod table;
mod waiting;
mod way;

pub use fault::{MakeFault, SessionFault};
pub use laws::{answers_repeat, close_releases, making_frees, ways_tell};
pub use lookup::{Call, Row, State, Told};
pub use meeting::Met;
pub use pool::{Counts, LEAST, MOST, SEATS, count_pool, make};
pub use session::Session;
pub use table::Sessions;
pub use way::{Way, way_at};
