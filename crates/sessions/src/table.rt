// The table of the 32 sessions.
ghost use Rattle.std.specs.Prelude.{◌≡◌, replicate};
ghost use Rattle.sessions.specs.declared.lookup.State.TheVariants.{Closed};
ghost use Rattle.sessions.specs.Ways.{way_of};
ghost use Rattle.sessions.specs.Lookups.{row_with, session_done, Does, open_upto};

use crate::fault::SessionFault;
use crate::lookup::{Call, Row, State, Told};
use crate::pool::SEATS;
use crate::session::Session;
use store::Store;

#[derive(Drop)]
pub struct Sessions {
    rows: [Row; SEATS],
}

impl Sessions {
    // No session has a lookup.
    pub fn new() -> Sessions
        ensures { result.rows ≡ replicate 32 (row_with Closed 0 0) }
    {
        Sessions {
            rows: [Row {
                state: State::Closed,
                place: 0,
                steps: 0,
            }; SEATS],
        }
    }

    // The sessions with an open lookup, answered or not: bit s for session s. A node that leaves the tree waits for them.
    pub fn open_bits(&self) -> u32
        ensures { result ≡ open_upto self.now.rows 32 }
    {
        let mut bits = 0;
        for (s, row) in self.rows.iter().enumerate() {
            if row.state.is_open() {
                bits |= 1 << s;
            }
        }
        bits
    }

    // Open, step or close of one session, over the store that has its seat.
    #[tactic(auto, using(crate::proofs::Acting::table_answers), unfolding(crate::specs::Lookups::session_done))]
    pub fn act<S: Store>(
        &mut self,
        store: &mut S,
        session: u8,
        call: Call<S::Key>,
    ) -> Result<Told<S::Key>, SessionFault>
        ensures does { Does (session_done (way_of S.Key.Ordered.fault S.Key.Ordered.order) S.Key.Key.blank (S.Store.cells store.old) self.old.rows session call) result self.new.rows (S.Store.cells store.old) (S.Store.cells store.new) }
        ensures keeps { S.Store.fit store.old → S.Store.fit store.new }
    {
        let session = Session::try_from(session)?;
        let row = &mut self.rows[session.index()];
        row.act(store, session, call)
    }
}
