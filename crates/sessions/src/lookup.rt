// The row of one session, and what is told of its lookup.
ghost use Rattle.std.specs.Prelude.{◌≡◌, Ok};
ghost use Rattle.store.specs.Cells.{write_answer};
ghost use Rattle.store.specs.Nodes.{link_number};
ghost use Rattle.sessions.specs.Ways.{way_of};
ghost use Rattle.sessions.specs.declared.lookup.State.TheVariants.{Going};
ghost use Rattle.sessions.specs.Lookups.{row_with, seat_of, opened, moved, moved_by, met_at, told_again, closed, row_done, Does, is_open};
ghost use Rattle.sessions.specs.Waiting.{closed_waiting};

use crate::fault::SessionFault;
use crate::meeting::{Met, met_at};
use crate::session::Session;
use crate::waiting::{read_waiting, release};
use keys::Key;
use store::{Node, Region, SEAT, Store, linked};

// Closed: the session has no lookup. Going: its lookup has told nothing yet. Answered: a step has told found or none.
#[derive(Clone, Copy, PartialEq, Eq, Debug)]
pub enum State {
    Closed,
    Going,
    Answered,
}

impl State {
    // Whether a lookup is open; an answered one is.
    pub fn is_open(self) -> bool
        ensures { result ≡ is_open self }
    {
        matches!(self, State::Going | State::Answered)
    }
}

// The state stands beside the place and the steps, and does not hold them: the rules prescribe a row of these three,
// whose state alone says which calls it takes.
#[derive(Clone, Copy, PartialEq, Eq, Debug)]
pub struct Row {
    pub state: State,
    // The node that the lookup has come to; 0 is none. Once answered: the node that was found, or 0.
    pub place: u16,
    // The steps that the lookup has made while going, with the one that answered.
    pub steps: u64,
}

// What a session is asked. An enum of its own beside the calls of a catalogue: an open brings the root link here, and no other call belongs.
#[derive(Clone, Copy, PartialEq, Eq, Debug)]
pub enum Call<K> {
    Open { key: K, root: u16 },
    Step,
    Close,
}

// What an accepted call tells.
#[derive(Clone, Copy, PartialEq, Eq, Debug)]
pub enum Told<K> {
    // Of open.
    Opened,
    // Of step: the lookup goes on.
    On { steps: u64 },
    // Of step: no region holds the key.
    Nothing { steps: u64 },
    // Of step: this region holds the key.
    Found { region: Region<K>, steps: u64 },
    // Of close.
    Ended,
}

#[tactic(auto, using(crate::proofs::Acting::row_answers))]
impl Row {
    // A lookup that has made no step, at the root link.
    fn started(root: u16) -> Row
        ensures { result ≡ row_with Going root 0 }
    {
        Row {
            state: State::Going,
            place: root,
            steps: 0,
        }
    }

    // The seat takes the key, and the lookup goes from the root link as it is now.
    fn open<S: Store>(
        &mut self,
        store: &mut S,
        session: Session,
        key: &S::Key,
        root: u16,
    ) -> Result<Told<S::Key>, SessionFault>
        ensures does { Does (opened S.Key.Key.blank self.old session key.now root (write_answer (S.Store.cells store.old) (seat_of session))) result self.new (S.Store.cells store.old) (S.Store.cells store.new) }
        ensures keeps { S.Store.fit store.old → S.Store.fit store.new }
    {
        let filler = <S::Key as Key>::filler();
        store.write(session.seat(), &Node::plain(SEAT, *key, filler))?;
        *self = Row::started(root);
        Ok(Told::Opened)
    }

    // A step while going, after what was met at the place.
    fn moved<K: Copy>(&mut self, met: Met<K>) -> Told<K>
        ensures answer { Ok result ≡ (moved self.old met).answer }
        ensures after { self.new ≡ (moved self.old met).after }
    {
        self.steps = self.steps.saturating_add(1);
        let steps = self.steps;
        match met {
            Met::Blank => {
                self.state = State::Answered;
                self.place = 0;
                Told::Nothing { steps }
            }
            Met::Holds(region) => {
                self.state = State::Answered;
                Told::Found { region, steps }
            }
            Met::Leads(link) => {
                self.state = State::Going;
                self.place = link;
                Told::On { steps }
            }
        }
    }

    // A step while going.
    fn go<S: Store>(&mut self, store: &S, session: Session) -> Result<Told<S::Key>, SessionFault>
        ensures answer { result ≡ (moved_by self.old (met_at (way_of S.Key.Ordered.fault S.Key.Ordered.order) (S.Store.cells store.now) (seat_of session) (link_number self.old.place))).answer }
        ensures after { self.new ≡ (moved_by self.old (met_at (way_of S.Key.Ordered.fault S.Key.Ordered.order) (S.Store.cells store.now) (seat_of session) (link_number self.old.place))).after }
    {
        let met = met_at(store, session.seat(), self.place)?;
        Ok(self.moved(met))
    }

    // A step once answered: the answer again.
    fn repeat<S: Store>(&self, store: &S) -> Result<Told<S::Key>, SessionFault>
        ensures { result ≡ (told_again (S.Store.cells store.now) self.now (link_number self.now.place)).answer }
    {
        let steps = self.steps;
        match linked(self.place) {
            None => Ok(Told::Nothing { steps }),
            Some(n) => {
                let node = store.read(n as usize)?;
                Ok(Told::Found {
                    region: node.region(),
                    steps,
                })
            }
        }
    }

    // Nothing changes where a waiting node cannot be read; else the session is closed and no node waits for it.
    fn close<S: Store>(
        &mut self,
        store: &mut S,
        session: Session,
    ) -> Result<Told<S::Key>, SessionFault>
        ensures does { Does (closed (S.Store.cells store.old) self.old session (closed_waiting (S.Store.cells store.old))) result self.new (S.Store.cells store.old) (S.Store.cells store.new) }
        ensures keeps { S.Store.fit store.old → S.Store.fit store.new }
    {
        read_waiting(store)?;
        self.state = State::Closed;
        release(store, session)?;
        Ok(Told::Ended)
    }

    // What a call does to the row of its session, by the row's state. No arms are joined: a proof knows nothing of the pair in an arm of several.
    #[tactic(auto, using(crate::proofs::Acting::row_answers), unfolding(crate::specs::Lookups::row_done))]
    pub(crate) fn act<S: Store>(
        &mut self,
        store: &mut S,
        session: Session,
        call: Call<S::Key>,
    ) -> Result<Told<S::Key>, SessionFault>
        ensures does { Does (row_done (way_of S.Key.Ordered.fault S.Key.Ordered.order) S.Key.Key.blank (S.Store.cells store.old) session self.old call) result self.new (S.Store.cells store.old) (S.Store.cells store.new) }
        ensures keeps { S.Store.fit store.old → S.Store.fit store.new }
    {
        match (self.state, call) {
            (State::Closed, Call::Open { key, root }) => self.open(store, session, &key, root),
            (State::Closed, Call::Step) => Err(SessionFault::NoLookup),
            (State::Closed, Call::Close) => Err(SessionFault::NoLookup),
            (State::Going, Call::Open { .. }) => Err(SessionFault::HasLookup),
            (State::Going, Call::Step) => self.go(store, session),
            (State::Going, Call::Close) => self.close(store, session),
            (State::Answered, Call::Open { .. }) => Err(SessionFault::HasLookup),
            (State::Answered, Call::Step) => self.repeat(store),
            (State::Answered, Call::Close) => self.close(store, session),
        }
    }
}
