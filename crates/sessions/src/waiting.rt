// Nodes that have left the tree and wait for sessions, and their release.
ghost use Rattle.std.specs.Prelude.{◌≡◌, None, Ok};
ghost use Rattle.sessions.specs.Waiting.{waiting_at, closed_waiting, all_read};
ghost use Rattle.sessions.specs.Waiting.{release as release_of};
ghost use Rattle.sessions.specs.Writings.{Rewritten};

use crate::pool::SEATS;
use crate::session::Session;
use store::{Node, Store, StoreFault, WAITING};

// The node, where it waits; read only then.
#[tactic(auto, unfolding(crate::specs::Waiting::waiting_at))]
fn waiting_at<S: Store>(store: &S, n: usize) -> Result<Option<Node<S::Key>>, StoreFault>
    ensures { result ≡ waiting_at (S.Store.cells store.now) n }
{
    if store.mark(n)? != WAITING {
        return Ok(None);
    }
    Ok(Some(store.read(n)?))
}

// Reads every waiting node, so that one that is closed is told before anything changes.
#[tactic(auto, using(crate::proofs::Releases::reading_answers))]
pub fn read_waiting<S: Store>(store: &S) -> Result<(), StoreFault>
    ensures { result ≡ all_read (closed_waiting (S.Store.cells store.now)) }
{
    for n in SEATS + 1..=store.count() {
        waiting_at(store, n)?;
    }
    Ok(())
}

// Takes the session out of what every waiting node waits for, and frees those that wait for none then.
pub fn release<S: Store>(store: &mut S, session: Session) -> Result<(), StoreFault>
    requires { closed_waiting (S.Store.cells store.old) ≡ None }
    ensures value { result ≡ Ok tt }
    ensures cells { Rewritten (release_of session (S.Store.cells store.old)) (S.Store.cells store.old) (S.Store.cells store.new) }
    ensures keeps { S.Store.fit store.old → S.Store.fit store.new }
{
    for n in SEATS + 1..=store.count() {
        let Some(node) = waiting_at(store, n)? else {
            continue;
        };
        if session.is_in(node.waits) {
            let others = session.taken_from(node.waits);
            store.write(n, &node.waiting(others))?;
        }
    }
    Ok(())
}
