// The nodes of a store as the sessions see them: the first 32 are seats, the others are the pool.
ghost use Rattle.std.specs.Prelude.{◌≡◌, ◌+◌, ◌<◌, length, if◌then◌else◌, Ok, nat_eq};
ghost use Rattle.sessions.specs.Making.{can_make, made_mark, making, make_answer, pool_counts};
ghost use Rattle.sessions.specs.Writings.{Rewritten};

use crate::fault::{MakeFault, SessionFault};
use keys::Key;
use store::{FREE, LIVE, Node, SEAT, Store, WAITING};

// How many nodes are seats.
pub const SEATS: usize = 32;

// How many nodes a catalogue can be made of.
pub const LEAST: usize = 160;

pub const MOST: usize = 4096;

// How many nodes of the pool are in the tree, wait for sessions, and are free.
#[derive(Clone, Copy, PartialEq, Eq, Debug, Default)]
pub struct Counts {
    pub live: usize,
    pub waiting: usize,
    pub free: usize,
}

fn made_mark(n: usize) -> u8
    ensures { result ≡ made_mark n }
{
    if n <= SEATS { SEAT } else { FREE }
}

fn can_make(count: usize) -> bool
    ensures { result ≡ can_make count }
{
    (LEAST..=MOST).contains(&count)
}

// Writes every node: a seat for each session, the rest free. A store with fewer than 160 nodes or more than 4,096
// is refused, and left as it is.
pub fn make<S: Store>(store: &mut S) -> Result<(), MakeFault>
    ensures value { result ≡ make_answer (length (S.Store.cells store.old)) }
    ensures cells { Rewritten (making S.Key.blank (length (S.Store.cells store.old))) (S.Store.cells store.old) (S.Store.cells store.new) }
    ensures keeps { S.Store.fit store.old → S.Store.fit store.new }
{
    let count = store.count();
    if !can_make(count) {
        return Err(MakeFault::Size { count });
    }
    let filler = <S::Key as Key>::filler();
    for n in 1..=count {
        store.write(n, &Node::plain(made_mark(n), filler, filler))?;
    }
    Ok(())
}

impl Counts {
    // One node more, by its mark.
    fn add(&mut self, mark: u8)
        requires live { self.old.live < usize.MAX }
        requires waiting { self.old.waiting < usize.MAX }
        requires free { self.old.free < usize.MAX }
        ensures { self.new ≡ record { live = self.old.live + (if nat_eq mark 1 then 1 else 0); waiting = self.old.waiting + (if nat_eq mark 2 then 1 else 0); free = self.old.free + (if nat_eq mark 0 then 1 else 0) } }
    {
        match mark {
            LIVE => self.live += 1,
            WAITING => self.waiting += 1,
            FREE => self.free += 1,
            _ => {}
        }
    }
}

// Counts the pool, by marks alone.
#[tactic(auto, using(crate::proofs::Makes::count_answers))]
pub fn count_pool<S: Store>(store: &S) -> Result<Counts, SessionFault>
    ensures { result ≡ Ok (pool_counts (S.Store.cells store.now)) }
{
    let mut counts = Counts::default();
    for n in SEATS + 1..=store.count() {
        counts.add(store.mark(n)?);
    }
    Ok(counts)
}
