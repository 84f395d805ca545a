// The search for free nodes: from a cursor once round the pool, no further than needed.
ghost use Rattle.std.specs.Prelude.{◌≡◌, ◌+◌, ◌-◌, ◌<◌, ◌≤◌, length, slice_index_or, MatchResult, OnErr};
ghost use Rattle.stacks.specs.Held.{held};
ghost use Rattle.search.specs.Firsts.{first, later};
ghost use Rattle.search.specs.Frees.{pool_end, found_of, left_of, Gathers, Finds};

use drafts::MOST_NEW;
use stacks::Numbers;
use store::{FREE, Store, StoreFault};

// The pool begins behind the seats.
const FIRST: usize = 33;

// Numbers of free nodes, the first `used` of them already taken.
#[derive(Clone, Copy)]
pub struct Found {
    numbers: Numbers<MOST_NEW>,
    used: usize,
}

// Looks through the nodes from `from` up to `to`, which is not looked at, until there are enough.
fn gather<S: Store>(
    store: &S,
    from: usize,
    to: usize,
    want: usize,
    numbers: &mut Numbers<MOST_NEW>,
) -> Result<(), StoreFault>
    requires pool { (1 ≤ from) × (from < to → to ≤ pool_end (S.Store.cells store.now) + 1) }
    requires room { (want ≤ 96) × (length (held numbers.old) ≤ want) }
    ensures answered { OnErr result (⊥) }
    ensures found { Gathers (S.Store.cells store.now) from (to - from) want (held numbers.old) (held numbers.new) }
{
    for n in from..to {
        if numbers.len() == want {
            break;
        }
        if store.mark(n)? == FREE {
            numbers.push(n as u16);
        }
    }
    Ok(())
}

// As many free nodes of the pool as there are, up to `want`: from the cursor to the end, and then from the pool's first node to the cursor.
// At most 96 are wanted, which is asked and no type: a number of that type would be made by a check that cannot fail, wherever an edit says
// how many it may take.
pub fn find_free<S: Store>(store: &S, cursor: u16, want: usize) -> Result<Found, StoreFault>
    requires { want ≤ 96 }
    ensures { MatchResult result (λ f. Finds (S.Store.cells store.now) want (found_of f) × (f.used ≡ 0)) (λ _. ⊥) }
{
    let mut numbers = Numbers::new();
    let end = store.count().min(u16::MAX as usize) + 1;
    let start = start_at(cursor as usize, end);
    gather(store, start, end, want, &mut numbers)?;
    gather(store, FIRST, start, want, &mut numbers)?;
    Ok(Found { numbers, used: 0 })
}

// The cursor, or the first node of the pool where the cursor is not in it.
fn start_at(cursor: usize, end: usize) -> usize
    ensures low { 33 ≤ result }
    ensures high { 33 < result → result < end }
{
    if cursor < FIRST || cursor >= end {
        return FIRST;
    }
    cursor
}

impl Found {
    // How many there are.
    pub fn len(&self) -> usize
        ensures value { result ≡ length (found_of self.now) }
        ensures most { result ≤ 96 }
    {
        self.numbers.len()
    }

    // Where the next search begins: at the last number that was found, or where this one began.
    pub fn end(&self, cursor: u16) -> u16
        ensures { result ≡ slice_index_or (found_of self.now) (length (found_of self.now) - 1) cursor }
    {
        self.numbers.last().unwrap_or(cursor)
    }

    // The next number that was not used yet.
    pub fn next(&mut self) -> u16
        requires { 0 < length (left_of self.old) }
        ensures value { result ≡ first (left_of self.old) }
        ensures left { left_of self.new ≡ later (left_of self.old) }
        ensures found { found_of self.new ≡ found_of self.old }
    {
        let n = self.numbers.as_slice()[self.used];
        self.used += 1;
        n
    }
}
