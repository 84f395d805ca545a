// The calls of a catalogue.
ghost use Rattle.requests.specs.Keys.{EachKey, Mapped};

#[derive(Clone, Copy, PartialEq, Eq, Debug)]
pub enum Call<K> {
    // Adds the region [low, high).
    Put { low: K, high: K, rows: u64 },
    // Removes the region that holds the key.
    Drop { key: K },
    // Turns the region [low, high) that holds the key into [low, key) and [key, high).
    Split { key: K, lower: u64, upper: u64 },
    // Treats the lowest pending node of the edit under way.
    Advance,
    // Begins a lookup of the key.
    Open { session: u8, key: K },
    // Takes the session's lookup one node further.
    Step { session: u8 },
    // Ends the session's lookup.
    Close { session: u8 },
    // Asks for the numbers of live, waiting and free nodes.
    Counts,
}

impl<K> Call<K> {
    // The same call with its keys in another form.
    pub fn map<L, F: Fn(K) -> L>(self, form: F) -> Call<L>
        requires { EachKey (F.pre form) self }
        ensures { Mapped (F.post form) self result }
    {
        match self {
            Call::Put { low, high, rows } => Call::Put {
                low: form(low),
                high: form(high),
                rows,
            },
            Call::Drop { key } => Call::Drop { key: form(key) },
            Call::Split { key, lower, upper } => Call::Split {
                key: form(key),
                lower,
                upper,
            },
            Call::Advance => Call::Advance,
            Call::Open { session, key } => Call::Open {
                session,
                key: form(key),
            },
            Call::Step { session } => Call::Step { session },
            Call::Close { session } => Call::Close { session },
            Call::Counts => Call::Counts,
        }
    }
}
