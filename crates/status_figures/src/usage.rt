//! What the program takes of its machine.

ghost use Rattle.std.specs.Prelude.{◌≡◌, None};
ghost use Rattle.status_figures.specs.Figures.{is_short, is_short_by};

/// What the program takes of its machine, in bytes, where the system tells it.
#[derive(Clone, Copy, Debug, PartialEq, Eq)]
pub struct Usage {
    /// The memory that it holds.
    pub memory: Option<u64>,
    /// How much it may hold, where that is limited.
    pub most_memory: Option<u64>,
    /// The file of its database.
    pub database: Option<u64>,
    /// The log of its database.
    pub log: Option<u64>,
}

/// Whether more than nine tenths is held of what may be, where both are known.
fn is_short_by(held: Option<u64>, most: Option<u64>) -> bool
    ensures { result ≡ is_short_by held most }
{
    match (held, most) {
        (Some(held), Some(most)) => most - most / 10 < held,
        _ => false,
    }
}

impl Usage {
    /// Nothing is known.
    pub fn unknown() -> Usage
        ensures memory { result.memory ≡ None }
        ensures most_memory { result.most_memory ≡ None }
        ensures database { result.database ≡ None }
        ensures log { result.log ≡ None }
    {
        Usage {
            memory: None,
            most_memory: None,
            database: None,
            log: None,
        }
    }

    /// Whether the program is known to hold more than nine tenths of the memory that it may hold: once that was all, it takes nothing new until it
    /// holds less.
    pub fn is_short(&self) -> bool
        ensures { result ≡ is_short self.now }
    {
        is_short_by(self.memory, self.most_memory)
    }
}
