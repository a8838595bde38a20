//! What a shard has for an input: the entry of this input, the entry of another input with its digest, or none; and
//! which call asks.
ghost use Rattle.std.specs.Prelude.{◌≡◌};

use crate::recipe::Recipe;
use crate::shared_entry::SharedEntry;
use memo_core::{Event, KeepAnswer, LookAnswer};

/// The entry that an input meets in a shard.
#[derive(Drop)]
pub enum Meeting<R: Recipe> {
    /// The entry of the input.
    Same(SharedEntry<R>),
    /// The entry that has the input's digest, but another input.
    Other(SharedEntry<R>),
    /// No entry.
    Missing,
}

/// The call that meets an entry, which decides the event.
#[derive(Clone, Copy)]
pub enum Asked {
    Look,
    Keep,
}

impl Asked {
    ghost use Rattle.memo_server.specs.Asks.{same_event, other_event};

    /// The event of a call that met the entry of its input.
    pub fn same_event(self, caller: u64, run: u64, digest: [u8; 32], id: u64) -> Event
        ensures { result ≡ same_event self caller run digest id }
    {
        match self {
            Asked::Look => Event::Look {
                caller,
                run,
                digest,
                answer: LookAnswer::Hit(id),
            },
            Asked::Keep => Event::Keep {
                caller,
                run,
                digest,
                answer: KeepAnswer::Found(id),
            },
        }
    }

    /// The event of a call that met another input's entry.
    pub fn other_event(self, caller: u64, run: u64, digest: [u8; 32], id: u64) -> Event
        ensures { result ≡ other_event self caller run digest id }
    {
        match self {
            Asked::Look => Event::Look {
                caller,
                run,
                digest,
                answer: LookAnswer::Clash(id),
            },
            Asked::Keep => Event::Keep {
                caller,
                run,
                digest,
                answer: KeepAnswer::Clash(id),
            },
        }
    }
}
