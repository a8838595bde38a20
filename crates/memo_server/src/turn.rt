//! What a turn leaves in a shard's history.
use memo_core::Event;

/// A turn on a shard, as its history has it.
#[derive(Clone, Copy, PartialEq, Eq, Debug)]
pub enum Turn {
    /// The event of the turn's call.
    Made(Event),
    /// The call ran out of memory.
    Empty,
}
