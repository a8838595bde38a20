//! The state that a history leads to: its events are applied one after another from the empty state, up to the first
//! that is not legal.
ghost use Rattle.std.specs.Prelude.{◌≡◌, IfOk};
ghost use Rattle.memo_core.specs.Machine.{replayed};

use crate::event::Event;
use crate::state::CoreState;
use std::alloc::{AllocError, Global};

/// The state after the events, from the start; `None` exactly if one of them is not legal in the state after those
/// before it. It walks the live entries once or twice for each event, and fails only out of memory.
pub fn replay(alloc: Global, events: &[Event]) -> Result<Option<CoreState>, AllocError>
    ensures { IfOk result (λ state. state ≡ replayed events.now) }
{
    let mut state = CoreState::new(alloc);
    let mut rest = events;
    'events: while let [event, more @ ..] = rest {
        if !state.apply(alloc, event)? {
            return Ok(None);
        }
        rest = more;
    }
    Ok(Some(state))
}
