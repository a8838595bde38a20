//! The memo as a pure machine: events of callers, the state that they lead to, and laws of every legal history.
//!
//! Start at [`Event`], then [`replay`], the state after a list of events, then the laws in `laws`. `replay` walks the
//! live entries once or twice for each event. No code here knows of inputs, results, locks or threads.
#![tactic(auto)]

mod entries;
mod event;
mod laws;
mod pins;
mod replaying;
mod state;

pub use entries::{CoreEntry, Entries};
pub use event::{Event, KeepAnswer, LookAnswer};
pub use laws::{
    absent_exact, given_before_released, ids_once, live_digest, pinned_is_live, sweep_exact,
};
pub use pins::Pins;
pub use replaying::replay;
pub use state::CoreState;

#[cfg(test)]
mod tests;
