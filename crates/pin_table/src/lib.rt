//! A memo that callers in several threads share: 1 to 8 shards, each behind a turn lock of its own, and pins.
//!
//! Start at [`Memo::new`], then [`Memo::look`] and [`Memo::keep`], whose answers carry a [`Pin`], then
//! [`Memo::release`]. A call takes one turn at one shard; the digest of its input is computed before. Except for
//! `sweep`, which walks the entries, the cost of a call does not grow with their number, apart from a binary search.
//! Each call that succeeds is one event of its shard's history, which is legal. The order of turns at two shards is not
//! promised, nor that a turn ever comes.
#![tactic(auto)]

mod answers;
mod caller;
mod closing;
mod covers;
mod known_inputs;
mod laws;
mod letting_go;
mod making;
mod memo;
mod own_gains;
mod pin;
mod placing;
mod turning;

pub use answers::{KeepRefused, Kept, Looked, MemoFault};
pub use caller::Caller;
pub use covers::{
    answers_balance, answers_hold, backed_pins_stay, balances_add_up, faults_balance,
    releases_balance,
};
pub use known_inputs::{answers_are_known, ids_have_one_digest, known_is_found, pins_are_known};
pub use laws::{answers_are_exact, held_follows, held_is_found, held_is_live, turns_keep};
pub use memo::Memo;
pub use own_gains::{clashes_are_met, gains_add_up, met_goes_on};
pub use pin::Pin;
pub use placing::shard_of;

#[cfg(test)]
mod tests;
