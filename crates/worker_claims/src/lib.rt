//! A board of tasks that several threads claim, each task once.
//!
//! Start with [`work_all`], in which a [`Worker`] does all tasks, in as many threads as there are hands. It is built on
//! the [`Board`] with `claim`, `give` and `close`, and the [`Hand`] with which one thread claims. A claim and a give
//! cost one atomic step each. Memory is taken only before the first claim. Which hand gets which task is not promised,
//! nor progress.
#![tactic(auto)]

mod board;
mod dealing;
mod knowledge;
mod plays;
mod rule;
mod spare;
mod tokens;
mod work;
mod worked;

pub use knowledge::Doing;
pub use tokens::{Board, Hand};
pub use work::Worker;
pub use worked::work_all;

#[cfg(test)]
mod tests;
