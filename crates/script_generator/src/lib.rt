//! Scripts made from a number, to try the program on a large input. Start at [`generate`], which writes the script of a
//! job and a tree into one vector, in one pass. `specs/Generated.antt` says which script; [`Draws`] are its
//! pseudo-random numbers. Equal numbers give equal scripts on every machine. Only the script takes memory.
#![tactic(auto)]

mod draws;
mod script;
#[cfg(test)]
mod tests;
mod writer;

pub use draws::{Draws, INCREMENT, MULTIPLIER};
pub use script::generate;
