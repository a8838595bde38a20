//! How a script is processed: the numbers that a program is given along with it, each with its limits. Start at
//! [`Settings`], whose default holds if nothing is given.
#![tactic(auto)]

mod settings;

pub use settings::{MOST_KEEP, MOST_SHARDS, MOST_WORKERS, Settings};
