//! The definitions as a program: what is written for a script, computed in the plainest way. Each edit cuts its file
//! from nothing, each run maps all records of the window, and each key is reduced by a walk over all pairs. It is slow
//! and takes memory for the whole script; tests compare the real program with it. Start at [`plain_outcome`].
#![tactic(auto)]

mod answering;
mod carrying;
mod files;
mod keys;
mod pairs;
mod reading;
mod records;
mod reducing;
mod refusing;
mod walk;
mod walking;
mod window;

pub use reading::{PlainScript, plain_commands};
pub use walking::{PlainOutcome, plain_outcome};
