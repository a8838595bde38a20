//! Windows: which records count for the next run, and how the leaves that hold them changed since the last one. Start
//! at [`Window`] and `specs/Windows.antt`, which says what a window holds, what each command makes of it and what it
//! refuses; `specs/OlderRule.antt` is the rule without names of files.
#![tactic(auto)]

mod buckets;
mod content;
mod document;
mod fault;
mod late_places;
mod laws;
mod leaves;
mod records;
mod slide;
mod splice;
#[cfg(test)]
mod tests;
mod window;

pub use fault::WindowFault;
pub use laws::{same_without_files, shift_balances, since_laws, splices_join};
pub use window::Window;
