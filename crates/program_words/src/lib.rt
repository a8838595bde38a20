//! The arguments of the command line, and what they ask for; in the code they are `words`. Start at [`read_words`]: a
//! scan decides whether the arguments are well formed, and only then does `clap` read the values.
//! `specs/WellFormed.antt` says when arguments are well formed, and `specs/Plans.antt` what they ask for, or for which
//! field they are refused. Each walks the arguments once.
#![tactic(auto)]

mod options;
mod plan;
mod scan;
#[cfg(test)]
mod tests;
mod usage;

pub use options::read_words;
pub use plan::{Field, JobName, Plan, TreeName};
pub use usage::{WordsFault, line_of_usage};
