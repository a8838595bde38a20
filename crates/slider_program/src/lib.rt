//! The program `slider`, from its arguments to its status. Start at [`run_program`] in `program.rt`, whose clause has
//! the promises; `specs/Program.antt` says what they mean.
#![tactic(auto)]

mod basic_jobs;
mod meters;
mod program;
mod summary;
mod words;

pub use basic_jobs::BasicJobs;
pub use meters::new_meters;
pub use program::run_program;
pub use words::line_of_fault;
