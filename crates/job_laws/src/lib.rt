//! What a job is: the pairs that it makes of a record, how it joins two values of one key, the lines that it writes,
//! and the laws of all three. Start at [`Job`]; [`JobSet`] is the set of jobs of a program. [`Meter`] counts what was
//! mapped, merged and joined, and code that is given one cannot make another. Nothing here knows of windows or trees.
#![tactic(auto)]

mod count_meter;
mod emit;
mod encoding;
mod fields;
mod job;
mod job_set;
mod key;
mod laws;
mod meter;
mod meter_row;
#[cfg(test)]
mod tests;

pub use count_meter::CountMeter;
pub use emit::Emit;
pub use encoding::{be32_bytes, be64_bytes};
pub use fields::tab_at;
pub use job::{Job, Swaps};
pub use job_set::JobSet;
pub use key::Key;
pub use laws::{merging_commutes, table_laws};
pub use meter::{Counts, Meter};
pub use meter_row::MeterRow;
