//! Where a list of records is cut into chunks, by content: the same records give the same chunks wherever they are.
//! Start at [`first_cut`]; `specs/Markers.antt` says which records are markers, and `specs/Cuts.antt` where chunks end.
//! A cut is one pass over the bytes of the records, and nothing is copied; only the list that [`cut_all`] returns takes
//! memory.
#![tactic(auto)]

mod cuts;
mod marker;
mod roll;
#[cfg(test)]
mod tests;

pub use cuts::{cut_all, ends_before, first_cut};
pub use marker::is_marker;
pub use roll::Roll;
