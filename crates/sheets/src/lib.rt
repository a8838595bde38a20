//! Sheets: shared tables of partial results, with the number that their job is set to, one for each part of the keys.
//! [`map_sheets`] maps records to sheets, [`merge_sheets`] merges two, and [`answer_of`] writes the lines of all parts;
//! besides these only [`Sheet::empty`] and [`Sheet::share`] make a sheet. Mapping costs one look-up for each pair and n
//! log n comparisons for n distinct keys, a merge is linear in the entries, and a new table is hashed once; a merge
//! shares keys and copies none. No table ever changes.
#![tactic(auto)]

mod answer;
mod digest;
mod grouping;
mod laws;
mod mapping;
mod merging;
mod parts;
mod rest;
mod sheet;
mod table;
#[cfg(test)]
mod tests;

pub use answer::answer_of;
pub use laws::part_laws;
pub use mapping::map_sheets;
pub use merging::merge_sheets;
pub use sheet::{Sheet, same_sheet};
pub use table::Table;
