//! Documents that are cut into chunks by content and edited in place. Start at [`Document`]; [`Files`] keeps many by
//! name. An edit cuts again from the chunk of the record before it to the first old boundary after it, and leaves all
//! other chunks as they are: it costs the text of the chunks that it touches, and a walk over the counts of the others.
//! `specs/Documents.antt` says what an edit makes of the records, and which chunks it changes; `specs/Files.antt` says
//! what a change of one file makes of all.
#![tactic(auto)]

mod change;
mod chunk;
mod cutter;
mod document;
mod file_list;
#[cfg(test)]
mod file_tests;
mod files;
mod laws;
mod places;
mod recut;
mod shelf;
#[cfg(test)]
mod tests;

pub use change::{Change, EditFault};
pub use document::Document;
pub use files::Files;
pub use laws::files_apart;
