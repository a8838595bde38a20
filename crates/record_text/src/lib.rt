//! Records, scripts and their commands. Start at [`ScriptReader`], which reads the commands of a script from a source,
//! one after the other; `specs/Script.antt` says which commands a script has, and `specs/Table.antt` is the table of
//! command words. Reading is one pass over the bytes, and holds one line and the record lines of one command; no memory
//! is reserved for a number before its record lines are there.
#![tactic(auto)]

mod ahead;
mod bundle;
mod command;
mod fields;
mod kind;
mod name;
mod numbers;
mod places;
mod reading;
mod records;
mod script_fault;
mod script_reader;
#[cfg(test)]
mod script_tests;
mod shift;
mod table;
#[cfg(test)]
mod tests;
mod words;

pub use bundle::Bundle;
pub use command::Command;
pub use kind::Kind;
pub use name::{Name, is_name};
pub use numbers::{parse_number, print_number};
pub use places::Places;
pub use records::{Records, is_record};
pub use script_fault::{ScriptFault, Why};
pub use script_reader::ScriptReader;
pub use shift::Shift;
