//! The jobs with plain values: [`Count`], how often each word occurs, [`Index`], in which documents it occurs, and
//! [`Latest`], the last value of each key. Each job's meanings are definitions in `specs/`, and its laws are proved
//! there for every value. Mapping a record is one pass over its bytes, and joining two values is at most one pass over
//! both.
#![tactic(auto)]

mod bytes;
mod count;
mod docs;
mod index;
mod latest;
mod lines;
#[cfg(test)]
mod tests;
mod words;

pub use bytes::Bytes;
pub use count::Count;
pub use docs::Docs;
pub use index::Index;
pub use latest::Latest;
