//! The job [`TopK`]: the members with the highest scores in each group. Its meanings are definitions in `specs/`, and
//! its laws are proved for every value. Joining is one merge of at most `k` steps, which never holds more members than
//! it keeps.
#![tactic(auto)]

mod members;
mod merge;
#[cfg(test)]
mod tests;
mod topk;

pub use members::Members;
pub use topk::TopK;
