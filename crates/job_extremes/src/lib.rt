//! The job [`Extremes`]: the least and the greatest number of each key. Its meanings are definitions in `specs/`, and its
//! laws are proved there for every value. Mapping a record is one pass over its bytes, and joining two values takes two
//! comparisons. The program does not contain it: it is the example of a job of your own.
#![tactic(auto)]

mod extent;
mod extremes;
#[cfg(test)]
mod serving_tests;
#[cfg(test)]
mod tests;

pub use extent::Extent;
pub use extremes::Extremes;
