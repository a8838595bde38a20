//! Tests of trees through the trait alone, with one desk for all kinds. They are a crate above the trees, so that no
//! tree is proved a second time for its tests.
#![tactic(auto)]

#[cfg(test)]
mod circle_tests;
#[cfg(test)]
mod desk;
#[cfg(test)]
mod folding_tests;
#[cfg(test)]
mod growing_tests;
#[cfg(test)]
mod leaves;
#[cfg(test)]
mod random_tests;
#[cfg(test)]
mod running;
#[cfg(test)]
mod steps;
#[cfg(test)]
mod walks;
#[cfg(test)]
mod window;
