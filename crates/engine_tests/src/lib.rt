//! Tests of the engine over windows: each root is compared with the sheet that is made of all records from
//! nothing. They stand above the trees, so that building the engine proves none of them.
#![tactic(auto)]

#[cfg(test)]
mod circle_tests;
#[cfg(test)]
mod count_tests;
#[cfg(test)]
mod desk;
#[cfg(test)]
mod failing_tests;
#[cfg(test)]
mod gate_tests;
#[cfg(test)]
mod made;
#[cfg(test)]
mod refusing;
#[cfg(test)]
mod script_tests;
#[cfg(test)]
mod steps;
#[cfg(test)]
mod walk_tests;
#[cfg(test)]
mod walks;
