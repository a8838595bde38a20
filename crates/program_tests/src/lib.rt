//! Tests of the program on whole scripts, with expected output, and compared with the plain program on scripts that are
//! made from numbers. They are a crate above the program, so that building the program proves none of them.
#![tactic(auto)]

#[cfg(test)]
mod calling;
#[cfg(test)]
mod device_tests;
#[cfg(test)]
mod gate_tests;
#[cfg(test)]
mod job_tests;
#[cfg(test)]
mod kind_tests;
#[cfg(test)]
mod plain_tests;
#[cfg(test)]
mod session_tests;
#[cfg(test)]
mod sheet_tests;
#[cfg(test)]
mod tests;
#[cfg(test)]
mod window_tests;
#[cfg(test)]
mod work_tests;
