//! The tests of the run from lines to replies: what no clause says, and that it succeeds where there
//! is memory. It exports nothing.
#![tactic(auto)]

#[cfg(test)]
mod end_tests;
#[cfg(test)]
mod journals;
#[cfg(test)]
mod merge_tests;
#[cfg(test)]
mod plain_tests;
#[cfg(test)]
mod run_tests;
#[cfg(test)]
mod table;
#[cfg(test)]
mod view_tests;
