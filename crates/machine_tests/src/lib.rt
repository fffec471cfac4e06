//! The tests of the index as a machine, of commands and of replies: what no clause says, and that
//! calls succeed where there is memory. It exports nothing.
#![tactic(auto)]

#[cfg(test)]
mod core_tests;
#[cfg(test)]
mod line_tests;
#[cfg(test)]
mod reply_tests;
