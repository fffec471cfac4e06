//! The tests of the crates of the index: worked examples, and each public call on its happy path.
//! What a contract says isn't tested again.
#![tactic(auto)]

#[cfg(test)]
mod counts;
#[cfg(test)]
mod deletes;
#[cfg(test)]
mod making;
#[cfg(test)]
mod plans;
#[cfg(test)]
mod sharing;
