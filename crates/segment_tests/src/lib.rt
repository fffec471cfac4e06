//! The tests of the crates of a segment: worked examples, and each public call on its happy path.
//! What a contract says isn't tested again.
#![tactic(auto)]

#[cfg(test)]
mod making;
#[cfg(test)]
mod segment_bytes;
#[cfg(test)]
mod segments;
#[cfg(test)]
mod table;
#[cfg(test)]
mod tables;
