//! The tests of the walks over a transducer, on that of a segment. What a contract says isn't tested
//! again.
#![tactic(auto)]

#[cfg(test)]
mod walks;
