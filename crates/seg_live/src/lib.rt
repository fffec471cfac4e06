//! The live docs of a segment: a bit for each document that isn't deleted, and how many there are.
//! Views and merges share them; contracts see the list of bits.
#![tactic(auto)]

mod bits;
mod live;

pub use live::Live;
