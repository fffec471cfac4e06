//! Builds the canonical transducer of a sorted list of paths. A builder is seen as the list of the
//! paths that were added, with their costs.
#![tactic(auto)]

mod branching;
mod builder;
mod carried;
mod frontier;
mod level;
mod nodes;
mod order;
mod writing;

pub use builder::Builder;
pub use order::goes_on;
