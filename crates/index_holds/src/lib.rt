//! Which generations are held, and by how many views and merges. The index keeps one of these
//! beside its pieces, and hears from it what nothing references any more. Contracts see the held
//! generations, rising, each with what holds it, and how many places are spare.
#![tactic(auto)]

mod counting;
mod filtering;
mod freed;
mod held;
mod holds;
mod laws;
mod searching;

pub use freed::Freed;
pub use held::Held;
pub use holds::Holds;
pub use laws::counts_are_exact;
