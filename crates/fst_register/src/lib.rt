//! The frozen nodes of a transducer that is being built, each held once.
//! Contracts see a register as the list of its nodes.
#![tactic(auto)]

mod hashing;
mod nodes;
mod register;

pub use register::Register;
pub use sg_base::{Edge, NodeId};
