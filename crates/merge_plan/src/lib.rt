//! Which segments are merged: ten of one level, or one that is mostly deleted. The index asks it
//! when a merge begins. Contracts give exactly the plan of the definition.
#![tactic(auto)]

mod deleted;
mod laws;
mod levels;
mod planning;
mod size;

pub use laws::plans_are_exact;
pub use planning::plan;
pub use size::Size;
