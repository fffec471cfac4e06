//! An index that one thread has whole: the shared index with its two handles, of which nobody else
//! has one. So each call finds what was seen, and contracts see the index as its record.
#![tactic(auto)]

mod caller;
mod single;

pub use caller::CALLER;
pub use single::SingleIndex;
