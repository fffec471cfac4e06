//! The workspace of a search: the bounded queue of entries, the path that is followed, and the
//! lists of hits. A search of one segment works on it; whoever runs searches keeps one and uses it
//! again. Contracts see the queued entries in order, with what was reached, followed and dropped.
#![tactic(auto)]

mod desk;
mod entry;
mod held;
mod lists;
mod need;
mod queue;
mod report;
mod spare;

pub use desk::Desk;
pub use entry::Entry;
pub use need::Need;
pub use report::SegReport;
