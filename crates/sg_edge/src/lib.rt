//! The edge: where bytes come from and go to, with the faults that are met there.
//! The shell reads and writes through `Source` and `Sink`. Contracts see the bytes where an
//! object tells them, as one in memory does, and a count of its faults everywhere.
#![tactic(auto)]

mod line_feeds;
mod memory_sink;
mod memory_source;
mod sink;
mod source;
mod std_sink;
mod std_source;

pub use line_feeds::line_feed_at;
pub use memory_sink::MemorySink;
pub use memory_source::MemorySource;
pub use sink::{PutError, Sink};
pub use source::{Failed, Source};
pub use std_sink::StdSink;
pub use std_source::StdSource;
