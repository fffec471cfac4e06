//! A ticket lock round a value with a history: who takes it finds all that its handle has observed,
//! in front of what others did since. Threads enter in the order in which they drew their tickets.
//! Contracts see a handle (`Pass`) with its observed history, a critical section (`Hold`) with the
//! value, and which lock each of them is of.
#![tactic(auto)]

mod counted;
mod hold;
mod limits;
mod lock;
mod pass;
mod rule;
mod seat_view;
mod ticket_lock;

pub use counted::Counted;
pub use hold::Hold;
pub use limits::{MOST_SEATS, limits_are_exact};
pub use lock::TurnLock;
pub use pass::Pass;
