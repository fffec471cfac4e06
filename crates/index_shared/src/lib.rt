//! The index that threads share: a core under a ticket lock. A call is one critical section, and in
//! it one call of the core over the record that the section finds: all that the caller's handle has
//! seen, in front of what others did since. An offer takes one section to freeze, and one for each
//! generation; building, searching and merging stay outside.
#![tactic(auto)]

mod guarded;
mod index;
mod laws;
mod offer_laws;
mod offering;

pub use guarded::{Guarded, LoggedEvent, LoggedOperation};
pub use index::{Handle, Index};
pub use laws::{own_events_stay, own_merges_stay, own_views_stay};
pub use offer_laws::{offers_bring_up_to_date, offers_count_segments};
