//! Walks over a transducer, for the search, the merge and the reader of a segment: the cursor under
//! a prefix, the start nodes of a query in the order of their contexts, and all paths. Contracts
//! speak of the list of paths and costs that it maps. No call takes memory.
#![tactic(auto)]

mod advancing;
mod arcs;
mod asking;
mod children;
mod cursor;
mod laws;
mod limits;
mod seeking;
mod spot;
mod starts;
mod stepping;
mod taking;
mod trail;
mod trailing;
mod walk;

pub use cursor::Cursor;
pub use laws::starts_are_what_matches_in_ascending_order;
pub use seeking::seek;
pub use spot::Spot;
pub use starts::{Start, Starts};
