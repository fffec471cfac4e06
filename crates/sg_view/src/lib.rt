//! Point-in-time views: a pending view is built of its parts outside the index's lock, and
//! represents a prefix of the operations; a search of its segments sees each by its table and its
//! transducer. Contracts see a ticket as its parts and a view as its segments.
#![tactic(auto)]

mod building;
mod cuts;
mod row;
mod searching;
mod segment_parts;
mod suggesting;
mod ticket;
mod view;

pub use row::Row;
pub use segment_parts::SegmentParts;
pub use ticket::Ticket;
pub use view::View;
