//! The index as a pure machine: a history of events over a journal of operations, its views and its
//! merges. Contracts see a `Core` as its record, which is legal after every call.
#![tactic(auto)]

mod batching;
mod building;
mod changing;
mod event;
mod freezing;
mod laws;
mod limits;
mod machine;
mod merge_laws;
mod merging;
mod own_list;
mod parts;
mod refusal;
mod searching;
mod sharing;
mod sizing;
mod slot;
mod store;
mod viewing;

pub use event::Event;
pub use index_holds::Freed;
pub use laws::worked_histories;
pub use limits::{BATCH_OPERATIONS, MOST_OPEN_VIEWS, MOST_OPERATIONS, limits_are_exact};
pub use machine::Core;
pub use merge_laws::{
    counts_follow_events, current_after_merge, current_generations_have_all, ended_merges_bring,
    ended_views_release, generations_are_few, generations_keep_their_documents, generations_stay,
    legal_is_known, merged_by_number, merged_pieces_keep_live_documents, merges_keep_pieces,
    parts_stay, planned_merges_can_be_worked, planned_merges_fit, released_stay_released,
    still_one_holds, views_see_their_prefix, worked_merges_bring,
};
pub use parts::CurrentParts;
pub use refusal::{Refused, ViewError, Why};
pub use segment::{Kind, MergeParts, Piece, ViewParts};
