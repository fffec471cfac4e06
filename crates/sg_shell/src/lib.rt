//! The running program: reads an input to its end, answers its lines in order over an index that it
//! has alone, and writes the replies. Contracts see input and output as bytes.
#![tactic(auto)]

mod engine;
mod laws;
mod lines;
mod merging;
mod opened;
mod program;
mod reading;
mod replying;
mod running;
mod status;
mod viewing;
mod writing;

pub use laws::{
    named_views_are_open, names_are_kept, no_merge_stays_open, one_line_more,
    only_truncated_replies_differ, reports_are_answers, views_meet_their_reports,
};
pub use program::{limits_are_exact, run_program};
pub use running::run;
pub use status::Status;
