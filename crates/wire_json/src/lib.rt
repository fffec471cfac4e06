//! From a line of input to its command. Contracts see a line as bytes, a command as plain data, and
//! JSON by `serde_json`'s definitions.
#![tactic(auto)]

mod asked;
mod building;
mod checks;
mod commands;
mod errors;
mod forms;
mod keys;
mod limits;
mod members;
mod reading;
mod suggested;

pub use commands::Command;
pub use errors::LineError;
pub use limits::{
    DEFAULT_K, DEFAULT_WEIGHT, MOST_LINE_BYTES, MOST_VIEW_NAME_BYTES, MOST_WEIGHT_DIGITS,
    limits_are_exact,
};
pub use reading::command;
