//! From a reply to its line of output. Contracts see a reply as plain data, its line as bytes, and
//! JSON by `serde_json`'s definitions.
#![tactic(auto)]

mod error_kind;
mod replies;
mod reply_lines;

pub use error_kind::ErrorKind;
pub use replies::{OutRow, Reply};
pub use reply_lines::{replies_with_the_same_data_are_the_same, reply};
