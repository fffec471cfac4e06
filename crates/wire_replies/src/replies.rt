//! What lines are answered.

use crate::error_kind::ErrorKind;
use sg_base::{Cut, List, Text};
use std::marker::Model;

/// A row as it is printed.
#[derive(Debug, Drop)]
pub struct OutRow {
    pub id: Text,
    pub score: u64,
    pub seq: u64,
    pub text: Text,
}

impl Model for OutRow {
    ghost use Rattle.wire_replies.specs.Rows.{Row};

    ghost Value = { Row };

    ghost view = { λ r. record { id = r.id; score = r.score; seq = r.seq; text = r.text } };
}

/// What a line is answered. `line` is its number, from 1.
#[derive(Debug, Drop)]
pub enum Reply {
    /// An accepted operation, with its sequence number.
    Seq {
        line: u64,
        seq: u64,
    },
    /// The rows of a query, in their order, over the first `upto` operations. Without a cut they
    /// are all that were asked for, or all there are.
    Rows {
        line: u64,
        upto: u64,
        rows: List<OutRow>,
        cut: Option<Cut>,
    },
    /// A view over the first `upto` operations, under its name.
    Opened {
        line: u64,
        view: Text,
        upto: u64,
    },
    Closed {
        line: u64,
        view: Text,
    },
    /// How many segments a flush built.
    Built {
        line: u64,
        count: u32,
    },
    /// How many segments a merge took; 0 where none was due.
    Merged {
        line: u64,
        count: u32,
    },
    /// How many operations were accepted before a barrier.
    Accepted {
        line: u64,
        count: u64,
    },
    Error {
        line: u64,
        error: ErrorKind,
    },
}
