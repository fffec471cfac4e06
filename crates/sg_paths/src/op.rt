//! What the index is asked to do, in batches, and documents with their numbers.
ghost use Rattle.std.specs.Prelude.{◌≡◌, IfOk, option_map};
ghost use Rattle.std.specs.Option.{option_copied};
ghost use Rattle.sg_paths.specs.Operations.{plain_op, added_document, deleted_id};

use crate::document::Document;
use sg_base::{List, Text};
use std::alloc::AllocError;
use std::marker::Model;

/// What the index is asked to do. A delete and an update reach the documents with the id that were
/// added before them; an update adds its document too, in the same operation.
#[derive(Debug, Drop)]
pub enum Op {
    Add(Document),
    Update(Document),
    /// The id.
    Delete(Text),
}

impl Op {
    /// The document that it adds, if it adds one.
    pub fn document(&self) -> Option<&Document>
        ensures { option_copied result ≡ added_document (plain_op self.now) }
    {
        match self {
            Op::Add(document) => Some(document),
            Op::Update(document) => Some(document),
            Op::Delete(_) => None,
        }
    }

    /// The id of the documents that it deletes, if it deletes any.
    pub fn deleted_id(&self) -> Option<&str>
        ensures { option_map (λ id. id.now) result ≡ deleted_id (plain_op self.now) }
    {
        match self {
            Op::Add(_) => None,
            Op::Update(document) => Some(document.id.as_str()),
            Op::Delete(id) => Some(id.as_str()),
        }
    }
}

/// Consecutive operations.
#[derive(Debug, Drop)]
pub struct Batch {
    /// The number of the first, from 1.
    pub from: u64,
    /// The number of the last.
    pub upto: u64,
    pub ops: List<Op>,
}

impl Model for Batch {
    ghost use Rattle.std.specs.Prelude.{map};
    ghost use Rattle.sg_paths.specs.Operations.{PlainBatch, plain_op};

    ghost Value = { PlainBatch };

    ghost view = { λ b. record {
      from = b.from;
      upto = b.upto;
      operations = map plain_op b.ops.items;
    } };
}

/// A document with the number of the operation that added it, from 1.
#[derive(Debug, Drop)]
pub struct Numbered {
    pub seq: u64,
    pub document: Document,
}

impl Model for Numbered {
    ghost use Rattle.sg_paths.specs.Operations.{PlainNumbered};

    ghost Value = { PlainNumbered };

    ghost view = { λ n. record { seq = n.seq; document = n.document } };
}

impl Numbered {
    /// An equal document of its own, with the same number.
    pub fn copy(&self) -> Result<Numbered, AllocError>
        ensures { IfOk result (λ n. n ≡ self.now) }
    {
        Ok(Numbered {
            seq: self.seq,
            document: self.document.copy()?,
        })
    }
}
