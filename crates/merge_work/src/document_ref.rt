//! Documents of a merge's sources, by their places.
ghost use Rattle.std.specs.Prelude.{◌≡◌, ◌<◌, IfOk, get_or, length};
ghost use Rattle.merge_work.specs.Working.{no_document};

use seg_table::SegTable;
use sg_paths::Numbered;
use std::alloc::AllocError;
use std::marker::Model;

/// A document as its source has it.
#[derive(Drop)]
pub(crate) struct DocumentRef<'a> {
    table: &'a SegTable,
    doc: u32,
}

impl<'a> Model for DocumentRef<'a> {
    ghost use Rattle.std.specs.Prelude.{◌<◌, get_or, length};
    ghost use Rattle.sg_paths.specs.Operations.{PlainNumbered};
    ghost use Rattle.merge_work.specs.Working.{no_document};

    ghost Value = { PlainNumbered };

    ghost view = { λ r. get_or r.table.now r.doc no_document };

    ghost invariant = { λ r. r.doc < length r.table.now };
}

impl<'a> DocumentRef<'a> {
    /// The document at a place.
    pub(crate) fn of(table: &'a SegTable, doc: u32) -> DocumentRef<'a>
        requires { doc < length table.now }
        ensures { result ≡ get_or table.entry.now doc no_document }
    {
        DocumentRef { table, doc }
    }

    /// The same document.
    pub(crate) fn again(&self) -> DocumentRef<'a>
        ensures { result ≡ self.now }
    {
        DocumentRef {
            table: self.table,
            doc: self.doc,
        }
    }

    pub(crate) fn seq(&self) -> u64
        ensures { result ≡ self.now.seq }
    {
        self.table.seq(self.doc)
    }

    pub(crate) fn copy(&self) -> Result<Numbered, AllocError>
        ensures { IfOk result (λ n. n ≡ self.now) }
    {
        self.table.document(self.doc)
    }
}
