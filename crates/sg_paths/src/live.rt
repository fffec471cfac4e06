//! The live documents of a journal by the plain program, and what deletes and updates reach.
ghost use Rattle.std.specs.Prelude.{◌≡◌, ◌++◌, map, length, OnOk, IfOk};
ghost use Rattle.std.specs.List.{list_any};
ghost use Rattle.sg_paths.specs.Operations.{plain_op};
ghost use Rattle.sg_paths.specs.LiveDocuments.{deletes_id, live_documents, live_of};
ghost use Rattle.sg_paths.specs.LiveDocuments.{ReachesEarlierDocumentsOnly};
ghost use Rattle.sg_paths.specs.LiveDocuments.{LeavesItsOwnDocumentAlone};

use crate::op::{Numbered, Op};
use sg_base::Text;
use std::alloc::{AllocError, Global};

fn deletes(op: &Op, id: &Text) -> bool
    ensures { result ≡ deletes_id id.now (plain_op op.now) }
{
    match op.deleted_id() {
        Some(deleted) => id.as_str() == deleted,
        None => false,
    }
}

fn any_deletes(ops: &[Op], id: &Text) -> bool
    ensures { result ≡ list_any (deletes_id id.now) (map plain_op ops.now) }
{
    for op in ops {
        if deletes(op, id) {
            return true;
        }
    }
    false
}

fn add_if_live(
    alloc: Global,
    live: &mut Vec<Numbered>,
    seq: u64,
    op: &Op,
    later: &[Op],
) -> Result<(), AllocError>
    ensures { OnOk result (live.new.items ≡ live.old.items
        ++ live_of seq (plain_op op.now) (map plain_op later.now)) }
{
    let Some(document) = op.document() else {
        return Ok(());
    };
    if any_deletes(later, &document.id) {
        return Ok(());
    }
    live.push(Numbered {
        seq,
        document: document.copy()?,
    })?;
    Ok(())
}

/// The live documents after all operations of a journal, by number, copied: in quadratic time.
pub fn live_documents_of(alloc: Global, journal: &[Op]) -> Result<Vec<Numbered>, AllocError>
    ensures { IfOk result (λ live. live.items
        ≡ live_documents (map plain_op journal.now) (length journal.now)) }
{
    let mut live = Vec::new(alloc);
    for (i, op) in journal.iter().enumerate() {
        add_if_live(alloc, &mut live, i as u64 + 1, op, &journal[i + 1..])?;
    }
    Ok(live)
}

/// A delete reaches only documents with a smaller number than its own, and so does an update.
pub fn deletes_reach_earlier_documents_only()
    ensures { ReachesEarlierDocumentsOnly }
{}

/// An update that meets its own id leaves one live document with that id: its own.
pub fn an_update_leaves_its_own_document_alone()
    ensures { LeavesItsOwnDocumentAlone }
{}
