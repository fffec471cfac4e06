//! The documents of a batch.
ghost use Rattle.std.specs.Prelude.{◌≡◌, ◌≤◌, ◌+◌, ◌^◌, ◌∷◌, ◌++◌, [], IfOk, OnOk, length};
ghost use Rattle.std.specs.Prelude.{map};
ghost use Rattle.sg_paths.specs.Operations.{documents_from, plain_op};

use sg_paths::{Numbered, Op};
use std::alloc::{AllocError, Global};

fn push_document(documents: &mut Vec<Numbered>, op: &Op, seq: u64) -> Result<(), AllocError>
    ensures { OnOk result (documents.new.items
        ≡ documents.old.items ++ documents_from seq (plain_op op.now ∷ [])) }
{
    if let Some(document) = op.document() {
        documents.push(Numbered {
            seq,
            document: document.copy()?,
        })?;
    }
    Ok(())
}

/// What operations add, copied, where the first has the number `from`.
pub(crate) fn documents_of(
    alloc: Global,
    ops: &[Op],
    from: u64,
) -> Result<Vec<Numbered>, AllocError>
    requires { from + length ops.now ≤ 2 ^ 64 }
    ensures value { IfOk result (λ v. v.items ≡ documents_from from (map plain_op ops.now)) }
    ensures most { IfOk result (λ v. length v.items ≤ length ops.now) }
{
    let mut documents = Vec::new(alloc);
    for (i, op) in ops.iter().enumerate() {
        push_document(&mut documents, op, from + i as u64)?;
    }
    Ok(documents)
}
