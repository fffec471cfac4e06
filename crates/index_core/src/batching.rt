//! Batches of what is buffered.
ghost use Rattle.std.specs.Prelude.{◌≡◌, ◌<◌, [], ◌∷◌, ◌++◌, IfOk, IfErr, length, map};
ghost use Rattle.sg_paths.specs.Operations.{plain_op};

use sg_base::List;
use sg_paths::{Batch, Op};
use std::alloc::{AllocFailed, Global};
use std::sync::Arc;

/// A batch of these operations. An error hands them back.
pub(crate) fn shared_batch(
    alloc: Global,
    from: u64,
    upto: u64,
    ops: Vec<Op>,
) -> Result<Arc<Batch>, Vec<Op>>
    ensures ok { IfOk result (λ b. b.value ≡ record {
      from = from;
      upto = upto;
      operations = map plain_op ops.items;
    }) }
    ensures returned { IfErr result (λ v. map plain_op v.items ≡ map plain_op ops.items) }
{
    match Arc::new(
        alloc,
        Batch {
            from,
            upto,
            ops: List::of(ops),
        },
    ) {
        Ok(batch) => Ok(batch),
        Err(AllocFailed { value }) => {
            let Batch {
                from: _,
                upto: _,
                ops,
            } = value;
            Err(ops.into_vec())
        }
    }
}

/// The last operation, taken away.
pub(crate) fn take_last(buffered: &mut Vec<Op>) -> Op
    requires { 0 < length buffered.old.items }
    ensures { buffered.old.items ≡ buffered.new.items ++ result ∷ [] }
{
    let Some(op) = buffered.pop() else {
        unreachable!()
    };
    op
}
