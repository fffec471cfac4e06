//! The deletes of batches in a range of numbers.
ghost use Rattle.std.specs.Prelude.{◌≡◌, ◌≤◌, ◌+◌, ◌-◌, ◌^◌, ◌++◌, IfOk, OnOk, length, map};
ghost use Rattle.std.specs.Prelude.{filter, option_map};
ghost use Rattle.std.specs.Option.{option_copied};
ghost use Rattle.sg_paths.specs.Operations.{plain_op, deleted_id};
ghost use Rattle.delete_queue.specs.Deletes.{delete_of, deletes_from, deletes_between, is_between};
ghost use Rattle.delete_queue.specs.Ranges.{at_most};

use crate::delete_ref::DeleteRef;
use sg_base::Text;
use sg_paths::{Batch, Op};
use std::alloc::{AllocError, Global};
use std::sync::Arc;

fn deleted_text(op: &Op) -> Option<&Text>
    ensures { option_copied result ≡ deleted_id (plain_op op.entry.now) }
{
    match op {
        Op::Add(_) => None,
        Op::Update(document) => Some(&document.id),
        Op::Delete(id) => Some(id),
    }
}

fn push_delete<'b>(deletes: &mut Vec<DeleteRef<'b>>, op: &'b Op, seq: u64) -> Result<(), AllocError>
    ensures { OnOk result (deletes.new.items
        ≡ deletes.old.items ++ delete_of seq (plain_op op.entry.now)) }
{
    if let Some(id) = deleted_text(op) {
        deletes.push(DeleteRef { id, seq })?;
    }
    Ok(())
}

/// Pushes the deletes of operations, of which the first has a number.
fn push_deletes<'b>(
    deletes: &mut Vec<DeleteRef<'b>>,
    ops: &'b [Op],
    first: u64,
) -> Result<(), AllocError>
    requires { first + length ops.now ≤ 2 ^ 64 }
    ensures { OnOk result (deletes.new.items
        ≡ deletes.old.items ++ deletes_from first (map plain_op ops.entry.now)) }
{
    for (i, op) in ops.iter().enumerate() {
        push_delete(deletes, op, first + i as u64)?;
    }
    Ok(())
}

/// How many operations have numbers up to a number, where the first of so many has the number
/// `first`.
fn count_upto(first: u64, count: usize, number: u64) -> usize
    ensures { result ≡ at_most count (number + 1 - first) }
{
    if number < first {
        return 0;
    }
    let before = number - first;
    if before < count as u64 {
        before as usize + 1
    } else {
        count
    }
}

/// Pushes the deletes of a batch in the range: a batch outside takes no more than two comparisons.
fn push_deletes_between<'b>(
    deletes: &mut Vec<DeleteRef<'b>>,
    applied: u64,
    upto: u64,
    batch: &'b Batch,
) -> Result<(), AllocError>
    ensures { OnOk result (deletes.new.items ≡ deletes.old.items
        ++ filter (is_between applied upto)
        (deletes_from batch.entry.now.from batch.entry.now.operations)) }
{
    let ops = batch.ops.items();
    let low = count_upto(batch.from, ops.len(), applied);
    let high = count_upto(batch.from, ops.len(), upto);
    if low < high {
        push_deletes(deletes, &ops[low..high], batch.from + low as u64)?;
    }
    Ok(())
}

/// The deletes whose numbers are over `applied` and at most `upto`.
pub(crate) fn deletes_between<'b>(
    alloc: Global,
    applied: u64,
    upto: u64,
    batches: &'b [Arc<Batch>],
) -> Result<Vec<DeleteRef<'b>>, AllocError>
    ensures { IfOk result (λ deletes. deletes.items
        ≡ deletes_between applied upto (map (λ b. b.value) batches.entry.now)) }
{
    let mut deletes = Vec::new(alloc);
    for batch in batches {
        push_deletes_between(&mut deletes, applied, upto, batch)?;
    }
    Ok(deletes)
}
