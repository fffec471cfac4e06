//! The documents that deletes reach.
ghost use Rattle.std.specs.Prelude.{◌≡◌, ◌<◌, ◌∷◌, ◌++◌, [], IfOk, OnOk, length, map, filter};
ghost use Rattle.std.specs.List.{All, flat_map};
ghost use Rattle.std.specs.List.Sorted.{IsPermutation};
ghost use Rattle.seg_table.specs.Ids.{places_from};
ghost use Rattle.delete_queue.specs.Deletes.{is_dead_in, reaches};
ghost use Rattle.delete_queue.specs.DeleteOrder.{is_covered_by, latest};
ghost use Rattle.delete_queue.specs.Reached.{is_before, places_of, places_reached};

use crate::collecting::deletes_between;
use crate::delete_ref::DeleteRef;
use seg_table::{IdRun, SegTable};
use sg_paths::Batch;
use std::alloc::{AllocError, Global};
use std::sync::Arc;

// Whether the document at a place was added before the operation with a number.
fn is_before(table: &SegTable, place: u32, seq: u64) -> bool
    ensures { result ≡ is_before seq table.now place }
{
    place < table.len() && table.seq(place) < seq
}

fn push_if_before(
    dead: &mut Vec<u32>,
    table: &SegTable,
    place: u32,
    seq: u64,
) -> Result<(), AllocError>
    ensures { OnOk result (dead.new.items
        ≡ dead.old.items ++ filter (is_before seq table.now) (place ∷ [])) }
{
    if is_before(table, place, seq) {
        dead.push(place)?;
    }
    Ok(())
}

fn push_all_before(
    dead: &mut Vec<u32>,
    table: &SegTable,
    places: IdRun<'_>,
    seq: u64,
) -> Result<(), AllocError>
    ensures { OnOk result (dead.new.items
        ≡ dead.old.items ++ filter (is_before seq table.now) places.entry) }
{
    for place in places {
        push_if_before(dead, table, place, seq)?;
    }
    Ok(())
}

/// Pushes the places of the documents that a delete reaches.
fn push_reached(
    dead: &mut Vec<u32>,
    table: &SegTable,
    delete: &DeleteRef<'_>,
) -> Result<(), AllocError>
    ensures { OnOk result (dead.new.items ≡ dead.old.items ++ places_of table.now delete.now) }
{
    push_all_before(dead, table, table.with_id(delete.id.as_str()), delete.seq)
}

fn is_covered_by(kept: &DeleteRef<'_>, delete: &DeleteRef<'_>) -> bool
    ensures { result ≡ is_covered_by kept.now delete.now }
{
    kept.id.as_str() == delete.id.as_str() && delete.seq <= kept.seq
}

/// The places that the latest delete of each id reaches, where they are in order. One that an
/// earlier one covers reaches no more, so each id is looked up once.
fn places_reached(
    alloc: Global,
    table: &SegTable,
    deletes: &[DeleteRef<'_>],
) -> Result<Vec<u32>, AllocError>
    ensures { IfOk result (λ dead. dead.items ≡ places_reached table.now (latest deletes.now)) }
{
    let mut dead = Vec::new(alloc);
    let Some((first, later)) = deletes.split_first() else {
        return Ok(dead);
    };
    push_reached(&mut dead, table, first)?;
    let mut kept = first;
    for delete in later {
        if !is_covered_by(kept, delete) {
            push_reached(&mut dead, table, delete)?;
            kept = delete;
        }
    }
    Ok(dead)
}

/// The places of the documents, rising, that a delete or an update of the batches reaches whose
/// number is over `applied` and at most `upto`: it has the document's id, and a number over the
/// document's own. Takes a sort of these operations, two halvings of the table for each id among
/// them, and a sort of the places; nothing where the table has no documents.
pub fn dead_in(
    alloc: Global,
    table: &SegTable,
    applied: u64,
    upto: u64,
    batches: &[Arc<Batch>],
) -> Result<Vec<u32>, AllocError>
    ensures value { IfOk result (λ dead. dead.items
        ≡ places_from 0 (is_dead_in applied upto (map (λ b. b.value) batches.now)) table.now) }
    ensures within { IfOk result (λ dead. All (λ place. place < length table.now) dead.items) }
{
    if table.len() == 0 {
        return Ok(Vec::new(alloc));
    }
    let mut deletes = deletes_between(alloc, applied, upto, batches)?;
    deletes.sort_unstable();
    let mut dead = places_reached(alloc, table, deletes.as_slice())?;
    dead.sort_unstable();
    dead.dedup();
    Ok(dead)
}
