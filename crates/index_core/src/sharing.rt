//! What a view gets of the slots and the batches.
ghost use Rattle.std.specs.Prelude.{◌≡◌, ◌≤◌, IfOk, OnOk, option_map, map, drop, length};
ghost use Rattle.std.specs.Prelude.{◌++◌, [], ◌∷◌};
ghost use Rattle.std.specs.List.Sorted.{IsNonDecreasing};
ghost use Rattle.segment.specs.Pieces.{body_of};
ghost use Rattle.index_core.specs.Keeping.{least_applied, known_batches};
ghost use Rattle.index_core.specs.EndedMerges.{sources};
ghost use Rattle.index_core.specs.Slots.{body_at, slot_piece, HasBatch, HaveBatches};

use crate::searching::is_among;
use crate::slot::Slot;
use seg_live::Live;
use segment::{Kind, Piece};
use sg_paths::Batch;
use std::alloc::{AllocError, Global};
use std::sync::Arc;

fn shared_kind(slot: &Slot, batches: &[Arc<Batch>]) -> Result<Kind, AllocError>
    requires { HasBatch (map (λ b. b.value) batches.now) slot.now }
    ensures { IfOk result (λ k. body_of k
        ≡ body_at (map (λ b. b.value) batches.now) slot.now.at slot.now.documents) }
{
    match &slot.segment {
        Some(segment) => Ok(Kind::Built(Arc::try_clone(segment)?)),
        None => Ok(Kind::Raw(Arc::try_clone(&batches[slot.at])?)),
    }
}

fn shared_live(live: &Option<Arc<Live>>) -> Result<Option<Arc<Live>>, AllocError>
    ensures { IfOk result (λ l.
        option_map (λ m. m.value) l ≡ option_map (λ m. m.value) live.now) }
{
    match live {
        Some(live) => Ok(Some(Arc::try_clone(live)?)),
        None => Ok(None),
    }
}

fn shared_piece(slot: &Slot, batches: &[Arc<Batch>]) -> Result<Piece, AllocError>
    requires { HasBatch (map (λ b. b.value) batches.now) slot.now }
    ensures { IfOk result (λ p. p ≡ slot_piece (map (λ b. b.value) batches.now) slot.now) }
{
    Ok(Piece {
        generation: slot.generation,
        kind: shared_kind(slot, batches)?,
        live: shared_live(&slot.live)?,
        applied: slot.applied,
    })
}

pub(crate) fn shared_pieces(
    alloc: Global,
    slots: &[Slot],
    batches: &[Arc<Batch>],
) -> Result<Vec<Piece>, AllocError>
    requires { HaveBatches (map (λ b. b.value) batches.now) slots.now }
    ensures { IfOk result (λ v.
        v.items ≡ map (slot_piece (map (λ b. b.value) batches.now)) slots.now) }
{
    let mut copies = Vec::with_capacity(alloc, slots.len())?;
    for slot in slots {
        copies.push(shared_piece(slot, batches)?)?;
    }
    Ok(copies)
}

// One more, if it is of these generations.
fn share_source(
    copies: &mut Vec<Piece>,
    slot: &Slot,
    batches: &[Arc<Batch>],
    gens: &[u32],
) -> Result<(), AllocError>
    requires batch { HasBatch (map (λ b. b.value) batches.now) slot.now }
    requires rising { IsNonDecreasing gens.now }
    ensures { OnOk result (copies.new.items ≡ copies.old.items
        ++ sources gens.now (map (slot_piece (map (λ b. b.value) batches.now)) (slot.now ∷ []))) }
{
    if is_among(slot.generation, gens) {
        copies.push(shared_piece(slot, batches)?)?;
    }
    Ok(())
}

/// Those of these generations.
pub(crate) fn shared_sources(
    alloc: Global,
    slots: &[Slot],
    batches: &[Arc<Batch>],
    gens: &[u32],
) -> Result<Vec<Piece>, AllocError>
    requires batches { HaveBatches (map (λ b. b.value) batches.now) slots.now }
    requires rising { IsNonDecreasing gens.now }
    ensures { IfOk result (λ v. v.items
        ≡ sources gens.now (map (slot_piece (map (λ b. b.value) batches.now)) slots.now)) }
{
    let mut copies = Vec::with_capacity(alloc, gens.len())?;
    for slot in slots {
        share_source(&mut copies, slot, batches, gens)?;
    }
    Ok(copies)
}

pub(crate) fn generations_of(alloc: Global, pieces: &[Piece]) -> Result<Vec<u32>, AllocError>
    ensures { IfOk result (λ v. v.items ≡ map (λ piece. piece.generation) pieces.now) }
{
    let mut generations = Vec::with_capacity(alloc, pieces.len())?;
    for piece in pieces {
        generations.push(piece.generation)?;
    }
    Ok(generations)
}

/// The least number of applied operations of pieces, or `most` where it is less.
pub(crate) fn least_applied(pieces: &[Piece], most: u64) -> u64
    ensures { result ≡ least_applied most pieces.now }
{
    let mut least = most;
    for piece in pieces {
        least = least.min(piece.applied);
    }
    least
}

/// How many of the first batches end at `least` or before it.
pub(crate) fn known_batches(batches: &[Arc<Batch>], least: u64) -> usize
    ensures value { result ≡ known_batches least (map (λ b. b.value) batches.now) }
    ensures within { result ≤ length batches.now }
{
    let mut known = 0usize;
    for batch in batches {
        if batch.upto > least {
            return known;
        }
        known += 1;
    }
    known
}

/// The batches behind the first `known`.
pub(crate) fn behind(batches: &[Arc<Batch>], known: usize) -> &[Arc<Batch>]
    requires { known ≤ length batches.now }
    ensures { result.now ≡ drop known batches.now }
{
    &batches[known..]
}

pub(crate) fn shared_batches(
    alloc: Global,
    batches: &[Arc<Batch>],
) -> Result<Vec<Arc<Batch>>, AllocError>
    ensures { IfOk result (λ v. map (λ b. b.value) v.items ≡ map (λ b. b.value) batches.now) }
{
    let mut copies = Vec::with_capacity(alloc, batches.len())?;
    for batch in batches {
        copies.push(Arc::try_clone(batch)?)?;
    }
    Ok(copies)
}
