//! The sizes of the generations that may be merged.
ghost use Rattle.std.specs.Prelude.{◌≡◌, ◌++◌, [], ◌∷◌, ℕ, List, IfOk, OnOk, length, option_map};
ghost use Rattle.std.specs.List.{flat_map, filter_map, AllByRecursion};
ghost use Rattle.std.specs.List.Sorted.{IsNonDecreasing};
ghost use Rattle.sg_paths.specs.Operations.{PlainNumbered};
ghost use Rattle.seg_live.specs.LiveDocs.{live_count};
ghost use Rattle.segment.specs.Pieces.{live_docs_or_all};
ghost use Rattle.index_core.specs.Histories.{is_among};
ghost use Rattle.index_core.specs.PlannedMerges.{IsWithinSegment};
ghost use Rattle.index_core.specs.Slots.{sized, slot_size};

use crate::own_list::OwnList;
use crate::searching::is_among;
use crate::slot::Slot;
use merge_plan::Size;
use seg_live::Live;
use segment::Segment;
use std::alloc::{AllocError, Global};
use std::sync::Arc;

fn all_generations(alloc: Global, lists: &[OwnList]) -> Result<Vec<u32>, AllocError>
    ensures { IfOk result (λ v. v.items ≡ flat_map (λ l. l.generations) lists.now) }
{
    let mut all = Vec::new(alloc);
    for list in lists {
        all.extend_from_slice(list.gens.as_slice())?;
    }
    Ok(all)
}

/// The generations of all lists, sorted.
pub(crate) fn merged_generations(alloc: Global, lists: &[OwnList]) -> Result<Vec<u32>, AllocError>
    ensures rising { IfOk result (λ v. IsNonDecreasing v.items) }
    ensures among { IfOk result (λ v. (g : ℕ) → is_among g v.items
        ≡ is_among g (flat_map (λ l. l.generations) lists.now)) }
{
    let mut merged = all_generations(alloc, lists)?;
    merged.sort_unstable();
    Ok(merged)
}

// How many of so many documents are live.
fn live_of(live: &Option<Arc<Live>>, documents: u32) -> u32
    ensures { (docs : List PlainNumbered) → length docs ≡ documents
        → result ≡ live_count (live_docs_or_all docs (option_map (λ l. l.value) live.now)) }
{
    match live {
        Some(live) => live.count(),
        None => documents,
    }
}

fn size_of(
    generation: u32,
    segment: &Arc<Segment>,
    live: &Option<Arc<Live>>,
    merged: &[u32],
) -> Size
    requires { IsNonDecreasing merged.now }
    ensures size { result ≡ sized merged.now generation segment.now.value
        (option_map (λ l. l.value) live.now) }
    ensures within { IsWithinSegment result }
{
    let table = segment.table();
    let documents = table.len();
    Size {
        generation,
        documents,
        live: live_of(live, documents),
        paths: table.owners().len() as u32,
        held: is_among(generation, merged),
    }
}

// The size of one more, if it has its segment.
fn push_size(sizes: &mut Vec<Size>, slot: &Slot, merged: &[u32]) -> Result<(), AllocError>
    requires { IsNonDecreasing merged.now }
    ensures sizes { OnOk result (sizes.new.items
        ≡ sizes.old.items ++ filter_map (slot_size merged.now) (slot.now ∷ [])) }
    ensures within { AllByRecursion IsWithinSegment sizes.old.items
        → OnOk result (AllByRecursion IsWithinSegment sizes.new.items) }
{
    if let Some(segment) = &slot.segment {
        sizes.push(size_of(slot.generation, segment, &slot.live, merged))?;
    }
    Ok(())
}

/// The sizes of the slots with their segments.
pub(crate) fn sizes_of(
    alloc: Global,
    slots: &[Slot],
    merged: &[u32],
) -> Result<Vec<Size>, AllocError>
    requires { IsNonDecreasing merged.now }
    ensures sizes { IfOk result (λ v. v.items ≡ filter_map (slot_size merged.now) slots.now) }
    ensures within { IfOk result (λ v. AllByRecursion IsWithinSegment v.items) }
{
    let mut sizes = Vec::with_capacity(alloc, slots.len())?;
    for slot in slots {
        push_size(&mut sizes, slot, merged)?;
    }
    Ok(sizes)
}
