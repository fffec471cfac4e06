//! The index of documents by their ids.
ghost use Rattle.std.specs.Prelude.{◌≡◌, ◌≤◌, ◌<◌, ◌+◌, IfOk, OnOk, length, map};
ghost use Rattle.sg_paths.specs.declared.limits.TheConstants.{MOST_SEGMENT_DOCUMENTS};
ghost use Rattle.sg_base.specs.Ranking.{in_order};
ghost use Rattle.seg_table.specs.Ids.{id_cmp, id_index, placed_from};

use crate::id_ref::IdRef;
use sg_paths::Numbered;
use std::alloc::{AllocError, Global};

fn id_ref(numbered: &Numbered, place: u32) -> IdRef<'_>
    ensures { result ≡ record { id = numbered.entry.now.document.id; place = place } }
{
    let document = &numbered.document;
    IdRef {
        id: &document.id,
        place,
    }
}

fn id_refs(alloc: Global, docs: &[Numbered]) -> Result<Vec<IdRef<'_>>, AllocError>
    requires { length docs.now ≤ MOST_SEGMENT_DOCUMENTS }
    ensures { IfOk result (λ refs. refs.items ≡ placed_from 0 docs.entry.now) }
{
    let mut refs = Vec::with_capacity(alloc, docs.len())?;
    for (place, numbered) in docs.iter().enumerate() {
        refs.push(id_ref(numbered, place as u32))?;
    }
    Ok(refs)
}

fn sort_ids(refs: &mut Vec<IdRef<'_>>) -> Result<(), AllocError>
    ensures { OnOk result (refs.new.items ≡ in_order id_cmp refs.old.items) }
{
    refs.sort()
}

fn place_of(id: &IdRef<'_>) -> u32
    ensures { result ≡ id.now.place }
{
    id.place
}

fn places(alloc: Global, refs: &[IdRef<'_>]) -> Result<Vec<u32>, AllocError>
    ensures { IfOk result (λ places. places.items ≡ map (λ p. p.place) refs.now) }
{
    let mut places = Vec::with_capacity(alloc, refs.len())?;
    for id in refs {
        places.push(place_of(id))?;
    }
    Ok(places)
}

/// The places of the documents by id, then by place: n log n comparisons.
pub(crate) fn id_index(alloc: Global, docs: &[Numbered]) -> Result<Vec<u32>, AllocError>
    requires { length docs.now ≤ MOST_SEGMENT_DOCUMENTS }
    ensures { IfOk result (λ ids. ids.items ≡ id_index docs.now) }
{
    let mut refs = id_refs(alloc, docs)?;
    sort_ids(&mut refs)?;
    places(alloc, refs.as_slice())
}
