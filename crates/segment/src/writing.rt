//! A segment as bytes.
ghost use Rattle.std.specs.Prelude.{◌≡◌, ◌≤◌, ◌++◌, IfOk, OnOk, length};
ghost use Rattle.std.specs.Int.{to_be_bytes, w32, w64};
ghost use Rattle.std.specs.List.{flat_map};
ghost use Rattle.sg_paths.specs.declared.limits.TheConstants.{MOST_SEGMENT_PATHS};
ghost use Rattle.sg_paths.specs.AllPaths.{all_paths};
ghost use Rattle.segment.specs.SegmentBytes.{header_bytes, owner_bytes, rest_bytes};
ghost use Rattle.segment.specs.SegmentBytes.{segment_bytes};

use crate::layout::{HEADER, OWNER, PLACE};
use fst_code::put_number;
use seg_table::{Owner, SegTable};
use std::alloc::{AllocError, Global};

fn put_owner(out: &mut Vec<u8>, owner: Owner) -> Result<(), AllocError>
    ensures { OnOk result (out.new.items ≡ out.old.items ++ owner_bytes owner) }
{
    put_number(out, owner.doc)?;
    out.push(owner.place)?;
    Ok(())
}

fn put_owners(out: &mut Vec<u8>, owners: &[Owner]) -> Result<(), AllocError>
    ensures { OnOk result (out.new.items ≡ out.old.items ++ flat_map owner_bytes owners.now) }
{
    for owner in owners {
        put_owner(out, *owner)?;
    }
    Ok(())
}

fn put_places(out: &mut Vec<u8>, places: &[u32]) -> Result<(), AllocError>
    ensures { OnOk result (out.new.items ≡ out.old.items ++ flat_map (to_be_bytes w32) places.now) }
{
    for place in places {
        put_number(out, *place)?;
    }
    Ok(())
}

fn put_header(out: &mut Vec<u8>, documents: u32, paths: u32, text: u64) -> Result<(), AllocError>
    ensures { OnOk result (out.new.items ≡ out.old.items ++ header_bytes documents paths text) }
{
    out.extend_from_slice(b"SGS1")?;
    put_number(out, documents)?;
    put_number(out, paths)?;
    out.extend_from_slice(&text.to_be_bytes())
}

/// Appends what stands behind the documents, with the bytes of their transducer.
pub(crate) fn put_rest(out: &mut Vec<u8>, table: &SegTable, text: &[u8]) -> Result<(), AllocError>
    ensures { OnOk result (out.new.items ≡ out.old.items ++ rest_bytes table.now text.now) }
{
    put_owners(out, table.owners())?;
    put_places(out, table.ids())?;
    out.extend_from_slice(text)
}

/// How many bytes a segment has.
fn segment_len(table: &SegTable, text: &[u8]) -> usize
    requires { length (all_paths table.now) ≤ MOST_SEGMENT_PATHS }
{
    let documents = table.len() as usize;
    let owners = table.owners().len();
    HEADER + table.bytes().len() + OWNER * owners + PLACE * documents + text.len()
}

/// A segment's bytes, with those of its transducer, in room that is taken at once.
pub(crate) fn written(alloc: Global, table: &SegTable, text: &[u8]) -> Result<Vec<u8>, AllocError>
    requires { length (all_paths table.now) ≤ MOST_SEGMENT_PATHS }
    ensures { IfOk result (λ v. v.items ≡ segment_bytes table.now text.now) }
{
    let documents = table.len();
    let owners = table.owners().len();
    let mut out = Vec::with_capacity(alloc, segment_len(table, text))?;
    put_header(&mut out, documents, owners as u32, text.len() as u64)?;
    out.extend_from_slice(table.bytes())?;
    put_rest(&mut out, table, text)?;
    Ok(out)
}
