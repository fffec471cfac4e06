//! Adds through a handle.
ghost use Rattle.std.specs.Option.{IfSome};
ghost use Rattle.index_shared.specs.Sections.{IsAt};
ghost use Rattle.shared_speed.specs.Sharing.{HasAccepted};

use crate::documents::numbered_document;
use crate::tally::Tally;
use index_shared::{Handle, Index};
use sg_paths::Op;
use std::alloc::Global;
use std::sync::Wait;

/// Adds the document with this number, and answers the number of the operation. None where it isn't
/// accepted.
pub fn add(
    wait: &impl Wait,
    alloc: Global,
    index: &Index,
    handle: &mut Handle,
    number: u64,
) -> Option<u64>
    requires at { IsAt index.now handle.old }
    ensures at { IsAt index.now handle.new }
    ensures ok { IfSome result (λ _. HasAccepted 1 handle.old handle.new) }
{
    let document = numbered_document(alloc, number)?;
    let Ok(number) = index.accept(wait, handle, Op::Add(document)) else {
        return None;
    };
    Some(number)
}

/// Adds so many documents.
pub fn add_often(
    wait: &impl Wait,
    alloc: Global,
    index: &Index,
    handle: &mut Handle,
    times: u32,
) -> Option<Tally>
    requires at { IsAt index.now handle.old }
    ensures at { IsAt index.now handle.new }
    ensures ok { IfSome result (λ _. HasAccepted times handle.old handle.new) }
{
    for round in 0..times {
        add(wait, alloc, index, handle, round as u64)?;
    }
    Some(Tally {
        times: times as u64,
        rows: 0,
    })
}
