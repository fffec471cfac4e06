//! Merges that are to be worked.
ghost use Rattle.std.specs.Prelude.{◌≡◌, List, IfOk, IfErr, length, map, option_map};
ghost use Rattle.sg_paths.specs.Operations.{PlainOp};
ghost use Rattle.segment.specs.Views.{AreCovered, PlainParts};
ghost use Rattle.merge_work.specs.Merging.{AreMergeable, merged_documents, unless_empty};
ghost use Rattle.merge_work.specs.Working.{AreSources, documents_kept};

use crate::copying::segment_of;
use crate::done::MergeDone;
use crate::merging::merged_sources;
use segment::{MergeParts, Piece, Segment};
use sg_paths::Batch;
use std::alloc::{AllocError, Global};
use std::marker::Model;
use std::sync::Arc;

/// A merge that isn't worked yet. It can't be dropped: it is worked, or its parts are given back.
pub struct MergeJob {
    parts: MergeParts,
}

impl Model for MergeJob {
    ghost use Rattle.segment.specs.Views.{PlainParts};
    ghost use Rattle.merge_work.specs.Merging.{AreMergeable};

    ghost Value = { PlainParts };

    ghost view = { λ j. j.parts };

    ghost invariant = { λ j. AreMergeable j.parts };
}

/// The segment of the live documents of pieces, if there are any.
fn merged_segment(
    alloc: Global,
    pieces: &[Piece],
    upto: u64,
    batches: &[Arc<Batch>],
) -> Result<Option<Arc<Segment>>, AllocError>
    requires { AreSources pieces.now }
    ensures { IfOk result (λ s. option_map (λ x. x.value) s
        ≡ unless_empty (documents_kept upto (map (λ b. b.value) batches.now) pieces.now)) }
{
    let docs = merged_sources(alloc, pieces, upto, batches)?;
    segment_of(alloc, docs.as_slice())
}

impl MergeJob {
    /// The job of the parts that a merge began with.
    pub fn of(parts: MergeParts) -> MergeJob
        requires { AreMergeable parts }
        ensures { result ≡ parts }
    {
        MergeJob { parts }
    }

    /// The parts that it was made of.
    pub fn parts(self) -> MergeParts
        ensures { result ≡ self }
    {
        let MergeJob { parts } = self;
        parts
    }

    /// How many segments are merged.
    pub fn sources(&self) -> u32
        ensures { result ≡ length self.now.pieces }
    {
        self.parts.pieces.items().len() as u32
    }

    /// How many operations the merged documents are live after.
    pub fn upto(&self) -> u64
        ensures { result ≡ self.now.upto }
    {
        self.parts.upto
    }

    /// Copies the documents of the sources that no operation up to `upto` deletes into one segment,
    /// by number, and counts the places among equal keys anew. Nothing where there are none. A step
    /// for each document and source, and a sort of the paths. Want of memory hands the job back.
    pub fn work(self) -> Result<MergeDone, MergeJob>
        ensures ok { IfOk result (λ done. done.parts ≡ self) }
        ensures merged { IfOk result (λ done. (journal : List PlainOp)
            → AreCovered journal self
            → done.segment ≡ unless_empty (merged_documents journal self)) }
        ensures returned { IfErr result (λ job. job ≡ self) }
    {
        let MergeJob { parts } = self;
        let Ok(segment) = merged_segment(
            parts.pieces.allocator(),
            parts.pieces.items(),
            parts.upto,
            parts.batches.items(),
        ) else {
            return Err(MergeJob { parts });
        };
        Ok(MergeDone::of(parts, segment))
    }
}
