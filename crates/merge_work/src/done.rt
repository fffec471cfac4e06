//! Merges that are worked.
ghost use Rattle.std.specs.Prelude.{◌≡◌, option_map};
ghost use Rattle.segment.specs.Views.{PlainParts};
ghost use Rattle.merge_work.specs.Merging.{IsWorked, PlainDone};

use segment::{MergeParts, Segment};
use std::marker::Model;
use std::sync::Arc;

/// A merge that is worked: its parts, and what it brings. It can't be dropped; its parts are given
/// back.
pub struct MergeDone {
    parts: MergeParts,
    segment: Option<Arc<Segment>>,
}

impl Model for MergeDone {
    ghost use Rattle.std.specs.Prelude.{option_map};
    ghost use Rattle.merge_work.specs.Merging.{IsWorked, PlainDone};

    ghost Value = { PlainDone };

    ghost view = { λ d. record {
      parts = d.parts;
      segment = option_map (λ s. s.value) d.segment;
    } };

    ghost invariant = { λ d. IsWorked (record {
      parts = d.parts;
      segment = option_map (λ s. s.value) d.segment;
    }) };
}

impl MergeDone {
    pub(crate) fn of(parts: MergeParts, segment: Option<Arc<Segment>>) -> MergeDone
        requires { IsWorked (record {
          parts = parts;
          segment = option_map (λ s. s.value) segment;
        }) }
        ensures parts { result.parts ≡ parts }
        ensures segment { result.segment ≡ option_map (λ s. s.value) segment }
    {
        MergeDone { parts, segment }
    }

    /// The parts that the merge began with, and the segment that it brings, if it brings one.
    pub fn parts(self) -> (MergeParts, Option<Arc<Segment>>)
        ensures parts { result.0 ≡ self.parts }
        ensures segment { option_map (λ s. s.value) result.1 ≡ self.segment }
        ensures worked { IsWorked self }
    {
        let MergeDone { parts, segment } = self;
        (parts, segment)
    }
}
