//! The plan.
ghost use Rattle.std.specs.Prelude.{◌≡◌, IfOk, map, option_map};
ghost use Rattle.std.specs.Option.{IfSome};
ghost use Rattle.std.specs.List.Sorted.{IsStrictlyIncreasing};
ghost use Rattle.merge_plan.specs.Merges.{plan};

use crate::deleted::one_of;
use crate::levels::{full_level, ten_of};
use crate::size::Size;
use std::alloc::{AllocError, Global};

/// The generations to merge, rising, and None where there is nothing to merge. Goes over the list
/// once for each of ten levels, and takes memory for the answer alone.
pub fn plan(alloc: Global, list: &[Size]) -> Result<Option<Vec<u32>>, AllocError>
    requires rising { IsStrictlyIncreasing (map (λ s. s.generation) list.now) }
    ensures plan { IfOk result (λ found. option_map (λ gens. gens.items) found ≡ plan list.now) }
    ensures rising { IfOk result (λ found.
        IfSome found (λ gens. IsStrictlyIncreasing gens.items)) }
{
    match full_level(list) {
        Some(level) => ten_of(alloc, list, level),
        None => one_of(alloc, list),
    }
}
