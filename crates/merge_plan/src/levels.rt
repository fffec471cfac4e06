//! Levels: segments of like size.
ghost use Rattle.std.specs.Prelude.{◌≡◌, ◌<◌, ◌+◌, IfOk, count_by, find, length, map, nat_le};
ghost use Rattle.std.specs.Prelude.{◌&&◌, Some, nat_lt, option_map, sum_by};
ghost use Rattle.merge_plan.specs.Levels.{first_of_level, is_of, LeavesRoom};
ghost use Rattle.merge_plan.specs.Merges.{digits, is_full};

use crate::size::Size;
use sg_paths::{MOST_SEGMENT_DOCUMENTS, MOST_SEGMENT_PATHS};
use std::alloc::{AllocError, Global};

/// How many segments of a level are merged together.
const MERGED_TOGETHER: usize = 10;

/// The levels, which are numbers of digits.
const LEVELS: [u32; 10] = [1, 2, 3, 4, 5, 6, 7, 8, 9, 10];

/// The numbers at which there is a digit more.
const POWERS: [u32; 9] = [
    10,
    100,
    1_000,
    10_000,
    100_000,
    1_000_000,
    10_000_000,
    100_000_000,
    1_000_000_000,
];

// What some segments have together, and how many more may join them.
#[derive(Clone, Copy)]
struct Together {
    left: usize,
    documents: u64,
    paths: u64,
}

// How many of the numbers are at most this one.
fn count_upto(numbers: &[u32], most: u32) -> usize
    ensures { result ≡ count_by (λ n. nat_le n most) numbers.now }
{
    numbers.iter().filter(|n| **n <= most).count()
}

// The number of decimal digits.
fn digits(number: u32) -> usize
    ensures { result ≡ digits number }
{
    1 + count_upto(&POWERS, number)
}

#[tactic(auto, unfolding(crate::specs::Levels::is_of))]
fn is_of(size: &Size, level: u32) -> bool
    ensures { result ≡ is_of level size.now }
{
    !size.held && digits(size.live) == level as usize
}

// Whether it is one of the first ten of its level.
fn joins(together: Together, size: &Size, level: u32) -> bool
    ensures { result ≡ (nat_lt 0 together.left && is_of level size.now) }
{
    together.left > 0 && is_of(size, level)
}

// With one more.
fn joined(together: Together, size: &Size) -> Together
    requires left { 0 < together.left }
    requires documents { LeavesRoom together.left together.documents }
    requires paths { LeavesRoom together.left together.paths }
    ensures left { result.left + 1 ≡ together.left }
    ensures documents { result.documents ≡ together.documents + size.now.documents }
    ensures paths { result.paths ≡ together.paths + size.now.paths }
    ensures room { LeavesRoom result.left result.documents × LeavesRoom result.left result.paths }
{
    Together {
        left: together.left - 1,
        documents: together.documents + u64::from(size.documents),
        paths: together.paths + u64::from(size.paths),
    }
}

// What the first ten of a level have together.
fn first_ten(sizes: &[Size], level: u32) -> Together
    ensures left { result.left + length (first_of_level level sizes.now) ≡ 10 }
    ensures documents { result.documents
        ≡ sum_by (λ s. s.documents) (first_of_level level sizes.now) }
    ensures paths { result.paths ≡ sum_by (λ s. s.paths) (first_of_level level sizes.now) }
{
    let mut together = Together {
        left: MERGED_TOGETHER,
        documents: 0,
        paths: 0,
    };
    for size in sizes {
        if joins(together, size, level) {
            together = joined(together, size);
        }
    }
    together
}

// Whether there are ten of a level, and they fit in a segment.
fn is_full(sizes: &[Size], level: u32) -> bool
    ensures { result ≡ is_full (first_of_level level sizes.now) }
{
    let together = first_ten(sizes, level);
    together.left == 0
        && together.documents <= MOST_SEGMENT_DOCUMENTS
        && together.paths <= MOST_SEGMENT_PATHS
}

fn first_full(sizes: &[Size], levels: &[u32]) -> Option<u32>
    ensures { result ≡ find (λ level. is_full (first_of_level level sizes.now)) levels.now }
{
    for level in levels {
        if is_full(sizes, *level) {
            return Some(*level);
        }
    }
    None
}

/// The lowest level of which the first ten are merged.
pub fn full_level(sizes: &[Size]) -> Option<u32>
    ensures { result ≡ find (λ level. is_full (first_of_level level sizes.now)) LEVELS }
{
    first_full(sizes, &LEVELS)
}

// The generations of the first ten of a level.
fn first_generations(alloc: Global, sizes: &[Size], level: u32) -> Result<Vec<u32>, AllocError>
    ensures { IfOk result (λ gens. gens.items
        ≡ map (λ s. s.generation) (first_of_level level sizes.now)) }
{
    sizes
        .iter()
        .filter(|size| is_of(size, level))
        .take(MERGED_TOGETHER)
        .map(|size| size.generation)
        .collect(alloc)
}

/// The generations of the first ten of a level.
pub fn ten_of(alloc: Global, sizes: &[Size], level: u32) -> Result<Option<Vec<u32>>, AllocError>
    ensures { IfOk result (λ found. option_map (λ gens. gens.items) found
        ≡ Some (map (λ s. s.generation) (first_of_level level sizes.now))) }
{
    let gens = first_generations(alloc, sizes, level)?;
    Ok(Some(gens))
}
