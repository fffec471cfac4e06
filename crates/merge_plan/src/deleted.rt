//! Segments that are mostly deleted.
ghost use Rattle.std.specs.Prelude.{◌≡◌, ◌∷◌, [], IfOk, find, option_map};
ghost use Rattle.std.specs.Option.{option_copied};
ghost use Rattle.merge_plan.specs.Levels.{is_mostly_deleted};

use crate::size::Size;
use std::alloc::{AllocError, Global};

#[tactic(auto, unfolding(crate::specs::Levels::is_mostly_deleted))]
fn is_mostly_deleted(size: &Size) -> bool
    ensures { result ≡ is_mostly_deleted size.now }
{
    !size.held && size.live < size.documents.saturating_sub(size.live)
}

fn mostly_deleted(sizes: &[Size]) -> Option<&Size>
    ensures { option_copied result ≡ find is_mostly_deleted sizes.now }
{
    for size in sizes {
        if is_mostly_deleted(size) {
            return Some(size);
        }
    }
    None
}

fn alone(alloc: Global, generation: u32) -> Result<Vec<u32>, AllocError>
    ensures { IfOk result (λ gens. gens.items ≡ generation ∷ []) }
{
    let mut gens = Vec::with_capacity(alloc, 1)?;
    gens.push(generation)?;
    Ok(gens)
}

/// The generation of the first candidate with more deleted documents than live ones, alone.
pub fn one_of(alloc: Global, sizes: &[Size]) -> Result<Option<Vec<u32>>, AllocError>
    ensures { IfOk result (λ found. option_map (λ gens. gens.items) found
        ≡ option_map (λ s. s.generation ∷ []) (find is_mostly_deleted sizes.now)) }
{
    let Some(size) = mostly_deleted(sizes) else {
        return Ok(None);
    };
    let gens = alone(alloc, size.generation)?;
    Ok(Some(gens))
}
