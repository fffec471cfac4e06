//! Generations found by halving.
ghost use Rattle.std.specs.Prelude.{◌≡◌, ◌<◌, ◌≤◌, length};
ghost use Rattle.std.specs.List.Sorted.{IsPartitionPoint, IsStrictlyIncreasing};
ghost use Rattle.index_holds.specs.Entries.{Rise};
ghost use Rattle.index_holds.specs.Holders.{is_among, is_held};

use crate::held::Held;

/// Whether a generation is one of these.
pub fn is_among(generation: u32, gens: &[u32]) -> bool
    requires { IsStrictlyIncreasing gens.now }
    ensures { result ≡ is_among generation gens.now }
{
    match gens.binary_search(&generation) {
        Ok(_) => true,
        Err(_) => false,
    }
}

/// How many have a lesser generation.
pub fn place_of(entries: &[Held], generation: u32) -> usize
    requires { Rise entries.now }
    ensures bound { result ≤ length entries.now }
    ensures place { IsPartitionPoint (λ h. h.generation < generation)
        (λ h. generation ≤ h.generation) entries.now result }
{
    entries.partition_point(|held| held.generation < generation)
}

/// Whether a generation is held.
pub fn is_held(entries: &[Held], generation: u32) -> bool
    requires { Rise entries.now }
    ensures { result ≡ is_held entries.now generation }
{
    let at = place_of(entries, generation);
    at < entries.len() && entries[at].generation == generation
}
