//! Generations found by halving.
ghost use Rattle.std.specs.Prelude.{◌≡◌};
ghost use Rattle.std.specs.List.Sorted.{IsNonDecreasing};
ghost use Rattle.index_core.specs.Histories.{is_among};

/// Whether a generation is one of these, which don't fall.
pub(crate) fn is_among(generation: u32, gens: &[u32]) -> bool
    requires { IsNonDecreasing gens.now }
    ensures { result ≡ is_among generation gens.now }
{
    match gens.binary_search(&generation) {
        Ok(_) => true,
        Err(_) => false,
    }
}
