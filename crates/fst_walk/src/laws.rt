//! What is true of the definitions.
ghost use Rattle.fst_walk.specs.StartLaws.{StartsLaw};

/// The starts of a query rise strictly, and are exactly what matches and has a key with the prefix.
pub fn starts_are_what_matches_in_ascending_order()
    ensures { StartsLaw }
{}
