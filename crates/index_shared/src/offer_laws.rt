//! What an offer brings.
ghost use Rattle.index_shared.specs.Offers.{OffersBringUpToDate, OffersCountSegments};

/// After an offer each generation that was current at its first section is up to date, or no longer
/// current.
pub fn offers_bring_up_to_date()
    ensures { OffersBringUpToDate }
{}

/// An offer answers how many segments it built.
pub fn offers_count_segments()
    ensures { OffersCountSegments }
{}
