//! Laws of the counts.
ghost use Rattle.index_holds.specs.WorkedHolds.{AreCounts};

/// Counts have the worked values, and what is held and given back is as it was.
pub fn counts_are_exact()
    ensures { AreCounts }
{}
