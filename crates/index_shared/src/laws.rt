//! Laws of what is a handle's own.
ghost use Rattle.index_shared.specs.OwnViews.{OwnEventsStay, OwnMergesStay, OwnViewsStay};

/// No event is a handle's own but those that its calls appended.
pub fn own_events_stay()
    ensures { OwnEventsStay }
{}

/// A view that a handle has begun stays open, whatever others do.
pub fn own_views_stay()
    ensures { OwnViewsStay }
{}

/// So does a merge.
pub fn own_merges_stay()
    ensures { OwnMergesStay }
{}
