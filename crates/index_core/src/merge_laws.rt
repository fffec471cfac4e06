//! What holds where merges begin and end, and where views end beside them.
ghost use Rattle.index_core.specs.EndedMerges.{CurrentAfterMerge, EndedMergesBring};
ghost use Rattle.index_core.specs.EndedMerges.{GenerationsStay, LegalIsKnown, MergedByNumber};
ghost use Rattle.index_core.specs.EndedMerges.{MergedPiecesKeepLiveDocuments, StillOneHolds};
ghost use Rattle.index_core.specs.HeldEvents.{CountsFollowEvents};
ghost use Rattle.index_core.specs.HeldGenerations.{EndedViewsRelease};
ghost use Rattle.index_core.specs.LegalLaws.{CurrentGenerationsHaveAll};
ghost use Rattle.index_core.specs.LegalLaws.{GenerationsAreFew, GenerationsKeepTheirDocuments};
ghost use Rattle.index_core.specs.LegalLaws.{PartsStay};
ghost use Rattle.index_core.specs.LegalLaws.{ReleasedStayReleased, ViewsSeeTheirPrefix};
ghost use Rattle.index_core.specs.MergedPieces.{MergesKeepPieces};
ghost use Rattle.index_core.specs.PlannedMerges.{PlannedMergesFit};
ghost use Rattle.index_core.specs.WorkedMerges.{PlannedMergesCanBeWorked, WorkedMergesBring};

/// Where a view ends, exactly what nothing references any more is given up.
pub fn ended_views_release()
    ensures { EndedViewsRelease }
{}

/// What is held after each other event is as the record says, and so is what is given up.
pub fn counts_follow_events()
    ensures { CountsFollowEvents }
{}

/// In a legal record each merge that ended was begun.
pub fn legal_is_known()
    ensures { LegalIsKnown }
{}

/// An event leaves what other generations hold than the one that it draws.
pub fn generations_stay()
    ensures { GenerationsStay }
{}

/// A merge that ends brings what it keeps.
pub fn ended_merges_bring()
    ensures { EndedMergesBring }
{}

/// What a merge keeps, by number.
pub fn merged_by_number()
    ensures { MergedByNumber }
{}

/// A merge that ends keeps the live documents.
pub fn merged_pieces_keep_live_documents()
    ensures { MergedPiecesKeepLiveDocuments }
{}

/// The current generations once a merge has ended.
pub fn current_after_merge()
    ensures { CurrentAfterMerge }
{}

/// Each document stays in at most one of them.
pub fn still_one_holds()
    ensures { StillOneHolds }
{}

/// The current pieces stay what the record says where merges begin, are dropped, and end.
pub fn merges_keep_pieces()
    ensures { MergesKeepPieces }
{}

/// What the plan gives fits into one segment.
pub fn planned_merges_fit()
    ensures { PlannedMergesFit }
{}

/// So the parts of a merge that it begins can be worked.
pub fn planned_merges_can_be_worked()
    ensures { PlannedMergesCanBeWorked }
{}

/// What the work of a merge brings is what each later record says that the merge keeps.
pub fn worked_merges_bring()
    ensures { WorkedMergesBring }
{}

/// In a legal record each view sees its prefix, whatever came after its begin.
pub fn views_see_their_prefix()
    ensures { ViewsSeeTheirPrefix }
{}

/// The current generations have each live document of what is frozen, once.
pub fn current_generations_have_all()
    ensures { CurrentGenerationsHaveAll }
{}

/// A generation holds what it held when it was drawn.
pub fn generations_keep_their_documents()
    ensures { GenerationsKeepTheirDocuments }
{}

/// In a legal record generations are few, and so are open merges.
pub fn generations_are_few()
    ensures { GenerationsAreFew }
{}

/// What is released isn't referenced, and never again.
pub fn released_stay_released()
    ensures { ReleasedStayReleased }
{}

/// The parts of a view are those of each longer journal.
pub fn parts_stay()
    ensures { PartsStay }
{}
