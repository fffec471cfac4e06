//! Laws of the definitions.
ghost use Rattle.sg_shell.specs.RunLaws.{OneLineMore, OnlyTruncatedRepliesDiffer};
ghost use Rattle.sg_shell.specs.RunLaws.{ViewsMeetTheirReports, ReportsAreAnswers, NamesAreKept};
ghost use Rattle.sg_shell.specs.RunLaws.{NamedViewsAreOpen, NoMergeStaysOpen};

/// A run goes on by one line.
pub fn one_line_more()
    ensures { OneLineMore }
{}

/// Two transcripts of the same lines differ only where a reply of one is truncated.
pub fn only_truncated_replies_differ()
    ensures { OnlyTruncatedRepliesDiffer }
{}

/// What a built view answers is the report that its record expects.
pub fn views_meet_their_reports()
    ensures { ViewsMeetTheirReports }
{}

/// The report of a view is an answer, also where it is truncated.
pub fn reports_are_answers()
    ensures { ReportsAreAnswers }
{}

/// Each reply is one that its line may have.
pub fn names_are_kept()
    ensures { NamesAreKept }
{}

/// The named views are the open ones.
pub fn named_views_are_open()
    ensures { NamedViewsAreOpen }
{}

/// A merge begins and ends in its line.
pub fn no_merge_stays_open()
    ensures { NoMergeStaysOpen }
{}
