//! Laws of the definitions.
ghost use Rattle.sg_answers.specs.Closing.{SoundSegmentsMakeASoundView, KeptOneMore};
ghost use Rattle.sg_answers.specs.Closing.{OtherDocumentsAreInOrder, CompleteWhereQueuesSuffice};
ghost use Rattle.sg_answers.specs.WorkedReports.{WorkedReports};

/// Where the reports of its segments are sound and exact, so is the report of a view.
pub fn sound_segments_make_a_sound_view()
    ensures { SoundSegmentsMakeASoundView }
{}

/// Of the rows so far the first k are enough to keep.
pub fn kept_one_more()
    ensures { KeptOneMore }
{}

/// Rows of other documents are in rank order.
pub fn other_documents_are_in_order()
    ensures { OtherDocumentsAreInOrder }
{}

/// A report is complete where the queues suffice.
pub fn complete_where_queues_suffice()
    ensures { CompleteWhereQueuesSuffice }
{}

/// Queue sizes, truncation points and reports have the worked values.
pub fn worked_reports()
    ensures { WorkedReports }
{}
