//! Laws of reports: each function's contract is one, over the definitions alone.
ghost use Rattle.farm_reports.specs.ReportLaws.{FilesOfOneFeedAreOfItsList, NarrowReportHasSevenFields, RowsOfAFeedAreItsFirst};
ghost use Rattle.farm_reports.specs.ReportLaws.{RowsGiveTheAnswers};

/// Where no request is of the (12,2,2) code, each line of the report on a list has seven fields.
pub fn narrow_report_has_seven_fields()
    ensures { NarrowReportHasSevenFields }
{}

/// Racks with one feed each have the files of their lists.
pub fn files_of_one_feed_are_of_its_list()
    ensures { FilesOfOneFeedAreOfItsList }
{}

/// Where a rack's answers fit its feeds there is a row for each answer, in order, which says its feed and its outcome.
pub fn rows_give_the_answers()
    ensures { RowsGiveTheAnswers }
{}

/// And the rows of one feed are about the feed's first requests, in order.
pub fn rows_of_a_feed_are_its_first()
    ensures { RowsOfAFeedAreItsFirst }
{}
