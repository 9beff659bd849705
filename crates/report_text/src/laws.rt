//! Laws of the form. Each function does nothing, and its contract is the law.
ghost use Rattle.report_text.specs.Laws.{IsOfOneReport, IsTextOfOneReport};

/// A JSON value, and a compact text, is that of one report, but for the writes of entries, which no
/// report shows: each part of a report can be read back.
pub fn names_one_report()
    ensures value { IsOfOneReport }
    ensures text { IsTextOfOneReport }
{}
