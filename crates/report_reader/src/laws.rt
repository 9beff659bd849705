//! Laws of reading. The function does nothing, and its contract is the law.
ghost use Rattle.report_reader.specs.Laws.{IsReadAsTold};

/// In each report that was read the events of served items rise and name notes of a fitting kind,
/// the names of settings rise, and calls can be made.
pub fn reports_are_read_as_told()
    ensures { IsReadAsTold }
{}
