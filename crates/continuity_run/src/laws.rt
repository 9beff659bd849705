//! What the text of a report tells. The function does nothing, and its contract is the law.
ghost use Rattle.continuity_run.specs.Told.{TellsOneReport, TellsOneValue};

use report_text::laws::names_one_report;

/// A text that the program gives tells which report it is of, but for the writes of entries.
pub fn reports_are_told()
    ensures value { TellsOneValue }
    ensures report { TellsOneReport }
{
    names_one_report();
}
