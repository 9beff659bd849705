//! What is read of a report that was written. Each law is the clause of a function with nothing to
//! run.
ghost use Rattle.reading_laws.specs.Laws.{ReadsNothingElse, ReadsOnlyTheForm, ReadsWhatIsWritten};

/// A report that keeps to the form is read of the JSON value that it is written as, but for the
/// writes of its entries, which no report shows.
pub fn reports_are_read_back()
    ensures { ReadsWhatIsWritten }
{}

/// Of whatever report the value is written, where it is read at all, it is read as that report, but
/// for the writes of its entries.
pub fn nothing_else_is_read()
    ensures { ReadsNothingElse }
{}

/// Each report that was read has the form, from whatever value: its numbers, names, texts, octets,
/// rows and calls keep to their limits.
pub fn reports_read_have_the_form()
    ensures { ReadsOnlyTheForm }
{
    report_reader::laws::reports_are_read_as_told();
}
