//! The clauses on a report.
ghost use Rattle.std.specs.Prelude.{◌≡◌};
ghost use Rattle.program_ends.specs.Words.{word_of};

/// A clause on a report and its document, in the order in which they are judged.
#[derive(Clone, Copy, Debug, PartialEq, Eq)]
pub enum Clause {
    /// The entries run one after the other, and the tables are those after the last.
    Serial,
    /// No value was drawn twice.
    Fresh,
    /// What the service did is what it may do, with these entries and alerts.
    Legal,
    /// Each transaction stands among the entries at most once, and as it was shown.
    Once,
    /// Each transaction stands there with the calls, answers, draws and settings that its client
    /// knows.
    Same,
    /// Each outcome that was told is the stored one.
    Stored,
    /// Each request is shown its whole script in order, as sessions of its own served it, or one
    /// failure.
    Whole,
}

impl Clause {
    /// Its word, in lower case.
    pub fn word(&self) -> &'static str
        ensures { result.now ≡ word_of self.now }
    {
        match self {
            Clause::Serial => "serial",
            Clause::Fresh => "fresh",
            Clause::Legal => "legal",
            Clause::Once => "once",
            Clause::Same => "same",
            Clause::Stored => "stored",
            Clause::Whole => "whole",
        }
    }
}
