//! What the clauses say of a report that was printed. Each law is the clause of a function with
//! nothing to run.
ghost use Rattle.printed_laws.specs.Laws.{SerialSeesNoWrites, FreshSeesNoWrites, LegalSeesNoWrites, OnceSeesNoWrites, SameSeesNoWrites, StoredSeesNoWrites, WholeSeesNoWrites};

/// Each clause says the same of a report and of what is shown of it: none looks at the writes of
/// the report's entries.
pub fn clauses_see_no_writes()
    ensures serial { SerialSeesNoWrites }
    ensures fresh { FreshSeesNoWrites }
    ensures legal { LegalSeesNoWrites }
    ensures once { OnceSeesNoWrites }
    ensures same { SameSeesNoWrites }
    ensures stored { StoredSeesNoWrites }
    ensures whole { WholeSeesNoWrites }
{}
