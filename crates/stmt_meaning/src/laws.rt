//! Laws of the definitions. Each function does nothing, and its contract is the law.
ghost use Rattle.stmt_meaning.specs.DrawLaws.{AnswersTellDraws, CallsDrawAsAnswered};
ghost use Rattle.stmt_meaning.specs.Laws.{DrawsLookAtNoRow, PlacesLookAtNoRow, StatementsReadOnePlace, StatementsAreLocal, CallsAreLocal, CallsDrawInOrder, SequencesAreCounted, CallsDrawFewSequences, CallsLeaveWrites, CallsKeepTables, CommitsComeLast};
ghost use Rattle.stmt_meaning.specs.SerialLaws.{SerialGoesOn, SerialLeavesOne, SerialIsTested, RunsGoOn, UnchangedRunSame, UnchangedRunWhole, UnchangedIsSerial};

/// Which draws a statement asks for, and which place it reads, depends on no row.
pub fn draws_look_at_no_row()
    ensures draws { DrawsLookAtNoRow }
    ensures places { PlacesLookAtNoRow }
{}

/// A statement depends on the rows at its one place alone, and a call on those at the places of its
/// statements: where other tables have the same rows there, it does the same.
pub fn statements_are_local()
    ensures one_place { StatementsReadOnePlace }
    ensures statements { StatementsAreLocal }
    ensures calls { CallsAreLocal }
{}

/// A call takes the draws that its operands ask for, in order, up to the statement that is refused,
/// if one is. So it takes no more values of sequences than its frame names.
pub fn calls_draw_in_order()
    ensures in_order { CallsDrawInOrder }
    ensures counted { SequencesAreCounted }
    ensures few { CallsDrawFewSequences }
{}

/// A call takes exactly the draws that its statements ask for in its settings, up to the last that
/// has an answer. So where it is answered as often on other tables, it takes draws of the same
/// kinds and names.
pub fn answers_tell_draws()
    ensures exact { CallsDrawAsAnswered }
    ensures same { AnswersTellDraws }
{}

/// A call leaves the tables with its writes, in order and fitting what is declared of them.
pub fn calls_leave_writes()
    ensures writes { CallsLeaveWrites }
    ensures tables { CallsKeepTables }
{}

/// A commit behind statements is answered last, where none of them was refused.
pub fn commits_come_last()
    ensures { CommitsComeLast }
{}

/// A serial run goes on by one entry, leaves one list of tables, and is told by a test.
pub fn serial_goes_on()
    ensures next { SerialGoesOn }
    ensures one { SerialLeavesOne }
    ensures tested { SerialIsTested }
{}

/// A transaction goes on by one call, with its writes and its reads behind those before.
pub fn runs_go_on()
    ensures { RunsGoOn }
{}

/// Where each place that a transaction read has the rows now that were found there, running its
/// pieces now gives the same answers and leaves the tables of now with its writes: it may commit as
/// if it ran now.
pub fn unchanged_runs_same()
    ensures same { UnchangedRunSame }
    ensures whole { UnchangedRunWhole }
    ensures serial { UnchangedIsSerial }
{}
