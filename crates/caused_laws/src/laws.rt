//! What the judge of a client's steps finds. Each law is the clause of a function with nothing to
//! run.
ghost use Rattle.caused_laws.specs.Laws.{JudgesConversation, JudgesClient, JudgesReport};

/// The judge goes over the steps of a request, finds no end before its conversation is over, and
/// finds the end right there.
pub fn conversation_is_judged()
    ensures { JudgesConversation }
{}

/// A client whose steps are those of such conversations, one for each submission in order, fails as
/// it has to.
pub fn client_is_caused()
    ensures { JudgesClient }
{}

/// A report whose clients all have such steps is one in which each request fails for its cause.
pub fn report_is_caused()
    ensures { JudgesReport }
{}
