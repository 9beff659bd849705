//! The outcome of a logical transaction identifier: what a client that lost its session is told.
#![tactic(auto)]

ghost use Rattle.std.specs.Prelude.{◌≡◌};
ghost use Rattle.svc_values.specs.Identifiers.{IsLtxid};
ghost use Rattle.ltxid_book.specs.Sessions.{sessions_in};
ghost use Rattle.ltxid_book.specs.meaning.Outcomes.{verdict_of};

use ltxid_book::Book;
pub use ltxid_book::Verdict;
use svc_values::Ltxid;

/// The outcome of the identifier. Logarithmic in the number of sessions of the book; takes no
/// memory.
pub fn decide(book: &Book, x: &Ltxid) -> Verdict
    requires { IsLtxid x.now }
    ensures { result ≡ verdict_of (sessions_in book.now) x.now }
{
    let horizon = book.horizon();
    if x.incarnation < horizon {
        return Verdict::Forgotten { horizon };
    }
    let state = book.state(x.incarnation, x.session);
    let next = state.next;
    if x.number == next {
        if state.blocked {
            Verdict::AlreadyBlocked
        } else {
            Verdict::BlockIt
        }
    } else if x.number + 1 == next {
        Verdict::Committed {
            completed: state.completed,
        }
    } else if x.number < next {
        Verdict::ServerAhead { next }
    } else {
        Verdict::ClientAhead { next }
    }
}
