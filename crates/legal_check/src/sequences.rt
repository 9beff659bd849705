//! The sequences that a service begins with.
ghost use Rattle.std.specs.Prelude.{◌≡◌, IfOk, IsTrue, map};
ghost use Rattle.std.specs.List.{list_all};
ghost use Rattle.commit_log.specs.Bases.{IsBase};
ghost use Rattle.commit_log.specs.meaning.Bases.{is_sequence};
ghost use Rattle.run_clauses.specs.meaning.ServiceBase.{sequence_of as sequence_def, sequences_of as sequences_def};

use commit_log::{BaseSequence, Journal};
use legal_draws::Sequence;
use std::alloc::Global;
use svc_values::NoMemory;

/// A sequence, which goes on behind its last reservation. Linear in the reservations.
fn sequence_of(journal: &Journal, sequence: &BaseSequence) -> Sequence
    requires { IsTrue (is_sequence sequence.now) }
    ensures { result ≡ sequence_def journal.now.reserved sequence.now }
{
    let upto = journal.end_of(sequence);
    Sequence::new(sequence.name.copied(), upto, sequence.keep)
}

/// Each of these sequences.
fn sequences_in(
    alloc: Global,
    journal: &Journal,
    sequences: &[BaseSequence],
) -> Result<Vec<Sequence>, NoMemory>
    requires { IsTrue (list_all is_sequence sequences.now) }
    ensures { IfOk result (λ made.
        made.items ≡ map (sequence_def journal.now.reserved) sequences.now) }
{
    let mut made = Vec::new(alloc);
    for sequence in sequences {
        made.push(sequence_of(journal, sequence))?;
    }
    Ok(made)
}

/// The sequences of a journal, each as it goes on. Linear in sequences times reservations.
pub(crate) fn sequences_of(alloc: Global, journal: &Journal) -> Result<Vec<Sequence>, NoMemory>
    requires { IsBase journal.now.base }
    ensures { IfOk result (λ made. made.items ≡ sequences_def journal.now) }
{
    sequences_in(alloc, journal, journal.base.sequences.as_slice())
}
