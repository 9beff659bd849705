//! What the program does.

/// A command: what is done with a document that is read, or with one that is made.
#[derive(Clone, Copy, Debug, PartialEq, Eq)]
pub enum Command {
    /// It is run, and its report is written.
    Run,
    /// It is run, and it is written how many of its clients' calls were protected.
    Cover,
    /// It is read with a report, which is judged.
    Check,
    /// The document that is made of these numbers is run, and a line of counts is written.
    Load {
        seed: u64,
        clients: u64,
        requests: u64,
    },
}
