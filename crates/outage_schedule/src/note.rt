//! Notes: what each event of a run did.

use std::alloc::Global;
use svc_values::{Answers, Draws, Listed, Ltxid, NoMemory, TryCopy};

/// What a step of a client did. `sent` is the number of frames that were sent.
#[derive(Clone, Copy)]
pub enum GoNote {
    /// The client is finished.
    Idle,
    /// It waits for a slot still.
    Wait,
    /// No whole frame stands on its open connection.
    NoFrame,
    /// The delay since its last failed try has not passed.
    Early,
    /// A try to connect failed.
    Down,
    /// It opened a connection.
    Open { connection: u64 },
    /// The pool lent it a connection.
    Lent { connection: u64 },
    /// It took a frame.
    Took { connection: u64, sent: u64 },
    /// It found its connection ended.
    Lost { connection: u64 },
}

/// The name of a frame to the server.
#[derive(Clone, Copy)]
pub enum FrameName {
    Connect,
    Begin,
    Call,
    Outcome,
    End,
    Close,
}

/// The bytes of a cut connection that still arrive at the server and at the client.
#[derive(Clone, Copy)]
pub struct Reached {
    pub up: u64,
    pub down: u64,
}

/// What the outcome of an identifier is told to be.
#[derive(Clone, Copy)]
pub enum AskResult {
    Committed { completed: bool },
    Uncommitted,
    ServerAhead { next: u64 },
    ClientAhead { next: u64 },
    /// The outcomes of all incarnations below the horizon are kept no more.
    Forgotten { horizon: u64 },
}

/// The answers and the draws of one call that ran outside.
#[derive(Drop)]
pub struct NoteRun {
    pub answers: Answers,
    pub draws: Draws,
}

/// The calls that ran outside, in order, without a limit.
pub type NoteRuns = Listed<NoteRun>;

/// What an `outside` did: the first identifier of its session, and the calls that ran.
#[derive(Drop)]
pub struct OutsideNote {
    pub ltxid: Ltxid,
    pub runs: NoteRuns,
}

/// What one event did.
#[derive(Drop)]
pub enum Note {
    Go {
        client: u64,
        did: GoNote,
    },
    /// The frame that was served, and `None` where no whole frame stood there.
    Serve {
        connection: u64,
        frame: Option<FrameName>,
    },
    /// `None` where the connection was not open.
    Cut {
        connection: u64,
        reached: Option<Reached>,
    },
    /// Whether the connection had a living orphan.
    Reap {
        connection: u64,
        reaped: bool,
    },
    /// Whether the server was down before.
    Crash {
        connection: u64,
        down: bool,
    },
    /// The incarnation of the opening, and `None` where the server was up.
    Up {
        incarnation: Option<u64>,
    },
    /// Whether the server was down before, and so an opening was begun.
    UpCrash {
        made: bool,
    },
    Tick,
    /// `None` where the server was down.
    Outside {
        ran: Option<OutsideNote>,
    },
    /// `None` where the server was down.
    Ask {
        ltxid: Ltxid,
        told: Option<AskResult>,
    },
    /// How many idle connections were closed.
    Drain {
        closed: u64,
    },
}

/// The notes of a run: one for each event, those after the schedule included. Without a limit.
pub type Notes = Listed<Note>;

impl TryCopy for GoNote {
    fn copy(&self, _alloc: Global) -> Result<GoNote, NoMemory> {
        Ok(*self)
    }
}

impl TryCopy for FrameName {
    fn copy(&self, _alloc: Global) -> Result<FrameName, NoMemory> {
        Ok(*self)
    }
}

impl TryCopy for Reached {
    fn copy(&self, _alloc: Global) -> Result<Reached, NoMemory> {
        Ok(*self)
    }
}

impl TryCopy for AskResult {
    fn copy(&self, _alloc: Global) -> Result<AskResult, NoMemory> {
        Ok(*self)
    }
}

impl TryCopy for NoteRun {
    fn copy(&self, alloc: Global) -> Result<NoteRun, NoMemory> {
        Ok(NoteRun {
            answers: self.answers.copy(alloc)?,
            draws: self.draws.copy(alloc)?,
        })
    }
}

impl TryCopy for OutsideNote {
    fn copy(&self, alloc: Global) -> Result<OutsideNote, NoMemory> {
        Ok(OutsideNote {
            ltxid: self.ltxid,
            runs: self.runs.copy(alloc)?,
        })
    }
}

impl TryCopy for Note {
    fn copy(&self, alloc: Global) -> Result<Note, NoMemory> {
        match self {
            Note::Go { client, did } => Ok(Note::Go {
                client: *client,
                did: *did,
            }),
            Note::Serve { connection, frame } => Ok(Note::Serve {
                connection: *connection,
                frame: *frame,
            }),
            Note::Cut {
                connection,
                reached,
            } => Ok(Note::Cut {
                connection: *connection,
                reached: *reached,
            }),
            Note::Reap { connection, reaped } => Ok(Note::Reap {
                connection: *connection,
                reaped: *reaped,
            }),
            Note::Crash { connection, down } => Ok(Note::Crash {
                connection: *connection,
                down: *down,
            }),
            Note::Up { incarnation } => Ok(Note::Up {
                incarnation: *incarnation,
            }),
            Note::UpCrash { made } => Ok(Note::UpCrash { made: *made }),
            Note::Tick => Ok(Note::Tick),
            Note::Outside { ran: None } => Ok(Note::Outside { ran: None }),
            Note::Outside { ran: Some(ran) } => Ok(Note::Outside {
                ran: Some(ran.copy(alloc)?),
            }),
            Note::Ask { ltxid, told } => Ok(Note::Ask {
                ltxid: *ltxid,
                told: *told,
            }),
            Note::Drain { closed } => Ok(Note::Drain { closed: *closed }),
        }
    }
}
