//! How the parts of a report are read that stand in several of its members: identifiers, sessions,
//! settings, rows, calls, answers and draws, from JSON values and from tokens.
#![tactic(auto)]

mod answer;
mod answer_ahead;
mod beside;
mod draw;
mod known;
mod part;
mod rows_ahead;

pub use answer::AnswersReader;
pub use draw::DrawsReader;
pub use known::KnownRows;
pub use part::{
    CALL, DigestReader, LtxidReader, LtxidsReader, NUMBER, RowReader, SessionReader,
    SessionsReader, SettingsReader, if_count,
};
