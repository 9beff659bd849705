//! How the parts of a document are read from JSON values: tables, sequences, the service, clients
//! and events.
#![tactic(auto)]

mod event;
mod event_ahead;
mod number;
mod row_ahead;
mod script;
mod script_ahead;
mod sequence;
mod service;
mod table;
mod table_ahead;

pub use event::{ScheduleReader, all_fit, schedule_ahead};
pub use script::ClientReader;
pub use sequence::SequencesReader;
pub use service::{ServiceReader, usual_service};
pub use table::{TablesReader, tables_ahead};
