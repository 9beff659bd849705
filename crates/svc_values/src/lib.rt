//! The values of the service: names, texts, rows, statements, calls, answers, entries, frames, and
//! plain tables.
#![tactic(auto)]

mod answer;
mod call;
mod compared;
mod draw;
mod ending;
mod entry;
mod frame;
mod keys;
pub mod laws;
mod list;
mod memory;
mod schema;
mod settings;
mod shared;
mod statement;
mod tables;
mod text;
mod value;

pub use answer::{Answer, Answers, Rows, StatementFault};
pub use call::{Call, CallFault};
pub use draw::{Draw, DrawKind, Draws, is_of_kind, is_there};
pub use ending::{ends_committed, ends_conflict, ends_transaction};
pub use entry::{Entry, Ltxid, Piece, Pieces, SessionId, Write, Writes};
pub use frame::{Ahead, Down, Up};
pub use keys::{KeyMap, KeySet};
pub use list::{Limited, ListFault, Listed, copies};
pub use memory::{NoMemory, TryCopy};
pub use schema::{
    Column, Columns, Names, Schema, SchemaFault, Schemas, Shape, has_column, has_name, schema_of,
    values_fit,
};
pub use settings::Settings;
pub use shared::Shared;
pub use statement::{Change, Operand, Operands, Statement, Statements, Test, value_meets};
pub use tables::{Place, PlainRow, PlainTables};
pub use text::{Name, NameFault, Octets, Text, TextFault};
pub use value::{Kind, Row, Value};
