//! Canonical bytes: each value has one spelling, and no spelling begins that of another value.
//!
//! A `u64` is eight bytes, most significant first, and an `i64` the same in two's complement. A
//! `bool` is one byte, 0 or 1. A name, a text and octets are their number of bytes as a `u64` and
//! the bytes. A list is its number of items as a `u64` and the items. An enum is a tag byte,
//! counted from 1, and its fields; a struct is its fields. What may be absent is a byte 0, or a
//! byte 1 and the value.
//!
//! A frame's payload is spelled in the same way: to the server with the tags 1 to 6, and to the
//! client with 17 to 22.
#![tactic(auto)]

mod answers;
mod calls;
mod canon;
mod columns;
mod down;
mod draws;
mod entries;
mod fault;
mod lists;
mod numbers;
mod operands;
mod options;
mod readers;
mod settings;
mod statements;
mod texts;
mod up;
mod values;
mod writers;

pub use canon::{Put, PutMade, Take, one_spelling};
pub use fault::{CanonFault, Fault, ReadFault};
pub use readers::{
    take_answer, take_answers, take_bool, take_call, take_change, take_draw, take_draw_kind,
    take_draws, take_entry, take_i64, take_kind, take_ltxid, take_name, take_octets, take_operand,
    take_operands, take_piece, take_row, take_rows, take_settings, take_statement, take_statements,
    take_test, take_text, take_u64, take_value, take_write,
};
pub use writers::{
    put_answer, put_answers, put_bool, put_call, put_change, put_draw, put_draw_kind, put_draws,
    put_entry, put_i64, put_kind, put_ltxid, put_name, put_octets, put_operand, put_operands,
    put_piece, put_row, put_rows, put_settings, put_statement, put_statements, put_test, put_text,
    put_u64, put_value, put_write,
};
