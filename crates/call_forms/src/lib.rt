//! How names, values, operands, items and calls are read from JSON values and from tokens, in
//! documents and in reports.
#![tactic(auto)]

mod call;
mod item;
mod item_ahead;
mod lists;
mod statement;
mod value;

pub use call::CallReader;
pub use item::{ChangeWord, Item, ItemWord};
pub use lists::{counted_ahead, list_ahead};
pub use statement::ItemReader;
pub use value::{
    LineReader, NameReader, NewNameReader, OperandReader, ValueReader, copied, only_member,
    plain_value, shared,
};
