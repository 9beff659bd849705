//! Reading and writing of JSON values: what is read, or the first fault and its JSON Pointer.
#![tactic(auto)]

mod array;
mod bytes;
mod distinct;
mod fault;
mod fixed_ahead;
mod hexadecimal;
mod number;
mod object;
mod object_ahead;
mod parts;
mod pointer;
mod reader;
mod step;
mod stream;
mod text;
mod word;

pub use array::{array_ahead, array_at, array_from, exact_from, list_at, list_from, rest_ahead};
pub use bytes::json_from;
pub use distinct::{KeyedReader, Taken, distinct_ahead, distinct_from, distinct_list};
pub use fault::{DocCode, DocFault};
pub use fixed_ahead::{array_ends, last_ahead, word_ahead};
pub use hexadecimal::{Digits, octets_by, octets_from, octets_in};
pub use number::integer_in;
pub use object::{Members, is_among, object_with};
pub use object_ahead::{member_begins, object_ends};
pub use parts::{Parts, fixed, parts_from};
pub use pointer::Pointer;
pub use reader::{Flag, Integer, Reader, Whole};
pub use step::{within, within_item};
pub use stream::{array_begins, object_begins, object_from, value_from};
pub use text::{TextWriter, Writer};
pub use word::{chosen, head_from, text_from, word_from};
