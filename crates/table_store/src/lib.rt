//! The committed tables of a service.
#![tactic(auto)]

mod block;
mod blocks;
mod column_index;
mod row_map;
mod select;
mod shelf;
mod shelves;
mod sorted_rows;
mod tables;
mod walk;

pub use block::Block;
pub use row_map::RowMap;
pub use select::{keys_sought, rows_of};
pub use shelves::{IndexOf, TableRows, are_indexes};
pub use tables::Tables;
