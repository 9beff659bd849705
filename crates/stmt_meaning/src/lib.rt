//! What statements and calls mean, over plain lists of rows.
#![tactic(auto)]

mod draw_from;
mod effect;
mod fault;
mod fitting;
pub mod laws;
mod list_draws;
mod operand;
mod order;
mod plain;
mod plan;
mod planning;
mod reading;
mod rows;
mod scan;
mod stop;
mod target;
mod written;

pub use draw_from::DrawFrom;
pub use effect::{Effect, ends_refused, is_refusal, number_at, row_effect, shown};
pub use fault::{DrawFromFault, TxnFault};
pub use fitting::{are_tables, write_fits};
pub use list_draws::ListDraws;
pub use operand::{drawn_value, operand_at};
pub use order::in_order;
pub use plain::{PlainFault, PlainRun, plain_call};
pub use plan::{Plan, RowWork, TableWork};
pub use planning::{PlanFault, plan_for};
pub use reading::plan_of;
pub use scan::Scan;
pub use stop::Stop;
pub use target::{Target, target_of};
pub use written::{put_write, put_write_if_any, stands_at, stands_in};
