//! The words of the program's command line: which they are, and which command.
#![tactic(auto)]

mod arguments;
mod command;
mod numbers;
mod words;

pub use arguments::behind_name;
pub use command::Command;
pub use words::command_of;
