//! The options of the program: the shape of a table, told by words.
#![tactic(auto)]

mod command_line;

pub use command_line::options;
