//! What a line of a session says: its command, or what is wrong with it.
#![tactic(auto)]

mod command;
mod edits;

pub use command::{Action, Command, Form, LineFault, Name, Query, command_of};
