//! What the words of the command line say: the options of a run, or why there are none.
#![tactic(auto)]

mod arguments;
mod names;
mod options;

pub use names::{NoName, ProgramName};
pub use options::{NoOptions, Options, options_of, program_of};
