//! What tests of several crates share: graphs, edits and limits, by hand and at random; answers from scratch; and
//! listeners to programs, by which they run out of memory.
#![tactic(auto)]

mod answers;
mod graphs;
mod limits;
mod listening;
mod random;

pub use answers::{is_same, scratch};
pub use graphs::{graph_of, id, text_of, write_edges};
pub use limits::limits_of;
pub use listening::{Heard, Listener, Moment, Starving};
pub use random::{GraphSize, Random, edit_if_lawful, edited, random_edit, random_graph};
