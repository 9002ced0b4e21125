//! Edge lists: untrusted text, read as edges, and edges made into a batch of edits.
#![tactic(auto)]

mod batch;
mod comma;
mod line;
mod list;
mod looked_up;
mod named_edges;
mod number;
mod order;
mod text;

pub use batch::into_batch;
pub use comma::read_csv;
pub use line::{ImportFault, ImportKind, Line};
pub use list::read_list;
pub use number::{read_id, read_weight};
pub use std::alloc::AllocError as Memory;
pub use text::{Words, bare_line};
