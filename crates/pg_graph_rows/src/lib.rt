//! The rows of a graph, each with an input and out-edges, and what edits make of one row.
#![tactic(auto)]

mod changed_rows;
mod draft;
mod edges;
mod edit;
mod last_row;
mod packing;
mod row;
mod vertex;

pub use changed_rows::ChangedRows;
pub use draft::DraftRow;
pub use edges::Edges;
pub use edit::{Edit, EditFault, EditKind};
pub use pg_map::VertexId;
pub use row::Row;
pub use std::alloc::AllocError as Memory;
