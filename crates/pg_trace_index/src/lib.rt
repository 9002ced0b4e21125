//! In which supersteps each vertex ran: an index that copies share, with notes over it that are made in place.
#![tactic(auto)]

mod base;
mod chain;
mod chunk;
mod cursor;
mod index;
mod listing;
mod log;
mod maps;
mod overlay;
mod ran;
mod steps;

pub use cursor::{IndexCursor, LastOccurrences};
pub use index::Index;
pub use pg_graph::Memory;
pub use ran::Occurrence;
