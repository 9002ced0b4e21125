//! Checkpoints of partitions: the shelf on which they stand, their bytes, and how they are saved and loaded.
#![tactic(auto)]

mod bounds;
mod checkpoint;
mod contents;
mod loading;
mod mem_shelf;
mod reading;
mod shelf;
mod vertex_counts;
mod writing;

pub use checkpoint::save;
pub use loading::{Loaded, load};
pub use mem_shelf::MemShelf;
pub use shelf::{Shelf, ShelfFault};
