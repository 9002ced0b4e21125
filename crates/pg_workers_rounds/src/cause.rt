//! Why a worker falls.

/// Why a worker fell.
#[derive(Clone, Copy, Debug, PartialEq, Eq)]
pub enum Cause {
    /// It was to fall.
    Fate,
    /// It wanted memory.
    Memory,
}
