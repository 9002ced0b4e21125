//! What becomes of a message whose target has no state.

/// What becomes of a message to an id that has no state.
#[derive(Clone, Copy, Debug, PartialEq, Eq)]
pub enum Missing {
    /// It is dropped, and counted.
    Drop,
    /// It waits for the id, which is a vertex from the next superstep on.
    Create,
}
