//! The faults of restoring a chain from a keeper's rows.

/// Why no chain comes of a keeper.
#[derive(Clone, Copy, Debug, PartialEq, Eq)]
pub enum RestoreFault {
    /// The keeper failed, and its count of faults rose.
    Failed,
    /// Memory is wanting.
    NoMemory,
    /// The keeper has no rows.
    Empty,
    /// The rows are those of no sound state.
    Unsound,
}
