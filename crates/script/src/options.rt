//! What a run is asked for beside its script.

/// What a run is asked for beside its script.
#[derive(Clone, Copy, Drop)]
pub struct Options {
    /// Bytes of a fragment of the store: 1 to 65,536.
    pub width: u32,
    /// The number of workers: 1 to 16.
    pub workers: u32,
    /// The most entries that the journal holds: 1 to 1,048,576.
    pub limit: u32,
    /// Whether the history is printed.
    pub history: bool,
}
