//! Spans.

/// A part of a data fragment, with its bytes if the fragment is present.
#[derive(Clone, Copy, Debug)]
pub struct Span<'a> {
    /// The stripe of the fragment, from 0.
    pub stripe: u64,
    /// The number of the fragment in its stripe, from 0.
    pub fragment: u8,
    /// The first byte, counted from the fragment's beginning.
    pub from: usize,
    /// The byte behind the last one.
    pub to: usize,
    /// The bytes `from..to` of the fragment, or `None` if it is lost.
    pub bytes: Option<&'a [u8]>,
}
