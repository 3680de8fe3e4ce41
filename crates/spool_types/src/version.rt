//! Versions of the format.

/// The version of an area, which determines what its rows and events may contain.
#[derive(Clone, Copy, PartialEq, Eq)]
pub enum Version {
    One,
    /// Jobs may have a moment by which they must start.
    Two,
}
