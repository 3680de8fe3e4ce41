//! The errors that end a run.

/// Why a run ended before the end of its text.
#[derive(Clone, Copy, Debug, PartialEq, Eq)]
pub enum RunFault {
    /// The reader failed, or 4,294,967,295 reads did not reach the end of the text.
    Read,
    /// The writer failed.
    Write,
    /// Memory ran out for a piece of the text, a command or the text of a reply.
    Memory,
}
