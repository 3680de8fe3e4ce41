//! The stages of a submission.

/// The stage of a submission.
#[derive(Clone, Copy)]
pub enum Stage {
    /// The client sends documents.
    Taking,
    /// Each document is whole, and their jobs are closed in order.
    Closing,
    /// The submission is given up, and its jobs are canceled.
    Undoing,
}

/// What follows a step of the part in progress.
#[derive(Clone, Copy)]
pub enum Move {
    /// The part stays in progress.
    Stay,
    /// The job of the next part is closed, if there is one.
    CloseNext,
    /// The job of the next part is canceled. The first part follows the last one.
    UndoNext,
    /// The job of the part itself is canceled.
    UndoThis,
}
