//! The rows of a checkpoint's listing.
use crate::items::Piece;
use crate::numbers::{JobId, Moment};
use crate::rows::{Job, QueueRow};

/// The first row of a listing.
#[derive(Clone, Copy, PartialEq, Eq)]
pub struct Head {
    /// The highest job number that was assigned, or 0.
    pub highest: u32,
    /// The current moment.
    pub moment: Moment,
}

/// A row of a listing.
#[derive(Drop)]
pub enum Row {
    Head(Head),
    Queue(QueueRow),
    /// A job. The pieces of its document follow it.
    Job(Job),
    /// A part of the document of the preceding job. All parts of a document except the last have 65,536 bytes.
    Piece { job: JobId, bytes: Piece },
}
