//! Writing the rows of a half.
ghost use Rattle.std.specs.Prelude.{◌≡◌, OnOk};
ghost use Rattle.spool_disk.specs.Disk.{ChangesNothing};
ghost use Rattle.split_rows.specs.Writing.{MayWrite};

use crate::reading_back::document_of;
use job_rows::Rows;
use split_rows::{Half, HalfFault, Writing, begin};
use spool_core::{Spool, Unread, read_whole};
use spool_disk::Disk;
use spool_types::{JobId, LONGEST_SEND, Piece, QueueRow, Row};
use std::alloc::{AllocError, Global};

/// Which rows are listed: those of a half, with a row, if one is given, in place of the queue with its name.
#[derive(Clone, Copy)]
pub(crate) struct Listed<'a> {
    pub half: Half<'a>,
    pub row: Option<&'a QueueRow>,
}

impl<'a> Listed<'a> {
    // Returns the row to list for a queue.
    fn row_for(self, queue: &'a QueueRow) -> &'a QueueRow {
        match self.row {
            Some(row) if row.name == queue.name => row,
            _ => queue,
        }
    }
}

/// Makes the disk a spool that lists these rows, with their documents. The caller reads the disk back to check its contents.
pub(crate) fn write_rows<S: Disk, T: Disk + Drop>(
    alloc: Global,
    whole: &mut Spool<S>,
    listed: Listed<'_>,
    disk: T,
) -> Result<T, HalfFault>
    ensures state { whole.new.state ≡ whole.old.state }
    ensures held { whole.new.held ≡ whole.old.held }
    ensures still { ChangesNothing S.device whole.old.disk whole.new.disk }
{
    let mut writing = begin(alloc, disk)?;
    match put_rows(alloc, &mut writing, whole, listed) {
        Ok(()) => writing.finish(),
        Err(fault) => {
            drop(writing);
            Err(fault)
        }
    }
}

// Adds the rows, with the documents.
fn put_rows<S: Disk, T: Disk + Drop>(
    alloc: Global,
    writing: &mut Writing<T>,
    whole: &mut Spool<S>,
    listed: Listed<'_>,
) -> Result<(), HalfFault>
    requires may { MayWrite writing.old.areas writing.old.filler writing.old.end }
    ensures may { OnOk result (MayWrite writing.new.areas writing.new.filler writing.new.end) }
    ensures state { whole.new.state ≡ whole.old.state }
    ensures held { whole.new.held ≡ whole.old.held }
    ensures still { ChangesNothing S.device whole.old.disk whole.new.disk }
{
    writing.put_row(&Row::Head(whole.table().head()))?;
    put_queues(writing, listed, whole.table().queues())?;
    let jobs = jobs_of(alloc, listed.half, whole.table().jobs())?;
    for job in jobs.iter() {
        put_job(alloc, writing, whole, *job)?;
    }
    Ok(())
}

// Adds the rows of the queues.
fn put_queues<T: Disk + Drop>(
    writing: &mut Writing<T>,
    listed: Listed<'_>,
    queues: &[QueueRow],
) -> Result<(), HalfFault>
    requires may { MayWrite writing.old.areas writing.old.filler writing.old.end }
    ensures may { OnOk result (MayWrite writing.new.areas writing.new.filler writing.new.end) }
{
    for queue in queues {
        if listed.half.takes(&queue.name) {
            writing.put_queue(listed.row_for(queue))?;
        }
    }
    Ok(())
}

// Returns the numbers of the half's jobs.
fn jobs_of(alloc: Global, half: Half<'_>, jobs: &Rows) -> Result<Vec<JobId>, AllocError> {
    let mut found = Vec::new(alloc);
    for row in jobs.iter() {
        if half.takes(&row.job.queue) {
            found.push(row.job.id)?;
        }
    }
    Ok(found)
}

// Adds the row of a job, and those of its document's pieces.
fn put_job<S: Disk, T: Disk + Drop>(
    alloc: Global,
    writing: &mut Writing<T>,
    whole: &mut Spool<S>,
    job: JobId,
) -> Result<(), HalfFault>
    requires may { MayWrite writing.old.areas writing.old.filler writing.old.end }
    ensures may { OnOk result (MayWrite writing.new.areas writing.new.filler writing.new.end) }
    ensures state { whole.new.state ≡ whole.old.state }
    ensures held { whole.new.held ≡ whole.old.held }
    ensures still { ChangesNothing S.device whole.old.disk whole.new.disk }
{
    match whole.table().job(job) {
        Some(row) => writing.put_job(&row.job)?,
        None => return Err(HalfFault::Disk),
    }
    let document = document_of(alloc, whole, job)?;
    for piece in document.chunks(LONGEST_SEND) {
        put_piece(alloc, writing, job, piece)?;
    }
    Ok(())
}

// Adds the row of a piece of a document.
fn put_piece<T: Disk + Drop>(
    alloc: Global,
    writing: &mut Writing<T>,
    job: JobId,
    piece: &[u8],
) -> Result<(), HalfFault>
    requires may { MayWrite writing.old.areas writing.old.filler writing.old.end }
    ensures may { OnOk result (MayWrite writing.new.areas writing.new.filler writing.new.end) }
{
    match Piece::new(piece.to_vec(alloc)?) {
        Ok(bytes) => writing.put_row(&Row::Piece { job, bytes }),
        Err(_) => Err(HalfFault::Disk),
    }
}
