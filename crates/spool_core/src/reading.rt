//! Reading a job's document, completely or only its first bytes.
ghost use Rattle.std.specs.Prelude.{◌≡◌, ◌≤◌, false, IfOk, IfErr, IsSome};
ghost use Rattle.spool_types.specs.State.{job_at};
ghost use Rattle.spool_core.specs.OpenSpools.{len_at};
ghost use Rattle.spool_core.specs.DocumentReading.{IsDocument, IsPart, IsReading, IsUnreadFor};

use crate::spool::Spool;
use job_table::{Table, document_len};
use spool_areas::ReadFault;
use spool_disk::Disk;
use spool_types::JobId;
use std::alloc::Global;

/// Why a document was not read.
#[derive(Clone, Copy, PartialEq, Eq)]
pub enum Unread {
    /// Memory ran out for the document, and no device was called.
    Memory,
    /// The device has failed, and the spool is dead.
    Disk,
}

fn len_of(table: &Table, job: JobId) -> usize
    ensures { result ≡ len_at table.now.state job }
{
    match table.job(job) {
        Some(row) => document_len(&row.job),
        None => 0,
    }
}

/// Reads the whole document of a job from the device. The document of a job that has ended is empty.
pub fn read_whole<D: Disk>(
    alloc: Global,
    spool: &mut Spool<D>,
    job: JobId,
) -> Result<Vec<u8>, Unread>
    requires alive { spool.old.dead ≡ false }
    requires there { IsSome (job_at spool.old.state job) }
    ensures document { IfOk result (λ bytes. IsDocument D.device spool.old job bytes.items) }
    ensures reading { IfOk result (λ bytes. IsReading D.device spool.old ⊥ spool.new) }
    ensures unread { IfErr result (λ why. IsUnreadFor D.device spool.old why spool.new) }
{
    let len = len_of(spool.table(), job);
    read_front(alloc, spool, job, len)
}

/// Reads the first `count` bytes of a job's document from the device.
pub fn read_front<D: Disk>(
    alloc: Global,
    spool: &mut Spool<D>,
    job: JobId,
    count: usize,
) -> Result<Vec<u8>, Unread>
    requires alive { spool.old.dead ≡ false }
    requires there { IsSome (job_at spool.old.state job) }
    requires inside { count ≤ len_at spool.old.state job }
    ensures front { IfOk result (λ bytes. IsPart D.device spool.old job 0 count bytes.items) }
    ensures reading { IfOk result (λ bytes. IsReading D.device spool.old ⊥ spool.new) }
    ensures unread { IfErr result (λ why. IsUnreadFor D.device spool.old why spool.new) }
{
    let mut bytes = match Vec::from_elem(alloc, 0, count) {
        Ok(bytes) => bytes,
        Err(_) => return Err(Unread::Memory),
    };
    match spool.read_document(job, 0, &mut bytes) {
        Ok(()) => Ok(bytes),
        Err(ReadFault::Disk) => Err(Unread::Disk),
        Err(ReadFault::Dead) => unreachable!(),
    }
}
