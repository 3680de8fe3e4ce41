//! The extents of sends and pieces, and the number of pieces of a document.
ghost use Rattle.std.specs.Prelude.{◌≡◌, ◌+◌, ◌*◌, ◌<◌, ◌≤◌, ◌^◌};
ghost use Rattle.spool_types.specs.Limits.{longest_send};
ghost use Rattle.job_table.specs.DocumentLengths.{document_len};
ghost use Rattle.spool_types.specs.Sent.{bytes_behind, extent_behind};

use spool_types::{Extent, Job, LONGEST_SEND};

// The length of what precedes the bytes in a payload: the kind, the job and the length.
const BYTES_BEHIND: u64 = 9;

/// Returns the extent of the `count` bytes of a send or of a piece. `place` is the place of its payload.
pub(crate) fn extent_behind(place: u64, count: usize) -> Extent
    requires { place + bytes_behind < 2 ^ 64 }
    ensures { result ≡ extent_behind place count }
{
    Extent {
        place: place + BYTES_BEHIND,
        len: count as u64,
    }
}

/// Returns the length of a job's document in bytes, which is 0 for a job that has ended.
pub fn document_len(job: &Job) -> usize
    ensures { result ≡ document_len job.now }
{
    if job.phase.has_ended() {
        0
    } else {
        job.size as usize
    }
}

/// Returns the number of pieces of a document of `len` bytes.
pub(crate) fn piece_count(len: usize) -> usize
    ensures none { len ≡ 0 → result ≡ 0 }
    ensures enough { len ≤ result * longest_send }
{
    len.div_ceil(LONGEST_SEND)
}
