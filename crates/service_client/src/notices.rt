//! The lines of a service that is watched.
ghost use Rattle.std.specs.Prelude.{◌≡◌, codes, cond};
ghost use Rattle.line_words.specs.DecimalNumbers.{decimal};
ghost use Rattle.service_client.specs.Notices.{greatest_change, greatest_job, gone_said, said_of, with_name, with_number};
ghost use Rattle.service_client.specs.Notices.{changed as is_changed, job_gone as job_is_gone, job_is as job_has_row, queue_gone as queue_is_gone, queue_is as queue_has_row};
ghost use Rattle.service_client.specs.Notices.{listed, other, refused};
ghost use Rattle.service_client.specs.NoticeWords.{said};
ghost use Rattle.service_client.specs.Replies.{is_word};

use line_words::{decimal, first_word};

const GREATEST_JOB: u64 = 4_294_967_295;

const GREATEST_CHANGE: u64 = 9_999_999_999_999;

/// The meaning of a line.
#[derive(Clone, Copy)]
pub enum Notice<'a> {
    /// A job has this row from now on.
    JobIs(u32),
    /// The queue of this name has this row from now on.
    QueueIs(&'a [u8]),
    JobGone(u32),
    QueueGone(&'a [u8]),
    /// Notices were left out, so the jobs and the queues must be listed again.
    LeftOut,
    /// A listing ends.
    Listed,
    /// A listing was refused.
    Refused,
    /// A group of notices ends with the change of this number.
    Changed(u64),
    /// Anything else.
    Other,
}

/// Reads a line, without its line feed.
pub fn read_notice(line: &[u8]) -> Notice<'_>
    ensures { said result ≡ said_of line.now }
{
    let (kind, rest) = first_word(line);
    let (name, rest) = first_word(rest);
    let (third, _) = first_word(rest);
    if kind == b"job".as_slice() {
        return job_is(name);
    }
    if kind == b"queue".as_slice() {
        return queue_is(name);
    }
    if kind == b"gone".as_slice() {
        return gone(name, third);
    }
    if kind == b"change".as_slice() {
        return changed(name);
    }
    if kind == b"missed".as_slice() {
        return Notice::LeftOut;
    }
    ended(kind)
}

// Returns the meaning of a line of another kind.
fn ended(kind: &[u8]) -> Notice<'_>
    ensures { said result ≡ cond (is_word kind.now (codes "ok")) listed (cond (is_word kind.now (codes "error")) refused other) }
{
    if kind == b"ok".as_slice() {
        return Notice::Listed;
    }
    if kind == b"error".as_slice() {
        return Notice::Refused;
    }
    Notice::Other
}

fn job_is(name: &[u8]) -> Notice<'_>
    ensures { said result ≡ with_number job_has_row (decimal greatest_job name.now) }
{
    match decimal(name, GREATEST_JOB) {
        Some(number) => Notice::JobIs(number as u32),
        None => Notice::Other,
    }
}

fn job_gone(name: &[u8]) -> Notice<'_>
    ensures { said result ≡ with_number job_is_gone (decimal greatest_job name.now) }
{
    match decimal(name, GREATEST_JOB) {
        Some(number) => Notice::JobGone(number as u32),
        None => Notice::Other,
    }
}

fn changed(name: &[u8]) -> Notice<'_>
    ensures { said result ≡ with_number is_changed (decimal greatest_change name.now) }
{
    match decimal(name, GREATEST_CHANGE) {
        Some(number) => Notice::Changed(number),
        None => Notice::Other,
    }
}

fn queue_is(name: &[u8]) -> Notice<'_>
    ensures { said result ≡ with_name queue_has_row name.now }
{
    if name.is_empty() {
        Notice::Other
    } else {
        Notice::QueueIs(name)
    }
}

fn queue_gone(name: &[u8]) -> Notice<'_>
    ensures { said result ≡ with_name queue_is_gone name.now }
{
    if name.is_empty() {
        Notice::Other
    } else {
        Notice::QueueGone(name)
    }
}

fn gone<'a>(kind: &[u8], name: &'a [u8]) -> Notice<'a>
    ensures { said result ≡ gone_said kind.now name.now }
{
    if kind == b"job".as_slice() {
        return job_gone(name);
    }
    if kind == b"queue".as_slice() {
        return queue_gone(name);
    }
    Notice::Other
}
