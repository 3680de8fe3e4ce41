//! The times at which a job reached its states, as `job N` returns them.
ghost use Rattle.std.specs.Prelude.{◌≡◌, option_copied};
ghost use Rattle.front_texts.specs.JobPage.{time_in, time_of, times_in, times_of};

use crate::fields::{is_word, moment};
use crate::job_shown::field;
use spool_types::Moment;

/// A time that the service reports.
#[derive(Clone, Copy)]
pub enum TimeShown {
    /// The service does not know it, since it was started later.
    Unknown,
    At(Moment),
}

/// The times at which a job reached its states. A time is `None` if the job has not reached the state, or the service reports no times.
#[derive(Clone, Copy)]
pub struct JobTimes {
    pub created: Option<TimeShown>,
    pub closed: Option<TimeShown>,
    /// When its first attempt started.
    pub started: Option<TimeShown>,
    pub ended: Option<TimeShown>,
}

/// Reads the times, up to the end of the text.
pub(crate) fn read_times(text: &[u8]) -> Option<JobTimes>
    ensures { result ≡ times_in text.now }
{
    let (created, rest) = field(text, b"created");
    let (closed, rest) = field(rest, b"closed");
    let (started, rest) = field(rest, b"started");
    let (ended, rest) = field(rest, b"ended");
    if !rest.is_empty() {
        return None;
    }
    times_of(created, closed, started, ended)
}

fn times_of(
    created: Option<&[u8]>,
    closed: Option<&[u8]>,
    started: Option<&[u8]>,
    ended: Option<&[u8]>,
) -> Option<JobTimes>
    ensures { result ≡ times_of (time_of (option_copied created.entry)) (time_of (option_copied closed.entry)) (time_of (option_copied started.entry)) (time_of (option_copied ended.entry)) }
{
    Some(JobTimes {
        created: time_of(created)?,
        closed: time_of(closed)?,
        started: time_of(started)?,
        ended: time_of(ended)?,
    })
}

// Reads a time, which is `None` if its line is missing.
fn time_of(word: Option<&[u8]>) -> Option<Option<TimeShown>>
    ensures { result ≡ time_of (option_copied word.entry) }
{
    match word {
        Some(word) => Some(Some(time(word)?)),
        None => Some(None),
    }
}

fn time(word: &[u8]) -> Option<TimeShown>
    ensures { result ≡ time_in word.now }
{
    if is_word(word, b"unknown") {
        return Some(TimeShown::Unknown);
    }
    Some(TimeShown::At(moment(word)?))
}
