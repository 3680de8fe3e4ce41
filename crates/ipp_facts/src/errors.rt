//! The errors of the service.
ghost use Rattle.std.specs.Prelude.{◌≡◌};
ghost use Rattle.front_texts.specs.ReplyLines.{last_line};
ghost use Rattle.ipp_facts.specs.ServiceErrors.{error_by, is_done_by, refusal_error, word_error};

use front_texts::{LastLine, read_last_line};
use ipp_requests::ServiceError;
use spool_types::Refusal;

/// Returns the error of a last line that does not begin with `ok`.
pub fn error_in(line: &str) -> ServiceError
    ensures { result ≡ error_by (last_line line.now) }
{
    match read_last_line(line) {
        Some(LastLine::Refused { number, .. }) => refused(number),
        Some(LastLine::Failed { word }) => failed(word),
        _ => ServiceError::Unclear,
    }
}

/// Returns whether a last line begins with `ok`.
pub fn is_done(line: &str) -> bool
    ensures { result ≡ is_done_by (last_line line.now) }
{
    matches!(read_last_line(line), Some(LastLine::Done { .. }))
}

fn refused(number: u32) -> ServiceError
    ensures { result ≡ refusal_error number }
{
    match number {
        1 => ServiceError::Refused(Refusal::NoQueue),
        4 => ServiceError::Refused(Refusal::NotAccepting),
        5 => ServiceError::Refused(Refusal::NoJob),
        6 => ServiceError::Refused(Refusal::NotIncoming),
        7 => ServiceError::Refused(Refusal::TooLong),
        9 => ServiceError::Refused(Refusal::NoNumberLeft),
        10 => ServiceError::Refused(Refusal::JobEnded),
        11 => ServiceError::Refused(Refusal::NotWaiting),
        15 => ServiceError::Refused(Refusal::NotHeld),
        16 => ServiceError::Refused(Refusal::NotEnded),
        17 => ServiceError::Refused(Refusal::NeedsCheckpoint),
        _ => ServiceError::Unclear,
    }
}

fn failed(word: &str) -> ServiceError
    ensures { result ≡ word_error word.now }
{
    match word {
        "job" => ServiceError::NoJob,
        "queue" => ServiceError::NoQueue,
        "denied" => ServiceError::Denied,
        "options" => ServiceError::Options,
        "memory" => ServiceError::Memory,
        "full" => ServiceError::Full,
        "busy" => ServiceError::Busy,
        "disk" => ServiceError::Disk,
        "dead" => ServiceError::Dead,
        "epoch" => ServiceError::EpochEnd,
        _ => ServiceError::Unclear,
    }
}
