//! The statuses of refusals by the service.
ghost use Rattle.std.specs.Prelude.{◌≡◌};
ghost use Rattle.ipp_requests.specs.ServiceStatuses.{status_of, status_of_refusal};

use ipp_names::Status;
use spool_types::Refusal;

/// Why the service did not serve a command (cegmandi_protocol(5)).
#[derive(Clone, Copy)]
pub enum ServiceError {
    /// `error N NAME`.
    Refused(Refusal),
    /// `error job`.
    NoJob,
    /// `error queue`.
    NoQueue,
    /// `error denied`, or the job of another user.
    Denied,
    /// `error options`.
    Options,
    /// The reply to `close` is `unprintable`: no chain of filters leads from the format to the queue.
    Unprintable,
    /// `error memory`.
    Memory,
    /// `error full`.
    Full,
    /// `error busy`.
    Busy,
    /// The service does not answer.
    Away,
    /// `error disk`.
    Disk,
    /// `error dead`.
    Dead,
    /// `error epoch`.
    EpochEnd,
    /// `error syntax`, `error uri`, or a reply that is not understood.
    Unclear,
}

/// Returns the status of the request that met this error.
pub fn status_of(error: ServiceError) -> Status
    ensures { result ≡ status_of error }
{
    match error {
        ServiceError::Refused(refusal) => status_of_refusal(refusal),
        ServiceError::NoJob | ServiceError::NoQueue => Status::NotFound,
        ServiceError::Denied => Status::NotAuthorized,
        ServiceError::Options => Status::AttributesOrValuesNotSupported,
        ServiceError::Unprintable => Status::DocumentFormatNotSupported,
        ServiceError::Memory | ServiceError::Full | ServiceError::Busy | ServiceError::Away => {
            Status::TemporaryError
        }
        ServiceError::Disk | ServiceError::Dead | ServiceError::EpochEnd | ServiceError::Unclear =>
            Status::InternalError,
    }
}

fn status_of_refusal(refusal: Refusal) -> Status
    ensures { result ≡ status_of_refusal refusal }
{
    match refusal {
        Refusal::NoQueue | Refusal::NoJob => Status::NotFound,
        Refusal::NotAccepting => Status::NotAcceptingJobs,
        Refusal::TooLong => Status::RequestEntityTooLarge,
        Refusal::NotIncoming
        | Refusal::JobEnded
        | Refusal::NotWaiting
        | Refusal::NotHeld
        | Refusal::NotEnded => Status::NotPossible,
        Refusal::QueueExists
        | Refusal::TooManyQueues
        | Refusal::OldNumber
        | Refusal::NoNumberLeft
        | Refusal::NotNext
        | Refusal::NotProcessing
        | Refusal::WrongStage
        | Refusal::NeedsCheckpoint => Status::InternalError,
    }
}
