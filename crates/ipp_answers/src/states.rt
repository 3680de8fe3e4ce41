//! The reasons for the state of a job, as the service reports them.
ghost use Rattle.std.specs.Prelude.{◌≡◌, map};
ghost use Rattle.ipp_answers.specs.JobStates.{all_reasons, reason_called, reason_word, state_by, state_reasons};

use ipp_names::JobState;

/// The word that the service shows with the state of a job. It determines the state.
#[derive(Clone, Copy, PartialEq, Eq)]
pub enum JobReason {
    /// `none`: the job waits.
    Waiting,
    /// `retry-later`: the job waits for its next attempt.
    RetryLater,
    /// `job-incoming`: the job has no whole document yet.
    Incoming,
    /// `job-hold-until-specified`: a client or an operator holds the job.
    Held,
    /// `cups-held-for-authentication`: the backend needs a password.
    HeldForAuthentication,
    /// `held-by-backend`: the backend held the job.
    HeldByBackend,
    /// `job-printing`.
    Printing,
    /// `job-completed-successfully`.
    Completed,
    /// `canceled`. Who canceled the job is not reported.
    Canceled,
    /// `filter-failed`.
    FilterFailed,
    /// `backend-failed`.
    BackendFailed,
    /// `retry-limit`: the job has used all its attempts.
    RetryLimit,
    /// `attempt-lost`: the service ended while the job was processing.
    AttemptLost,
    /// `no-filter`: no chain of filters leads to the type of the queue.
    NoFilter,
}

static REASONS: [JobReason; 14] = [
    JobReason::Waiting,
    JobReason::RetryLater,
    JobReason::Incoming,
    JobReason::Held,
    JobReason::HeldForAuthentication,
    JobReason::HeldByBackend,
    JobReason::Printing,
    JobReason::Completed,
    JobReason::Canceled,
    JobReason::FilterFailed,
    JobReason::BackendFailed,
    JobReason::RetryLimit,
    JobReason::AttemptLost,
    JobReason::NoFilter,
];

impl JobReason {
    /// Returns each reason.
    pub fn all() -> &'static [JobReason]
        ensures { result.now ≡ all_reasons }
    {
        &REASONS
    }

    /// Returns the word by which the service shows the reason.
    pub fn word(self) -> &'static str
        ensures { result.now ≡ reason_word self }
    {
        match self {
            JobReason::Waiting => "none",
            JobReason::RetryLater => "retry-later",
            JobReason::Incoming => "job-incoming",
            JobReason::Held => "job-hold-until-specified",
            JobReason::HeldForAuthentication => "cups-held-for-authentication",
            JobReason::HeldByBackend => "held-by-backend",
            JobReason::Printing => "job-printing",
            JobReason::Completed => "job-completed-successfully",
            JobReason::Canceled => "canceled",
            JobReason::FilterFailed => "filter-failed",
            JobReason::BackendFailed => "backend-failed",
            JobReason::RetryLimit => "retry-limit",
            JobReason::AttemptLost => "attempt-lost",
            JobReason::NoFilter => "no-filter",
        }
    }

    /// Returns the reason with this word, if any.
    pub fn from_word(word: &str) -> Option<JobReason>
        ensures { result ≡ reason_called word.now }
    {
        REASONS.iter().copied().find(|reason| reason.word() == word)
    }

    /// Returns the state of a job with this reason (job-state, RFC 8011, 5.3.7).
    pub fn state(self) -> JobState
        ensures { result ≡ state_by self }
    {
        match self {
            JobReason::Waiting | JobReason::RetryLater => JobState::Pending,
            JobReason::Incoming
            | JobReason::Held
            | JobReason::HeldForAuthentication
            | JobReason::HeldByBackend => JobState::PendingHeld,
            JobReason::Printing => JobState::Processing,
            JobReason::Completed => JobState::Completed,
            JobReason::Canceled => JobState::Canceled,
            JobReason::FilterFailed
            | JobReason::BackendFailed
            | JobReason::RetryLimit
            | JobReason::AttemptLost
            | JobReason::NoFilter => JobState::Aborted,
        }
    }

    // Returns the keywords of job-state-reasons (RFC 8011, 5.3.8).
    pub(crate) fn keywords(self) -> &'static [&'static str]
        ensures { map (λ keyword. keyword.now) result.now ≡ state_reasons self }
    {
        match self {
            JobReason::Waiting | JobReason::Canceled => &["none"],
            JobReason::RetryLater => &["job-queued"],
            JobReason::Incoming => &["job-incoming", "job-data-insufficient"],
            JobReason::Held | JobReason::HeldByBackend => &["job-hold-until-specified"],
            JobReason::HeldForAuthentication => &["cups-held-for-authentication"],
            JobReason::Printing => &["job-printing"],
            JobReason::Completed => &["job-completed-successfully"],
            JobReason::FilterFailed
            | JobReason::BackendFailed
            | JobReason::RetryLimit
            | JobReason::AttemptLost => &["aborted-by-system"],
            JobReason::NoFilter => &["aborted-by-system", "unsupported-document-format"],
        }
    }
}
