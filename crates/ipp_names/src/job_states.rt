//! The states of jobs.
ghost use Rattle.std.specs.Prelude.{◌≡◌, IfSome, Some};
ghost use Rattle.ipp_names.specs.IppJobStates.{job_state_keyword, job_state_number, job_state_of, job_states};

/// A state of a job, with its number (RFC 8011 5.3.7).
#[derive(Clone, Copy, PartialEq, Eq)]
pub enum JobState {
    Pending = 3,
    PendingHeld = 4,
    Processing = 5,
    ProcessingStopped = 6,
    Canceled = 7,
    Aborted = 8,
    Completed = 9,
}

static JOB_STATES: [JobState; 7] = [
    JobState::Pending,
    JobState::PendingHeld,
    JobState::Processing,
    JobState::ProcessingStopped,
    JobState::Canceled,
    JobState::Aborted,
    JobState::Completed,
];

impl JobState {
    /// Returns each state of a job, by its number.
    pub fn all() -> &'static [JobState]
        ensures { result.now ≡ job_states }
    {
        &JOB_STATES
    }

    /// Returns its number.
    pub fn number(self) -> u16
        ensures value { result ≡ job_state_number self }
        ensures round_trip { job_state_of result ≡ Some self }
    {
        self as u16
    }

    /// Returns the state of a job with this number, if any.
    pub fn from_number(number: u16) -> Option<JobState>
        ensures value { result ≡ job_state_of number }
        ensures round_trip { IfSome result (λ found. job_state_number found ≡ number) }
    {
        JOB_STATES
            .iter()
            .copied()
            .find(|state| state.number() == number)
    }

    /// Returns its keyword.
    pub fn keyword(self) -> &'static str
        ensures { result.now ≡ job_state_keyword self }
    {
        match self {
            JobState::Pending => "pending",
            JobState::PendingHeld => "pending-held",
            JobState::Processing => "processing",
            JobState::ProcessingStopped => "processing-stopped",
            JobState::Canceled => "canceled",
            JobState::Aborted => "aborted",
            JobState::Completed => "completed",
        }
    }
}
