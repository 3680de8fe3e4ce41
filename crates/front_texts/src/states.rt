//! The states of jobs and queues, and their names.
ghost use Rattle.std.specs.Prelude.{◌≡◌};
ghost use Rattle.front_texts.specs.StateWords.{job_state_in, job_state_number, job_state_word, printer_state_in, printer_state_number, printer_state_word};

/// The state of a job (job-state, RFC 8011).
#[derive(Clone, Copy, Debug, PartialEq, Eq)]
pub enum JobState {
    Pending,
    Held,
    Processing,
    /// No job of this spooler has this state. A job of another version may have it.
    Stopped,
    Canceled,
    Aborted,
    Completed,
}

impl JobState {
    /// Returns the state with this number.
    pub fn from_number(number: u64) -> Option<JobState>
        ensures value { result ≡ job_state_in number }
    {
        match number {
            3 => Some(JobState::Pending),
            4 => Some(JobState::Held),
            5 => Some(JobState::Processing),
            6 => Some(JobState::Stopped),
            7 => Some(JobState::Canceled),
            8 => Some(JobState::Aborted),
            9 => Some(JobState::Completed),
            _ => None,
        }
    }

    /// Returns the number of the state.
    pub fn number(self) -> u8
        ensures value { result ≡ job_state_number self }
    {
        match self {
            JobState::Pending => 3,
            JobState::Held => 4,
            JobState::Processing => 5,
            JobState::Stopped => 6,
            JobState::Canceled => 7,
            JobState::Aborted => 8,
            JobState::Completed => 9,
        }
    }

    /// Returns the name of the state for a user.
    pub fn word(self) -> &'static str
        ensures value { result.now ≡ job_state_word self }
    {
        match self {
            JobState::Pending => "pending",
            JobState::Held => "held",
            JobState::Processing => "processing",
            JobState::Stopped => "stopped",
            JobState::Canceled => "canceled",
            JobState::Aborted => "aborted",
            JobState::Completed => "completed",
        }
    }
}

/// The state of a queue (printer-state, RFC 8011).
#[derive(Clone, Copy, Debug, PartialEq, Eq)]
pub enum PrinterState {
    Idle,
    Processing,
    Stopped,
}

impl PrinterState {
    /// Returns the state with this number.
    pub fn from_number(number: u64) -> Option<PrinterState>
        ensures value { result ≡ printer_state_in number }
    {
        match number {
            3 => Some(PrinterState::Idle),
            4 => Some(PrinterState::Processing),
            5 => Some(PrinterState::Stopped),
            _ => None,
        }
    }

    /// Returns the number of the state.
    pub fn number(self) -> u8
        ensures value { result ≡ printer_state_number self }
    {
        match self {
            PrinterState::Idle => 3,
            PrinterState::Processing => 4,
            PrinterState::Stopped => 5,
        }
    }

    /// Returns the name of the state for a user.
    pub fn word(self) -> &'static str
        ensures value { result.now ≡ printer_state_word self }
    {
        match self {
            PrinterState::Idle => "idle",
            PrinterState::Processing => "processing",
            PrinterState::Stopped => "stopped",
        }
    }
}
