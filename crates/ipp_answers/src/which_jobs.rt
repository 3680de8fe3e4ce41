//! The values of `which-jobs`.
ghost use Rattle.std.specs.Prelude.{◌≡◌};
ghost use Rattle.ipp_answers.specs.WhichJobs.{all_choices, choice_called, choice_word, has_ended, takes_state};

use ipp_names::JobState;

/// Which jobs a client asks for, by their states (`which-jobs`, RFC 8011, 4.2.6.1, and PWG 5100.11).
#[derive(Clone, Copy, PartialEq, Eq)]
pub enum WhichJobs {
    /// `aborted`
    Aborted,
    /// `all`
    All,
    /// `canceled`
    Canceled,
    /// `completed`: all jobs that have ended, whether completed, canceled or aborted.
    Completed,
    /// `not-completed`: all jobs that have not ended.
    NotCompleted,
    /// `pending`
    Pending,
    /// `pending-held`
    PendingHeld,
    /// `processing`
    Processing,
    /// `processing-stopped`
    ProcessingStopped,
}

static CHOICES: [WhichJobs; 9] = [
    WhichJobs::Aborted,
    WhichJobs::All,
    WhichJobs::Canceled,
    WhichJobs::Completed,
    WhichJobs::NotCompleted,
    WhichJobs::Pending,
    WhichJobs::PendingHeld,
    WhichJobs::Processing,
    WhichJobs::ProcessingStopped,
];

impl WhichJobs {
    /// Returns each value.
    pub fn all() -> &'static [WhichJobs]
        ensures { result.now ≡ all_choices }
    {
        &CHOICES
    }

    /// Returns the keyword.
    pub fn keyword(self) -> &'static str
        ensures { result.now ≡ choice_word self }
    {
        match self {
            WhichJobs::Aborted => "aborted",
            WhichJobs::All => "all",
            WhichJobs::Canceled => "canceled",
            WhichJobs::Completed => "completed",
            WhichJobs::NotCompleted => "not-completed",
            WhichJobs::Pending => "pending",
            WhichJobs::PendingHeld => "pending-held",
            WhichJobs::Processing => "processing",
            WhichJobs::ProcessingStopped => "processing-stopped",
        }
    }

    /// Returns the value with this keyword, if any.
    pub fn from_keyword(keyword: &str) -> Option<WhichJobs>
        ensures { result ≡ choice_called keyword.now }
    {
        CHOICES
            .iter()
            .copied()
            .find(|choice| choice.keyword() == keyword)
    }

    /// Returns whether a job in this state is asked for.
    pub fn takes(self, state: JobState) -> bool
        ensures { result ≡ takes_state self state }
    {
        match self {
            WhichJobs::All => true,
            WhichJobs::NotCompleted => !has_ended(state),
            WhichJobs::Completed => has_ended(state),
            WhichJobs::Pending => state == JobState::Pending,
            WhichJobs::PendingHeld => state == JobState::PendingHeld,
            WhichJobs::Processing => state == JobState::Processing,
            WhichJobs::ProcessingStopped => state == JobState::ProcessingStopped,
            WhichJobs::Canceled => state == JobState::Canceled,
            WhichJobs::Aborted => state == JobState::Aborted,
        }
    }
}

fn has_ended(state: JobState) -> bool
    ensures { result ≡ has_ended state }
{
    match state {
        JobState::Canceled | JobState::Aborted | JobState::Completed => true,
        JobState::Pending
        | JobState::PendingHeld
        | JobState::Processing
        | JobState::ProcessingStopped => false,
    }
}
