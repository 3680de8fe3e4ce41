//! Phases and holds of a job, and the error policies of a queue.
ghost use Rattle.std.specs.Prelude.{◌≡◌};
ghost use Rattle.spool_types.specs.Phases.{has_ended, is_incoming, is_waiting, is_processing, hold_of, is_in_force, with_hold, hold_until, job_state, job_reason, policy_word, hold_reason_word, hold_word, abort_reason_word, waiting_word};

use crate::numbers::Moment;

/// What a queue does with a job after its backend failed (ErrorPolicy, cupsd.conf(5)).
#[derive(Clone, Copy, PartialEq, Eq)]
pub enum Policy {
    AbortJob,
    RetryJob,
    RetryCurrentJob,
    StopPrinter,
}

impl Policy {
    /// Returns the name of the policy.
    pub fn word(self) -> &'static str
        ensures { result.now ≡ policy_word self }
    {
        match self {
            Policy::AbortJob => "abort-job",
            Policy::RetryJob => "retry-job",
            Policy::RetryCurrentJob => "retry-current-job",
            Policy::StopPrinter => "stop-printer",
        }
    }
}

/// Why a job is held until it is released.
#[derive(Clone, Copy, Debug, PartialEq, Eq)]
pub enum HoldReason {
    /// A command held it.
    Unspecified,
    /// Its backend requires credentials.
    Authentication,
    /// Its backend requested the hold.
    Backend,
}

impl HoldReason {
    /// Returns the word that is shown for the reason.
    pub fn word(self) -> &'static str
        ensures { result.now ≡ hold_reason_word self }
    {
        match self {
            HoldReason::Unspecified => "job-hold-until-specified",
            HoldReason::Authentication => "cups-held-for-authentication",
            HoldReason::Backend => "held-by-backend",
        }
    }
}

/// Why a job was aborted.
#[derive(Clone, Copy, Debug, PartialEq, Eq)]
pub enum AbortReason {
    FilterFailed,
    BackendFailed,
    /// It was started as many times as its queue allows.
    RetryLimit,
    /// The end of the attempt was not seen: the spooler ended while the job was processing, or the job was abandoned.
    AttemptLost,
    /// No filters convert its media type to the queue's.
    NoFilter,
}

impl AbortReason {
    /// Returns the word that is shown for the reason.
    pub fn word(self) -> &'static str
        ensures { result.now ≡ abort_reason_word self }
    {
        match self {
            AbortReason::FilterFailed => "filter-failed",
            AbortReason::BackendFailed => "backend-failed",
            AbortReason::RetryLimit => "retry-limit",
            AbortReason::AttemptLost => "attempt-lost",
            AbortReason::NoFilter => "no-filter",
        }
    }
}

/// Whether and until when a job is held.
#[derive(Clone, Copy, Debug, PartialEq, Eq)]
pub enum Hold {
    Free,
    /// Until it is released.
    Indefinite(HoldReason),
    /// Until a moment.
    Until(Moment),
}

impl Hold {
    /// Returns the hold that a command sets: until a moment, or with `None` until the job is released.
    pub fn until(moment: Option<Moment>) -> Hold
        ensures { result ≡ hold_until moment }
    {
        match moment {
            Some(moment) => Hold::Until(moment),
            None => Hold::Indefinite(HoldReason::Unspecified),
        }
    }

    /// Returns whether the hold is in force at the moment `now`.
    pub fn is_in_force(self, now: Moment) -> bool
        ensures { result ≡ is_in_force now self }
    {
        match self {
            Hold::Free => false,
            Hold::Indefinite(_) => true,
            Hold::Until(moment) => now < moment,
        }
    }

    /// Returns the word that is shown while the hold is in force.
    pub fn word(&self) -> &'static str
        ensures { result.now ≡ hold_word self.now }
    {
        match self {
            Hold::Free => "none",
            Hold::Indefinite(reason) => reason.word(),
            Hold::Until(_) => HoldReason::Unspecified.word(),
        }
    }
}

/// The phase of a job.
#[derive(Clone, Copy, Debug, PartialEq, Eq)]
pub enum Phase {
    /// Its document is being sent.
    Incoming(Hold),
    /// The job is closed, and is not started before the moment `not_before`. A job with `first` set precedes all
    /// others.
    Waiting {
        hold: Hold,
        not_before: Moment,
        first: bool,
    },
    /// Stage `stage` of `stages` of an attempt is running. Attempts and stages count from 1.
    Processing {
        attempt: u32,
        stage: u8,
        stages: u8,
    },
    Completed,
    Canceled,
    Aborted(AbortReason),
}

impl Phase {
    /// Returns whether the job was completed, canceled or aborted.
    pub fn has_ended(self) -> bool
        ensures { result ≡ has_ended self }
    {
        matches!(self, Phase::Completed | Phase::Canceled | Phase::Aborted(_))
    }

    /// Returns whether the job's document is being sent.
    pub fn is_incoming(self) -> bool
        ensures { result ≡ is_incoming self }
    {
        matches!(self, Phase::Incoming(_))
    }

    /// Returns whether the job is closed, has not ended and is not processing.
    pub fn is_waiting(self) -> bool
        ensures { result ≡ is_waiting self }
    {
        matches!(self, Phase::Waiting { .. })
    }

    /// Returns whether a stage of the job is running.
    pub fn is_processing(self) -> bool
        ensures { result ≡ is_processing self }
    {
        matches!(self, Phase::Processing { .. })
    }

    /// Returns the hold of an incoming or waiting job, otherwise `Free`.
    pub fn hold(self) -> Hold
        ensures { result ≡ hold_of self }
    {
        match self {
            Phase::Incoming(hold) | Phase::Waiting { hold, .. } => hold,
            _ => Hold::Free,
        }
    }

    /// Returns an incoming or waiting phase with this hold, and any other phase unchanged.
    pub fn with_hold(self, hold: Hold) -> Phase
        ensures { result ≡ with_hold hold self }
    {
        match self {
            Phase::Incoming(_) => Phase::Incoming(hold),
            Phase::Waiting {
                not_before,
                first,
                ..
            } => Phase::Waiting {
                hold,
                not_before,
                first,
            },
            other => other,
        }
    }

    /// Returns the number that is shown for the phase at the moment `now` (job-state, RFC 8011).
    pub fn job_state(self, now: Moment) -> u8
        ensures { result ≡ job_state now self }
    {
        match self {
            Phase::Incoming(_) => 4,
            Phase::Waiting { hold, .. } => { if hold.is_in_force(now) { 4 } else { 3 } }
            Phase::Processing { .. } => 5,
            Phase::Canceled => 7,
            Phase::Aborted(_) => 8,
            Phase::Completed => 9,
        }
    }

    /// Returns the word that is shown with that number (job-state-reasons, RFC 8011).
    pub fn job_reason(&self, now: &Moment) -> &'static str
        ensures { result.now ≡ job_reason now.now self.now }
    {
        match self {
            Phase::Incoming(_) => "job-incoming",
            Phase::Waiting {
                hold,
                not_before,
                ..
            } => { waiting_reason(now, hold, not_before) }
            Phase::Processing { .. } => "job-printing",
            Phase::Canceled => "canceled",
            Phase::Aborted(reason) => reason.word(),
            Phase::Completed => "job-completed-successfully",
        }
    }
}

// Returns the word for a waiting job.
fn waiting_reason(now: &Moment, hold: &Hold, not_before: &Moment) -> &'static str
    ensures { result.now ≡ waiting_word now.now hold.now not_before.now }
{
    if hold.is_in_force(*now) {
        hold.word()
    } else if now < not_before {
        "retry-later"
    } else {
        "none"
    }
}
