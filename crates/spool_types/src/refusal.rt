//! Why an event is refused.
ghost use Rattle.std.specs.Prelude.{◌≡◌};
ghost use Rattle.spool_types.specs.Refusals.{refusal_number, refusal_name};

/// Why an event is refused.
#[derive(Clone, Copy, Debug, PartialEq, Eq)]
pub enum Refusal {
    NoQueue,
    QueueExists,
    TooManyQueues,
    NotAccepting,
    NoJob,
    NotIncoming,
    /// A document would exceed its maximum length, or a send would.
    TooLong,
    /// The number is not above the highest number that was assigned.
    OldNumber,
    /// The highest possible number was assigned.
    NoNumberLeft,
    JobEnded,
    NotWaiting,
    /// Another job of the queue is next, or the queue cannot start one.
    NotNext,
    NotProcessing,
    /// The attempt or the stage is not the one that is running.
    WrongStage,
    NotHeld,
    NotEnded,
    /// The journal's area has an older version.
    NeedsCheckpoint,
}

impl Refusal {
    /// Returns the refusal's number in replies.
    pub fn number(self) -> u8
        ensures { result ≡ refusal_number self }
    {
        match self {
            Refusal::NoQueue => 1,
            Refusal::QueueExists => 2,
            Refusal::TooManyQueues => 3,
            Refusal::NotAccepting => 4,
            Refusal::NoJob => 5,
            Refusal::NotIncoming => 6,
            Refusal::TooLong => 7,
            Refusal::OldNumber => 8,
            Refusal::NoNumberLeft => 9,
            Refusal::JobEnded => 10,
            Refusal::NotWaiting => 11,
            Refusal::NotNext => 12,
            Refusal::NotProcessing => 13,
            Refusal::WrongStage => 14,
            Refusal::NotHeld => 15,
            Refusal::NotEnded => 16,
            Refusal::NeedsCheckpoint => 17,
        }
    }

    /// Returns the refusal's name in replies.
    pub fn name(self) -> &'static str
        ensures { result.now ≡ refusal_name self }
    {
        match self {
            Refusal::NoQueue => "NoQueue",
            Refusal::QueueExists => "QueueExists",
            Refusal::TooManyQueues => "TooManyQueues",
            Refusal::NotAccepting => "NotAccepting",
            Refusal::NoJob => "NoJob",
            Refusal::NotIncoming => "NotIncoming",
            Refusal::TooLong => "TooLong",
            Refusal::OldNumber => "OldNumber",
            Refusal::NoNumberLeft => "NoNumberLeft",
            Refusal::JobEnded => "JobEnded",
            Refusal::NotWaiting => "NotWaiting",
            Refusal::NotNext => "NotNext",
            Refusal::NotProcessing => "NotProcessing",
            Refusal::WrongStage => "WrongStage",
            Refusal::NotHeld => "NotHeld",
            Refusal::NotEnded => "NotEnded",
            Refusal::NeedsCheckpoint => "NeedsCheckpoint",
        }
    }
}
