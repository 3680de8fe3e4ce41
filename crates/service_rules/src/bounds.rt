//! The limits of the service.
ghost use Rattle.std.specs.Prelude.{◌≡◌};

/// The most clients connected at once, whatever the command line gives. Bounds the descriptors and the memory that clients use.
pub const MOST_CLIENTS: usize = 1_000;

/// The most clients at once, if the command line gives no other number. The usual 1,024 descriptors of a process suffice for them.
pub const USUAL_CLIENTS: usize = 256;

/// How long a client has been silent before a new client may replace it, in milliseconds.
pub const LEAST_IDLE: u64 = 10_000;

/// How many bytes of replies a client may leave unread. From there on none of its requests is served.
pub const MOST_UNREAD: usize = 65_536;

/// The most requests of one client served in a turn. Bounds how long the others wait for a client that floods.
pub const MOST_COMMANDS: usize = 32;

/// The shortest pause between two checks of the children, in microseconds.
pub const FIRST_LOOK: u64 = 50;

/// The longest pause between two checks of the children, in microseconds. Bounds how late the end of a child is seen.
pub const LAST_LOOK: u64 = 64_000;

/// The time that the youngest child has run, divided by this number, is the pause between two checks.
pub const LOOK_PARTS: u64 = 16;

/// The latest first check of a child that is alone, in microseconds after its start. Bounds how late the end is seen of a child that ran
/// much shorter than the previous one.
pub const LONGEST_FIRST: u64 = 2_000;

/// The microseconds of a millisecond.
pub const MILLISECOND: u64 = 1_000;

/// The most children at once, if the command line gives no other number.
pub const MOST_CHILDREN: usize = 32;

/// The least seconds between two clocks that are sent. Bounds the syncs that clocks cost.
pub const CLOCK_INTERVAL: u64 = 1;

/// The longest wait of the poll for a due moment, in milliseconds. A poll does not notice that the system's clock was set, or that the
/// machine slept, so this bounds how late that is seen.
pub const LONGEST_WAIT: u64 = 60_000;

/// How far the system's clock may be ahead of the service's time to be followed at once, in milliseconds: a day.
pub const LONGEST_STEP: u64 = 86_400_000;

/// How long a system's clock that is further ahead is not followed, in milliseconds of the steady clock: ten minutes.
pub const LONGEST_DOUBT: u64 = 600_000;

/// How far the system's clock must be behind the service's time to be logged, in milliseconds.
pub const LEAST_PARTING: u64 = 2_000;

/// The least time between two lines of the log about the system's clock, in milliseconds. Bounds the lines of a clock that moves to and fro.
pub const NEWS_INTERVAL: u64 = 60_000;

/// A checkpoint is made if less than this percentage of the journal is free, if the command line gives no other share.
pub const LEAST_ROOM: u8 = 25;

/// A checkpoint takes at most the time that follows it, divided by this number. Bounds the cost of checkpoints.
pub const CHECKPOINT_PARTS: u64 = 10;

/// The number of ended jobs to retain, if the command line gives no other number (MaxJobs, cupsd.conf(5)).
pub const KEPT_JOBS: usize = 500;

/// The most jobs purged in a turn. Bounds how long clients wait for a purge.
pub const MOST_PURGES: usize = 8;

/// The reserve of the journal in bytes, unless a hundredth of its area is more or a quarter is less.
pub const LEAST_RESERVE: u64 = 65_536;

/// How much longer the row of a job in a checkpoint is than the record that created the job, at most.
pub const ROW_GROWTH: u64 = 32;

/// The bytes of a record without its texts, at most.
pub const RECORD_COST: u64 = 64;

/// The longest texts of a job: its queue, its user, its title and its options.
pub const LONGEST_TEXTS: u64 = 2_685;

/// The longest texts of an event that closes a job: a media type, and the names of 15 filters.
pub const MOST_CLOSE: u64 = 2_190;

/// The bytes of one send.
pub const LONGEST_SEND: u64 = 65_536;

/// The bytes of a job's document.
pub const LONGEST_DOCUMENT: u64 = 16_777_216;

/// How long an incoming job stays whose client has disconnected, in seconds, if the command line gives no other number
/// (MultipleOperationTimeout, cupsd.conf(5)).
pub const INCOMING_SECONDS: u64 = 900;

/// The least time between two checks for abandoned jobs, in milliseconds.
pub const CHECK_INTERVAL: u64 = 1_000;

/// The defaults of the values that the command line may change.
pub fn defaults()
    ensures children { MOST_CHILDREN ≡ 32 }
    ensures clients { USUAL_CLIENTS ≡ 256 }
    ensures room { LEAST_ROOM ≡ 25 }
    ensures kept { KEPT_JOBS ≡ 500 }
    ensures incoming { INCOMING_SECONDS ≡ 900 }
{}
