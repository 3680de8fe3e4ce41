//! Short-term shortages of the system, and how long a start waits for them to pass.
//!
//! The starts of a round wait two seconds in all. A finish begins another round, and so does a start for a queue that
//! does not follow the last one in order. So two successive rounds without a start may count as one. Descriptors are
//! tested by opening those that four starts need, and room by a file of 64 KiB. Memory and processes are not tested.
ghost use Rattle.std.specs.Prelude.{◌≡◌, ◌≤◌, ◌-◌, None, Some, cond, false, true};
ghost use Rattle.std.specs.IoError.{error_kind, raw_os_error};
ghost use Rattle.spool_runtime.specs.Patience.{after_wait, begun, may_wait, patient};
ghost use Rattle.spool_runtime.specs.Shortage.{begins_round, short_number, shortage_of};

use crate::child_files::make_file_of;
use spool_types::QueueName;
use std::io::ErrorKind;
use std::time::{Duration, Instant};
use std::{fs, io, thread};
use thiserror::Error;

// The system's numbers of the errors for too many open files, of the process and of the system.
const EMFILE: i32 = 24;

const ENFILE: i32 = 23;

// How often the starts of a round wait in all, and for how many milliseconds each time: two seconds in all.
pub(crate) const MOST_WAITS: u32 = 40;

const WAIT: u64 = 50;

// For how many seconds nothing is started after a start that failed for a shortage.
const WANT: u64 = 2;

// How many descriptors a start uses: two for the files that the child writes, one more for its standard output, one for
// the side channel, two for the empty device, and four that the child's script opens. The system must have the last
// four too.
const DESCRIPTORS: usize = 10;

// Descriptors are tested for at most this number of starts.
const MOST_PLACES: usize = 4;

// How many descriptors are tested in addition, since the service's clients may take some before the next start.
const SPARE: usize = 16;

// The room that the folder must have before a start, in bytes.
const ROOM: usize = 65_536;

// For how many milliseconds the result of a test stays valid.
const SEEN: u64 = 10;

// A file that can be opened everywhere, and that uses only a descriptor.
const NOTHING: &str = "/dev/null";

/// Something that a start lacks, and that may be free in a moment.
#[derive(Clone, Copy, Debug, Drop, Error, PartialEq, Eq)]
pub(crate) enum Shortage {
    #[error("disk space")]
    Room,
    #[error("file descriptors")]
    Descriptors,
    #[error("processes")]
    Processes,
}

/// Returns the shortage that the error of a start shows, if any.
pub(crate) fn shortage_of(error: &io::Error) -> Option<Shortage>
    ensures { result ≡ shortage_of (error_kind error.now) (raw_os_error error.now) }
{
    match error.kind() {
        ErrorKind::StorageFull | ErrorKind::QuotaExceeded => Some(Shortage::Room),
        ErrorKind::WouldBlock => Some(Shortage::Processes),
        _ => short_number(error.raw_os_error()),
    }
}

// Returns the shortage of files that the number of an error shows.
fn short_number(number: Option<i32>) -> Option<Shortage>
    ensures { result ≡ short_number number }
{
    match number {
        Some(number) if number == EMFILE || number == ENFILE => Some(Shortage::Descriptors),
        _ => None,
    }
}

// When a test last succeeded.
#[derive(Drop)]
struct Sight {
    at: Option<Instant>,
}

impl Sight {
    // Returns the result of a test that was made now.
    fn new(rt: &HostRuntime, is_there: bool) -> Sight {
        let at = if is_there {
            Instant::now(rt).ok()
        } else {
            None
        };
        Sight { at }
    }

    // Returns whether the test succeeded a moment ago.
    fn is_fresh(&self, rt: &HostRuntime) -> bool {
        let Some(at) = self.at else {
            return false;
        };
        match at.elapsed(rt) {
            Ok(passed) => passed < Duration::from_millis(SEEN),
            Err(_) => false,
        }
    }
}

/// For how many starts there are descriptors, as far as that can be known before they are opened.
#[derive(Drop)]
pub(crate) struct Descriptors {
    sight: Sight,
    // For how many starts there were descriptors, minus the starts since then.
    left: usize,
}

impl Descriptors {
    pub fn new() -> Descriptors
        ensures { result.left ≡ 0 }
    {
        Descriptors {
            sight: Sight { at: None },
            left: 0,
        }
    }

    /// Returns the number of starts that the free descriptors allow, at most four. A result of a moment ago is not
    /// tested again unless it is used up.
    pub fn count_starts(&mut self, rt: &HostRuntime) -> usize
        ensures { result ≤ 4 }
    {
        if self.left == 0 || !self.sight.is_fresh(rt) {
            self.left = count_openable(rt);
            self.sight = Sight::new(rt, true);
        }
        self.left.min(MOST_PLACES)
    }

    /// Counts the descriptors of one start as used.
    pub fn take(&mut self)
        ensures { self.new ≡ record self.old { left = self.old.left - 1 } }
    {
        self.left = self.left.saturating_sub(1);
    }
}

// Returns for how many starts descriptors can be opened at once, in addition to the spare ones. They are closed again.
fn count_openable(rt: &HostRuntime) -> usize {
    open_others(rt, SPARE + MOST_PLACES * DESCRIPTORS).saturating_sub(SPARE) / DESCRIPTORS
}

// Returns how many descriptors can be opened at once, at most `most`. Each stays open while the others are opened. They
// are not put into a list: a test that ran out of memory would report no descriptors although there are some.
fn open_others(rt: &HostRuntime, most: usize) -> usize
    ensures { result ≤ most }
{
    if most == 0 {
        return 0;
    }
    match fs::open(rt, NOTHING) {
        Ok(file) => {
            let others = open_others(rt, most - 1);
            drop(file);
            others + 1
        }
        Err(error) if shortage_of(&error).is_none() => most,
        Err(_) => 0,
    }
}

/// Whether the folder has room for the files of a child, as far as that can be known before they are made.
#[derive(Drop)]
pub(crate) struct FolderRoom {
    sight: Sight,
}

impl FolderRoom {
    pub fn new() -> FolderRoom {
        FolderRoom {
            sight: Sight { at: None },
        }
    }

    /// Returns whether there is room. A success of a moment ago is not tested again.
    pub fn is_there(&mut self, rt: &HostRuntime, probe: &str) -> bool {
        if self.sight.is_fresh(rt) {
            return true;
        }
        let is_there = has_room_for(rt, probe);
        self.sight = Sight::new(rt, is_there);
        is_there
    }
}

// Returns whether there is room for a file of 64 KiB, which is made and removed.
fn has_room_for(rt: &HostRuntime, probe: &str) -> bool {
    let made = make_file_of(rt, probe, &[0u8; ROOM]);
    let _ = fs::remove_file(rt, probe);
    match made {
        Ok(()) => true,
        Err(error) => shortage_of(&error).is_none(),
    }
}

/// How often the starts of a round may still wait, and whether one of them failed for a shortage.
#[derive(Drop)]
pub(crate) struct Patience {
    left: u32,
    // When a start failed for a shortage, if no child was finished since.
    failed: Option<Instant>,
    // The queue of the last start of this round.
    last: Option<QueueName>,
    // Whether starts do not wait, since the starts are those of a tick.
    hurried: bool,
}

impl Patience {
    pub fn new() -> Patience
        ensures { result ≡ patient }
    {
        Patience {
            left: MOST_WAITS,
            failed: None,
            last: None,
            hurried: false,
        }
    }

    /// Begins the starts of a tick, which do not wait.
    pub fn hurry(&mut self)
        ensures { self.new ≡ record self.old { hurried = true } }
    {
        self.hurried = true;
    }

    /// A child is finished, and a round is over. The next start belongs to another round, and may succeed.
    pub fn renew(&mut self)
        ensures { self.new ≡ patient }
    {
        self.left = MOST_WAITS;
        self.failed = None;
        self.last = None;
        self.hurried = false;
    }

    /// Notes that a start failed for a shortage.
    pub fn fail(&mut self, rt: &HostRuntime)
        ensures { self.new ≡ record self.old { failed = self.new.failed } }
    {
        self.failed = Instant::now(rt).ok();
    }

    /// Returns whether a start failed for a shortage less than two seconds ago, and no child was finished since.
    pub fn is_short(&self, rt: &HostRuntime) -> bool
        ensures { self.now.failed ≡ None → result ≡ false }
    {
        let Some(failed) = self.failed else {
            return false;
        };
        match failed.elapsed(rt) {
            Ok(passed) => passed < Duration::from_secs(WANT),
            Err(_) => false,
        }
    }

    /// Begins a start for this queue. The queues of a round are in ascending order.
    pub fn begin(&mut self, queue: &str)
        ensures { self.new ≡ begun queue.now self.old }
    {
        if let Some(last) = &self.last {
            if begins_round(last.as_str(), queue) {
                self.left = MOST_WAITS;
            }
        }
    }

    /// Ends the start for this queue.
    pub fn pass(&mut self, queue: QueueName)
        ensures { self.new ≡ record self.old { last = Some queue } }
    {
        self.last = Some(queue);
    }

    /// Waits once, unless this round's starts have waited enough. Returns whether it waited.
    pub fn wait(&mut self, rt: &HostRuntime) -> bool
        ensures waits { result ≡ may_wait self.old }
        ensures left { self.new ≡ after_wait self.old }
    {
        if self.hurried || self.left == 0 {
            return false;
        }
        self.left -= 1;
        thread::sleep(rt, Duration::from_millis(WAIT));
        true
    }
}

// Returns whether a start for this queue belongs to another round than the last start.
fn begins_round(last: &str, queue: &str) -> bool
    ensures { result ≡ begins_round last.now queue.now }
{
    queue.cmp(last).is_le()
}
