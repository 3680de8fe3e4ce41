//! The tasks that a command line can ask for.

use crate::plain_acts::PlainAct;

/// The task of a command line, and the services it is for.
#[derive(Drop)]
pub struct Asked<'a> {
    /// The named sockets, in their order. If there is none, the default socket is used.
    pub sockets: Vec<&'a str>,
    pub task: Task<'a>,
}

/// A task.
#[derive(Drop)]
pub enum Task<'a> {
    /// Print documents, each as a separate job.
    Submit(Submission<'a>),
    /// Show one job, the jobs of a queue, or all jobs.
    Status(Status<'a>),
    /// Show the queues.
    Queues {
        json: bool,
    },
    /// Print a line for each change.
    Watch {
        json: bool,
    },
    /// Apply the same action to each of these jobs.
    Jobs {
        act: JobAct,
        jobs: Vec<u32>,
    },
    /// Cancel all jobs of these queues, or of all queues if none is named.
    Clear(Clear<'a>),
    /// Cancel these jobs, and the current job of each of these queues.
    Remove(Removal<'a>),
    /// Apply an action to a queue.
    Queue {
        name: &'a str,
        act: QueueAct<'a>,
    },
    /// Apply the same action to each of these queues. With `clears` their jobs are canceled too.
    Switch {
        names: Vec<&'a str>,
        act: QueueAct<'a>,
        clears: bool,
    },
    /// Make a queue the default.
    Default {
        queue: &'a str,
    },
    /// Show one queue with all its fields.
    ShowQueue {
        name: &'a str,
        json: bool,
    },
    /// List the devices that the backends find.
    Devices,
    /// Check whether the services can print.
    Check {
        json: bool,
    },
    /// Write the queues and jobs as a page to a file.
    Page(PageFile<'a>),
    /// Send commands and print the replies.
    Say(Saying<'a>),
    /// Print what lpstat prints.
    Lpstat(Lpstat<'a>),
    /// Print what lpq prints.
    Lpq(Lpq<'a>),
}

/// Documents for a queue.
#[derive(Drop)]
pub struct Submission<'a> {
    /// The queue. If it is missing, the queue of the environment or the only queue is used.
    pub queue: Option<&'a str>,
    /// The files. `-`, or an empty list, is standard input.
    pub files: Vec<&'a str>,
    /// The title. If it is missing, each job has the name of its file.
    pub title: Option<&'a str>,
    /// The owner. If it is missing, it is the current user.
    pub user: Option<&'a str>,
    /// The number of copies, from 1 to 9,999.
    pub copies: u32,
    /// The priority, from 1 to 100.
    pub priority: u32,
    /// The media type of the documents. If it is missing, the service detects it.
    pub media: Option<&'a str>,
    /// The options as given: each is `NAME=VALUE`, or several of these separated by blanks.
    pub options: Vec<&'a str>,
    /// The pages to print, which become the option `page-ranges=PAGES`.
    pub page_ranges: Option<&'a str>,
    /// Whether and until when the job is held.
    pub hold: Hold,
    /// The moment by which the job must have started.
    pub by: Option<Moment>,
    /// Whether the program waits for the end of the job.
    pub wait: bool,
    /// Whether nothing is printed for an accepted job.
    pub quiet: bool,
    /// Whether the output is JSON.
    pub json: bool,
    /// Whether a file is removed once its job is accepted.
    pub remove: bool,
    /// Whether the option `raw` follows the options.
    pub raw: bool,
    /// Whether an empty document is refused.
    pub filled: bool,
}

/// A moment.
#[derive(Clone, Copy)]
pub enum Moment {
    /// Seconds since 1970.
    Epoch(u64),
    /// Seconds from now.
    FromNow(u64),
    /// The next moment at this second of a day, from 0 to 86,399, in UTC.
    OfDay(u32),
}

/// Whether and until when a job is held.
#[derive(Clone, Copy)]
pub enum Hold {
    /// Not held.
    No,
    /// Held until it is released.
    Indefinite,
    /// Held until this moment.
    Until(Moment),
}

/// An action on a job.
#[derive(Clone, Copy)]
pub enum JobAct {
    /// Cancel the job, and stop its printer if the job is printing.
    Cancel,
    /// Cancel the job. A filter or backend that runs for it is not terminated.
    CancelOnly,
    /// Hold the job until this moment, or until it is released.
    Hold(Option<Moment>),
    /// Release the job, unless it is not held.
    Resume,
    /// Any other action.
    Plain(PlainAct),
}

/// Which jobs are shown, and how.
#[derive(Clone, Copy)]
pub struct Status<'a> {
    /// Only this job.
    pub job: Option<u32>,
    /// Only the jobs of this queue. `job` is then `None`.
    pub queue: Option<&'a str>,
    /// Whether the output is JSON.
    pub json: bool,
    /// Whether the jobs are shown again whenever one changes. `job` is then `None`.
    pub watch: bool,
}

/// The file of a page, and what the page shows.
#[derive(Clone, Copy)]
pub struct PageFile<'a> {
    pub file: &'a str,
    /// Only this queue and its jobs.
    pub queue: Option<&'a str>,
    /// Only the jobs of this user.
    pub user: Option<&'a str>,
    /// Whether the page is written again every five seconds.
    pub follow: bool,
}

/// Commands of the protocol.
#[derive(Drop)]
pub struct Saying<'a> {
    /// The commands. If there are none, they are read from standard input.
    pub commands: Vec<&'a str>,
    /// Whether the program waits until the service has ended.
    pub until_end: bool,
    /// Whether the output is JSON.
    pub json: bool,
}

/// An action on a queue.
#[derive(Clone, Copy)]
pub enum QueueAct<'a> {
    Add(NewQueue<'a>),
    /// Set the description and the location.
    Set { info: &'a str, location: &'a str },
    Accept,
    Reject,
    /// Start printing.
    Enable,
    /// Stop printing.
    Disable,
}

/// A new queue.
#[derive(Clone, Copy)]
pub struct NewQueue<'a> {
    /// The device.
    pub uri: &'a str,
    /// The media type that the device takes.
    pub media: &'a str,
    /// What happens to a job that fails: one of the four policies.
    pub policy: &'a str,
    /// The seconds before another attempt, up to 86,400.
    pub interval: u32,
    /// The number of attempts at a job, up to 65,535.
    pub limit: u32,
}

/// Which jobs are canceled.
#[derive(Drop)]
pub struct Clear<'a> {
    /// Those of these queues. If there are none, those of all queues.
    pub queues: Vec<&'a str>,
    /// Those of the default queue, in place of `queues`.
    pub usual: bool,
    /// Only those of this user.
    pub user: Option<&'a str>,
    /// Whether they are removed too.
    pub purge: bool,
}

/// Jobs that are canceled, by number or as the current job of a queue.
#[derive(Drop)]
pub struct Removal<'a> {
    pub jobs: Vec<u32>,
    /// Queues. If both lists are empty, the default queue.
    pub queues: Vec<&'a str>,
    /// Whether the jobs are removed too.
    pub purge: bool,
}

/// Which jobs lpstat shows.
#[derive(Clone, Copy)]
pub enum Which {
    NotCompleted,
    Completed,
    All,
}

/// What lpstat shows. A list contains names separated by commas or blanks. The empty list means all.
#[derive(Drop)]
pub struct Lpstat<'a> {
    /// Whether the service is running.
    pub scheduler: bool,
    /// The default queue.
    pub usual: bool,
    /// The service, the default queue, all queues and all jobs.
    pub all: bool,
    /// The default queue and all devices.
    pub summary: bool,
    /// The names of the queues.
    pub destinations: bool,
    /// The socket of the service.
    pub server: bool,
    /// Whether these queues print.
    pub printers: Option<&'a str>,
    /// Whether these queues accept jobs.
    pub accepting: Option<&'a str>,
    /// The devices of these queues.
    pub devices: Option<&'a str>,
    /// These classes, of which there are none.
    pub classes: Option<&'a str>,
    /// The jobs of these queues.
    pub jobs: Option<&'a str>,
    /// The jobs of these users.
    pub users: Option<&'a str>,
    /// Which of the jobs.
    pub which: Which,
    /// Whether more of each queue and job is shown.
    pub long: bool,
    /// Whether more of each queue is shown.
    pub described: bool,
    /// Queues and jobs whose jobs are also listed.
    pub names: Vec<&'a str>,
}

/// What lpq shows.
#[derive(Drop)]
pub struct Lpq<'a> {
    /// The queue. If it is missing, the queue of the environment or the only queue is used.
    pub queue: Option<&'a str>,
    /// Whether the jobs of all queues are shown.
    pub all: bool,
    /// Whether more of each job is shown.
    pub long: bool,
    /// If `jobs` or `users` is not empty, only these jobs and the jobs of these users are shown.
    pub jobs: Vec<u32>,
    pub users: Vec<&'a str>,
}
