//! Runs the filters and backends, each as a child process, by one fixed script of the shell.
//!
//! # A child
//!
//! A child reads and writes files in the spool's folder, named by its job, attempt and stage: `in-J-A-S` is the
//! document or the output of the previous stage, and `out-J-A-S` and `err-J-A-S` are its standard output and standard
//! error. The launcher makes them before it starts the child, readable only by their owner, and removes them after the
//! child is finished. A crash may leave them. An opening then removes them ([`crate::leftovers`]), and the next child
//! of that name replaces them. With a side channel there is also the socket `side-J-A-S`. While a child is finished or
//! polled, the side channels of all running children are served ([`crate::sessions`]).
//!
//! With users for the children, each child but those of `root-backend` lines gets one of them and a folder of its own
//! ([`crate::child_users`]).
//!
//! The program is looked up and checked before anything is made. A file that may be executed but not read is left to
//! the system. The program that ends side channels is checked only when the spooler starts ([`crate::fitness`]). If it
//! fails, the script of the child ends all the same.
//!
//! The first stage gets the name of the document as its last argument, and its standard input is empty. A later stage
//! reads the output of the previous stage on standard input. The launcher reads the output and standard error of a
//! child through the handles that it got when it made the files.
//!
//! `start` returns while the child runs, so the children of a round run at the same time.
//!
//! `has_ended` does not wait for the child. It asks the system once, and gives the side channels a turn of about a
//! millisecond at most. If the system cannot say whether the child has ended, the child counts as ended, and `finish`
//! reports it.
//!
//! # Shortages
//!
//! If room, descriptors or processes are short for a moment, a start is tried again. The starts of a round wait two
//! seconds in all ([`crate::shortage`]). If the folder has no room when a child ends, this is logged. A child that
//! ended with status 0 is then lost if its bytes on a stream may be cut off: no further byte can be written after them.
//! Empty output counts as cut off only if the child is a filter.
//!
//! `start_room` limits the starts of a tick. It returns the number of starts that the free descriptors allow, at most
//! four. It returns none in these cases:
//!
//! - The folder has no room for 64 KiB. A file of its own tests this, at most a hundred times a second.
//! - A start failed for a shortage, less than two seconds have passed, and no child was finished since.
//! - Nothing is started any more (see Errors).
//!
//! It does not test memory or the number of processes. A document may need more room than was tested, and others may
//! use up room or descriptors before the starts. So a tick loses at most four starts. After a call of `start_room` a
//! start does not wait, since all clients of a service would wait too. A round does not call it.
//!
//! # Errors
//!
//! All errors are [`ChildFault`]. `start` fails if the program is not in the list or its path is not a file that can be
//! run, if a file cannot be made or filled, or if there are no processes or no memory left. It removes the files that
//! it made. `finish` fails if the end of the child cannot be known, or if the bytes that the child wrote cannot be read
//! or may be cut off. It never makes up a status, and waits for the child in any case. After the end of a child could
//! not be known, nothing more is started.
//!
//! Each error is logged in a line with its cause. So is the end of a child that failed without a message
//! ([`crate::reasons`]).
ghost use Rattle.std.specs.Prelude.{◌≡◌, ◌≤◌, ◌+◌, ◌-◌, ◌*◌, ◌/◌, [], false, map, min, None, true, IfOk, IfSome, IsErr, IsOkAnd, IsSomeAnd, is_some, string_bytes};
ghost use Rattle.std.specs.Option.{option_map};
ghost use Rattle.spool_types.specs.Limits.{longest_document};
ghost use Rattle.child_pipeline.specs.Finishes.{most_errors};
ghost use Rattle.spool_runtime.specs.ChildFiles.{ReadsUpTo};
ghost use Rattle.spool_runtime.specs.ChildUsers.{HasUsualLimits, run_user_of, users_for};
ghost use Rattle.spool_runtime.specs.Serving.{IsPlace};
ghost use Rattle.std.specs.IoError.{error_kind, raw_os_error};
ghost use Rattle.std.specs.Time.{instant_nanos};
ghost use Rattle.spool_runtime.specs.FailureReasons.{is_filter};
ghost use Rattle.spool_runtime.specs.Launching.{TellsEnd, TellsNoEnd, device_for, input_name, may_be_cut, program_for, refusal_of, whole};

use crate::child_files::{
    ChildPaths, has_room, make_file, make_file_of, output_to_hand, probe_path, read_at_most,
};
use crate::child_users::{
    ChildSettings, ChildUser, RunUser, TakenUser, give, give_document, make_folder, script_input,
    take_user,
};
use crate::reasons::{Reason, StageRun, reason_of};
use crate::script::Call;
use crate::serving::place_in;
use crate::sessions::{SideLine, SideLines};
use crate::shortage::{Descriptors, FolderRoom, MOST_WAITS, Patience, shortage_of};
use crate::side_device::device_of;
use child_pipeline::{ChildFault, Children, Content, Finish, Input, Order, Program};
use filter_args::Place;
use log::Log;
use program_fitness::obstacle_of;
use program_lists::{ListedProgram, ProgramList};
use spool_types::{Exit, JobId, LONGEST_DOCUMENT};
use std::alloc::{AllocError, Global};
use std::fs::File;
use std::io::Read;
use std::os::unix::process::ExitStatusExt;
use std::process::{Child, ExitStatus, Stdio};
use std::time::{Duration, Instant};
use std::{fs, io, thread};

// The number of bytes of standard output that are read. One more than a document may have is enough to know that the
// output is too long.
const MOST_OUTPUT: usize = LONGEST_DOCUMENT + 1;

// The number of bytes of standard error that are read.
const MOST_ERRORS: usize = 1_048_576;

// The longest time between two polls of the side channels, in milliseconds.
const LONGEST_PAUSE: u64 = 16;

// The longest time between two polls that is reported, in milliseconds.
const LONGEST_TIME: u128 = 60_000;

// The standard input of a first stage.
const NOTHING: &str = "/dev/null";

/// Runs the programs of a list, with their files in the folder of a place. Logs failures.
#[derive(Drop)]
pub struct Launcher<'a, L> {
    log: &'a L,
    rt: &'a HostRuntime,
    /// The folder, locale and search path of its children.
    pub place: Place,
    /// The programs that it can run, and the program that ends side channels.
    pub list: ProgramList,
    /// The users of its children, and their limits.
    pub settings: ChildSettings,
    patience: Patience,
    room: FolderRoom,
    descriptors: Descriptors,
    // The side channels of the running children.
    sides: SideLines,
    // When the side channels were last served.
    served: Option<Instant>,
    // Whether the end of a child could not be known.
    blind: bool,
}

/// A child that runs, or that has ended and is not finished.
#[derive(Drop)]
pub struct RunningChild {
    run: StageRun,
    // The number of the child's process, which is that of its process group. The session of the child has that number
    // or, with a side channel, the number of the process's only child.
    group: u32,
    begun: BegunChild,
}

// A child that was started, and its files.
#[derive(Drop)]
struct BegunChild {
    child: Child,
    paths: ChildPaths,
    // Whether it has a folder of its own.
    has_folder: bool,
    output: File,
    errors: File,
}

// A child that was started, and its side channel.
type Launched = (BegunChild, Option<SideLine>);

/// Returns a launcher for the children of a folder's spool, and their place. There is a side channel if the list has a
/// program that ends it. The children have no users and the default limits.
pub fn launcher_in<'a, L: Log>(
    log: &'a L,
    rt: &'a HostRuntime,
    dir: &str,
    list: ProgramList,
) -> Result<(Launcher<'a, L>, Place), AllocError>
    ensures place { IfOk result (λ made. IsPlace dir.entry.now (is_some list.side) made.1) }
    ensures launcher { IfOk result (λ made. IsPlace dir.entry.now (is_some list.side) made.0.place) }
    ensures list { IfOk result (λ made. made.0.list ≡ list) }
    ensures users { IfOk result (λ made. made.0.settings.users.items ≡ []) }
    ensures limits { IfOk result (λ made. HasUsualLimits made.0.settings.limits) }
{
    let alloc = rt.alloc();
    let side = list.side().is_some();
    let place = place_in(alloc, dir, side)?;
    let launcher = Launcher::new(log, rt, place_in(alloc, dir, side)?, list);
    Ok((launcher, place))
}

impl<'a, L: Log> Launcher<'a, L> {
    /// Returns a launcher for the children of this place, without users and with the default limits.
    pub fn new(log: &'a L, rt: &'a HostRuntime, place: Place, list: ProgramList) -> Launcher<'a, L>
        ensures place { result.place ≡ place }
        ensures list { result.list ≡ list }
        ensures users { result.settings.users.items ≡ [] }
        ensures limits { HasUsualLimits result.settings.limits }
    {
        Launcher {
            log,
            rt,
            place,
            list,
            settings: ChildSettings::usual(rt.alloc()),
            patience: Patience::new(),
            room: FolderRoom::new(),
            descriptors: Descriptors::new(),
            sides: SideLines::new(rt.alloc()),
            served: None,
            blind: false,
        }
    }

    /// Returns the launcher with these users and limits for its children.
    pub fn with_settings(self, settings: ChildSettings) -> Launcher<'a, L>
        ensures settings { result.settings ≡ settings }
        ensures place { result.place ≡ self.entry.place }
        ensures list { result.list ≡ self.entry.list }
    {
        let mut launcher = self;
        launcher.settings = settings;
        launcher
    }

    // Returns the program that an order names, if the list has it.
    fn listed(&self, program: &Program) -> Option<&ListedProgram>
        ensures { option_map (λ listed. listed.now) result ≡ program_for self.now.list program.now }
    {
        match program {
            Program::Filter(name) => self.list.filter(name.as_str()),
            Program::Backend(scheme) => self.list.backend(scheme.as_str()),
        }
    }

    // Starts the child of an order. Tries again after a shortage, while the starts of this round may wait.
    fn start_patiently(&mut self, order: &Order) -> Result<BegunChild, Reason> {
        if self.blind {
            return Err(Reason::Blind);
        }
        for _ in 0..MOST_WAITS + 1 {
            match self.launch_with_side(order) {
                Err(reason) if reason.may_pass() && self.patience.wait(self.rt) => {
                    self.serve_sides();
                }
                launched => return launched,
            }
        }
        Err(Reason::Refused)
    }

    // Starts the child of an order, and serves its side channel from then on.
    fn launch_with_side(&mut self, order: &Order) -> Result<BegunChild, Reason> {
        if self.sides.reserve().is_err() {
            return Err(Reason::Refused);
        }
        let (begun, side) = self.launch(order)?;
        if let Some(side) = side {
            self.sides.add(side);
        }
        Ok(begun)
    }

    // Starts the child of an order, if its program is in the list and can be run.
    fn launch(&self, order: &Order) -> Result<Launched, Reason>
        ensures unlisted { program_for self.now.list order.now.program ≡ None → IsErr result }
    {
        let Some(program) = self.listed(&order.program) else {
            return Err(Reason::Unlisted);
        };
        match obstacle_of(self.rt, program.path.as_str()) {
            Ok(None) => {}
            Ok(Some(obstacle)) => return Err(Reason::Unfit(obstacle)),
            Err(error) => return Err(refusal_of(&error)),
        }
        let Ok(paths) = ChildPaths::of(self.rt.alloc(), &self.place, order) else {
            return Err(Reason::Refused);
        };
        self.run(program, paths, order)
    }

    // Returns the users that a program may run as.
    fn users_for(&self, program: &ListedProgram) -> &[ChildUser]
        ensures { result.now ≡ users_for self.now.settings.users.items program.now }
    {
        if program.keeps_user {
            &[]
        } else {
            &self.settings.users
        }
    }

    // Takes a user for a child, makes its files and starts it. Removes the files if that fails.
    fn run(
        &self,
        program: &ListedProgram,
        paths: ChildPaths,
        order: &Order,
    ) -> Result<Launched, Reason> {
        let root = self.place.root.as_str();
        let taken = match take_user(self.rt, root, self.users_for(program)) {
            Ok(taken) => taken,
            Err(error) => return Err(refusal_of(&error)),
        };
        match self.try_run(program, &paths, &taken, order) {
            Ok((child, output, errors, side)) => {
                let begun = BegunChild {
                    child,
                    paths,
                    has_folder: taken.is_some(),
                    output,
                    errors,
                };
                Ok((begun, side))
            }
            Err(error) => {
                self.remove_files(&paths, taken.is_some());
                Err(refusal_of(&error))
            }
        }
    }

    // Removes the files of a child, and its folder if it has one. Returns whether the folder is gone.
    fn remove_files(&self, paths: &ChildPaths, has_folder: bool) -> bool {
        paths.remove(self.rt, self.list.side().is_some());
        !has_folder || fs::remove_dir(self.rt, paths.folder.as_str()).is_ok()
    }

    fn try_run(
        &self,
        program: &ListedProgram,
        paths: &ChildPaths,
        taken: &Option<TakenUser>,
        order: &Order,
    ) -> io::Result<(Child, File, File, Option<SideLine>)> {
        let user = run_user(taken);
        let input = self.make_input(paths, &order.input, user)?;
        let output = make_file(self.rt, paths.output.as_str())?;
        let errors = make_file(self.rt, paths.errors.as_str())?;
        let handed = output_to_hand(self.rt, paths.output.as_str())?;
        let side = self.bind_side(paths, order)?;
        self.make_place(paths, user)?;
        let mut command = self
            .call(input, paths, user, program, order)
            .command(self.rt.alloc())?;
        command.stdin(script_input(taken)?);
        command.stdout(Stdio::from(handed));
        command.stderr(Stdio::null());
        let child = command.spawn(self.rt)?;
        Ok((child, output, errors, side))
    }

    // Returns the parameters of the script for an order.
    fn call<'c>(
        &'c self,
        input: &'c str,
        paths: &'c ChildPaths,
        user: Option<RunUser>,
        program: &'c ListedProgram,
        order: &'c Order,
    ) -> Call<'c>
        ensures input { (result.input.now ≡ input.now) × (result.paths.now ≡ paths.now) }
        ensures side { option_map (λ program. program.now) result.side ≡ self.now.list.side }
        ensures limits { result.limits ≡ self.now.settings.limits }
        ensures user { result.user ≡ user }
        ensures program { result.program.now ≡ program.now }
        ensures order { (map string_bytes result.environment.now ≡ order.now.environment) × (map string_bytes result.words.now ≡ order.now.words) }
    {
        Call {
            input,
            paths,
            side: self.list.side(),
            limits: self.settings.limits,
            user,
            environment: order.environment.as_slice(),
            program,
            words: order.words.as_slice(),
        }
    }

    // Makes the folder of a child with a user, and gives it the socket of its side channel.
    fn make_place(&self, paths: &ChildPaths, user: Option<RunUser>) -> io::Result<()> {
        let Some(run) = user else {
            return Ok(());
        };
        make_folder(self.rt, paths.folder.as_str(), run.user)?;
        if self.list.side().is_some() {
            give(self.rt, paths.side.as_str(), run.user)?;
        }
        Ok(())
    }

    // Makes the input file of a child, and returns the name of its standard input. A document, which the child opens by
    // its name, belongs to the child's user.
    fn make_input<'p>(
        &self,
        paths: &'p ChildPaths,
        input: &Input,
        user: Option<RunUser>,
    ) -> io::Result<&'p str>
        ensures { IfOk result (λ name. name.now ≡ input_name (string_bytes paths.now.input) input.now) }
    {
        let path = paths.input.as_str();
        match input {
            Input::Document(content) => {
                make_file_of(self.rt, path, content.as_slice())?;
                if let Some(run) = user {
                    give_document(self.rt, path, run.user)?;
                }
                Ok(NOTHING)
            }
            Input::Bytes(content) => {
                make_file_of(self.rt, path, content.as_slice())?;
                Ok(path)
            }
        }
    }

    // Makes the side channel, if the list has a program that ends it.
    fn bind_side(&self, paths: &ChildPaths, order: &Order) -> io::Result<Option<SideLine>>
        ensures { IfOk result (λ side. option_map (λ line. line.device) side ≡ device_for self.now.list order.now) }
    {
        if self.list.side().is_none() {
            return Ok(None);
        }
        let device = device_of(self.rt.alloc(), order.uri.as_str())?;
        let line = SideLine::bind(self.rt, paths.side.as_str(), order.job, device)?;
        Ok(Some(line))
    }
}

impl<'a, L: Log> Children for Launcher<'a, L> {
    type Ticket = RunningChild;

    ghost tells = { λ _. None };

    // It reports no orders, so a child has the number of its process group.
    ghost number = { λ t. t.group };

    ghost groups = { λ number. number };

    ghost rooms = { λ _ start_room _. IsSomeAnd start_room (λ n. n ≤ 4) };

    fn start(&mut self, order: Order) -> Result<RunningChild, ChildFault> {
        self.patience.begin(order.queue.as_str());
        self.descriptors.take();
        let started = self.start_patiently(&order);
        let Order {
            job,
            attempt,
            stage,
            queue,
            program,
            ..
        } = order;
        self.patience.pass(queue);
        let run = StageRun {
            job,
            attempt,
            stage,
            program,
        };
        match started {
            Ok(begun) => {
                let group = begun.child.id();
                Ok(RunningChild { run, group, begun })
            }
            Err(reason) => {
                if reason.may_pass() {
                    self.patience.fail(self.rt);
                }
                run.log_reason(self.log, reason);
                Err(ChildFault)
            }
        }
    }

    fn finish(&mut self, ticket: RunningChild) -> Result<Finish, ChildFault> {
        let RunningChild { run, begun, .. } = ticket;
        self.patience.renew();
        match self.end(&run, begun) {
            Ok(finish) => {
                if let Some(reason) = reason_of(self.rt.alloc(), &finish) {
                    run.log_reason(self.log, reason);
                }
                Ok(finish)
            }
            Err(reason) => {
                run.log_reason(self.log, reason);
                Err(ChildFault)
            }
        }
    }

    fn has_ended(&mut self, ticket: &mut RunningChild) -> bool {
        self.serve_sides();
        !is_running(&mut ticket.begun.child)
    }

    fn group(ticket: &RunningChild) -> u32 {
        ticket.group
    }

    fn start_room(&mut self) -> Option<usize> {
        self.patience.hurry();
        let count = if self.blind || self.patience.is_short(self.rt) || !self.has_folder_room() {
            0
        } else {
            self.descriptors.count_starts(self.rt)
        };
        Some(count)
    }
}

impl<'a, L: Log> Launcher<'a, L> {
    // Returns whether the folder has room for a child's files. If memory for the test runs out, returns true, and the
    // start finds out.
    fn has_folder_room(&mut self) -> bool {
        match probe_path(self.rt.alloc(), &self.place) {
            Ok(probe) => self.room.is_there(self.rt, probe.as_str()),
            Err(_) => true,
        }
    }

    // Answers the requests that have arrived on all side channels, unless the last turn ended within this millisecond.
    // Returns whether there were any.
    fn serve_sides(&mut self) -> bool {
        let Ok(now) = Instant::now(self.rt) else {
            return self.sides.serve(self.rt, 0);
        };
        let since = match self.served {
            Some(last) => millis_between(last, now),
            None => 1,
        };
        if since == 0 {
            return false;
        }
        let heard = self.sides.serve(self.rt, since);
        self.served = Some(Instant::now(self.rt).unwrap_or(now));
        heard
    }

    // Serves all side channels until this child has ended or none is open. Then closes the side channel of this child.
    fn attend(&mut self, job: JobId, child: &mut Child) {
        let mut pause = 0;
        for _ in 0..u64::MAX {
            if self.sides.are_closed() || !is_running(child) {
                break;
            }
            pause = next_pause(pause, self.serve_sides());
            thread::sleep(self.rt, Duration::from_millis(pause));
        }
        self.sides.close(job);
    }

    // Waits for a child, and reads its output and standard error. Removes its files in any case.
    fn end(&mut self, run: &StageRun, begun: BegunChild) -> Result<Finish, Reason> {
        let BegunChild {
            child,
            paths,
            has_folder,
            output,
            errors,
        } = begun;
        let alloc = self.rt.alloc();
        let (mut child, mut output, mut errors) = (child, output, errors);
        self.attend(run.job, &mut child);
        let ended = child.wait();
        let unknown = ended.is_err();
        self.blind = self.blind || unknown;
        let finish = finish_of(alloc, ended, &mut output, &mut errors);
        let room = Room {
            output: has_room(&output),
            errors: has_room(&errors),
        };
        if !self.remove_files(&paths, has_folder) {
            run.log_reason(self.log, Reason::LeftFolder);
        }
        match finish {
            Ok(finish) => self.whole(run, finish, room),
            Err(_) if unknown => Err(Reason::NoEnd),
            Err(_) => Err(Reason::Unread),
        }
    }

    // Returns the finish, or an error if the child's bytes may be cut off. A folder without room is logged in either
    // case.
    fn whole(&self, run: &StageRun, finish: Finish, room: Room) -> Result<Finish, Reason>
        ensures { result ≡ whole (is_filter run.now.program) room finish }
    {
        if room.output && room.errors {
            return Ok(finish);
        }
        if may_be_cut(&finish, run.is_filter(), room) {
            return Err(Reason::Cut);
        }
        run.log_reason(self.log, Reason::NoRoom);
        Ok(finish)
    }
}

fn run_user(taken: &Option<TakenUser>) -> Option<RunUser>
    ensures { result ≡ option_map run_user_of taken.now }
{
    match taken {
        Some(user) => Some(user.run_user()),
        None => None,
    }
}

fn is_running(child: &mut Child) -> bool {
    matches!(child.try_wait(), Ok(None))
}

// Returns the time between the two in whole milliseconds, at most a minute.
fn millis_between(earlier: Instant, later: Instant) -> u64
    ensures { result ≡ min ((instant_nanos later - instant_nanos earlier) / 1_000_000) 60_000 }
{
    let passed = later.duration_since(earlier).as_millis();
    passed.min(LONGEST_TIME) as u64
}

// Returns for how many milliseconds the side channels are not polled: 1 after something arrived, otherwise twice the
// last time, at most 16.
fn next_pause(last: u64, heard: bool) -> u64
    ensures soon { heard ≡ true → result ≡ 1 }
    ensures twice { heard ≡ false → 1 ≤ last → last ≤ 8 → result ≡ last * 2 }
    ensures range { (1 ≤ result) × (result ≤ 16) }
{
    if heard {
        1
    } else {
        last.saturating_mul(2).clamp(1, LONGEST_PAUSE)
    }
}

// Whether there was room for one more byte after the child's bytes on each stream.
#[derive(Clone, Copy)]
struct Room {
    output: bool,
    errors: bool,
}

// Returns whether a child that ended with status 0 may have written more than was stored. If a file has no room, the
// last bytes of its child may be missing. Of an empty file nobody knows whether there were any: a filter must write
// output, a backend need not.
fn may_be_cut(finish: &Finish, filter: bool, room: Room) -> bool
    ensures { result ≡ may_be_cut finish.now filter room }
{
    let output = filter || !finish.output.as_slice().is_empty();
    let errors = !finish.errors.as_slice().is_empty();
    finish.exit == Exit::Code(0) && (!room.output && output || !room.errors && errors)
}

// Returns why the system refused a start.
fn refusal_of(error: &io::Error) -> Reason
    ensures { result ≡ refusal_of (error_kind error.now) (raw_os_error error.now) }
{
    match shortage_of(error) {
        Some(shortage) => Reason::Short(shortage),
        None => Reason::Refused,
    }
}

// Returns the finish of a child that ended with this status and wrote these files.
fn finish_of<O: Read, E: Read>(
    alloc: Global,
    ended: io::Result<ExitStatus>,
    output: &mut O,
    errors: &mut E,
) -> io::Result<Finish>
    ensures exit { IfOk result (λ finish. IsOkAnd ended (λ status. TellsEnd status finish.exit)) }
    ensures output { IfOk result (λ finish. ReadsUpTo (longest_document + 1) (O.remaining output.old) (O.remaining output.new) finish.output) }
    ensures errors { IfOk result (λ finish. ReadsUpTo most_errors (E.remaining errors.old) (E.remaining errors.new) finish.errors) }
{
    let Some(exit) = exit_of(ended?) else {
        return Err(io::Error::from(io::ErrorKind::Other));
    };
    let output = read_at_most(alloc, output, MOST_OUTPUT)?;
    let errors = read_at_most(alloc, errors, MOST_ERRORS)?;
    Ok(Finish {
        exit,
        output: Content::new(output),
        errors: Content::new(errors),
    })
}

// Returns how a child ended, if its status shows an end.
fn exit_of(status: ExitStatus) -> Option<Exit>
    ensures told { IfSome result (TellsEnd status) }
    ensures none { result ≡ None → TellsNoEnd status }
{
    if let Some(code) = status.code() {
        return Some(Exit::Code(code as u8));
    }
    match status.signal() {
        Some(_) => Some(Exit::Signal),
        None => None,
    }
}
