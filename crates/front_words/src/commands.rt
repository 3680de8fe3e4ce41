//! The clap command of each form.
ghost use Rattle.std.specs.Prelude.{◌≡◌, IfOk};
ghost use Rattle.clap.specs.Words.{app_of};
ghost use Rattle.front_words.specs.Apps.{app_for, bare_app, name_of, spool_app};
ghost use Rattle.front_words.specs.CommandParameters.{with_parameters};

use crate::forms::Form;
use crate::options::{named_command, task_command};
use crate::parameters::{Parameter, with_parameters};
use crate::tables;
use clap::Command;
use program_version::VERSION;
use std::alloc::{AllocError, Global};

const TASKS: &str = "Tasks:
  submit QUEUE FILE..     print files, each as a separate job
  status [JOB]            show one job, the jobs of a queue, or all jobs
  queues                  show the queues
  watch                   print a line for each change
  cancel JOB..            cancel jobs
  hold JOB..              hold jobs
  release JOB..           release held jobs
  purge JOB..             remove jobs that have ended
  end JOB..               terminate the running filter or backend of jobs
  queue show NAME         show one queue
  queue add NAME URI      create a queue; also queue set, accept, reject, enable, disable
  devices                 name the command that lists devices
  check                   check the service, its programs and its queues
  page FILE               write the queues and jobs as an HTML page
  say [COMMAND]..         send commands of the protocol and print the replies

`spool TASK --help` lists the options of a task.
Called as lp, lpr, lpstat, cancel, lpq, lprm, lpoptions, cupsenable, cupsdisable, cupsaccept or
cupsreject, spool takes the options of that program.";

const DEVICES: &str = "Name the command that lists the devices that backends find";

const CHECK: &str =
    "Check whether the service is running, its programs can be run and each queue can print";

const SAY: &str = "Send commands to the service and print the replies

The commands are those of cegmandi_protocol(5). Without COMMAND they are read from standard input. The status is 1 if a reply is an error.";

const QUEUE_SET: &str = "Set the description and the location of a queue

To set its URI, media type, policy, interval or limit, or to remove it, stop the service and run
`spool_admin queue set DIR NAME` or `spool_admin queue remove DIR NAME`: see spool_admin(8).";

/// The options that a command has before its parameters.
#[derive(Clone, Copy)]
enum Base {
    /// Those of a task of `spool`.
    Task,
    /// Those of a program with its own name.
    Program,
    /// Those of `spool` without a known task: its version.
    Spool,
}

/// Returns the clap command of a form.
pub fn command_for<'a>(alloc: Global, form: Form) -> Result<Command<'a>, AllocError>
    ensures { IfOk result (λ command. app_of command ≡ app_for form) }
{
    let (base, parameters) = outline_of(form);
    let (name, about) = name_and_purpose(form);
    let command = bare_command(alloc, base, name, about)?;
    with_parameters(alloc, command, parameters)
}

// Returns a command without its parameters.
fn bare_command<'a>(
    alloc: Global,
    base: Base,
    name: &'a str,
    about: &'a str,
) -> Result<Command<'a>, AllocError>
    ensures { IfOk result (λ command. app_of command ≡ bare_app base name.entry.now) }
{
    match base {
        Base::Task => task_command(alloc, name, about),
        Base::Program => named_command(alloc, name, about),
        Base::Spool => Ok(spool_command(alloc, name, about)),
    }
}

// Returns the command of `spool` without a known task, for help, the version and errors.
fn spool_command<'a>(alloc: Global, name: &'a str, about: &'a str) -> Command<'a>
    ensures { app_of result ≡ spool_app name.entry.now }
{
    Command::new(alloc, name)
        .about(about)
        .version(VERSION)
        .after_help(TASKS)
}

fn name_and_purpose<'a>(form: Form) -> (&'a str, &'a str)
    ensures { result.0.now ≡ name_of form }
{
    match form {
        Form::Submit => ("spool submit", "Print files, each as a separate job"),
        Form::Status => ("spool status", "Show jobs"),
        Form::Queues => ("spool queues", "Show the queues"),
        Form::Watch => ("spool watch", "Print a line for each change"),
        Form::Cancel => ("spool cancel", "Cancel jobs"),
        Form::Hold => ("spool hold", "Hold jobs"),
        Form::Plain(act) => act.task_and_purpose(),
        Form::QueueShow => ("spool queue show", "Show a queue"),
        Form::QueueAdd => ("spool queue add", "Create a queue"),
        Form::QueueSet => ("spool queue set", QUEUE_SET),
        Form::QueueAccept => ("spool queue accept", "Let a queue accept jobs"),
        Form::QueueReject => ("spool queue reject", "Let a queue reject jobs"),
        Form::QueueEnable => ("spool queue enable", "Start a queue"),
        Form::QueueDisable => ("spool queue disable", "Stop a queue"),
        Form::Devices => ("spool devices", DEVICES),
        Form::Check => ("spool check", CHECK),
        Form::Page => ("spool page", "Write the queues and jobs as an HTML page"),
        Form::Say => ("spool say", SAY),
        Form::Lp => ("lp", "Print files"),
        Form::Lpr => ("lpr", "Print files"),
        Form::Lpstat => ("lpstat", "Show queues and jobs"),
        Form::CancelJobs => ("cancel", "Cancel jobs"),
        Form::Lpq => ("lpq", "Show the jobs of a queue"),
        Form::Lprm => ("lprm", "Cancel jobs"),
        Form::Lpoptions => ("lpoptions", "Choose the default queue"),
        Form::Lpmove => ("lpmove", "Not supported: a job stays in its queue"),
        Form::CupsEnable => ("cupsenable", "Start queues"),
        Form::CupsDisable => ("cupsdisable", "Stop queues"),
        Form::CupsAccept => ("cupsaccept", "Let queues accept jobs"),
        Form::CupsReject => ("cupsreject", "Let queues reject jobs"),
        Form::Other => ("spool", "Print files, and manage print jobs and queues"),
    }
}

// Returns what a form's command has before its parameters, and these.
fn outline_of<'a>(form: Form) -> (Base, &'a [Parameter<'a>])
    ensures { with_parameters (bare_app result.0 (name_of form)) result.1.now ≡ app_for form }
{
    match form {
        Form::Submit => (Base::Task, &tables::SUBMIT),
        Form::Status => (Base::Task, &tables::STATUS),
        Form::Queues => (Base::Task, &tables::QUEUES),
        Form::Watch => (Base::Task, &tables::WATCH),
        Form::Cancel => (Base::Task, &tables::CANCEL_TASK),
        Form::Hold => (Base::Task, &tables::HOLD),
        Form::Plain(_) => (Base::Task, &tables::JOBS),
        Form::QueueShow => (Base::Task, &tables::QUEUE_SHOW),
        Form::QueueAdd => (Base::Task, &tables::QUEUE_ADD),
        Form::QueueSet => (Base::Task, &tables::QUEUE_SET),
        Form::QueueAccept => (Base::Task, &tables::QUEUE),
        Form::QueueReject => (Base::Task, &tables::QUEUE),
        Form::QueueEnable => (Base::Task, &tables::QUEUE),
        Form::QueueDisable => (Base::Task, &tables::QUEUE),
        Form::Devices => (Base::Task, &[]),
        Form::Check => (Base::Task, &tables::CHECK),
        Form::Page => (Base::Task, &tables::PAGE),
        Form::Say => (Base::Task, &tables::SAY),
        Form::Lp => (Base::Program, &tables::LP),
        Form::Lpr => (Base::Program, &tables::LPR),
        Form::Lpstat => (Base::Program, &tables::LPSTAT),
        Form::CancelJobs => (Base::Program, &tables::CANCEL),
        Form::Lpq => (Base::Program, &tables::LPQ),
        Form::Lprm => (Base::Program, &tables::LPRM),
        Form::Lpoptions => (Base::Program, &tables::LPOPTIONS),
        Form::Lpmove => (Base::Program, &tables::LPMOVE),
        Form::CupsEnable => (Base::Program, &tables::SWITCH),
        Form::CupsDisable => (Base::Program, &tables::SWITCH),
        Form::CupsAccept => (Base::Program, &tables::SWITCH),
        Form::CupsReject => (Base::Program, &tables::SWITCH),
        Form::Other => (Base::Spool, &tables::TASK),
    }
}
