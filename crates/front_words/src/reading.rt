//! Converts the values that clap found into a task, form by form.
ghost use Rattle.std.specs.Prelude.{◌≡◌, ◌++◌, ◌∷◌, [], ⊤, IfOk, IsSome, MatchResult, OnOk, Some, codes, map};
ghost use Rattle.std.specs.Option.{option_map};
ghost use Rattle.clap.specs.Words.{first_of, found_of, rows_of};
ghost use Rattle.front_words.specs.ArgumentValues.{all_in};
ghost use Rattle.front_words.specs.AskedTasks.{Fit, FitAltered, FitCaller, FitHold, FitJobs, FitLp, FitNew, FitQueue, FitStatus, FitSubmission, FitTask};
ghost use Rattle.front_words.specs.AskedTasks.{IsAdd, IsAltered, IsAskedIn, IsJobs, IsLp, IsPage, IsQueue, IsSay, IsSet, IsShow, IsStatusTask, IsStop, IsSubmit, IsTask};
ghost use Rattle.front_words.specs.AskedTasks.{begins_with, change_in, handling_of, has_more, has_numbers, has_texts, hold_of, host_part, is_immediate, is_indefinite, is_filled, is_near, is_path, is_policy, is_quiet, until_of};
ghost use Rattle.front_words.specs.WordFaults.{BlamesOnly};

use crate::asked::{
    Asked, Hold, JobAct, NewQueue, PageFile, QueueAct, Saying, Status, Submission, Task,
};
use crate::fault::Wrong;
use crate::forms::Form;
use crate::given::{
    day_moment, flag_given, job_given, jobs_given, moment_given, number_given, parted, text_given,
    text_needed, texts_given,
};
use crate::programs::{cancel_in, default_in, lpq_in, lprm_in, lpstat_in, switch_in};
use clap::ArgMatches;
use std::alloc::{AllocError, Global};

// Returns the task and the sockets that the values ask for.
pub fn asked_in<'a>(alloc: Global, form: Form, matches: &ArgMatches<'a>) -> Result<Asked<'a>, Wrong>
    ensures asked { IfOk result (IsAskedIn form (rows_of (found_of matches.now))) }
    ensures fit { MatchResult result (λ _. Fit form (rows_of (found_of matches.now))) (BlamesOnly (Fit form (rows_of (found_of matches.now)))) }
{
    fit_caller(matches)?;
    match task_in(alloc, form, matches) {
        Ok(task) => {
            let sockets = sockets_in(alloc, matches)?;
            Ok(Asked { sockets, task })
        }
        Err(wrong) => Err(wrong),
    }
}

// Checks that the service is on this machine, and that no other user is named.
fn fit_caller(matches: &ArgMatches<'_>) -> Result<(), Wrong>
    ensures { MatchResult result (λ _. FitCaller (rows_of (found_of matches.now))) (BlamesOnly (FitCaller (rows_of (found_of matches.now)))) }
{
    if !is_near(text_given(matches, "host")) {
        return Err(Wrong::Value(
            "only a service of this machine can be reached: the host must be localhost or the path of a socket",
        ));
    }
    if text_given(matches, "as-user").is_some() {
        return Err(Wrong::Value(
            "-U: the service knows who runs the command, so no other user can be named",
        ));
    }
    Ok(())
}

fn is_near(host: Option<&str>) -> bool
    ensures { result ≡ is_near (option_map (λ text. text.now) host.entry) }
{
    match host {
        Some(host) => is_path(host) || parted(host).0 == "localhost",
        None => true,
    }
}

fn is_path(text: &str) -> bool
    ensures { result ≡ is_path text.now }
{
    begins_with(text, b'/')
}

pub fn begins_with(text: &str, first: u8) -> bool
    ensures { result ≡ begins_with first text.now }
{
    match text.as_bytes().split_first() {
        Some((byte, _)) => *byte == first,
        None => false,
    }
}

// Returns the sockets of --socket, and that of -h.
fn sockets_in<'a>(alloc: Global, matches: &ArgMatches<'a>) -> Result<Vec<&'a str>, AllocError>
    ensures { IfOk result (λ sockets. map (λ text. text.now) sockets.items
        ≡ all_in (codes "socket") (rows_of (found_of matches.now)) ++ host_part (first_of (codes "host") (rows_of (found_of matches.now)))) }
{
    let mut sockets = texts_given(alloc, matches, "socket")?;
    push_host(&mut sockets, text_given(matches, "host"))?;
    Ok(sockets)
}

fn push_host<'a>(sockets: &mut Vec<&'a str>, host: Option<&'a str>) -> Result<(), AllocError>
    ensures { OnOk result (map (λ text. text.now) sockets.new.items
        ≡ map (λ text. text.now) sockets.old.items ++ host_part (option_map (λ text. text.now) host.entry)) }
{
    match host {
        Some(host) if is_path(host) => Ok(sockets.push(host)?),
        _ => Ok(()),
    }
}

fn task_in<'a>(alloc: Global, form: Form, matches: &ArgMatches<'a>) -> Result<Task<'a>, Wrong>
    ensures asked { IfOk result (IsTask form (rows_of (found_of matches.now))) }
    ensures fit { MatchResult result (λ _. FitTask form (rows_of (found_of matches.now))) (BlamesOnly (FitTask form (rows_of (found_of matches.now)))) }
{
    match form {
        Form::Submit => submit_in(alloc, form, matches),
        Form::Lp => lp_in(alloc, matches),
        Form::Lpr => submit_in(alloc, form, matches),
        Form::Status => status_in(matches),
        Form::Queues => Ok(Task::Queues {
            json: flag_given(matches, "json"),
        }),
        Form::Watch => Ok(Task::Watch {
            json: flag_given(matches, "json"),
        }),
        Form::Cancel => stop_in(alloc, matches),
        Form::Hold => hold_in(alloc, matches),
        Form::Plain(act) => jobs_in(alloc, JobAct::Plain(act), matches),
        Form::QueueShow => show_in(matches),
        Form::QueueAdd => add_in(matches),
        Form::QueueSet => set_in(matches),
        Form::QueueAccept => queue_in(QueueAct::Accept, matches),
        Form::QueueReject => queue_in(QueueAct::Reject, matches),
        Form::QueueEnable => queue_in(QueueAct::Enable, matches),
        Form::QueueDisable => queue_in(QueueAct::Disable, matches),
        Form::Devices => Ok(Task::Devices),
        Form::Check => Ok(Task::Check {
            json: flag_given(matches, "json"),
        }),
        Form::Page => page_in(matches),
        Form::Say => say_in(alloc, matches),
        Form::Lpstat => lpstat_in(alloc, matches),
        Form::CancelJobs => cancel_in(alloc, matches),
        Form::Lpq => lpq_in(alloc, matches),
        Form::Lprm => lprm_in(alloc, matches),
        Form::Lpoptions => default_in(matches),
        Form::Lpmove => Err(Wrong::Value(NO_MOVE)),
        Form::CupsEnable => switch_in(alloc, QueueAct::Enable, matches),
        Form::CupsDisable => switch_in(alloc, QueueAct::Disable, matches),
        Form::CupsAccept => switch_in(alloc, QueueAct::Accept, matches),
        Form::CupsReject => switch_in(alloc, QueueAct::Reject, matches),
        Form::Other => Err(Wrong::Value("no such task; `spool --help` lists all tasks")),
    }
}

fn submit_in<'a>(alloc: Global, form: Form, matches: &ArgMatches<'a>) -> Result<Task<'a>, Wrong>
    ensures asked { IfOk result (IsSubmit form (rows_of (found_of matches.now))) }
    ensures fit { MatchResult result (λ _. FitSubmission (rows_of (found_of matches.now))) (BlamesOnly (FitSubmission (rows_of (found_of matches.now)))) }
{
    let copies = number_given(
        matches,
        "copies",
        (1, 9_999),
        1,
        "the number of copies must be from 1 to 9999",
    )?;
    let priority = number_given(
        matches,
        "priority",
        (1, 100),
        50,
        "the priority must be a number from 1 to 100",
    )?;
    let hold = hold_given(matches)?;
    let by = moment_given(matches, "by", NO_MOMENT)?;
    Ok(Task::Submit(Submission {
        queue: text_given(matches, "queue"),
        files: texts_given(alloc, matches, "file")?,
        title: text_given(matches, "title"),
        user: text_given(matches, "user"),
        copies,
        priority,
        media: text_given(matches, "type"),
        options: texts_given(alloc, matches, "option")?,
        page_ranges: text_given(matches, "pages"),
        hold,
        by,
        wait: flag_given(matches, "wait"),
        quiet: is_quiet(form, matches),
        json: flag_given(matches, "json"),
        remove: flag_given(matches, "remove"),
        raw: flag_given(matches, "literal"),
        filled: is_filled(form),
    }))
}

// Returns whether an empty document is refused.
fn is_filled(form: Form) -> bool
    ensures { result ≡ is_filled form }
{
    !matches!(form, Form::Submit)
}

// Returns whether the number of the job is not printed. lpr never prints it.
fn is_quiet(form: Form, matches: &ArgMatches<'_>) -> bool
    ensures { result ≡ is_quiet form (rows_of (found_of matches.now)) }
{
    matches!(form, Form::Lpr)
        || flag_given(matches, "quiet")
        || flag_given(matches, "mail")
        || flag_given(matches, "write")
}

const NO_MOVE: &str =
    "a job cannot be moved to another queue; cancel it and print the document again";

const NO_MOMENT: &str = "MOMENT must be seconds since 1970 or +SECONDS, up to 4000000000000";

// Returns whether and until when the job is held, from --hold and --at of `spool submit`, -H of lp or -q of lpr.
fn hold_given(matches: &ArgMatches<'_>) -> Result<Hold, Wrong>
    ensures { MatchResult result (λ hold. hold_of (rows_of (found_of matches.now)) ≡ Some hold) (BlamesOnly (IsSome (hold_of (rows_of (found_of matches.now))))) }
{
    if let Some(text) = text_given(matches, "handling") {
        return handling_of(text).ok_or(NO_HANDLING);
    }
    match moment_given(matches, "at", NO_MOMENT)? {
        Some(moment) => Ok(Hold::Until(moment)),
        None if flag_given(matches, "hold") => Ok(Hold::Indefinite),
        None => Ok(Hold::No),
    }
}

const NO_HANDLING: Wrong = Wrong::Value(
    "-H must be hold, indefinite, immediate, no-hold, resume, HH:MM (UTC), seconds since 1970 or +SECONDS",
);

// Returns the hold that the value of -H asks for, or `None` if the value is invalid.
fn handling_of(text: &str) -> Option<Hold>
    ensures { result ≡ handling_of text.now }
{
    if is_indefinite(text) {
        Some(Hold::Indefinite)
    } else if is_immediate(text) {
        Some(Hold::No)
    } else {
        Some(Hold::Until(day_moment(text)?))
    }
}

fn is_indefinite(text: &str) -> bool
    ensures { result ≡ is_indefinite text.now }
{
    text == "hold" || text == "indefinite"
}

fn is_immediate(text: &str) -> bool
    ensures { result ≡ is_immediate text.now }
{
    text == "immediate" || text == "no-hold" || text == "resume"
}

// Returns what lp was asked for: to print, or with -i to change a job.
fn lp_in<'a>(alloc: Global, matches: &ArgMatches<'a>) -> Result<Task<'a>, Wrong>
    ensures asked { IfOk result (IsLp (rows_of (found_of matches.now))) }
    ensures fit { MatchResult result (λ _. FitLp (rows_of (found_of matches.now))) (BlamesOnly (FitLp (rows_of (found_of matches.now)))) }
{
    match job_given(matches, "job")? {
        Some(job) => altered_in(alloc, job, matches),
        None => submit_in(alloc, Form::Lp, matches),
    }
}

fn altered_in<'a>(alloc: Global, job: u32, matches: &ArgMatches<'a>) -> Result<Task<'a>, Wrong>
    ensures asked { IfOk result (IsAltered job (rows_of (found_of matches.now))) }
    ensures fit { MatchResult result (λ _. FitAltered (rows_of (found_of matches.now))) (BlamesOnly (FitAltered (rows_of (found_of matches.now)))) }
{
    if has_more(matches) {
        return Err(Wrong::Value("-i: only the hold of a job can be changed: -i JOB -H WHEN"));
    }
    match change_in(text_given(matches, "handling")) {
        Some(act) => {
            let jobs = only_job(alloc, job)?;
            Ok(Task::Jobs { act, jobs })
        }
        None => Err(NO_HANDLING),
    }
}

fn only_job(alloc: Global, job: u32) -> Result<Vec<u32>, AllocError>
    ensures { IfOk result (λ jobs. jobs.items ≡ job ∷ []) }
{
    let mut jobs = Vec::new(alloc);
    jobs.push(job)?;
    Ok(jobs)
}

// Returns the action on a job that the value of -H asks for.
fn change_in(text: Option<&str>) -> Option<JobAct>
    ensures { result ≡ change_in (option_map (λ text. text.now) text.entry) }
{
    let text = text?;
    if is_indefinite(text) {
        Some(JobAct::Hold(None))
    } else if is_immediate(text) {
        Some(JobAct::Resume)
    } else {
        Some(JobAct::Hold(Some(day_moment(text)?)))
    }
}

// Returns whether a document is given, or a change that the service cannot make.
fn has_more(matches: &ArgMatches<'_>) -> bool
    ensures { result ≡ has_more (rows_of (found_of matches.now)) }
{
    text_given(matches, "file").is_some() || has_numbers(matches) || has_texts(matches)
}

fn has_numbers(matches: &ArgMatches<'_>) -> bool
    ensures { result ≡ has_numbers (rows_of (found_of matches.now)) }
{
    text_given(matches, "copies").is_some() || text_given(matches, "priority").is_some()
}

fn has_texts(matches: &ArgMatches<'_>) -> bool
    ensures { result ≡ has_texts (rows_of (found_of matches.now)) }
{
    text_given(matches, "title").is_some()
        || text_given(matches, "option").is_some()
        || text_given(matches, "pages").is_some()
}

fn status_in<'a>(matches: &ArgMatches<'a>) -> Result<Task<'a>, Wrong>
    ensures asked { IfOk result (IsStatusTask (rows_of (found_of matches.now))) }
    ensures fit { MatchResult result (λ _. FitStatus (rows_of (found_of matches.now))) (BlamesOnly (FitStatus (rows_of (found_of matches.now)))) }
{
    let job = job_given(matches, "job")?;
    let queue = text_given(matches, "queue");
    let watch = flag_given(matches, "watch");
    if text_given(matches, "job").is_some() && (queue.is_some() || watch) {
        return Err(Wrong::Value("JOB cannot be used together with -q or --watch"));
    }
    let json = flag_given(matches, "json");
    Ok(Task::Status(Status {
        job,
        queue,
        json,
        watch,
    }))
}

fn jobs_in<'a>(alloc: Global, act: JobAct, matches: &ArgMatches<'a>) -> Result<Task<'a>, Wrong>
    ensures asked { IfOk result (IsJobs (Some act) (rows_of (found_of matches.now))) }
    ensures fit { MatchResult result (λ _. FitJobs (rows_of (found_of matches.now))) (BlamesOnly (FitJobs (rows_of (found_of matches.now)))) }
{
    let jobs = jobs_given(alloc, matches, "job")?;
    Ok(Task::Jobs { act, jobs })
}

fn stop_in<'a>(alloc: Global, matches: &ArgMatches<'a>) -> Result<Task<'a>, Wrong>
    ensures asked { IfOk result (IsStop (rows_of (found_of matches.now))) }
    ensures fit { MatchResult result (λ _. FitJobs (rows_of (found_of matches.now))) (BlamesOnly (FitJobs (rows_of (found_of matches.now)))) }
{
    if flag_given(matches, "keep-printing") {
        return jobs_in(alloc, JobAct::CancelOnly, matches);
    }
    jobs_in(alloc, JobAct::Cancel, matches)
}

fn hold_in<'a>(alloc: Global, matches: &ArgMatches<'a>) -> Result<Task<'a>, Wrong>
    ensures asked { IfOk result (IsJobs (until_of (rows_of (found_of matches.now))) (rows_of (found_of matches.now))) }
    ensures fit { MatchResult result (λ _. FitHold (rows_of (found_of matches.now))) (BlamesOnly (FitHold (rows_of (found_of matches.now)))) }
{
    let until = moment_given(matches, "until", NO_MOMENT)?;
    jobs_in(alloc, JobAct::Hold(until), matches)
}

fn queue_in<'a>(act: QueueAct<'a>, matches: &ArgMatches<'a>) -> Result<Task<'a>, Wrong>
    ensures asked { IfOk result (IsQueue (λ done. done ≡ act.entry) (rows_of (found_of matches.now))) }
    ensures fit { MatchResult result (λ _. FitQueue (rows_of (found_of matches.now))) (BlamesOnly (FitQueue (rows_of (found_of matches.now)))) }
{
    let name = text_needed(matches, "name")?;
    Ok(Task::Queue { name, act })
}

fn show_in<'a>(matches: &ArgMatches<'a>) -> Result<Task<'a>, Wrong>
    ensures asked { IfOk result (IsShow (rows_of (found_of matches.now))) }
    ensures fit { MatchResult result (λ _. FitQueue (rows_of (found_of matches.now))) (BlamesOnly (FitQueue (rows_of (found_of matches.now)))) }
{
    let name = text_needed(matches, "name")?;
    Ok(Task::ShowQueue {
        name,
        json: flag_given(matches, "json"),
    })
}

fn add_in<'a>(matches: &ArgMatches<'a>) -> Result<Task<'a>, Wrong>
    ensures asked { IfOk result (IsQueue (IsAdd (rows_of (found_of matches.now))) (rows_of (found_of matches.now))) }
    ensures fit { MatchResult result (λ _. FitNew (rows_of (found_of matches.now))) (BlamesOnly (FitNew (rows_of (found_of matches.now)))) }
{
    let uri = text_needed(matches, "uri")?;
    let policy = text_given(matches, "policy").unwrap_or("retry-job");
    if !is_policy(policy) {
        return Err(Wrong::Value(
            "POLICY must be abort-job, retry-job, retry-current-job or stop-printer",
        ));
    }
    let interval = number_given(
        matches,
        "interval",
        (0, 86_400),
        30,
        "the interval must be a number from 0 to 86400",
    )?;
    let limit = number_given(
        matches,
        "limit",
        (0, 65_535),
        5,
        "the limit must be a number from 0 to 65535",
    )?;
    let media = text_given(matches, "media").unwrap_or("application/pdf");
    queue_in(
        QueueAct::Add(NewQueue {
            uri,
            media,
            policy,
            interval,
            limit,
        }),
        matches,
    )
}

fn is_policy(text: &str) -> bool
    ensures { result ≡ is_policy text.now }
{
    text == "abort-job"
        || text == "retry-job"
        || text == "retry-current-job"
        || text == "stop-printer"
}

fn set_in<'a>(matches: &ArgMatches<'a>) -> Result<Task<'a>, Wrong>
    ensures asked { IfOk result (IsQueue (IsSet (rows_of (found_of matches.now))) (rows_of (found_of matches.now))) }
    ensures fit { MatchResult result (λ _. FitQueue (rows_of (found_of matches.now))) (BlamesOnly (FitQueue (rows_of (found_of matches.now)))) }
{
    let info = text_given(matches, "info").unwrap_or("");
    let location = text_given(matches, "location").unwrap_or("");
    queue_in(QueueAct::Set { info, location }, matches)
}

fn page_in<'a>(matches: &ArgMatches<'a>) -> Result<Task<'a>, Wrong>
    ensures asked { IfOk result (IsPage (rows_of (found_of matches.now))) }
    ensures fit { MatchResult result (λ _. IsSome (first_of (codes "file") (rows_of (found_of matches.now)))) (BlamesOnly (IsSome (first_of (codes "file") (rows_of (found_of matches.now))))) }
{
    let file = text_needed(matches, "file")?;
    Ok(Task::Page(PageFile {
        file,
        queue: text_given(matches, "queue"),
        user: text_given(matches, "user"),
        follow: flag_given(matches, "follow"),
    }))
}

fn say_in<'a>(alloc: Global, matches: &ArgMatches<'a>) -> Result<Task<'a>, Wrong>
    ensures asked { IfOk result (IsSay (rows_of (found_of matches.now))) }
    ensures fit { MatchResult result (λ _. ⊤) (BlamesOnly ⊤) }
{
    let commands = texts_given(alloc, matches, "command")?;
    Ok(Task::Say(Saying {
        commands,
        until_end: flag_given(matches, "until-end"),
        json: flag_given(matches, "json"),
    }))
}
