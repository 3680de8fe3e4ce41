//! Converts the values that clap found into the tasks of the programs with their own names.
ghost use Rattle.std.specs.Prelude.{◌≡◌, ⊤, IfOk, MatchResult, None, codes, false, is_none, map};
ghost use Rattle.std.specs.List.{list_any};
ghost use Rattle.std.specs.Option.{option_map};
ghost use Rattle.clap.specs.Words.{first_of, found_of, rows_of};
ghost use Rattle.front_words.specs.ArgumentValues.{all_in};
ghost use Rattle.front_words.specs.AskedTasks.{FitDefault, FitLpq, FitLpstat, IsCancel, IsClear, IsDefault, IsLpqTask, IsLprm, IsLpstatTask, IsRemove, IsSwitch};
ghost use Rattle.front_words.specs.AskedTasks.{has_options, is_interval, only, removal_queues, which_in};
ghost use Rattle.front_words.specs.WordFaults.{BlamesOnly};
ghost use Rattle.front_words.specs.declared.fault.Wrong.TheVariants.{Memory};

use crate::asked::{Clear, Lpq, Lpstat, QueueAct, Removal, Task, Which};
use crate::fault::Wrong;
use crate::given::{flag_given, jobs_among, names_among, text_given, texts_given, word_given};
use crate::reading::begins_with;
use clap::ArgMatches;
use std::alloc::{AllocError, Global};

pub fn lpstat_in<'a>(alloc: Global, matches: &ArgMatches<'a>) -> Result<Task<'a>, Wrong>
    ensures asked { IfOk result (IsLpstatTask (rows_of (found_of matches.now))) }
    ensures fit { MatchResult result (λ _. FitLpstat (rows_of (found_of matches.now))) (BlamesOnly (FitLpstat (rows_of (found_of matches.now)))) }
{
    let Some(which) = which_in(text_given(matches, "which")) else {
        return Err(Wrong::Value("-W must be not-completed, completed or all"));
    };
    Ok(Task::Lpstat(Lpstat {
        scheduler: flag_given(matches, "scheduler"),
        usual: flag_given(matches, "usual"),
        all: flag_given(matches, "all"),
        summary: flag_given(matches, "summary"),
        destinations: flag_given(matches, "destinations"),
        server: flag_given(matches, "server"),
        printers: text_given(matches, "printers"),
        accepting: text_given(matches, "accepting"),
        devices: text_given(matches, "devices"),
        classes: text_given(matches, "classes"),
        jobs: text_given(matches, "jobs"),
        users: text_given(matches, "users"),
        which,
        long: flag_given(matches, "long"),
        described: flag_given(matches, "described"),
        names: texts_given(alloc, matches, "name")?,
    }))
}

// Returns the jobs of -W, or `None` if the value is invalid.
fn which_in(text: Option<&str>) -> Option<Which>
    ensures { result ≡ which_in (option_map (λ text. text.now) text.entry) }
{
    let Some(text) = text else {
        return Some(Which::NotCompleted);
    };
    if text == "not-completed" {
        Some(Which::NotCompleted)
    } else if text == "completed" {
        Some(Which::Completed)
    } else if text == "all" {
        Some(Which::All)
    } else {
        None
    }
}

// Returns the jobs or queues whose jobs are canceled. With -a or -u the arguments are queues.
pub fn cancel_in<'a>(alloc: Global, matches: &ArgMatches<'a>) -> Result<Task<'a>, Wrong>
    ensures asked { IfOk result (IsCancel (rows_of (found_of matches.now))) }
    ensures fit { MatchResult result (λ _. ⊤) (BlamesOnly (⊤)) }
{
    let user = text_given(matches, "user");
    let purge = flag_given(matches, "purge");
    if flag_given(matches, "all") || user.is_some() {
        let queues = texts_given(alloc, matches, "job")?;
        return Ok(Task::Clear(Clear {
            queues,
            usual: false,
            user,
            purge,
        }));
    }
    let jobs = jobs_among(alloc, matches, "job")?;
    let queues = names_among(alloc, matches, "job")?;
    Ok(Task::Remove(Removal {
        jobs,
        queues,
        purge,
    }))
}

pub fn lpq_in<'a>(alloc: Global, matches: &ArgMatches<'a>) -> Result<Task<'a>, Wrong>
    ensures asked { IfOk result (IsLpqTask (rows_of (found_of matches.now))) }
    ensures fit { MatchResult result (λ _. FitLpq (rows_of (found_of matches.now))) (BlamesOnly (FitLpq (rows_of (found_of matches.now)))) }
{
    if has_interval(alloc, matches)? {
        return Err(Wrong::Value(
            "lpq does not repeat itself; use `spool watch`, or watch -n SECONDS lpq",
        ));
    }
    Ok(Task::Lpq(Lpq {
        queue: text_given(matches, "queue"),
        all: flag_given(matches, "all"),
        long: flag_given(matches, "long"),
        jobs: jobs_among(alloc, matches, "job")?,
        users: names_among(alloc, matches, "job")?,
    }))
}

fn has_interval(alloc: Global, matches: &ArgMatches<'_>) -> Result<bool, AllocError>
    ensures { IfOk result (λ has. has ≡ list_any is_interval (all_in (codes "job") (rows_of (found_of matches.now)))) }
{
    let texts = texts_given(alloc, matches, "job")?;
    Ok(any_interval(texts.as_slice()))
}

fn any_interval(texts: &[&str]) -> bool
    ensures { result ≡ list_any is_interval (map (λ text. text.now) texts.now) }
{
    for text in texts {
        if begins_with(text, b'+') {
            return true;
        }
    }
    false
}

// Returns the removal of the jobs, or of all jobs of the queue if the first argument is `-`.
pub fn lprm_in<'a>(alloc: Global, matches: &ArgMatches<'a>) -> Result<Task<'a>, Wrong>
    ensures asked { IfOk result (IsLprm (rows_of (found_of matches.now))) }
    ensures fit { MatchResult result (λ _. ⊤) (BlamesOnly (⊤)) }
{
    let queue = text_given(matches, "queue");
    if word_given(matches, "job", "-") {
        return clear_one(alloc, queue);
    }
    let jobs = jobs_among(alloc, matches, "job")?;
    let queues = removal_queues(alloc, queue, matches)?;
    Ok(Task::Remove(Removal {
        jobs,
        queues,
        purge: false,
    }))
}

// Returns the removal of all jobs of the queue, or of the default queue.
fn clear_one<'a>(alloc: Global, queue: Option<&'a str>) -> Result<Task<'a>, Wrong>
    ensures { MatchResult result
        (IsClear (only (option_map (λ text. text.now) queue.entry)) (is_none (option_map (λ text. text.now) queue.entry)) None false)
        (λ wrong. wrong ≡ Memory) }
{
    let queues = only(alloc, queue)?;
    Ok(Task::Clear(Clear {
        queues,
        usual: queue.is_none(),
        user: None,
        purge: false,
    }))
}

// Returns the queues among the arguments, or the queue of -P if there are no arguments.
fn removal_queues<'a>(
    alloc: Global,
    queue: Option<&'a str>,
    matches: &ArgMatches<'a>,
) -> Result<Vec<&'a str>, AllocError>
    ensures { IfOk result (λ queues. map (λ text. text.now) queues.items
        ≡ removal_queues (rows_of (found_of matches.now)) (option_map (λ text. text.now) queue.entry)) }
{
    if text_given(matches, "job").is_some() {
        names_among(alloc, matches, "job")
    } else {
        only(alloc, queue)
    }
}

fn only<'a>(alloc: Global, text: Option<&'a str>) -> Result<Vec<&'a str>, AllocError>
    ensures { IfOk result (λ texts. map (λ text. text.now) texts.items ≡ only (option_map (λ text. text.now) text.entry)) }
{
    let mut texts = Vec::new(alloc);
    if let Some(text) = text {
        texts.push(text)?;
    }
    Ok(texts)
}

pub fn default_in<'a>(matches: &ArgMatches<'a>) -> Result<Task<'a>, Wrong>
    ensures asked { IfOk result (IsDefault (rows_of (found_of matches.now))) }
    ensures fit { MatchResult result (λ _. FitDefault (rows_of (found_of matches.now))) (BlamesOnly (FitDefault (rows_of (found_of matches.now)))) }
{
    if has_options(matches) {
        return Err(NO_OPTIONS);
    }
    match text_given(matches, "default") {
        Some(queue) => Ok(Task::Default { queue }),
        None => Err(NO_OPTIONS),
    }
}

const NO_OPTIONS: Wrong = Wrong::Value(
    "only the default queue is stored: lpoptions -d DEST; give options to lp -o",
);

fn has_options(matches: &ArgMatches<'_>) -> bool
    ensures { result ≡ has_options (rows_of (found_of matches.now)) }
{
    text_given(matches, "queue").is_some()
        || flag_given(matches, "list")
        || text_given(matches, "option").is_some()
        || text_given(matches, "drop").is_some()
        || text_given(matches, "forget").is_some()
}

pub fn switch_in<'a>(
    alloc: Global,
    act: QueueAct<'a>,
    matches: &ArgMatches<'a>,
) -> Result<Task<'a>, Wrong>
    ensures asked { IfOk result (IsSwitch act.entry (rows_of (found_of matches.now))) }
    ensures fit { MatchResult result (λ _. ⊤) (BlamesOnly (⊤)) }
{
    Ok(Task::Switch {
        names: texts_given(alloc, matches, "name")?,
        act,
        clears: flag_given(matches, "cancel"),
    })
}
