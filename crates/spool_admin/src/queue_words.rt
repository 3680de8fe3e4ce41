//! The words after `queue set` and `queue remove`.
ghost use Rattle.std.specs.Prelude.{◌≡◌, ◌≤◌, IfOk, IfSome, MatchResult, codes, map};
ghost use Rattle.std.specs.Option.{option_map};
ghost use Rattle.clap.specs.Words.{app_of, first_of, found_of, matches_of, one_of, rows_of};
ghost use Rattle.spool_runtime.specs.ProgramArguments.{AreFaultlessFor, HasFlag, HasNumberIn, RefusesOnly, number_of};
ghost use Rattle.spool_admin.specs.QueueArguments.{AreInRange, AreTakenFor, FitRemove, FitSet, HasNumbers, IsPolicyOf, IsRemove, IsSet, is_nothing, policy_in, remove_app, set_app, with_place};

use crate::words::{text_given, word};
use clap::{ArgMatches, Command};
use spool_runtime::{
    WordsFault, flag_given, flag_option, mistake, number_option, parse, text_option,
};
use spool_types::Policy;
use std::alloc::{AllocError, Global};
use std::convert::AsStr;

const NOT_A_POLICY: &str = "POLICY must be abort-job, retry-job, retry-current-job or stop-printer";

const NO_PLACE: &str = "DIR and NAME are required";

const NOTHING: &str = "nothing to set: give --uri, --media, --policy, --interval or --limit";

/// The fields of a queue to set.
#[derive(Clone, Copy)]
pub struct SetWords<'a> {
    /// The folder of the spool.
    pub dir: &'a str,
    pub name: &'a str,
    pub uri: Option<&'a str>,
    pub media: Option<&'a str>,
    pub policy: Option<Policy>,
    pub interval: Option<u64>,
    pub limit: Option<u64>,
}

/// A queue to remove.
#[derive(Clone, Copy)]
pub struct RemoveWords<'a> {
    /// The folder of the spool.
    pub dir: &'a str,
    pub name: &'a str,
    /// Whether its ended jobs may be removed.
    pub purge: bool,
}

/// Reads the words of `queue set`, from `set` on.
pub fn read_set_words<'a, S: AsStr>(
    alloc: Global,
    words: &'a [S],
) -> Result<SetWords<'a>, WordsFault>
    ensures asked { IfOk result (IsSet (matches_of set_app (map S.text words.entry.now))) }
    ensures in_range { IfOk result AreInRange }
    ensures taken { MatchResult result (λ _. AreTakenFor set_app FitSet (map S.text words.entry.now))
        (RefusesOnly (AreTakenFor set_app FitSet (map S.text words.entry.now))) }
{
    let Ok(mut command) = set_command(alloc) else {
        return Err(WordsFault::Memory);
    };
    let matches = match parse(&mut command, words) {
        Ok(matches) => matches,
        Err(fault) => return Err(fault),
    };
    match set_in(&matches) {
        Ok(words) => Ok(words),
        Err(text) => Err(mistake(&mut command, text)),
    }
}

/// Reads the words of `queue remove`, from `remove` on.
pub fn read_remove_words<'a, S: AsStr>(
    alloc: Global,
    words: &'a [S],
) -> Result<RemoveWords<'a>, WordsFault>
    ensures asked { IfOk result (IsRemove (matches_of remove_app (map S.text words.entry.now))) }
    ensures taken { MatchResult result (λ _. AreTakenFor remove_app FitRemove (map S.text words.entry.now))
        (RefusesOnly (AreTakenFor remove_app FitRemove (map S.text words.entry.now))) }
{
    let Ok(mut command) = remove_command(alloc) else {
        return Err(WordsFault::Memory);
    };
    let matches = match parse(&mut command, words) {
        Ok(matches) => matches,
        Err(fault) => return Err(fault),
    };
    match remove_in(&matches) {
        Ok(words) => Ok(words),
        Err(text) => Err(mistake(&mut command, text)),
    }
}

// Returns the fields to set, or what is wrong with them.
fn set_in<'a>(matches: &ArgMatches<'a>) -> Result<SetWords<'a>, &'static str>
    requires { HasNumbers matches.now }
    ensures asked { IfOk result (IsSet (rows_of (found_of matches.now))) }
    ensures in_range { IfOk result AreInRange }
    ensures fit { MatchResult result (λ _. FitSet (rows_of (found_of matches.now))) (λ _. ¬ (FitSet (rows_of (found_of matches.now)))) }
{
    let Some(dir) = text_given(matches, "dir") else {
        return Err(NO_PLACE);
    };
    let Some(name) = text_given(matches, "name") else {
        return Err(NO_PLACE);
    };
    let policy = match policy_given(matches) {
        Ok(policy) => policy,
        Err(()) => return Err(NOT_A_POLICY),
    };
    if is_nothing(matches) {
        return Err(NOTHING);
    }
    Ok(SetWords {
        dir,
        name,
        uri: text_given(matches, "uri"),
        media: text_given(matches, "media"),
        policy,
        interval: number_in(matches, "interval", 86_400),
        limit: number_in(matches, "limit", 65_535),
    })
}

fn remove_in<'a>(matches: &ArgMatches<'a>) -> Result<RemoveWords<'a>, &'static str>
    requires { HasFlag (codes "purge") matches.now }
    ensures asked { IfOk result (IsRemove (rows_of (found_of matches.now))) }
    ensures fit { MatchResult result (λ _. FitRemove (rows_of (found_of matches.now))) (λ _. ¬ (FitRemove (rows_of (found_of matches.now)))) }
{
    let Some(dir) = text_given(matches, "dir") else {
        return Err(NO_PLACE);
    };
    let Some(name) = text_given(matches, "name") else {
        return Err(NO_PLACE);
    };
    Ok(RemoveWords {
        dir,
        name,
        purge: flag_given(matches, "purge"),
    })
}

// Returns whether no field is given.
fn is_nothing(matches: &ArgMatches<'_>) -> bool
    ensures { result ≡ is_nothing (rows_of (found_of matches.now)) }
{
    text_given(matches, "uri").is_none()
        && text_given(matches, "media").is_none()
        && text_given(matches, "policy").is_none()
        && text_given(matches, "interval").is_none()
        && text_given(matches, "limit").is_none()
}

// Returns the policy that is given, if any. Fails if it is none.
fn policy_given(matches: &ArgMatches<'_>) -> Result<Option<Policy>, ()>
    ensures { IsPolicyOf (first_of (codes "policy") (rows_of (found_of matches.now))) result }
{
    match text_given(matches, "policy") {
        Some(text) => match policy_in(text) {
            Some(policy) => Ok(Some(policy)),
            None => Err(()),
        },
        None => Ok(None),
    }
}

fn policy_in(text: &str) -> Option<Policy>
    ensures { result ≡ policy_in text.now }
{
    if text == "abort-job" {
        Some(Policy::AbortJob)
    } else if text == "retry-job" {
        Some(Policy::RetryJob)
    } else if text == "retry-current-job" {
        Some(Policy::RetryCurrentJob)
    } else if text == "stop-printer" {
        Some(Policy::StopPrinter)
    } else {
        None
    }
}

// Returns the number of an option, up to `most`, if it is given.
fn number_in(matches: &ArgMatches<'_>, name: &str, most: u64) -> Option<u64>
    requires { HasNumberIn 0 most name.now matches.now }
    ensures number { result ≡ option_map number_of (one_of name.now (rows_of (found_of matches.now))) }
    ensures in_range { IfSome result (λ n. n ≤ most) }
{
    matches.get_one::<u64>(name)
}

// Returns the command of `queue set` in clap's form.
fn set_command<'a>(alloc: Global) -> Result<Command<'a>, AllocError>
    ensures { IfOk result (λ command. app_of command ≡ set_app) }
{
    let command = queue_command(
        alloc,
        "spool_admin queue set",
        "Sets fields of a queue of a print spool that no other program has open",
    )?;
    command
        .arg(text_option(
            alloc,
            "uri",
            "URI",
            "The device [default: as it is, like all fields that are not given]",
        ))?
        .arg(text_option(
            alloc,
            "media",
            "TYPE",
            "The media type that the device takes, if all jobs of the queue have ended",
        ))?
        .arg(text_option(
            alloc,
            "policy",
            "POLICY",
            "What to do with a job that fails: abort-job, retry-job, retry-current-job or stop-printer",
        ))?
        .arg(number_option(
            alloc,
            "interval",
            "SECONDS",
            (0, 86_400),
            "The time before another attempt, up to 86400",
        ))?
        .arg(number_option(
            alloc,
            "limit",
            "N",
            (0, 65_535),
            "The number of attempts at a job, up to 65535; 0 means no limit",
        ))
}

// Returns the command of `queue remove` in clap's form.
fn remove_command<'a>(alloc: Global) -> Result<Command<'a>, AllocError>
    ensures { IfOk result (λ command. app_of command ≡ remove_app) }
{
    let command = queue_command(
        alloc,
        "spool_admin queue remove",
        "Removes a queue of a print spool that no other program has open",
    )?;
    command.arg(flag_option(
        alloc,
        "purge",
        "Also remove the jobs of the queue, which must have ended",
    ))
}

// Returns a command with the folder and the queue.
fn queue_command<'a>(
    alloc: Global,
    name: &'a str,
    about: &'a str,
) -> Result<Command<'a>, AllocError>
    ensures { IfOk result (λ command. app_of command ≡ with_place name.entry.now) }
{
    Command::new(alloc, name)
        .about(about)
        .bin_name(name)?
        .arg(word(
            alloc,
            "dir",
            "DIR",
            "Folder with the spool's file, spool.disk",
        ))?
        .arg(word(alloc, "name", "NAME", "The queue"))
}
