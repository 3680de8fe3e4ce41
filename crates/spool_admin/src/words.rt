//! The words of the command line.
ghost use Rattle.std.specs.Prelude.{◌≡◌, [], IfNone, IfOk, IfSome, MatchResult, codes, drop, false, map};
ghost use Rattle.std.specs.Option.{option_map};
ghost use Rattle.clap.specs.Words.{IsUnsignedIn, app_of, first_of, found_of, matches_of, rows_of, rule_of};
ghost use Rattle.spool_runtime.specs.ProgramArguments.{RefusesOnly, number_of};
ghost use Rattle.spool_admin.specs.AdminForms.{AreFaultlessBy, AreTakenBy, IsAskedBy, IsInRange, dir_of, form_of, form_of_act, into_dir_of};
ghost use Rattle.spool_admin.specs.AdminArguments.{AreFaultless, ArePlaces, AreTaken, HasTask, IsAsked, IsFor, IsGrow, IsLook, IsOfTask, IsSize, IsSplit, admin_app, needed, rest_of, several};

use crate::queue_words::{RemoveWords, SetWords, read_remove_words, read_set_words};
use clap::builder::ValueParser;
use clap::{Arg, ArgAction, ArgMatches, Command};
use program_version::VERSION;
use spool_runtime::{GREATEST_SIZE, LEAST_SIZE, WordsFault, mistake, parse};
use std::alloc::{AllocError, Global};
use std::convert::AsStr;

/// The request that the words make.
#[derive(Drop)]
pub enum Asked<'a> {
    /// Show the contents of the spool in this folder.
    Look(&'a str),
    /// Give the spool in this folder a file of this number of bytes.
    Grow(&'a str, u64),
    /// Move some of the queues to a spool of their own.
    Split(Split<'a>),
    /// Set fields of a queue.
    Set(SetWords<'a>),
    /// Remove a queue.
    Remove(RemoveWords<'a>),
}

impl<'a> Asked<'a> {
    /// Returns the folder of the spool.
    pub fn dir(&self) -> &'a str
        ensures { result.now ≡ dir_of self.now }
    {
        match self {
            Asked::Look(dir) => *dir,
            Asked::Grow(dir, _) => *dir,
            Asked::Split(parts) => parts.from,
            Asked::Set(words) => words.dir,
            Asked::Remove(words) => words.dir,
        }
    }

    /// Returns the folder for the part of a split, or that of the spool.
    pub fn into_dir(&self) -> &'a str
        ensures { result.now ≡ into_dir_of self.now }
    {
        match self {
            Asked::Split(parts) => parts.into,
            _ => self.dir(),
        }
    }
}

/// A split: the folder of the whole spool, the folder for the part, and the queues of the part, at least one.
#[derive(Drop)]
pub struct Split<'a> {
    pub from: &'a str,
    pub into: &'a str,
    pub queues: Vec<&'a str>,
}

/// The form of a command line. Each form has its own options.
#[derive(Clone, Copy)]
enum Form {
    /// A task on the spool of a folder.
    Folder,
    /// `queue set`
    Set,
    /// `queue remove`
    Remove,
}

/// Reads the words of the command line. The first word is the program's name.
pub fn read_words<'a, S: AsStr>(alloc: Global, words: &'a [S]) -> Result<Asked<'a>, WordsFault>
    ensures asked { IfOk result (IsAskedBy (map S.text words.entry.now)) }
    ensures in_range { IfOk result IsInRange }
    ensures taken { MatchResult result (λ _. AreFaultlessBy (map S.text words.entry.now))
        (RefusesOnly (AreTakenBy (map S.text words.entry.now))) }
{
    match form_of(words) {
        Form::Folder => read_folder_words(alloc, words),
        Form::Set => match read_set_words(alloc, after_two(words)) {
            Ok(words) => Ok(Asked::Set(words)),
            Err(fault) => Err(fault),
        },
        Form::Remove => match read_remove_words(alloc, after_two(words)) {
            Ok(words) => Ok(Asked::Remove(words)),
            Err(fault) => Err(fault),
        },
    }
}

// Returns the form of the words.
fn form_of<S: AsStr>(words: &[S]) -> Form
    ensures { result ≡ form_of (map S.text words.now) }
{
    match words {
        [_, queue, act, ..] if queue.as_str() == "queue" => form_of_act(act.as_str()),
        _ => Form::Folder,
    }
}

fn form_of_act(act: &str) -> Form
    ensures { result ≡ form_of_act act.now }
{
    if act == "set" {
        Form::Set
    } else if act == "remove" {
        Form::Remove
    } else {
        Form::Folder
    }
}

// Returns the words without the first two, if there are so many.
fn after_two<S: AsStr>(words: &[S]) -> &[S]
    ensures { map S.text result.now ≡ drop 2 (map S.text words.now) }
{
    if 2 <= words.len() { &words[2..] } else { &[] }
}

// Reads the words of a task on the spool of a folder.
fn read_folder_words<'a, S: AsStr>(alloc: Global, words: &'a [S]) -> Result<Asked<'a>, WordsFault>
    ensures asked { IfOk result (IsAsked (matches_of admin_app (map S.text words.entry.now))) }
    ensures taken { MatchResult result (λ _. AreFaultless (map S.text words.entry.now))
        (RefusesOnly (AreTaken (map S.text words.entry.now))) }
{
    let Ok(mut command) = admin_command(alloc) else {
        return Err(WordsFault::Memory);
    };
    let matches = match parse(&mut command, words) {
        Ok(matches) => matches,
        Err(fault) => return Err(fault),
    };
    match task_of(alloc, &matches) {
        Ok(Some(asked)) => Ok(asked),
        Ok(None) => Err(mistake(
            &mut command,
            "expected `look DIR`, `grow DIR BYTES`, `split DIR INTO QUEUE..`, `queue set DIR NAME` or `queue remove DIR NAME`",
        )),
        Err(_) => Err(WordsFault::Memory),
    }
}

// Returns the request that the values make, if they are those of a task.
fn task_of<'a>(alloc: Global, matches: &ArgMatches<'a>) -> Result<Option<Asked<'a>>, AllocError>
    ensures asked { IfOk result (λ found. IfSome found (IsAsked (rows_of (found_of matches.now)))) }
    ensures none { IfOk result (λ found. IfNone found (¬ (HasTask (rows_of (found_of matches.now))))) }
{
    let Some(task) = text_given(matches, "task") else {
        return Ok(None);
    };
    let Some(dir) = text_given(matches, "dir") else {
        return Ok(None);
    };
    asked_with_rest(alloc, matches, task, dir)
}

/// Returns the text of a word that is given once.
pub fn text_given<'a>(matches: &ArgMatches<'a>, name: &str) -> Option<&'a str>
    ensures { option_map (λ text. text.now) result ≡ first_of name.now (rows_of (found_of matches.now)) }
{
    matches.get_str(name)
}

// Returns the request of a task with the words after the folder, if any are given.
fn asked_with_rest<'a>(
    alloc: Global,
    matches: &ArgMatches<'a>,
    task: &'a str,
    dir: &'a str,
) -> Result<Option<Asked<'a>>, AllocError>
    ensures asked { IfOk result (λ found. IfSome found (IsFor task.entry.now dir.entry.now (rest_of (rows_of (found_of matches.now))))) }
    ensures none { IfOk result (λ found. IfNone found (¬ (IsOfTask task.entry.now (rest_of (rows_of (found_of matches.now)))))) }
{
    match matches.get_strs("rest") {
        Some(rest) => asked_of(alloc, task, dir, rest),
        None => asked_of(alloc, task, dir, &[]),
    }
}

// Returns the request that these words make, if they are those of a task.
fn asked_of<'a>(
    alloc: Global,
    task: &'a str,
    dir: &'a str,
    rest: &[&'a str],
) -> Result<Option<Asked<'a>>, AllocError>
    ensures asked { IfOk result (λ found. IfSome found (IsFor task.entry.now dir.entry.now (map (λ word. word.now) rest.now))) }
    ensures none { IfOk result (λ found. IfNone found (¬ (IsOfTask task.entry.now (map (λ word. word.now) rest.now)))) }
{
    match task {
        "look" => Ok(look_of(dir, rest)),
        "grow" => Ok(grow_of(dir, rest)),
        "split" => split_of(alloc, dir, rest),
        _ => Ok(None),
    }
}

fn look_of<'a>(dir: &'a str, rest: &[&'a str]) -> Option<Asked<'a>>
    ensures asked { IfSome result (IsLook dir.entry.now (map (λ word. word.now) rest.now)) }
    ensures none { IfNone result (¬ (map (λ word. word.now) rest.now ≡ [])) }
{
    if rest.is_empty() {
        Some(Asked::Look(dir))
    } else {
        None
    }
}

fn grow_of<'a>(dir: &'a str, rest: &[&'a str]) -> Option<Asked<'a>>
    ensures asked { IfSome result (IsGrow dir.entry.now (map (λ word. word.now) rest.now)) }
    ensures none { IfNone result (¬ (IsSize (map (λ word. word.now) rest.now))) }
{
    match rest {
        [text] => Some(Asked::Grow(dir, size_of(text)?)),
        _ => None,
    }
}

fn split_of<'a>(
    alloc: Global,
    dir: &'a str,
    rest: &[&'a str],
) -> Result<Option<Asked<'a>>, AllocError>
    ensures asked { IfOk result (λ found. IfSome found (IsSplit dir.entry.now (map (λ word. word.now) rest.now))) }
    ensures none { IfOk result (λ found. IfNone found (¬ (ArePlaces (map (λ word. word.now) rest.now)))) }
{
    match rest.split_first() {
        Some((into, queues)) if !queues.is_empty() => Ok(Some(Asked::Split(Split {
            from: dir,
            into,
            queues: queues.to_vec(alloc)?,
        }))),
        _ => Ok(None),
    }
}

// Returns the number in the text, if it is a length that a file may have.
fn size_of(text: &str) -> Option<u64>
    ensures value { IfSome result (λ size. IsUnsignedIn 4096 1073741824 text.now × (size ≡ number_of text.now)) }
    ensures none { IfNone result (¬ (IsUnsignedIn 4096 1073741824 text.now)) }
{
    match text.parse::<u64>() {
        Ok(size) if LEAST_SIZE <= size && size <= GREATEST_SIZE => Some(size),
        _ => None,
    }
}

// Returns the program's command in clap's form.
fn admin_command<'a>(alloc: Global) -> Result<Command<'a>, AllocError>
    ensures { IfOk result (λ command. app_of command ≡ admin_app) }
{
    Command::new(alloc, "spool_admin")
        .about("Inspects, enlarges, splits or edits a print spool that no other program has open")
        .version(VERSION)
        .arg(word(
            alloc,
            "task",
            "TASK",
            "`look DIR` shows how full the spool is, `grow DIR BYTES` enlarges its file, `split DIR INTO QUEUE..` moves queues to a new spool, `queue set DIR NAME OPTION..` sets fields of a queue, and `queue remove DIR NAME` removes a queue",
        ))?
        .arg(word(
            alloc,
            "dir",
            "DIR",
            "Folder with the spool's file, spool.disk",
        ))?
        .arg(more_words(alloc))
}

/// Returns a required word that is not empty.
pub fn word<'a>(alloc: Global, name: &'a str, value: &'a str, help: &'a str) -> Arg<'a>
    ensures rule { rule_of result ≡ needed name.entry.now }
    ensures local { result.global ≡ false }
{
    Arg::new(alloc, name)
        .value_name(value)
        .required(true)
        .value_parser(ValueParser::NonEmptyString)
        .help(help)
}

// Returns any number of words after the folder.
fn more_words<'a>(alloc: Global) -> Arg<'a>
    ensures rule { rule_of result ≡ several (codes "rest") }
    ensures local { result.global ≡ false }
{
    Arg::new(alloc, "rest")
        .value_name("WORD")
        .action(ArgAction::Append)
        .value_parser(ValueParser::NonEmptyString)
        .help(
            "For `grow`, the new size of the file in bytes. For `split`, the folder of the new spool and the names of the queues",
        )
}
