//! The options and arguments of a command.
ghost use Rattle.std.specs.Prelude.{◌≡◌, ◌++◌, ◌∷◌, [], IfOk, MatchResult, Some, false, map, true};
ghost use Rattle.clap.specs.Words.{app_of, found_of, is_simple_and_free, matches_of, rows_of, rule_of};
ghost use Rattle.front_words.specs.WordFaults.{RefusesOnly};
ghost use Rattle.front_words.specs.CommandOptions.{AreFaultlessFor, flag_rule, help_rule, letter_flag_rule, letter_rule, listed, named_app, needed, several, socket_rule, task_app, text_rule, word_rule};

use crate::fault::{WordsFault, words_fault};
use clap::builder::ValueParser;
use clap::{Arg, ArgAction, ArgMatches, Command};
use std::alloc::{AllocError, Global};
use std::convert::AsStr;

// Returns the command of a task of `spool`, with the option that all tasks have.
pub fn task_command<'a>(
    alloc: Global,
    name: &'a str,
    about: &'a str,
) -> Result<Command<'a>, AllocError>
    ensures { IfOk result (λ command. app_of command ≡ task_app name.entry.now) }
{
    Command::new(alloc, name)
        .about(about)
        .bin_name(name)?
        .arg(socket_option(alloc))
}

// Returns the command of a program with its own name. It has no `-h` for help, since `-h` means a host in other implementations.
pub fn named_command<'a>(
    alloc: Global,
    name: &'a str,
    about: &'a str,
) -> Result<Command<'a>, AllocError>
    ensures { IfOk result (λ command. app_of command ≡ named_app name.entry.now) }
{
    Command::new(alloc, name)
        .about(about)
        .disable_help_flag(true)
        .arg(help_option(alloc))?
        .arg(socket_option(alloc))
}

// Returns the option `--help` without `-h`.
fn help_option<'a>(alloc: Global) -> Arg<'a>
    ensures rule { rule_of result ≡ help_rule }
    ensures local { result.global ≡ false }
{
    Arg::new(alloc, "help")
        .long("help")
        .action(ArgAction::Help)
        .help("Print help")
}

fn socket_option<'a>(alloc: Global) -> Arg<'a>
    ensures rule { rule_of result ≡ socket_rule }
    ensures local { result.global ≡ false }
{
    text_option(
        alloc,
        "socket",
        "SOCKET",
        "The socket of the service; can be repeated",
    )
    .action(ArgAction::Append)
}

// Returns an option `--NAME` with a non-empty value.
pub fn text_option<'a>(alloc: Global, name: &'a str, value: &'a str, help: &'a str) -> Arg<'a>
    ensures rule { rule_of result ≡ text_rule name.entry.now }
    ensures local { result.global ≡ false }
{
    word(alloc, name, value, help).long(name)
}

// Returns an option of one letter with a non-empty value.
pub fn letter_option<'a>(
    alloc: Global,
    letter: char,
    name: &'a str,
    value: &'a str,
    help: &'a str,
) -> Arg<'a>
    ensures rule { rule_of result ≡ letter_rule letter name.entry.now }
    ensures local { result.global ≡ false }
{
    word(alloc, name, value, help).short(letter)
}

// Returns a flag `--NAME`.
pub fn flag_option<'a>(alloc: Global, name: &'a str, help: &'a str) -> Arg<'a>
    ensures rule { rule_of result ≡ flag_rule name.entry.now }
    ensures local { result.global ≡ false }
{
    Arg::new(alloc, name)
        .long(name)
        .action(ArgAction::SetTrue)
        .help(help)
}

// Returns a flag of one letter.
pub fn letter_flag<'a>(alloc: Global, letter: char, name: &'a str, help: &'a str) -> Arg<'a>
    ensures rule { rule_of result ≡ letter_flag_rule letter name.entry.now }
    ensures local { result.global ≡ false }
{
    Arg::new(alloc, name)
        .short(letter)
        .action(ArgAction::SetTrue)
        .help(help)
}

// Returns an optional, non-empty argument.
pub fn word<'a>(alloc: Global, name: &'a str, value: &'a str, help: &'a str) -> Arg<'a>
    ensures rule { rule_of result ≡ word_rule name.entry.now }
    ensures local { result.global ≡ false }
{
    Arg::new(alloc, name)
        .value_name(value)
        .value_parser(ValueParser::NonEmptyString)
        .help(help)
}

// Returns a required, non-empty argument.
pub fn needed_word<'a>(alloc: Global, name: &'a str, value: &'a str, help: &'a str) -> Arg<'a>
    ensures rule { rule_of result ≡ needed (word_rule name.entry.now) }
    ensures local { result.global ≡ false }
{
    word(alloc, name, value, help).required(true)
}

// Returns an argument that can be repeated, and can be missing.
pub fn words<'a>(alloc: Global, name: &'a str, value: &'a str, help: &'a str) -> Arg<'a>
    ensures rule { rule_of result ≡ several (word_rule name.entry.now) }
    ensures local { result.global ≡ false }
{
    word(alloc, name, value, help).action(ArgAction::Append)
}

// Returns an argument that can be repeated, and is required at least once.
pub fn needed_words<'a>(alloc: Global, name: &'a str, value: &'a str, help: &'a str) -> Arg<'a>
    ensures rule { rule_of result ≡ needed (several (word_rule name.entry.now)) }
    ensures local { result.global ≡ false }
{
    words(alloc, name, value, help).required(true)
}

// Returns an option of one letter that can be repeated.
pub fn letter_options<'a>(
    alloc: Global,
    letter: char,
    name: &'a str,
    value: &'a str,
    help: &'a str,
) -> Arg<'a>
    ensures rule { rule_of result ≡ several (letter_rule letter name.entry.now) }
    ensures local { result.global ≡ false }
{
    letter_option(alloc, letter, name, value, help).action(ArgAction::Append)
}

// Returns an option of one letter whose value can be omitted and is then empty.
pub fn letter_list<'a>(alloc: Global, letter: char, name: &'a str, help: &'a str) -> Arg<'a>
    ensures rule { rule_of result ≡ listed (letter_rule letter name.entry.now) }
    ensures local { result.global ≡ false }
{
    letter_option(alloc, letter, name, "LIST", help)
        .num_args(0..=1)
        .default_missing_value("")
        .value_parser(ValueParser::String)
}

// Returns the option with one more letter.
pub fn lettered(arg: Arg<'_>, letter: char) -> Result<Arg<'_>, AllocError>
    ensures rule { IfOk result (λ more. rule_of more
        ≡ record (rule_of arg.entry) { short_aliases = (rule_of arg.entry).short_aliases ++ letter ∷ [] }) }
    ensures local { IfOk result (λ more. more.global ≡ arg.entry.global) }
{
    arg.short_alias(letter)
}

// Returns the values that clap finds in the arguments.
pub fn parse<'a, S: AsStr>(
    command: &mut Command<'a>,
    words: &'a [S],
) -> Result<ArgMatches<'a>, WordsFault>
    requires { is_simple_and_free (app_of command.old) ≡ true }
    ensures found { IfOk result (λ m. rows_of (found_of m) ≡ matches_of (app_of command.old) (map S.text words.entry.now)) }
    ensures taken { MatchResult result (λ _. AreFaultlessFor (app_of command.old) (map S.text words.entry.now))
        (RefusesOnly (AreFaultlessFor (app_of command.old) (map S.text words.entry.now))) }
{
    match command.try_get_matches_from_mut(words) {
        Ok(matches) => Ok(matches),
        Err(error) => Err(words_fault(error)),
    }
}
