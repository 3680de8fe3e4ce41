//! The options that several programs share, and what clap finds in the arguments.
ghost use Rattle.std.specs.Prelude.{◌≡◌, ℕ, ◌≤◌, IfOk, MatchResult, Some, false, map, true};
ghost use Rattle.clap.specs.Words.{app_of, found_of, is_simple_and_free, kind_of, matches_of, one_of, rows_of, rule_of};
ghost use Rattle.clap.specs.declared.builder.texts.Texts.TheVariants.{One};
ghost use Rattle.clap.specs.declared.error.kind.ErrorKind.TheVariants.{OutOfMemory};
ghost use Rattle.spool_runtime.specs.ProgramArguments.{AreFaultlessFor, HasFlag, HasNumberIn, IsMistake, PassParsers, RefusesOnly, flag_of};
ghost use Rattle.spool_runtime.specs.ProgramArguments.{is_told, number_or, option_in, spool_app, text_option};

use clap::builder::ValueParser;
use clap::error::ErrorKind;
use clap::{Arg, ArgAction, ArgMatches, Command, Error};
use program_version::VERSION;
use std::alloc::{AllocError, Global};
use std::convert::AsStr;

/// The length of a new spool in bytes, unless the arguments specify it.
pub const DEFAULT_SIZE: u64 = 4_194_304;

/// The least and the greatest length of a spool, in bytes.
pub const LEAST_SIZE: u64 = 4_096;

pub const GREATEST_SIZE: u64 = 1_073_741_824;

/// The greatest length of the folder's name, in bytes.
pub const LONGEST_ROOT: usize = 64;

/// Why the arguments cannot be used.
#[derive(Drop)]
pub enum WordsFault {
    /// They are refused, or ask for the help. The error contains the text to print.
    Refused(Error),
    /// Memory ran out while they were read or the text was made.
    Memory,
}

/// Returns the command of a program with the options of a spool: its folder, its rules and its length.
pub fn spool_command<'a>(
    alloc: Global,
    name: &'a str,
    about: &'a str,
    root_help: &'a str,
) -> Result<Command<'a>, AllocError>
    ensures { IfOk result (λ command. app_of command ≡ spool_app name.entry.now) }
{
    Command::new(alloc, name)
        .about(about)
        .version(VERSION)
        .arg(text_option(alloc, "root", "DIR", root_help))?
        .arg(text_option(
            alloc,
            "types",
            "FILE",
            "Read the media types and their rules from FILE, in the format of mime.types(5) [default: none]",
        ))?
        .arg(text_option(
            alloc,
            "convs",
            "FILE",
            "Read the conversions and their filters from FILE, in the format of mime.convs(5) [default: none]",
        ))?
        .arg(text_option(
            alloc,
            "programs",
            "FILE",
            "Read the programs of filters and backends from FILE, in the format of cegmandi_programs(5) [default: none]",
        ))?
        .arg(number_option(
            alloc,
            "size",
            "BYTES",
            (LEAST_SIZE, GREATEST_SIZE),
            "Size of a new spool in bytes, from 4096 to 1073741824 [default: 4194304]",
        ))
}

/// Returns an option whose value is a text that is not empty.
pub fn text_option<'a>(alloc: Global, name: &'a str, value: &'a str, help: &'a str) -> Arg<'a>
    ensures rule { rule_of result ≡ text_option name.entry.now }
    ensures local { result.global ≡ false }
    ensures shown { (result.val_names ≡ One value.entry) × (result.help ≡ Some help.entry) }
{
    Arg::new(alloc, name)
        .long(name)
        .value_name(value)
        .value_parser(ValueParser::NonEmptyString)
        .help(help)
}

/// Returns an option whose value is a number of this range, both ends included.
pub fn number_option<'a>(
    alloc: Global,
    name: &'a str,
    value: &'a str,
    range: (u64, u64),
    help: &'a str,
) -> Arg<'a>
    ensures rule { rule_of result ≡ option_in range.0 range.1 name.entry.now }
    ensures local { result.global ≡ false }
    ensures shown { (result.val_names ≡ One value.entry) × (result.help ≡ Some help.entry) }
{
    let (least, greatest) = range;
    Arg::new(alloc, name)
        .long(name)
        .value_name(value)
        .value_parser(ValueParser::Unsigned(least, greatest))
        .help(help)
}

/// Returns an option without a value.
pub fn flag_option<'a>(alloc: Global, name: &'a str, help: &'a str) -> Arg<'a>
    ensures rule { rule_of result ≡ flag_of name.entry.now }
    ensures local { result.global ≡ false }
    ensures shown { result.help ≡ Some help.entry }
{
    Arg::new(alloc, name)
        .long(name)
        .action(ArgAction::SetTrue)
        .value_parser(ValueParser::Bool)
        .help(help)
}

/// Returns what clap finds in the arguments.
pub fn parse<'a, S: AsStr>(
    command: &mut Command<'a>,
    words: &'a [S],
) -> Result<ArgMatches<'a>, WordsFault>
    requires { is_simple_and_free (app_of command.old) ≡ true }
    ensures found { IfOk result (λ m. rows_of (found_of m) ≡ matches_of (app_of command.old) (map S.text words.entry.now)) }
    ensures pass { IfOk result (PassParsers (app_of command.old)) }
    ensures taken { MatchResult result (λ _. AreFaultlessFor (app_of command.old) (map S.text words.entry.now))
        (RefusesOnly (AreFaultlessFor (app_of command.old) (map S.text words.entry.now))) }
{
    match command.try_get_matches_from_mut(words) {
        Ok(matches) => Ok(matches),
        Err(error) => Err(words_fault(error)),
    }
}

/// Converts an error of clap.
pub fn words_fault(error: Error) -> WordsFault
    ensures { RefusesOnly (kind_of error ≡ OutOfMemory) result }
{
    if error.kind() == ErrorKind::OutOfMemory {
        WordsFault::Memory
    } else {
        WordsFault::Refused(error)
    }
}

/// Returns the error for a folder's name that is too long.
pub fn long_root(command: &mut Command<'_>) -> WordsFault
    ensures { IsMistake result }
{
    mistake(command, "DIR is longer than 64 bytes")
}

/// Returns the error for an invalid value, in the form of clap's own errors.
pub fn mistake(command: &mut Command<'_>, text: &str) -> WordsFault
    ensures { IsMistake result }
{
    match command.error(ErrorKind::ValueValidation, text) {
        Ok(error) => WordsFault::Refused(error),
        Err(_) => WordsFault::Memory,
    }
}

/// Returns the number of an option, or `usual` if the option is not given.
pub fn number_given(matches: &ArgMatches<'_>, name: &str, usual: u64) -> u64
    requires { HasNumberIn 0 u64.MAX name.now matches.now }
    ensures number { result ≡ number_or usual (one_of name.now (rows_of (found_of matches.now))) }
    ensures in_range { (least most : ℕ) → HasNumberIn least most name.now matches.now → least ≤ usual → usual ≤ most
        → (least ≤ result) × (result ≤ most) }
{
    matches.get_one::<u64>(name).unwrap_or(usual)
}

/// Returns whether a flag is given.
pub fn flag_given(matches: &ArgMatches<'_>, name: &str) -> bool
    requires { HasFlag name.now matches.now }
    ensures { result ≡ is_told (one_of name.now (rows_of (found_of matches.now))) }
{
    matches.get_flag(name)
}
