//! The arguments of the command line.
ghost use Rattle.std.specs.Prelude.{◌≡◌, IfErr, IfOk, MatchResult, map};
ghost use Rattle.std.specs.Option.{SomeIff, option_map};
ghost use Rattle.clap.specs.Words.{app_of, found_of, matches_of, rows_of};
ghost use Rattle.spool_runtime.specs.ProgramArguments.{IsMistake, RefusesOnly};
ghost use Rattle.spool_service.specs.ServiceArguments.{AreFaultless, AreInRange, AreTaken, Fit, HasFlags, HasNumbers, IsAsked, IsMode, SaysMode, SaysTrust, level_of, octal_of, trust_in, usual_trust};
ghost use Rattle.spool_service.specs.ServiceArguments.{service_app, with_bounds, with_roles, with_socket};

use crate::child_words::{ChildWords, child_mistake, child_options, child_words};
use clap::{ArgMatches, Command};
use client_standing::Trust;
use log::Level;
use service_rules::bounds::{
    INCOMING_SECONDS, KEPT_JOBS, LEAST_ROOM, MOST_CHILDREN, USUAL_CLIENTS,
};
use spool_runtime::{
    DEFAULT_SIZE, LONGEST_ROOT, WordsFault, flag_given, flag_option, long_root, mistake,
    number_given, number_option, parse, spool_command, text_option,
};
use std::alloc::{AllocError, Global};
use std::convert::AsStr;

// The default mode of the socket, and the greatest one.
const USUAL_MODE: u32 = 0o660;

const GREATEST_MODE: u32 = 0o777;

/// The values of the arguments.
#[derive(Clone, Copy)]
pub struct ServiceWords<'a> {
    /// The folder of the spool's file.
    pub root: &'a str,
    /// The socket, by default that of the folder.
    pub listen: Option<&'a str>,
    /// The permissions of the socket.
    pub mode: u32,
    /// What a client that has proved nothing may do.
    pub trust: Trust,
    /// Whether each client sees the titles, users and options of all jobs.
    pub show_all: bool,
    /// The name or the number of the group of operators.
    pub operators: Option<&'a str>,
    /// The socket whose clients are operators.
    pub operators_socket: Option<&'a str>,
    /// The folder of proofs, by default that in DIR.
    pub proofs: Option<&'a str>,
    /// The file in the format of mime.types(5). None counts as empty.
    pub types: Option<&'a str>,
    /// The file in the format of mime.convs(5). None counts as empty.
    pub convs: Option<&'a str>,
    /// The programs file. None counts as empty.
    pub programs: Option<&'a str>,
    /// The size in bytes of a new spool.
    pub size: u64,
    /// The number of ended jobs to keep.
    pub keep: usize,
    /// A checkpoint is made when less than this percentage is free of the room that the last one left.
    pub room: u8,
    /// The most children at once.
    pub children: usize,
    /// The most clients at once.
    pub clients: usize,
    /// How long an incoming job stays whose client has disconnected, in seconds.
    pub incoming: u64,
    /// The users and the limits of children.
    pub child: ChildWords<'a>,
    /// The highest level of the lines to log.
    pub level: Level,
}

/// Reads the arguments, starting with the program's name.
pub fn read_words<'a, S: AsStr>(
    alloc: Global,
    words: &'a [S],
) -> Result<ServiceWords<'a>, WordsFault>
    ensures asked { IfOk result (IsAsked (matches_of service_app (map S.text words.entry.now))) }
    ensures in_range { IfOk result AreInRange }
    ensures taken { MatchResult result (λ _. AreTaken (map S.text words.entry.now))
        (RefusesOnly (AreTaken (map S.text words.entry.now))) }
    ensures mistake { AreFaultless (map S.text words.entry.now) → IfErr result IsMistake }
{
    let Ok(mut command) = service_command(alloc) else {
        return Err(WordsFault::Memory);
    };
    match parse(&mut command, words) {
        Ok(matches) => words_in(&mut command, &matches),
        Err(fault) => Err(fault),
    }
}

// Returns the values of the options that clap found, with defaults for the others.
fn words_in<'a>(
    command: &mut Command<'_>,
    matches: &ArgMatches<'a>,
) -> Result<ServiceWords<'a>, WordsFault>
    requires numbers { HasNumbers matches.now }
    requires flags { HasFlags matches.now }
    ensures asked { IfOk result (IsAsked (rows_of (found_of matches.now))) }
    ensures in_range { IfOk result AreInRange }
    ensures fit { MatchResult result (λ _. Fit (rows_of (found_of matches.now)))
        (RefusesOnly (Fit (rows_of (found_of matches.now)))) }
    ensures mistake { IfErr result IsMistake }
{
    let Some(root) = matches.get_str("root") else {
        return Err(mistake(command, "--root DIR is required"));
    };
    if root.len() > LONGEST_ROOT {
        return Err(long_root(command));
    }
    let Some(mode) = mode_of(matches.get_str("mode")) else {
        return Err(mistake(command, "MODE is not an octal number up to 777"));
    };
    let Some(trust) = trust_of(matches.get_str("trust"), mode) else {
        return Err(mistake(command, "TRUST is neither all nor none"));
    };
    let child = child_words(matches);
    if let Some(text) = child_mistake(child, root) {
        return Err(mistake(command, text));
    }
    Ok(ServiceWords {
        root,
        listen: matches.get_str("listen"),
        mode,
        trust,
        show_all: flag_given(matches, "show-all"),
        operators: matches.get_str("operators"),
        operators_socket: matches.get_str("operators-socket"),
        proofs: matches.get_str("proofs"),
        types: matches.get_str("types"),
        convs: matches.get_str("convs"),
        programs: matches.get_str("programs"),
        size: number_given(matches, "size", DEFAULT_SIZE),
        keep: number_given(matches, "keep", KEPT_JOBS as u64) as usize,
        room: number_given(matches, "room", u64::from(LEAST_ROOM)) as u8,
        children: number_given(matches, "children", MOST_CHILDREN as u64) as usize,
        clients: number_given(matches, "clients", USUAL_CLIENTS as u64) as usize,
        incoming: number_given(matches, "incoming", INCOMING_SECONDS),
        child,
        level: level_given(matches),
    })
}

// Returns the given mode, or the default.
fn mode_of(given: Option<&str>) -> Option<u32>
    ensures { SaysMode (option_map (λ text. text.now) given.entry) result }
{
    match given {
        Some(text) => octal_mode(text),
        None => Some(USUAL_MODE),
    }
}

// Reads a mode in octal digits.
fn octal_mode(text: &str) -> Option<u32>
    ensures { SomeIff result (IsMode text.now) (octal_of text.now) }
{
    match u32::from_str_radix(text, 8) {
        Ok(mode) if mode <= GREATEST_MODE => Some(mode),
        _ => None,
    }
}

// Returns the given trust, or the default for a socket with this mode.
fn trust_of(given: Option<&str>, mode: u32) -> Option<Trust>
    ensures { SaysTrust (option_map (λ text. text.now) given.entry) mode result }
{
    match given {
        Some(text) => trust_in(text),
        None => Some(usual_trust(mode)),
    }
}

// Reads a trust.
fn trust_in(text: &str) -> Option<Trust>
    ensures { result ≡ trust_in text.now }
{
    if text == "all" {
        Some(Trust::All)
    } else if text == "none" {
        Some(Trust::None)
    } else {
        None
    }
}

// Returns the default trust. Only the owner and the group of a socket can open it with these modes.
fn usual_trust(mode: u32) -> Trust
    ensures { result ≡ usual_trust mode }
{
    if mode == 0o600 || mode == 0o660 {
        Trust::All
    } else {
        Trust::None
    }
}

// Returns the highest level of the lines to log.
fn level_given(matches: &ArgMatches<'_>) -> Level
    requires { HasFlags matches.now }
    ensures { result ≡ level_of (rows_of (found_of matches.now)) }
{
    if flag_given(matches, "verbose") {
        Level::Debug
    } else if flag_given(matches, "quiet") {
        Level::Error
    } else {
        Level::Info
    }
}

// Returns the program's command for clap.
fn service_command<'a>(alloc: Global) -> Result<Command<'a>, AllocError>
    ensures { IfOk result (λ command. app_of command ≡ service_app) }
{
    let command = spool_command(
        alloc,
        "spool_service",
        "Serves a print spool to the clients of a Unix socket",
        "Keep the spool in the file DIR/spool.disk",
    )?;
    let command = socket_options(alloc, command)?;
    let command = role_options(alloc, command)?;
    let command = bound_options(alloc, command)?;
    let command = child_options(alloc, command)?;
    command
        .arg(flag_option(alloc, "quiet", "Log errors only"))?
        .arg(flag_option(
            alloc,
            "verbose",
            "Also log each start of a filter or backend",
        ))
}

// Adds the options of the socket.
fn socket_options<'a>(alloc: Global, command: Command<'a>) -> Result<Command<'a>, AllocError>
    ensures { IfOk result (λ more. app_of more ≡ with_socket (app_of command.entry)) }
{
    command
        .arg(text_option(
            alloc,
            "listen",
            "SOCKET",
            "Listen on this Unix socket [default: DIR/spool.sock]",
        ))?
        .arg(text_option(
            alloc,
            "mode",
            "MODE",
            "Permissions of the socket, in octal [default: 0660]",
        ))
}

// Adds the options that say who may do what.
fn role_options<'a>(alloc: Global, command: Command<'a>) -> Result<Command<'a>, AllocError>
    ensures { IfOk result (λ more. app_of more ≡ with_roles (app_of command.entry)) }
{
    command
        .arg(text_option(
            alloc,
            "trust",
            "TRUST",
            "Let clients that prove nothing do everything (all), or submit and look only (none) [default: by MODE]",
        ))?
        .arg(flag_option(
            alloc,
            "show-all",
            "Show titles, users and options of all jobs to each client",
        ))?
        .arg(text_option(
            alloc,
            "operators",
            "GROUP",
            "Let the members of GROUP do everything [default: the group of the socket]",
        ))?
        .arg(text_option(
            alloc,
            "operators-socket",
            "SOCKET",
            "Also listen on this Unix socket, whose clients may do everything [default: none]",
        ))?
        .arg(text_option(
            alloc,
            "proofs",
            "FOLDER",
            "Let clients prove who they are in FOLDER [default: DIR/proof]",
        ))
}

// Adds the options that limit jobs, the journal, children and clients.
fn bound_options<'a>(alloc: Global, command: Command<'a>) -> Result<Command<'a>, AllocError>
    ensures { IfOk result (λ more. app_of more ≡ with_bounds (app_of command.entry)) }
{
    command
        .arg(number_option(
            alloc,
            "keep",
            "N",
            (0, 1_000_000),
            "Keep at most N ended jobs, up to 1000000 [default: 500]",
        ))?
        .arg(number_option(
            alloc,
            "room",
            "PERCENT",
            (1, 90),
            "Make a checkpoint when less than PERCENT of the journal is free, 1 to 90 [default: 25]",
        ))?
        .arg(number_option(
            alloc,
            "children",
            "N",
            (1, 1_000),
            "Run at most N filters and backends at once, 1 to 1000 [default: 32]",
        ))?
        .arg(number_option(
            alloc,
            "clients",
            "N",
            (1, 1_000),
            "Serve at most N clients at once, 1 to 1000 [default: 256]",
        ))?
        .arg(number_option(
            alloc,
            "incoming",
            "SECONDS",
            (1, 86_400),
            "Cancel an unfinished job SECONDS after its client has gone, 1 to 86400 [default: 900]",
        ))
}
