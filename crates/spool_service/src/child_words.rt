//! The arguments about children: the users that they run as, and the limits of their resources.
ghost use Rattle.std.specs.Prelude.{◌≡◌, ◌*◌, ◌==◌, cond, IfOk, IfSome, IsTrue, Some, None, is_none};
ghost use Rattle.std.specs.Option.{option_map};
ghost use Rattle.clap.specs.Words.{app_of, found_of, rows_of};
ghost use Rattle.spool_service.specs.ChildArguments.{AreInChildRange, HasChildNumbers, IsAskedOfChildren, children_fit, is_absolute, limit_of, child_limits, with_children};

use clap::{ArgMatches, Command};
use spool_runtime::{ChildLimits, number_given, number_option, text_option};
use std::alloc::{AllocError, Global};

// The default size limit of a file that a child writes, in mebibytes.
const USUAL_FILE_SIZE: u64 = 1_024;

// The bytes of a mebibyte, and its blocks of 512 bytes.
const MEBIBYTE: u64 = 1_048_576;

const BLOCKS: u64 = 2_048;

/// The values of the arguments about children. A limit of 0 is not set.
#[derive(Clone, Copy)]
pub struct ChildWords<'a> {
    /// The users that children run as, separated by commas.
    pub users: Option<&'a str>,
    /// The memory of each process of a child, in mebibytes.
    pub memory: u64,
    /// The number of processes of the user of a child.
    pub processes: u64,
    /// The size of a file that a child writes, in mebibytes.
    pub file_size: u64,
    /// The number of open files of each process of a child.
    pub open_files: u64,
}

/// Returns the values of the options that clap found, with defaults for the others.
pub fn child_words<'a>(matches: &ArgMatches<'a>) -> ChildWords<'a>
    requires { HasChildNumbers matches.now }
    ensures asked { IsAskedOfChildren (rows_of (found_of matches.now)) result }
    ensures in_range { AreInChildRange result }
{
    ChildWords {
        users: matches.get_str("children-user"),
        memory: number_given(matches, "child-memory", 0),
        processes: number_given(matches, "child-processes", 0),
        file_size: number_given(matches, "child-file-size", USUAL_FILE_SIZE),
        open_files: number_given(matches, "child-open-files", 0),
    }
}

/// Returns what is wrong with these values together, if anything.
pub fn child_mistake(child: ChildWords<'_>, root: &str) -> Option<&'static str>
    ensures { is_none result ≡ children_fit (option_map (λ users. users.now) child.entry.users) child.entry.processes root.now }
{
    match child.users {
        Some(_) if !is_absolute(root) => Some("--children-user needs an absolute DIR"),
        None if child.processes != 0 => Some("--child-processes needs --children-user"),
        _ => None,
    }
}

fn is_absolute(path: &str) -> bool
    ensures { result ≡ is_absolute path.now }
{
    path.as_bytes().first() == Some(&b'/')
}

/// Returns the limits of a child.
pub fn child_limits(child: ChildWords<'_>) -> ChildLimits
    requires { AreInChildRange child }
    ensures { result ≡ child_limits child.entry }
{
    ChildLimits {
        file_blocks: (child.file_size * BLOCKS) as u32,
        memory: limit_of(child.memory * MEBIBYTE),
        processes: limit_of(child.processes),
        open_files: limit_of(child.open_files),
    }
}

// Returns a limit, unless it is 0.
fn limit_of(number: u64) -> Option<u64>
    ensures { result ≡ limit_of number }
{
    if number == 0 { None } else { Some(number) }
}

/// Adds the options about children.
pub fn child_options<'a>(alloc: Global, command: Command<'a>) -> Result<Command<'a>, AllocError>
    ensures { IfOk result (λ more. app_of more ≡ with_children (app_of command.entry)) }
{
    command
        .arg(text_option(
            alloc,
            "children-user",
            "USERS",
            "Run filters and backends as these users, separated by commas [default: the user of the service]",
        ))?
        .arg(number_option(
            alloc,
            "child-memory",
            "MIB",
            (0, 1_048_576),
            "Limit the memory of each process of a child to MIB mebibytes, 0 for no limit [default: 0]",
        ))?
        .arg(number_option(
            alloc,
            "child-processes",
            "N",
            (0, 100_000),
            "Limit the user of a child to N processes, 0 for no limit [default: 0]",
        ))?
        .arg(number_option(
            alloc,
            "child-file-size",
            "MIB",
            (1, 1_048_576),
            "Limit each file that a child writes to MIB mebibytes [default: 1024]",
        ))?
        .arg(number_option(
            alloc,
            "child-open-files",
            "N",
            (0, 1_048_576),
            "Limit each process of a child to N open files, 0 for no limit [default: 0]",
        ))
}
