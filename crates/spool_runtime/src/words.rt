//! The command-line arguments of `spool_shell`.
ghost use Rattle.std.specs.Prelude.{◌≡◌, ◌<◌, ◌≤◌, ◌↔◌, IfErr, IfOk, IfSome, IsSomeAnd, IsTrue, MatchResult, length, map};
ghost use Rattle.std.specs.Option.{option_map};
ghost use Rattle.clap.specs.Words.{app_of};
ghost use Rattle.spool_runtime.specs.ProgramArguments.{AreFaultless, AreTaken, IsMistake, RefusesOnly, convs_in, devices_in, programs_in};
ghost use Rattle.spool_runtime.specs.ProgramArguments.{reserve_in, root_in, shell_app, size_in, types_in};

use crate::options::{
    DEFAULT_SIZE, LONGEST_ROOT, WordsFault, flag_given, flag_option, long_root, number_given,
    parse, spool_command,
};
use clap::Command;
use std::alloc::{AllocError, Global};
use std::convert::AsStr;

/// The values of the arguments.
#[derive(Clone, Copy)]
pub struct ShellWords<'a> {
    /// The folder of the spool's file. Without one, the spool is a disk in memory.
    pub root: Option<&'a str>,
    /// The file of types (mime.types(5)). Without one, it counts as empty.
    pub types: Option<&'a str>,
    /// The file of conversions (mime.convs(5)). Without one, it counts as empty.
    pub convs: Option<&'a str>,
    /// The file that lists the programs of filters and backends. Without one, it counts as empty.
    pub programs: Option<&'a str>,
    /// The length of a new spool, in bytes.
    pub size: u64,
    /// Whether commands that would take room from the reserve of the journal are refused.
    pub reserve: bool,
    /// Whether to list the devices of the backends instead of serving commands.
    pub devices: bool,
}

/// Reads the command-line arguments, which begin with the program's name.
pub fn read_words<'a, S: AsStr>(alloc: Global, words: &'a [S]) -> Result<ShellWords<'a>, WordsFault>
    ensures root { IfOk result (λ found.
        option_map (λ dir. dir.now) found.root ≡ root_in (map S.text words.entry.now)) }
    ensures types { IfOk result (λ found.
        option_map (λ file. file.now) found.types ≡ types_in (map S.text words.entry.now)) }
    ensures convs { IfOk result (λ found.
        option_map (λ file. file.now) found.convs ≡ convs_in (map S.text words.entry.now)) }
    ensures programs { IfOk result (λ found.
        option_map (λ file. file.now) found.programs ≡ programs_in (map S.text words.entry.now)) }
    ensures size { IfOk result (λ found. found.size ≡ size_in (map S.text words.entry.now)) }
    ensures reserve { IfOk result (λ found. found.reserve ≡ reserve_in (map S.text words.entry.now)) }
    ensures devices { IfOk result (λ found. found.devices ≡ devices_in (map S.text words.entry.now)) }
    ensures short_root { IfOk result (λ found. IfSome found.root (λ dir. length dir.now ≤ 64)) }
    ensures size_in_range { IfOk result (λ found. (4096 ≤ found.size) × (found.size ≤ 1073741824)) }
    ensures taken { MatchResult result (λ _. AreTaken (map S.text words.entry.now))
        (RefusesOnly (AreTaken (map S.text words.entry.now))) }
    ensures mistake { AreFaultless (map S.text words.entry.now) → IfErr result IsMistake }
{
    let Ok(mut command) = shell_command(alloc) else {
        return Err(WordsFault::Memory);
    };
    let matches = match parse(&mut command, words) {
        Ok(matches) => matches,
        Err(fault) => return Err(fault),
    };
    let root = matches.get_str("root");
    if is_long(root) {
        return Err(long_root(&mut command));
    }
    let types = matches.get_str("types");
    let convs = matches.get_str("convs");
    let programs = matches.get_str("programs");
    let reserve = flag_given(&matches, "reserve");
    Ok(ShellWords {
        root,
        types,
        convs,
        programs,
        size: number_given(&matches, "size", DEFAULT_SIZE),
        reserve,
        devices: flag_given(&matches, "devices"),
    })
}

// Returns the definition of the program's command for clap.
fn shell_command<'a>(alloc: Global) -> Result<Command<'a>, AllocError>
    ensures { IfOk result (λ command. app_of command ≡ shell_app) }
{
    let command = spool_command(
        alloc,
        "spool_shell",
        "Reads print spooler commands from standard input and writes the replies to standard output",
        "Keep the spool in the file DIR/spool.disk [default: in memory]",
    )?;
    command
        .arg(flag_option(
            alloc,
            "reserve",
            "Answer create, send and close with `error full` if they would take room from the reserve",
        ))?
        .arg(flag_option(
            alloc,
            "devices",
            "List the devices that the backends find, and exit",
        ))
}

// Returns whether the folder's name is too long.
fn is_long(root: Option<&str>) -> bool
    ensures { IsTrue result ↔ IsSomeAnd root.entry (λ dir. 64 < length dir.now) }
{
    match root {
        Some(dir) => dir.len() > LONGEST_ROOT,
        None => false,
    }
}
