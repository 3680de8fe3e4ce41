//! Runs the stored scripts: an engine over a disk in memory serves each script, and its replies are compared with the
//! expected replies.
//!
//! # Cases
//!
//! A case is in the folder that the first argument names, or in the current folder. `NAME.script` contains the commands
//! and `NAME.replies` the expected replies. Four kinds of lines cut a script:
//!
//! - After a line `# reopen` a new engine serves the rest, over the spool opened again on the same disk.
//! - After a line `# run` the same engine runs again.
//! - After a line `# tick` it makes one tick and then runs again.
//! - After a line `# client` a client sends the text that follows. It is served one command at a time, as long as a
//!   complete command is buffered.
//!
//! These files are optional:
//!
//! - `NAME.types` contains rules of types, and `NAME.convs` conversions.
//! - `NAME.lang` contains the locale of type detection. The default is `C`.
//! - `NAME.size` contains the length of the disk in bytes. The default is 4,194,304.
//! - `NAME.version` contains the version of the new spool's first area. Only that byte is written, after the spool is
//!   made. The default is the newest version.
//! - `NAME.children` specifies how the children of rounds behave ([`outcomes`]). Without it no child can be started.
//! - `NAME.fuse` contains two numbers ([`fuse`]). The case is served with a disk that fails after the first number of
//!   calls, then after each further number up to the last. If the word `once` precedes them, the disk fails at one call
//!   only. Without the file it does not fail.
//! - `NAME.limits` specifies that the reader fails, or how many bytes the writer takes ([`limits`]).
//! - `NAME.account` contains the expected account, in addition to the replies ([`served::Served`]): the runs whose
//!   reader or writer failed or that ran out of memory, the result of each tick ([`ticks`]), the parts whose disk
//!   failed, and then the orders of the children ([`orders`]). Without the file the account must be empty.
//!
//! The fuse applies up to the first opening, and the limits up to the first cut. The rest of the script is served
//! without them, and the children continue from their present state.
//!
//! Each case is served several times ([`ways::ways`]). The script is read whole, byte by byte and in pieces. The
//! replies are written whole and a few bytes at a time. Reads and writes are interrupted. The replies and the account
//! must be the same each time. The children start from scratch each time.
//!
//! # Output
//!
//! The program prints a line for each case, in the order of the names: `NAME ok`,
//! `NAME differs at line N: wanted .., got ..` (or `at line N of its account`), or `NAME` and why the case cannot be
//! served. The last line is `N scripts, M differ`. The status is 1 if a case differs. Each file in the folder belongs
//! to a case, and a case without a script or without replies counts as different, so none is skipped.
//!
//! # Promises
//!
//! - [`compare::find_difference`]: no difference is reported exactly if the replies, and the account, are the expected
//!   bytes.
//! - [`cut::next_part`]: the script is a part, the line that cuts, and the rest after it. No such line begins before.
//! - [`paced`]: a reader yields the bytes of the script, and a writer stores the bytes that it takes, at any pace and
//!   with any limits.
//! - [`outcomes::read_children`]: no child was started before the script is served.
//! - [`ticks::push_tick`]: a tick is reported by its counts, or by its fault.
//!
//! # Not proved
//!
//! That the replies to a script are the expected ones is a test, also with children in memory, and with disks, readers
//! and writers that fail.
#![tactic(auto)]

mod case;
mod compare;
mod cut;
mod fault;
mod fuse;
mod limits;
mod orders;
mod outcomes;
mod paced;
mod served;
mod ticks;
mod ways;

use case::{Case, case_names, read_case};
use compare::{Difference, find_difference};
use fault::CaseFault;
use served::serve;
use std::alloc::Global;
use std::fs::{File, Files};
use std::process::ExitCode;
use std::rt::Env;
use std::{env, io};
use ways::{Way, ways};

// Returns how the result of a case differs from the expected result, if it does: in the first such way, with the least
// such number of calls.
fn first_difference(alloc: Global, case: &Case) -> Result<Option<String>, CaseFault> {
    for way in ways() {
        for calls in case.fuse.first..=case.fuse.last {
            let found = difference(alloc, case, way, calls)?;
            if found.is_some() {
                return Ok(found);
            }
        }
    }
    Ok(None)
}

// Returns how the result of a case differs from the expected result, if it does. The replies are compared first.
fn difference(
    alloc: Global,
    case: &Case,
    way: Way,
    calls: u64,
) -> Result<Option<String>, CaseFault> {
    let served = serve(alloc, case, way, calls)?;
    if let Some(found) = find_difference(&case.replies, &served.replies) {
        return Ok(Some(told(alloc, "", &found, way)?));
    }
    match find_difference(&case.account, &served.account) {
        Some(found) => Ok(Some(told(alloc, " of its account", &found, way)?)),
        None => Ok(None),
    }
}

// Returns the text that reports a difference.
fn told(alloc: Global, place: &str, found: &Difference<'_>, way: Way) -> Result<String, CaseFault> {
    let Difference { line, wanted, got } = found;
    let wanted = wanted.escape_ascii();
    let got = got.escape_ascii();
    let name = way.name;
    Ok(format!(in alloc; "differs at line {line}{place}: wanted {wanted}, got {got}, {name}")?)
}

// Serves a case and prints the result. Returns whether the case passed.
fn passes<R: Files<File = File> + AllocGlobal + Print>(
    rt: &R,
    folder: &str,
    name: &str,
) -> io::Result<bool> {
    let outcome = match read_case(rt, folder, name) {
        Ok(case) => first_difference(rt.alloc(), &case),
        Err(fault) => Err(fault),
    };
    match outcome {
        Ok(None) => {
            println!(rt; "{name} ok")?;
            return Ok(true);
        }
        Ok(Some(text)) => println!(rt; "{name} {text}")?,
        Err(fault) => println!(rt; "{name} {fault}")?,
    }
    Ok(false)
}

// Returns the folder of the cases: the first argument, or the current folder.
fn given_folder<R: Env + AllocGlobal>(rt: &R) -> io::Result<String> {
    match env::args(rt)?.nth(1) {
        Some(folder) => Ok(folder),
        None => Ok(String::from_str(rt.alloc(), ".")?),
    }
}

fn main(rt: HostRuntime) -> io::Result<ExitCode> {
    let folder = given_folder(&rt)?;
    let names = case_names(&rt, folder.as_str())?;
    let mut differing = 0usize;
    for name in &names {
        if !passes(&rt, folder.as_str(), name.as_str())? {
            differing = differing.saturating_add(1);
        }
    }
    println!(rt; "{} scripts, {differing} differ", names.len())?;
    if differing == 0 {
        Ok(ExitCode::SUCCESS)
    } else {
        Ok(ExitCode::FAILURE)
    }
}
