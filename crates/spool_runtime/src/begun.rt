//! Checks that the program can learn how its children end.
//!
//! A program that is started with SIGCHLD ignored keeps ignoring it. Its children then vanish when they end, so the
//! program cannot know how they ended, and each job would be printed again and again.
ghost use Rattle.std.specs.Prelude.{◌≡◌, ◌⊎◌, OnOk, false, true, map, IfErr, IfOk};
ghost use Rattle.std.specs.List.{list_any};
ghost use Rattle.spool_runtime.specs.Begun.{IsOfEnds, ignores_in, is_odd, reports_ignored};
ghost use Rattle.spool_runtime.specs.declared.fault.ShellFault.TheVariants.{Ignored, Memory};

use crate::device_lines::lines_of;
use crate::fault::ShellFault;
use std::alloc::{AllocError, Global};
use std::fs;
use std::io::ErrorKind;

// The system's file with the status of this process.
const STATUS: &str = "/proc/self/status";

// The line with the mask of ignored signals, in hexadecimal digits. SIGCHLD, number 17, is the lowest bit of the fifth
// digit from the end.
const IGNORED: &[u8] = b"SigIgn:";

/// Fails with `Ignored` if SIGCHLD is ignored, so that the ends of children cannot be known.
pub fn check_child_ends(rt: &HostRuntime) -> Result<(), ShellFault>
    ensures { IfErr result IsOfEnds }
{
    match fs::read_to_string(rt, STATUS) {
        Ok(status) => check_status(rt.alloc(), status.as_bytes()),
        Err(error) if error.kind() == ErrorKind::OutOfMemory => Err(ShellFault::Memory),
        // The file cannot be read, for example because this system has none: nothing shows that the signal is ignored.
        Err(_) => Ok(()),
    }
}

fn check_status(alloc: Global, status: &[u8]) -> Result<(), ShellFault>
    ensures ok { OnOk result (ignores_in status.now ≡ false) }
    ensures err { IfErr result (λ fault. ((fault ≡ Ignored) × (ignores_in status.now ≡ true)) ⊎ (fault ≡ Memory)) }
{
    if ignores_in(alloc, status)? {
        Err(ShellFault::Ignored)
    } else {
        Ok(())
    }
}

fn ignores_in(alloc: Global, status: &[u8]) -> Result<bool, AllocError>
    ensures { IfOk result (λ ignores. ignores ≡ ignores_in status.now) }
{
    let lines = lines_of(alloc, status)?;
    Ok(any_ignored(&lines))
}

fn any_ignored(lines: &[&[u8]]) -> bool
    ensures { result ≡ list_any reports_ignored (map (λ line. line.now) lines.now) }
{
    lines.iter().any(|line| reports_ignored(line))
}

// Returns whether the line says that SIGCHLD is ignored.
fn reports_ignored(line: &[u8]) -> bool
    ensures { result ≡ reports_ignored line.now }
{
    let length = line.len();
    length >= 5 && line.starts_with(IGNORED) && is_odd(line[length - 5])
}

// Returns whether this is the code of an odd hexadecimal digit, in lower case.
fn is_odd(digit: u8) -> bool
    ensures { result ≡ is_odd digit }
{
    matches!(digit, b'1' | b'3' | b'5' | b'7' | b'9' | b'b' | b'd' | b'f')
}
