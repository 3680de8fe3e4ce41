//! Showing how full a spool is.
ghost use Rattle.std.specs.Prelude.{◌≡◌, ◌++◌, IfErr, IfOk, OnOk, string_bytes};
ghost use Rattle.std.specs.Io.KnownBytes.{Appends};
ghost use Rattle.spool_runtime.specs.DeviceLines.{IsOfPrinting};
ghost use Rattle.spool_admin.specs.AdminFaults.{IsOfLooking};
ghost use Rattle.spool_admin.specs.Look.{account_text, area_text, jobs_text, line_of};

use crate::found::{Account, JobCounts, find};
use spool_runtime::{ShellFault, SpoolFolder};
use std::alloc::{AllocError, Global};
use std::io::Write;

/// Prints the figures of a folder's spool, and changes nothing.
pub fn look<W: Write>(rt: &HostRuntime, dir: &str, writer: &mut W) -> Result<(), ShellFault>
    ensures { IfErr result IsOfLooking }
{
    let folder = SpoolFolder::own(rt, dir)?;
    let found = match find(rt.alloc(), folder.device_there(rt)?) {
        Ok(found) => found,
        Err(fault) => return Err(ShellFault::from(fault)),
    };
    print_account(rt.alloc(), &found.account, writer)
}

// Prints the lines of an account.
fn print_account<W: Write>(
    alloc: Global,
    account: &Account,
    writer: &mut W,
) -> Result<(), ShellFault>
    ensures lines { OnOk result (Appends (W.contents writer.old) (W.contents writer.new) (account_text account.now)) }
    ensures fault { IfErr result IsOfPrinting }
{
    let text = account_text(alloc, account)?;
    match writer.write_all(text.as_bytes()) {
        Ok(()) => Ok(()),
        Err(_) => Err(ShellFault::Write),
    }
}

fn account_text(alloc: Global, account: &Account) -> Result<String, AllocError>
    ensures { IfOk result (λ text. string_bytes text ≡ account_text account.now) }
{
    let mut text = String::new(alloc);
    push_area(&mut text, account)?;
    push_line(&mut text, "queues", account.queues as u64)?;
    push_jobs(&mut text, &account.jobs)?;
    Ok(text)
}

// Appends the lines about the file and its current area.
fn push_area(text: &mut String, account: &Account) -> Result<(), AllocError>
    ensures { OnOk result (string_bytes text.new ≡ string_bytes text.old ++ area_text account.now) }
{
    push_line(text, "version", u64::from(account.version))?;
    push_line(text, "epoch", account.epoch)?;
    push_line(text, "file", account.size)?;
    push_line(text, "area", account.area)?;
    push_line(text, "used", account.used)?;
    push_line(text, "free", account.free)
}

fn push_jobs(text: &mut String, jobs: &JobCounts) -> Result<(), AllocError>
    ensures { OnOk result (string_bytes text.new ≡ string_bytes text.old ++ jobs_text jobs.now) }
{
    push_line(text, "jobs", jobs.all as u64)?;
    push_line(text, "incoming", jobs.incoming as u64)?;
    push_line(text, "waiting", jobs.waiting as u64)?;
    push_line(text, "processing", jobs.processing as u64)?;
    push_line(text, "ended", jobs.ended as u64)
}

fn push_line(text: &mut String, word: &str, number: u64) -> Result<(), AllocError>
    ensures { OnOk result (string_bytes text.new ≡ string_bytes text.old ++ line_of word.now number) }
{
    write!(text, "{word} {number}\n")
}
