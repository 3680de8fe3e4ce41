//! The line that shows how much of a document was sent.
ghost use Rattle.std.specs.Prelude.{◌≡◌, ◌≤◌, IfOk, string_bytes};
ghost use Rattle.std.specs.List.{repeat};
ghost use Rattle.spool_front.specs.ProgressLines.{amount_text, bar_of, bar_text, percent, progress_line, speed};

use std::alloc::{AllocError, Global};

// The columns of the bar.
const COLUMNS: u64 = 20;

// The greatest number that is shown in a unit. Greater amounts are shown in the next unit.
const MOST_IN_UNIT: u64 = 9_999;

const KIBIBYTE: u64 = 1_024;

const MEBIBYTE: u64 = 1_048_576;

/// Returns the line: a bar if the length of the document is known, the bytes that were sent, and how many these are in a second. `millis` is
/// the time since the first byte, in milliseconds.
pub fn progress_line(
    alloc: Global,
    sent: u64,
    size: Option<u64>,
    millis: u64,
) -> Result<String, AllocError>
    ensures { IfOk result (λ line. string_bytes line ≡ progress_line sent size millis) }
{
    let bar = bar_text(alloc, sent, size)?;
    let amount = amount_text(alloc, sent)?;
    let speed = amount_text(alloc, speed(sent, millis))?;
    format!(in alloc; "spool: {bar}{amount} sent, {speed}/s")
}

fn bar_text(alloc: Global, sent: u64, size: Option<u64>) -> Result<String, AllocError>
    ensures { IfOk result (λ text. string_bytes text ≡ bar_text sent size) }
{
    match size {
        Some(size) => bar_of(alloc, percent(sent, size)),
        None => String::from_str(alloc, ""),
    }
}

// Returns a bar of 20 columns, and the number.
fn bar_of(alloc: Global, percent: u64) -> Result<String, AllocError>
    requires { percent ≤ 100 }
    ensures { IfOk result (λ text. string_bytes text ≡ bar_of percent) }
{
    let filled = percent / 5;
    let marks = repeated(alloc, "#", filled)?;
    let blanks = repeated(alloc, " ", COLUMNS - filled)?;
    format!(in alloc; "[{marks}{blanks}] {percent} %, ")
}

// Returns a text this many times.
fn repeated(alloc: Global, text: &str, count: u64) -> Result<String, AllocError>
    ensures { IfOk result (λ all. string_bytes all ≡ repeat count text.now) }
{
    text.repeat(alloc, count as usize)
}

// Returns the share of the document that was sent, in whole percent.
#[tactic(auto, using(crate::proofs::Shares::share_below))]
fn percent(sent: u64, size: u64) -> u64
    ensures value { result ≡ percent sent size }
    ensures bound { result ≤ 100 }
{
    if size <= sent {
        return 100;
    }
    (u128::from(sent) * 100 / u128::from(size)) as u64
}

// Returns the bytes in a second.
fn speed(sent: u64, millis: u64) -> u64
    ensures { result ≡ speed sent millis }
{
    sent.saturating_mul(1_000) / millis.max(1)
}

// Returns an amount: in bytes up to 9,999, then in KiB up to 9,999, and then in MiB, each rounded up.
fn amount_text(alloc: Global, bytes: u64) -> Result<String, AllocError>
    ensures { IfOk result (λ text. string_bytes text ≡ amount_text bytes) }
{
    if bytes <= MOST_IN_UNIT {
        return format!(in alloc; "{bytes} B");
    }
    let kibibytes = bytes.div_ceil(KIBIBYTE);
    if kibibytes <= MOST_IN_UNIT {
        return format!(in alloc; "{kibibytes} KiB");
    }
    let mebibytes = bytes.div_ceil(MEBIBYTE);
    format!(in alloc; "{mebibytes} MiB")
}
