//! Sizes and moments for users.
ghost use Rattle.std.specs.Prelude.{◌≡◌, IfOk, string_bytes};
ghost use Rattle.front_texts.specs.Sizes.{size_text, IsMomentText};

use httpdate::{HttpDate, fmt_http_date};
use spool_types::Moment;
use std::alloc::{AllocError, Global};

// The greatest number that is shown in a unit. Greater sizes are shown in the next unit.
const MOST_IN_UNIT: u32 = 9_999;

/// Returns a size: in bytes up to 9,999, then in KiB up to 9,999, and then in MiB, each rounded up.
pub fn size_text(alloc: Global, bytes: u32) -> Result<String, AllocError>
    ensures value { IfOk result (λ text. string_bytes text ≡ size_text bytes) }
{
    if bytes <= MOST_IN_UNIT {
        return format!(in alloc; "{bytes} B");
    }
    let kibibytes = bytes.div_ceil(1024);
    if kibibytes <= MOST_IN_UNIT {
        return format!(in alloc; "{kibibytes} KiB");
    }
    let mebibytes = bytes.div_ceil(1_048_576);
    format!(in alloc; "{mebibytes} MiB")
}

/// Returns a moment: the date and time in UTC in the format of HTTP, up to the year 9999, and the number of seconds after that.
pub fn moment_text(alloc: Global, moment: Moment) -> Result<String, AllocError>
    ensures value { IfOk result (λ text. IsMomentText moment (string_bytes text)) }
{
    let seconds = moment.get();
    match HttpDate::from_unix_secs(seconds) {
        Ok(date) => fmt_http_date(alloc, date),
        Err(_) => format!(in alloc; "second {seconds}"),
    }
}
