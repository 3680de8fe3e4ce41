//! How the connection of `appsocket` ends, and the exit status of that (backend(7)).
//!
//! | All bytes sent | Then | Options of the URI | The document | Status |
//! |---|---|---|---|---|
//! | no | the printer closes the connection, or it is reset or lost | any | is not printed | 1 |
//! | yes | the printer closes it after the backend closed its half | any | is printed | 0 |
//! | yes | the printer closes it before that | `waiteof=true` | counts as not printed | 1 |
//! | yes | the printer closes it before that | `waiteof=false` | counts as printed | 0 |
//! | yes | the printer does not close it in time | `waiteof=true` | counts as not printed | 1 |
//! | yes | the printer does not close it in time | `waiteof=false` | counts as printed | 0 |
//! | yes | it is reset or lost | no `afterlast` | counts as not printed | 1 |
//! | yes | it is reset or lost | `afterlast=retry` | is tried again later | 6 |
//! | yes | it is reset or lost | `afterlast=done` | counts as printed | 0 |
//!
//! After status 1 the error policy of the queue decides. `waiteof` is `true` by default, as that of CUPS's `socket`. If an option is
//! repeated, the last one counts. Another value of `waiteof` or `afterlast` is refused, because nobody knows whether a page may be printed
//! twice then.
ghost use Rattle.std.specs.Prelude.{◌≡◌, true, IfOk};
ghost use Rattle.std.specs.Option.{option_map};
ghost use Rattle.std.specs.String.{string_bytes};
ghost use Rattle.builtin_stages.specs.ConnectionEnds.{after_last_of, connection_status, deed_of, end_line, end_of_connection, is_printed, level_of, outcome_of, rules_of, waits_of};

use crate::fault::ToolFault;
use device_options::last_value;
use device_uri::DeviceOption;
use std::alloc::{AllocError, Global};

/// The meaning of a connection that is reset or lost after the last byte (`afterlast`).
#[derive(Clone, Copy)]
pub enum AfterLast {
    /// The document counts as printed.
    Done,
    /// The job is tried again later, so its document may be printed twice.
    Retry,
    /// The attempt failed, and the error policy of the queue decides.
    Policy,
}

/// The options that decide about the end of a connection.
#[derive(Clone, Copy)]
pub struct EndRules {
    /// Whether a document is printed only if the printer closes the connection at the end (`waiteof`).
    pub waits: bool,
    pub after_last: AfterLast,
}

/// How a connection was seen to end.
#[derive(Clone, Copy)]
pub enum Observed {
    /// The printer closed it before all bytes were sent.
    ClosedEarly,
    /// It was reset or lost before all bytes were sent.
    ResetEarly,
    /// The printer closed it after all bytes were sent, before the backend closed its half.
    ClosedFirst,
    /// The printer closed it after all bytes were sent and the backend closed its half.
    ClosedLast,
    /// It was reset or lost after all bytes were sent.
    ResetLate,
    /// All bytes were sent, and the printer did not close it in time.
    StillOpen,
}

/// The meaning of a connection's end.
#[derive(Clone, Copy)]
pub enum ConnectionEnd {
    /// The document was printed, or counts as printed.
    Printed,
    /// The document counts as printed, although the connection was reset or lost after the last byte.
    PrintedBeforeReset,
    /// The printer closed the connection too early.
    ClosedTooEarly,
    /// The connection was reset or lost before all bytes were sent.
    ResetTooEarly,
    /// The printer did not close the connection in time.
    NotClosed,
    /// The connection was reset or lost after the last byte, and the attempt failed.
    FailedByReset,
    /// The connection was reset or lost after the last byte, and the job is tried again later.
    RetryAfterReset,
}

impl ConnectionEnd {
    /// Returns the exit status (backend(7)).
    pub fn status(self) -> u8
        ensures { result ≡ connection_status self }
    {
        match self {
            ConnectionEnd::Printed | ConnectionEnd::PrintedBeforeReset => 0,
            ConnectionEnd::RetryAfterReset => 6,
            _ => 1,
        }
    }

    fn is_printed(self) -> bool
        ensures { result ≡ is_printed self }
    {
        matches!(self, ConnectionEnd::Printed)
    }

    // Returns the kind of the line that reports it.
    fn level(self) -> &'static str
        ensures { result.now ≡ level_of self }
    {
        match self {
            ConnectionEnd::PrintedBeforeReset => "INFO: ",
            _ => "ERROR: ",
        }
    }

    // Returns what happened, for the line that reports it.
    fn deed(self) -> &'static str
        ensures { result.now ≡ deed_of self }
    {
        match self {
            ConnectionEnd::ClosedTooEarly => " closed the connection too early, after ",
            ConnectionEnd::ResetTooEarly => " reset the connection after ",
            ConnectionEnd::NotClosed => " did not close the connection after all ",
            _ => " reset the connection after all ",
        }
    }

    // Returns the end of the line that reports it.
    fn outcome(self) -> &'static str
        ensures { result.now ≡ outcome_of self }
    {
        match self {
            ConnectionEnd::PrintedBeforeReset => " bytes; counted as printed\n",
            ConnectionEnd::RetryAfterReset => " bytes; to be tried again\n",
            _ => " bytes\n",
        }
    }
}

/// Returns the rules of the options. Fails with `WaitEof` or `AfterLast` if the value of that option is unknown.
pub fn rules_of(options: &[DeviceOption]) -> Result<EndRules, ToolFault>
    ensures { result ≡ rules_of options.now }
{
    let waits = waits_of(last_value(options, "waiteof")).ok_or(ToolFault::WaitEof)?;
    let after_last = after_last_of(last_value(options, "afterlast")).ok_or(ToolFault::AfterLast)?;
    Ok(EndRules { waits, after_last })
}

// Returns the meaning of a value of `waiteof`.
fn waits_of(value: Option<&str>) -> Option<bool>
    ensures { result ≡ waits_of (option_map (λ value. value.now) value.entry) }
{
    match value {
        None | Some("true") => Some(true),
        Some("false") => Some(false),
        Some(_) => None,
    }
}

// Returns the meaning of a value of `afterlast`.
fn after_last_of(value: Option<&str>) -> Option<AfterLast>
    ensures { result ≡ after_last_of (option_map (λ value. value.now) value.entry) }
{
    match value {
        None => Some(AfterLast::Policy),
        Some("done") => Some(AfterLast::Done),
        Some("retry") => Some(AfterLast::Retry),
        Some(_) => None,
    }
}

/// Returns the meaning of a connection's end. By default a document is printed only if the printer closed the connection last.
pub fn end_of_connection(rules: EndRules, observed: Observed) -> ConnectionEnd
    ensures end { result ≡ end_of_connection rules observed }
    ensures printed { rules.waits ≡ true → result ≡ ConnectionEnd.Printed → observed ≡ Observed.ClosedLast }
{
    match observed {
        Observed::ClosedEarly => ConnectionEnd::ClosedTooEarly,
        Observed::ResetEarly => ConnectionEnd::ResetTooEarly,
        Observed::ClosedFirst if rules.waits => ConnectionEnd::ClosedTooEarly,
        Observed::StillOpen if rules.waits => ConnectionEnd::NotClosed,
        Observed::ClosedFirst | Observed::ClosedLast | Observed::StillOpen => {
            ConnectionEnd::Printed
        }
        Observed::ResetLate => match rules.after_last {
            AfterLast::Done => ConnectionEnd::PrintedBeforeReset,
            AfterLast::Retry => ConnectionEnd::RetryAfterReset,
            AfterLast::Policy => ConnectionEnd::FailedByReset,
        },
    }
}

/// Returns the line that reports the end on standard error (backend(7)), with its line feed: the printer's address, what happened, and the
/// number of bytes that the system took for the printer. It is empty for a document that was printed.
#[tactic(auto, unfolding(crate::specs::ConnectionEnds::line_of))]
pub fn end_line(
    alloc: Global,
    end: ConnectionEnd,
    peer: &str,
    sent: u64,
) -> Result<String, AllocError>
    ensures { IfOk result (λ line. string_bytes line ≡ end_line end peer.now sent) }
{
    if end.is_printed() {
        return Ok(String::new(alloc));
    }
    let level = end.level();
    let deed = end.deed();
    let outcome = end.outcome();
    let line = format!(in alloc; "{level}{peer}{deed}{sent}{outcome}")?;
    Ok(line)
}
