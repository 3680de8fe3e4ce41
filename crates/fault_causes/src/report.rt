//! Reports a fault and its cause on standard error.
ghost use Rattle.std.specs.Prelude.{◌≡◌, OnErr, OnOk};
ghost use Rattle.std.specs.Process.{exit_status};

use crate::causes::{GivenNames, cause_of};
use crate::streams::StreamErrors;
use spool_runtime::ShellFault;
use std::process::ExitCode;

/// Reports how a run without commands ended, on standard error and by the exit status.
pub fn report_end(
    rt: &HostRuntime,
    names: GivenNames<'_>,
    ended: Result<(), ShellFault>,
) -> ExitCode
    ensures ok { OnOk ended (exit_status result ≡ 0) }
    ensures fault { OnErr ended (exit_status result ≡ 1) }
{
    let errors = StreamErrors {
        input: None,
        output: None,
    };
    report_run(rt, names, errors, ended)
}

/// Reports how a run over the standard streams ended, on standard error and by the exit status.
pub fn report_run(
    rt: &HostRuntime,
    names: GivenNames<'_>,
    errors: StreamErrors,
    ended: Result<(), ShellFault>,
) -> ExitCode
    ensures ok { OnOk ended (exit_status result ≡ 0) }
    ensures fault { OnErr ended (exit_status result ≡ 1) }
{
    match ended {
        Ok(()) => ExitCode::SUCCESS,
        Err(fault) => {
            report_fault(rt, names, errors, &fault);
            ExitCode::FAILURE
        }
    }
}

/// Reports a fault, and its cause if it is known. If a line cannot be written, only the status shows the fault.
pub fn report_fault(
    rt: &HostRuntime,
    names: GivenNames<'_>,
    errors: StreamErrors,
    fault: &ShellFault,
) {
    let _ = eprintln!(rt; "spool: {fault}");
    match cause_of(rt, names, errors, fault) {
        Ok(Some(cause)) => {
            let cause = cause.as_str();
            let _ = eprintln!(rt; "spool: cause: {cause}");
        }
        Ok(None) => {}
        Err(_) => report_word(rt, fault),
    }
}

// Reports the word of a disk's cause.
fn report_word(rt: &HostRuntime, fault: &ShellFault) {
    if let ShellFault::Disk(cause) = fault {
        let _ = eprintln!(rt; "spool: cause: {cause}");
    }
}
