//! The event of the end of a stage.
ghost use Rattle.std.specs.Prelude.{◌≡◌, IfOk};
ghost use Rattle.stderr_lines.specs.Reports.{report_of, told_by};
ghost use Rattle.child_pipeline.specs.Finishes.{heard, end_of};

use crate::order::Finish;
use spool_types::{AttemptNumber, Effects, JobId, StageEnd, StageNumber};
use std::alloc::{AllocError, Global};
use stderr_lines::{Lines, Report, effects_fit};

// How many bytes of a child's standard error are read.
const MOST_ERRORS: usize = 1_048_576;

// The end of a stage, with the effects of its child's standard error.
pub(crate) fn stage_end(
    alloc: Global,
    job: JobId,
    attempt: AttemptNumber,
    stage: StageNumber,
    finish: &Finish,
) -> Result<StageEnd, AllocError>
    ensures { IfOk result (λ end. end ≡ end_of job attempt stage finish.now) }
{
    let Report { effects, dropped } = report(alloc, finish.errors.as_slice())?;
    effects_fit();
    match Effects::new(effects) {
        Ok(effects) => Ok(StageEnd {
            job,
            attempt,
            stage,
            exit: finish.exit,
            dropped,
            effects,
        }),
        Err(_) => unreachable!(),
    }
}

// The report in a child's standard error, as far as it is read.
fn report(alloc: Global, errors: &[u8]) -> Result<Report, AllocError>
    ensures { IfOk result (λ report. told_by report ≡ report_of (heard errors.now)) }
{
    let end = MOST_ERRORS.min(errors.len());
    let mut lines = Lines::new(alloc);
    lines.feed(&errors[..end])?;
    Ok(lines.finish()?)
}
