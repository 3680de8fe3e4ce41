//! Reading the phase of a job.
ghost use Rattle.std.specs.Prelude.{◌≡◌, false, IfErr};
ghost use Rattle.event_codec.specs.EventReading.{Gives, MemoryOnly};
ghost use Rattle.event_codec.specs.RowReading.{hold_reason_of, holding_at, abort_reason_of, incoming_at, waiting_at, processing_at, aborted_at, phase_at};

use crate::reading::flag_at;
use field_codec::{CodecFault, moment, ranged, u8_at, u64_at};
use spool_types::{AbortReason, Hold, HoldReason, Phase, StageNumber};

#[tactic(auto, unfolding(crate::specs::RowReading::hold_reason_of))]
fn hold_reason_of(number: u8) -> Result<HoldReason, CodecFault>
    ensures read { Gives (λ r. r) result (hold_reason_of number) }
    ensures memory { IfErr result (MemoryOnly false) }
{
    match number {
        0 => Ok(HoldReason::Unspecified),
        1 => Ok(HoldReason::Authentication),
        2 => Ok(HoldReason::Backend),
        _ => Err(CodecFault::Range),
    }
}

/// Returns the hold of a job.
#[tactic(auto, unfolding(crate::specs::RowReading::holding_at, crate::specs::RowReading::kind_of_holding, crate::specs::RowReading::indefinite_at, crate::specs::RowReading::until_moment_at, field_codec::specs::Fields::ranged_at))]
fn holding_at(bytes: &[u8]) -> Result<(Hold, &[u8]), CodecFault>
    ensures read { Gives (λ x. (x.0, x.1.now)) result (holding_at bytes.now) }
    ensures memory { IfErr result (MemoryOnly false) }
{
    let (kind, rest) = u8_at(bytes)?;
    match kind {
        0 => Ok((Hold::Free, rest)),
        1 => {
            let (number, rest) = u8_at(rest)?;
            let reason = hold_reason_of(number)?;
            Ok((Hold::Indefinite(reason), rest))
        }
        2 => {
            let (seconds, rest) = u64_at(rest)?;
            let moment = moment(seconds)?;
            Ok((Hold::Until(moment), rest))
        }
        _ => Err(CodecFault::Range),
    }
}

#[tactic(auto, unfolding(crate::specs::RowReading::abort_reason_of))]
fn abort_reason_of(number: u8) -> Result<AbortReason, CodecFault>
    ensures read { Gives (λ r. r) result (abort_reason_of number) }
    ensures memory { IfErr result (MemoryOnly false) }
{
    match number {
        0 => Ok(AbortReason::FilterFailed),
        1 => Ok(AbortReason::BackendFailed),
        2 => Ok(AbortReason::RetryLimit),
        3 => Ok(AbortReason::AttemptLost),
        4 => Ok(AbortReason::NoFilter),
        _ => Err(CodecFault::Range),
    }
}

#[tactic(auto, unfolding(crate::specs::RowReading::incoming_at))]
fn incoming_at(bytes: &[u8]) -> Result<(Phase, &[u8]), CodecFault>
    ensures read { Gives (λ x. (x.0, x.1.now)) result (incoming_at bytes.now) }
    ensures memory { IfErr result (MemoryOnly false) }
{
    match holding_at(bytes) {
        Ok((hold, rest)) => Ok((Phase::Incoming(hold), rest)),
        Err(fault) => Err(fault),
    }
}

#[tactic(auto, unfolding(crate::specs::RowReading::waiting_at, field_codec::specs::Fields::ranged_at))]
fn waiting_at(bytes: &[u8]) -> Result<(Phase, &[u8]), CodecFault>
    ensures read { Gives (λ x. (x.0, x.1.now)) result (waiting_at bytes.now) }
    ensures memory { IfErr result (MemoryOnly false) }
{
    // `?` is not proved here, because a hold, which may have a moment, is paired with a slice.
    match holding_at(bytes) {
        Ok((hold, rest)) => {
            let (seconds, rest) = u64_at(rest)?;
            let not_before = moment(seconds)?;
            let (first, rest) = flag_at(rest)?;
            let phase = Phase::Waiting {
                hold,
                not_before,
                first,
            };
            Ok((phase, rest))
        }
        Err(fault) => Err(fault),
    }
}

#[tactic(auto, unfolding(crate::specs::RowReading::processing_at, field_codec::specs::Fields::ranged_at))]
fn processing_at(attempt: u32, stages: u8, bytes: &[u8]) -> Result<(Phase, &[u8]), CodecFault>
    ensures read { Gives (λ x. (x.0, x.1.now)) result (processing_at attempt stages bytes.now) }
    ensures memory { IfErr result (MemoryOnly false) }
{
    let (number, rest) = u8_at(bytes)?;
    let stage: StageNumber = ranged(number as u32)?;
    let phase = Phase::Processing {
        attempt,
        stage: stage.get() as u8,
        stages,
    };
    Ok((phase, rest))
}

#[tactic(auto, unfolding(crate::specs::RowReading::aborted_at))]
fn aborted_at(bytes: &[u8]) -> Result<(Phase, &[u8]), CodecFault>
    ensures read { Gives (λ x. (x.0, x.1.now)) result (aborted_at bytes.now) }
    ensures memory { IfErr result (MemoryOnly false) }
{
    let (number, rest) = u8_at(bytes)?;
    let reason = abort_reason_of(number)?;
    Ok((Phase::Aborted(reason), rest))
}

/// Returns the phase of a job that was started `attempts` times and has `stages` stages.
#[tactic(auto, unfolding(crate::specs::RowReading::phase_at, crate::specs::RowReading::kind_of_phase))]
pub(crate) fn phase_at(
    attempts: u32,
    stages: u8,
    bytes: &[u8],
) -> Result<(Phase, &[u8]), CodecFault>
    ensures read { Gives (λ x. (x.0, x.1.now)) result (phase_at attempts stages bytes.now) }
    ensures memory { IfErr result (MemoryOnly false) }
{
    let (kind, rest) = u8_at(bytes)?;
    match kind {
        0 => incoming_at(rest),
        1 => waiting_at(rest),
        2 => processing_at(attempts, stages, rest),
        3 => Ok((Phase::Completed, rest)),
        4 => Ok((Phase::Canceled, rest)),
        5 => aborted_at(rest),
        _ => Err(CodecFault::Range),
    }
}
