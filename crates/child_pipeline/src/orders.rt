//! The order for a stage, except for its input.
ghost use Rattle.std.specs.Prelude.{◌≡◌, true, IfOk};
ghost use Rattle.filter_args.specs.Environment.{environment_of};
ghost use Rattle.spool_types.specs.Phases.{is_processing};
ghost use Rattle.child_pipeline.specs.Orders.{program_of, scheme_of, words_of};

use crate::order::Program;
use crate::texts::{Scheme, Texts};
use device_uri::{DeviceUri, UriFault};
use filter_args::{ChildFile, Place};
use spool_types::{AttemptNumber, Job, QueueRow, StageNumber, Uri};
use std::alloc::{AllocError, Global};

// The program of a stage: the filters in their order, then the backend.
pub(crate) fn program(
    alloc: Global,
    row: &Job,
    queue: &QueueRow,
    stage: StageNumber,
) -> Result<Program, AllocError>
    ensures { IfOk result (λ program. program ≡ program_of row.now queue.now stage) }
{
    let before = stage.get() as usize - 1;
    match row.filters.as_slice().get(before) {
        Some(filter) => Ok(Program::Filter(filter.clone()?)),
        None => Ok(Program::Backend(scheme(alloc, &queue.uri)?)),
    }
}

// The scheme of a queue's URI.
fn scheme(alloc: Global, uri: &Uri) -> Result<Scheme, AllocError>
    ensures { IfOk result (λ scheme. scheme ≡ scheme_of uri.now) }
{
    match DeviceUri::parse(alloc, uri.as_str()) {
        Ok(uri) => Ok(Scheme::new(String::from_str(alloc, uri.scheme())?)),
        Err(UriFault::BadUri) => Ok(Scheme::new(String::new(alloc))),
        Err(UriFault::Memory) => Err(AllocError),
    }
}

// The words of a stage. In the first stage the last word is the document's path.
pub(crate) fn words(
    alloc: Global,
    place: &Place,
    row: &Job,
    attempt: AttemptNumber,
    stage: StageNumber,
) -> Result<Texts, AllocError>
    ensures { IfOk result (λ words. words ≡ words_of place.now row.now attempt stage) }
{
    let stage = stage.get() as u8;
    if stage == 1 {
        let path = ChildFile::Input.path(alloc, place, row.id, attempt.get(), stage)?;
        let words = filter_args::words(alloc, row, Some(path.as_str()))?;
        Ok(Texts::new(words))
    } else {
        let words = filter_args::words(alloc, row, None)?;
        Ok(Texts::new(words))
    }
}

// The environment of a processing job's current stage.
pub(crate) fn environment(
    alloc: Global,
    place: &Place,
    row: &Job,
    queue: &QueueRow,
) -> Result<Texts, AllocError>
    requires { is_processing row.now.phase ≡ true }
    ensures { IfOk result (λ variables. variables ≡ environment_of row.now queue.now place.now) }
{
    let variables = filter_args::environment(alloc, row, queue, place)?;
    Ok(Texts::new(variables))
}
