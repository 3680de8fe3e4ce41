//! The environment of a child.
ghost use Rattle.std.specs.Prelude.{◌≡◌, ◌++◌, ◌∷◌, [], true, unwrap_or, IfOk, OnOk};
ghost use Rattle.std.specs.Fmt.{decimal};
ghost use Rattle.std.specs.String.{string_bytes};
ghost use Rattle.spool_types.specs.Phases.{is_processing};
ghost use Rattle.filter_args.specs.Environment.{environment_of, environment_at, document_variables, device_variables, place_variables, printer_variables, stage_variables, side_name, variable};
ghost use Rattle.filter_args.specs.OptionFields.{texts};

use crate::files::ChildFile;
use crate::place::Place;
use spool_types::{Job, JobId, Phase, QueueRow};
use std::alloc::{AllocError, Global};

/// Returns the environment of the current stage of a processing job, as `NAME=value`, in a fixed order (filter(7), backend(7)).
pub fn environment(
    alloc: Global,
    job: &Job,
    queue: &QueueRow,
    place: &Place,
) -> Result<Vec<String>, AllocError>
    requires { is_processing job.now.phase ≡ true }
    ensures { IfOk result (λ variables. texts variables ≡ environment_of job.now queue.now place.now) }
{
    match job.phase {
        Phase::Processing { attempt, stage, .. } => {
            environment_of_stage(alloc, job, queue, place, attempt, stage)
        }
        _ => unreachable!(),
    }
}

fn environment_of_stage(
    alloc: Global,
    job: &Job,
    queue: &QueueRow,
    place: &Place,
    attempt: u32,
    stage: u8,
) -> Result<Vec<String>, AllocError>
    ensures { IfOk result (λ variables. texts variables ≡ environment_at job.now queue.now place.now attempt stage) }
{
    let mut variables = Vec::with_capacity(alloc, 14)?;
    push_document(alloc, &mut variables, job)?;
    push_device(alloc, &mut variables, queue)?;
    push_place(alloc, &mut variables, place)?;
    push_printer(alloc, &mut variables, queue)?;
    push_stage(alloc, &mut variables, place, job.id, attempt, stage)?;
    Ok(variables)
}

fn push_document(alloc: Global, variables: &mut Vec<String>, job: &Job) -> Result<(), AllocError>
    ensures { OnOk result (texts variables.new ≡ texts variables.old ++ document_variables job.now) }
{
    push(alloc, variables, "CHARSET", "utf-8")?;
    push(alloc, variables, "CONTENT_TYPE", content_type(job))?;
    push(alloc, variables, "CUPS_FILETYPE", "document")?;
    Ok(())
}

// Returns the document's media type, empty if the job has none.
fn content_type(job: &Job) -> &str
    ensures { result.now ≡ unwrap_or job.now.media [] }
{
    match &job.media {
        Some(media) => media.as_str(),
        None => "",
    }
}

fn push_device(
    alloc: Global,
    variables: &mut Vec<String>,
    queue: &QueueRow,
) -> Result<(), AllocError>
    ensures { OnOk result (texts variables.new ≡ texts variables.old ++ device_variables queue.now) }
{
    push(alloc, variables, "DEVICE_URI", queue.uri.as_str())?;
    push(
        alloc,
        variables,
        "FINAL_CONTENT_TYPE",
        queue.target.as_str(),
    )?;
    Ok(())
}

fn push_place(alloc: Global, variables: &mut Vec<String>, place: &Place) -> Result<(), AllocError>
    ensures { OnOk result (texts variables.new ≡ texts variables.old ++ place_variables place.now) }
{
    push(alloc, variables, "LANG", place.lang.as_str())?;
    push(alloc, variables, "PATH", place.path.as_str())?;
    Ok(())
}

fn push_printer(
    alloc: Global,
    variables: &mut Vec<String>,
    queue: &QueueRow,
) -> Result<(), AllocError>
    ensures { OnOk result (texts variables.new ≡ texts variables.old ++ printer_variables queue.now) }
{
    push(alloc, variables, "PRINTER", queue.name.as_str())?;
    push(alloc, variables, "PRINTER_INFO", queue.info.as_str())?;
    push(
        alloc,
        variables,
        "PRINTER_LOCATION",
        queue.location.as_str(),
    )?;
    Ok(())
}

fn push_stage(
    alloc: Global,
    variables: &mut Vec<String>,
    place: &Place,
    job: JobId,
    attempt: u32,
    stage: u8,
) -> Result<(), AllocError>
    ensures { OnOk result (texts variables.new ≡ texts variables.old ++ stage_variables place.now job attempt stage) }
{
    let side = side_path(alloc, place, job, attempt, stage)?;
    let attempt = number(alloc, attempt)?;
    let stage = number(alloc, u32::from(stage))?;
    push(alloc, variables, "TMPDIR", place.root.as_str())?;
    push(alloc, variables, "SPOOL_ATTEMPT", attempt.as_str())?;
    push(alloc, variables, "SPOOL_SIDE", side.as_str())?;
    push(alloc, variables, "SPOOL_STAGE", stage.as_str())?;
    Ok(())
}

// Returns a number in decimal digits.
fn number(alloc: Global, number: u32) -> Result<String, AllocError>
    ensures { IfOk result (λ text. string_bytes text ≡ decimal number) }
{
    format!(in alloc; "{number}")
}

// Returns the path of the side channel's socket, empty if there is none.
fn side_path(
    alloc: Global,
    place: &Place,
    job: JobId,
    attempt: u32,
    stage: u8,
) -> Result<String, AllocError>
    ensures { IfOk result (λ path. string_bytes path ≡ side_name place.now job attempt stage) }
{
    if place.side {
        ChildFile::Side.path(alloc, place, job, attempt, stage)
    } else {
        Ok(String::new(alloc))
    }
}

// Appends a variable, as `NAME=value`.
fn push(
    alloc: Global,
    variables: &mut Vec<String>,
    name: &str,
    value: &str,
) -> Result<(), AllocError>
    ensures { OnOk result (texts variables.new ≡ texts variables.old ++ variable name.now value.now ∷ []) }
{
    variables.push(format!(in alloc; "{name}={value}")?)?;
    Ok(())
}
