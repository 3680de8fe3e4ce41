//! Runs the tool that the arguments name.
ghost use Rattle.std.specs.Prelude.{◌≡◌, IfErr, IfOk, OnOk, Some, map, string_bytes};
ghost use Rattle.std.specs.Process.{exit_status};
ghost use Rattle.std.specs.Io.KnownBytes.{Appends};
ghost use Rattle.whole_writes.specs.Writes.{WroteSome};
ghost use Rattle.builtin_stages.specs.Backends.{device_line};
ghost use Rattle.builtin_stages.specs.ToolEnding.{BackendEnds, Ends, FilterEnds, document_name, known_of};
ghost use Rattle.builtin_stages.specs.Filters.{FailsAsFilter, Filtered};
ghost use Rattle.builtin_stages.specs.RequestFields.{printed, request};
ghost use Rattle.builtin_stages.specs.ToolArguments.{asked_of};

use crate::backends::{device_line, meet, side_ask, side_end, spool_file};
use crate::ends::{end_silently, report_end, report_sending};
use crate::fault::ToolFault;
use crate::filters::run_filter;
use crate::network::{Sending, app_socket};
use crate::results::Source;
use crate::sources::DocumentFile;
use crate::through::run_through;
use crate::words::{Asked, Backend, Document, Filter, read_words};
use program_version::with_version;
use std::fs::{File, Files};
use std::io::Write;
use std::net::Net;
use std::process::{ExitCode, Processes};
use std::rt::{Clock, Env};
use whole_writes::write_whole;

// The output of `--version`.
const VERSION_LINE: &str = with_version!("spool_tools (Cegmandi) ", "\n");

/// Runs the tool that the arguments name, and returns the exit status.
pub fn run_words<
    H: Files<File = File> + Env + Clock + Net + Processes + AllocGlobal,
    I: Source,
    O: Write,
    E: Write,
>(rt: &H, words: &[String], input: &I, output: &mut O, errors: &mut E) -> ExitCode
    ensures { Ends (asked_of (map string_bytes words.now)) (I.known input.now)
        (O.contents output.old) (O.contents output.new) (E.contents errors.old) (E.contents errors.new) (exit_status result) }
{
    match read_words(words) {
        Some(asked) => run(rt, asked, input, output, errors),
        None => ExitCode::FAILURE,
    }
}

// Runs the tool.
fn run<
    H: Files<File = File> + Env + Clock + Net + Processes + AllocGlobal,
    I: Source,
    O: Write,
    E: Write,
>(rt: &H, asked: Asked<'_>, input: &I, output: &mut O, errors: &mut E) -> ExitCode
    ensures { Ends (Some (request asked.entry)) (I.known input.now)
        (O.contents output.old) (O.contents output.new) (E.contents errors.old) (E.contents errors.new) (exit_status result) }
{
    match asked {
        Asked::Filter(tool, document) => end_filter(rt, tool, document, input, output, errors),
        Asked::Backend(tool, document) => run_backend(rt, tool, document, input, errors),
        Asked::Through(file, job) => run_through(rt, file, job, errors),
        Asked::DeviceLine(tool) => end_silently(write_device_line(tool, output)),
        Asked::SideEnd(socket) => end_silently(side_end(rt, socket)),
        Asked::Version => end_silently(write_version(output)),
    }
}

// Runs the filter over the document, reports its fault, and returns the exit status.
fn end_filter<H: Files<File = File> + AllocGlobal, I: Source, O: Write, E: Write>(
    rt: &H,
    tool: Filter,
    document: Document<'_>,
    input: &I,
    output: &mut O,
    errors: &mut E,
) -> ExitCode
    ensures { FilterEnds tool (printed document.entry) (I.known input.now)
        (O.contents output.old) (O.contents output.new) (E.contents errors.old) (E.contents errors.new) (exit_status result) }
{
    let ended = filter(rt, tool, document, input, output, errors);
    report_end(rt.alloc(), errors, document.name(), ended)
}

// Runs the filter over the document, and returns the exit status.
fn filter<H: Files<File = File> + AllocGlobal, I: Source, O: Write, E: Write>(
    rt: &H,
    tool: Filter,
    document: Document<'_>,
    input: &I,
    output: &mut O,
    errors: &mut E,
) -> Result<u8, ToolFault>
    ensures status { IfOk result (λ status. status ≡ 0) }
    ensures ran { OnOk result (Filtered tool document.entry.copies (known_of (printed document.entry).file (I.known input.now))
        (O.contents output.old) (O.contents output.new) (E.contents errors.old) (E.contents errors.new)) }
    ensures fault { IfErr result (λ fault. FailsAsFilter fault (E.contents errors.old) (E.contents errors.new)) }
{
    let copies = document.copies;
    match document.file {
        Some(name) => {
            let file = DocumentFile { rt, name };
            run_filter(rt.alloc(), tool, &file, copies, output, errors)?;
        }
        None => run_filter(rt.alloc(), tool, input, copies, output, errors)?,
    }
    Ok(0)
}

// Runs the backend for its document.
fn run_backend<H: Files<File = File> + Env + Clock + Net + AllocGlobal, I: Source, E: Write>(
    rt: &H,
    tool: Backend,
    document: Document<'_>,
    input: &I,
    errors: &mut E,
) -> ExitCode
    ensures { BackendEnds tool (document_name (printed document.entry).file) (E.contents errors.old) (E.contents errors.new) (exit_status result) }
{
    match tool {
        Backend::SpoolFile => {
            let ended = spool(rt, document, input);
            report_end(rt.alloc(), errors, document.name(), ended)
        }
        Backend::Meet => end_silently(meet(rt)),
        Backend::SideAsk => end_silently(side_ask(rt)),
        Backend::AppSocket => {
            let ended = send(rt, document, input);
            report_sending(rt.alloc(), errors, document.name(), ended)
        }
    }
}

// Writes the document to the device's file.
fn spool<H: Files<File = File> + Env + AllocGlobal, I: Source>(
    rt: &H,
    document: Document<'_>,
    input: &I,
) -> Result<u8, ToolFault>
    ensures { IfErr result (λ fault. fault ≡ ToolFault.Write) }
{
    match document.file {
        Some(name) => spool_file(rt, &DocumentFile { rt, name }, document.copies),
        None => spool_file(rt, input, document.copies),
    }
}

// Sends the document to the printer.
fn send<H: Files<File = File> + Env + Clock + Net + AllocGlobal, I: Source>(
    rt: &H,
    document: Document<'_>,
    input: &I,
) -> Result<Sending, ToolFault> {
    match document.file {
        Some(name) => app_socket(rt, &DocumentFile { rt, name }, document.copies),
        None => app_socket(rt, input, document.copies),
    }
}

// Prints the backend's device line.
fn write_device_line<O: Write>(tool: Backend, output: &mut O) -> Result<(), ToolFault>
    ensures wrote { OnOk result (Appends (O.contents output.old) (O.contents output.new) (device_line tool)) }
    ensures fault { IfErr result (λ fault. (fault ≡ ToolFault.Write)
        × WroteSome (O.contents output.old) (O.contents output.new) (device_line tool)) }
{
    write_whole(output, device_line(tool).as_bytes())?;
    Ok(())
}

// Prints the name and the version of the program.
fn write_version<O: Write>(output: &mut O) -> Result<(), ToolFault>
    ensures wrote { OnOk result (Appends (O.contents output.old) (O.contents output.new) VERSION_LINE.now) }
    ensures fault { IfErr result (λ fault. (fault ≡ ToolFault.Write)
        × WroteSome (O.contents output.old) (O.contents output.new) VERSION_LINE.now) }
{
    write_whole(output, VERSION_LINE.as_bytes())?;
    Ok(())
}
