//! Reads the files of types, conversions and programs.
ghost use Rattle.std.specs.Prelude.{◌≡◌, IfErr, IfOk, IsOk, IsTrue, None, OnOk, [], string_bytes};
ghost use Rattle.std.specs.Option.{option_map};
ghost use Rattle.mime_costs.specs.ConversionFiles.{conversions_of};
ghost use Rattle.mime_rules.specs.RuleLines.{alternatives_of};
ghost use Rattle.mime_rules.specs.RuleFields.{types_of};
ghost use Rattle.program_lists.specs.Programs.{no_programs, programs_in, reads};
ghost use Rattle.spool_runtime.specs.ProgramFaults.{IsOfFile, IsOfFiles, IsOfText};

use crate::fault::ShellFault;
use crate::warnings::warn_each;
use log::Log;
use mime_costs::Convs;
use mime_rules::Types;
use program_lists::{ListFault, ProgramList};
use std::alloc::Global;
use std::fs;
use std::fs::{File, Files};
use std::io::ErrorKind;

/// Reads the files of types (mime.types(5)), of conversions (mime.convs(5)) and of programs. After all are read, logs a
/// warning for each line of the first two files that was skipped, those of the types first.
pub fn read_rules<R: Files<File = File> + AllocGlobal + Log>(
    rt: &R,
    types: Option<&str>,
    convs: Option<&str>,
    programs: Option<&str>,
) -> Result<(Types, Convs, ProgramList), ShellFault>
    ensures no_types { types.entry ≡ None → IfOk result (λ rules. types_of rules.0 ≡ alternatives_of []) }
    ensures no_convs { convs.entry ≡ None → IfOk result (λ rules. rules.1 ≡ conversions_of []) }
    ensures no_programs { programs.entry ≡ None → IfOk result (λ rules. rules.2 ≡ no_programs) }
    ensures fault { IfErr result (IsOfFiles (option_map (λ file. file.now) types.entry) (option_map (λ file. file.now) convs.entry)
        (option_map (λ file. file.now) programs.entry)) }
{
    let (types, types_warnings) = Types::read(rt.alloc(), text_of(rt, types)?.as_str())?;
    let (convs, convs_warnings) = Convs::read(rt.alloc(), text_of(rt, convs)?.as_str())?;
    let programs = read_programs(rt, programs)?;
    warn_each(rt, &types_warnings);
    warn_each(rt, &convs_warnings);
    Ok((types, convs, programs))
}

// Returns the programs in the file, or none if no file is named.
fn read_programs<R: Files<File = File> + AllocGlobal>(
    rt: &R,
    file: Option<&str>,
) -> Result<ProgramList, ShellFault>
    ensures none { file.entry ≡ None → IfOk result (λ programs. programs ≡ no_programs) }
    ensures read { file.entry ≡ None → IsOk result }
    ensures fault { IfErr result (IsOfFile (option_map (λ name. name.now) file.entry)) }
{
    let Some(name) = file else {
        return Ok(ProgramList::empty(rt.alloc()));
    };
    programs_in(rt.alloc(), name, text_of(rt, file)?.as_str())
}

// Returns the programs in the text of a file. Fails with the name of the file if a line is invalid.
fn programs_in(alloc: Global, file: &str, text: &str) -> Result<ProgramList, ShellFault>
    ensures value { IfOk result (λ programs. programs ≡ programs_in text.now) }
    ensures reads { OnOk result (IsTrue (reads text.now)) }
    ensures fault { IfErr result (IsOfText file.now (reads text.now)) }
{
    match ProgramList::read(alloc, text) {
        Ok(programs) => Ok(programs),
        Err(ListFault::Unread) => Err(ShellFault::File(file.to_string(alloc)?)),
        Err(ListFault::Memory) => Err(ShellFault::Memory),
    }
}

// Returns the text of the file, or an empty text if no file is named.
fn text_of<R: Files<File = File> + AllocGlobal>(
    rt: &R,
    file: Option<&str>,
) -> Result<String, ShellFault>
    ensures none { file.entry ≡ None → IfOk result (λ text. string_bytes text ≡ []) }
    ensures read { file.entry ≡ None → IsOk result }
    ensures fault { IfErr result (IsOfFile (option_map (λ name. name.now) file.entry)) }
{
    let Some(name) = file else {
        return Ok(String::new(rt.alloc()));
    };
    match fs::read_to_string(rt, name) {
        Ok(text) => Ok(text),
        Err(error) if error.kind() == ErrorKind::OutOfMemory => Err(ShellFault::Memory),
        Err(_) => Err(ShellFault::File(name.to_string(rt.alloc())?)),
    }
}
