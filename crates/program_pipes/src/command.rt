//! The command of each program.
ghost use Rattle.std.specs.Prelude.{◌≡◌, ◌∷◌, ◌++◌, [], Some, map, codes, string_bytes, IfOk, OnOk};
ghost use Rattle.std.specs.Option.{option_map};
ghost use Rattle.std.specs.Process.{SameEnv, command_args, command_program, command_var};
ghost use Rattle.program_pipes.specs.Commands.{backend_uri, command_words, job_words, program_words, script};

use program_lists::ListedProgram;
use std::alloc::{AllocError, Global};
use std::process::Command;

const SHELL: &str = "/bin/sh";

// The script is fixed. Its parameters are the program and its arguments, which the shell does not interpret.
//
// `env` starts the program, also a script without `#!`. A chain may ignore SIGTERM, so that it ends after its programs; `env` resets that for
// them, which a shell cannot.
//
// Descriptors 3 and 4 are open on `/dev/null`, 3 also for writing, as those of every child. If 3 is closed, a network backend of CUPS gets it
// for its printer, and if 4 is closed, such a backend loops forever.
const SCRIPT: &str = concat!(
    "{ exec /usr/bin/env --default-signal=TERM \"$@\"; } 3<>/dev/null 4</dev/null\n",
    "exit 126\n",
);

/// Returns the command of a program of a chain. `words` are the five or six arguments of the job, and `uri` is that of [`backend_uri`]. The
/// other variables are those of the chain.
pub fn program_command(
    alloc: Global,
    program: &ListedProgram,
    is_first: bool,
    words: &[String],
    uri: &str,
) -> Result<Command, AllocError>
    ensures program { IfOk result (λ command. command_program command ≡ codes "/bin/sh") }
    ensures arguments { IfOk result (λ command. command_args command ≡ command_words is_first program.now (map string_bytes words.now)) }
    ensures uri { IfOk result (λ command. command_var command (codes "DEVICE_URI") ≡ Some (Some uri.now)) }
{
    let mut command = Command::new(alloc, SHELL)?;
    push_script(&mut command)?;
    push_program(&mut command, program)?;
    push_words(&mut command, job_words(is_first, words))?;
    command.env("DEVICE_URI", uri)?;
    Ok(command)
}

fn push_script(command: &mut Command) -> Result<(), AllocError>
    ensures args { OnOk result (command_args command.new ≡ command_args command.old ++ codes "-c" ∷ script ∷ codes "sh" ∷ []) }
    ensures program { OnOk result (command_program command.new ≡ command_program command.old) }
{
    command.arg("-c")?;
    command.arg(script())?;
    command.arg("sh")?;
    Ok(())
}

#[tactic(auto, unfolding(crate::specs::Commands::script))]
fn script() -> &'static str
    ensures { result.now ≡ script }
{
    SCRIPT
}

// Adds a program, and its argument if it has one.
fn push_program(command: &mut Command, program: &ListedProgram) -> Result<(), AllocError>
    ensures args { OnOk result (command_args command.new ≡ command_args command.old ++ program_words program.now) }
    ensures program { OnOk result (command_program command.new ≡ command_program command.old) }
{
    command.arg(program.path.as_str())?;
    if let Some(word) = &program.word {
        command.arg(word.as_str())?;
    }
    Ok(())
}

// Returns the arguments of the job that a program gets.
fn job_words(is_first: bool, words: &[String]) -> &[String]
    ensures { map string_bytes result.now ≡ job_words is_first (map string_bytes words.now) }
{
    if is_first || words.len() < 5 {
        words
    } else {
        &words[..5]
    }
}

fn push_words(command: &mut Command, words: &[String]) -> Result<(), AllocError>
    ensures args { OnOk result (command_args command.new ≡ command_args command.old ++ map string_bytes words.now) }
    ensures program { OnOk result (command_program command.new ≡ command_program command.old) }
{
    for word in words {
        command.arg(word.as_str())?;
    }
    Ok(())
}

/// Returns the URI of the same device for the backend of this name, or `None` if the text is no URI.
pub fn backend_uri(alloc: Global, name: &str, uri: &str) -> Result<Option<String>, AllocError>
    ensures { IfOk result (λ uri_of. option_map string_bytes uri_of ≡ backend_uri name.now uri.now) }
{
    let Some((_, rest)) = uri.split_once(':') else {
        return Ok(None);
    };
    Ok(Some(joined(alloc, name, rest)?))
}

fn joined(alloc: Global, name: &str, rest: &str) -> Result<String, AllocError>
    ensures { IfOk result (λ uri. string_bytes uri ≡ name.now ++ 58 ∷ rest.now) }
{
    format!(in alloc; "{name}:{rest}")
}
