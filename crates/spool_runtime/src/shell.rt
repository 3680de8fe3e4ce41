//! The shell that runs a fixed script.
ghost use Rattle.std.specs.Prelude.{◌≡◌, ℕ, ◌++◌, ◌∷◌, List, [], None, true, codes, IfOk, OnOk, string_bytes};
ghost use Rattle.std.specs.Process.{SameEnv, clears_env, command_args, command_program, command_var};
ghost use Rattle.std.specs.Fmt.{decimal};
ghost use Rattle.spool_runtime.specs.ChildScript.{script_words};

use std::alloc::{AllocError, Global};
use std::process::Command;

const SHELL: &str = "/bin/sh";

/// Returns the shell that runs a script, without environment variables. Each argument that is added later is a
/// parameter of the script, which the shell does not interpret.
pub fn script_shell(alloc: Global, script: &str) -> Result<Command, AllocError>
    ensures program { IfOk result (λ command. command_program command ≡ codes "/bin/sh") }
    ensures arguments { IfOk result (λ command. command_args command ≡ script_words script.now) }
    ensures cleared { IfOk result (λ command. clears_env command ≡ true) }
    ensures variables { IfOk result (λ command. (name : List ℕ) → command_var command name ≡ None) }
{
    let mut command = bare_shell(alloc)?;
    push_script(&mut command, script)?;
    Ok(command)
}

// Returns the shell without arguments and without environment variables.
fn bare_shell(alloc: Global) -> Result<Command, AllocError>
    ensures program { IfOk result (λ command. command_program command ≡ codes "/bin/sh") }
    ensures arguments { IfOk result (λ command. command_args command ≡ []) }
    ensures cleared { IfOk result (λ command. clears_env command ≡ true) }
    ensures variables { IfOk result (λ command. (name : List ℕ) → command_var command name ≡ None) }
{
    let mut command = Command::new(alloc, SHELL)?;
    command.env_clear();
    Ok(command)
}

// Adds the script, and its name.
fn push_script(command: &mut Command, script: &str) -> Result<(), AllocError>
    ensures args { OnOk result (command_args command.new ≡ command_args command.old ++ script_words script.now) }
    ensures program { OnOk result (command_program command.new ≡ command_program command.old) }
    ensures env { OnOk result (SameEnv command.old command.new) }
{
    command.arg("-c")?;
    command.arg(script)?;
    command.arg("sh")?;
    Ok(())
}

/// Adds a parameter that is a number, in decimal digits.
pub fn push_number(alloc: Global, command: &mut Command, number: u32) -> Result<(), AllocError>
    ensures args { OnOk result (command_args command.new ≡ command_args command.old ++ decimal number ∷ []) }
    ensures program { OnOk result (command_program command.new ≡ command_program command.old) }
    ensures env { OnOk result (SameEnv command.old command.new) }
{
    let text = decimal_of(alloc, number)?;
    command.arg(text.as_str())?;
    Ok(())
}

fn decimal_of(alloc: Global, number: u32) -> Result<String, AllocError>
    ensures { IfOk result (λ text. string_bytes text ≡ decimal number) }
{
    format!(in alloc; "{number}")
}
