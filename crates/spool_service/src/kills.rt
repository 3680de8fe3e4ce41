//! Sends signals to children by a shell, because `std` sends none.
ghost use Rattle.std.specs.Prelude.{◌≡◌, ℕ, ◌++◌, ◌∷◌, List, [], None, true, codes, IfOk, OnOk};
ghost use Rattle.std.specs.Process.{SameEnv, clears_env, command_args, command_program, command_var};
ghost use Rattle.spool_service.specs.Kills.{arguments_of, name_of, script};

use service_loop::{Signal, Signals};
use spool_runtime::{push_number, script_shell};
use std::alloc::{AllocError, Global};
use std::process::{Command, Processes, Stdio};

// Signals the group of a process and the groups of its children: with a side channel the process is a shell, and the program its first
// child. The parameters are the signal and the process. A signal that cannot be sent is ignored, because the child may have ended.
const SCRIPT: &str = concat!(
    "for group in \"$2\" $(/usr/bin/cat \"/proc/$2/task/$2/children\"); do\n",
    "    kill -s \"$1\" -- \"-$group\"\n",
    "done\n",
);

/// Sends signals by the shell's `kill`.
#[derive(Clone, Copy)]
pub struct Kills<'a, R> {
    rt: &'a R,
}

impl<'a, R: Processes + AllocGlobal> Kills<'a, R> {
    pub fn new(rt: &'a R) -> Kills<'a, R>
        ensures { result.rt.now ≡ rt.now }
    {
        Kills { rt }
    }
}

impl<'a, R: Processes + AllocGlobal> Signals for Kills<'a, R> {
    ghost use Rattle.std.specs.Prelude.{None};

    ghost sent = { λ _. None };

    fn send(&mut self, group: u32, signal: Signal) -> bool {
        let Ok(mut command) = command_of(self.rt.alloc(), group, signal) else {
            return false;
        };
        command.stdin(Stdio::null());
        command.stdout(Stdio::null());
        command.stderr(Stdio::null());
        match command.status(self.rt) {
            Ok(status) => status.success(),
            Err(_) => false,
        }
    }
}

// Returns the command of the shell that sends a signal. It gets no variable of this program.
fn command_of(alloc: Global, group: u32, signal: Signal) -> Result<Command, AllocError>
    ensures program { IfOk result (λ command. command_program command ≡ codes "/bin/sh") }
    ensures arguments { IfOk result (λ command. command_args command ≡ arguments_of group signal) }
    ensures cleared { IfOk result (λ command. clears_env command ≡ true) }
    ensures variables { IfOk result (λ command. (name : List ℕ) → command_var command name ≡ None) }
{
    let mut command = script_shell(alloc, script())?;
    push_name(&mut command, signal)?;
    push_number(alloc, &mut command, group)?;
    Ok(command)
}

// Adds the signal to the parameters.
fn push_name(command: &mut Command, signal: Signal) -> Result<(), AllocError>
    ensures args { OnOk result (command_args command.new ≡ command_args command.old ++ name_of signal ∷ []) }
    ensures program { OnOk result (command_program command.new ≡ command_program command.old) }
    ensures env { OnOk result (SameEnv command.old command.new) }
{
    command.arg(name_of(signal))?;
    Ok(())
}

fn script() -> &'static str
    ensures { result.now ≡ script }
{
    SCRIPT
}

// Returns the name of the signal for `kill`.
fn name_of(signal: Signal) -> &'static str
    ensures { result.now ≡ name_of signal }
{
    match signal {
        Signal::Terminate => "TERM",
        Signal::Kill => "KILL",
    }
}
