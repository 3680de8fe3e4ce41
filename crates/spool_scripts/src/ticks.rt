//! Writes the results of ticks as lines.
ghost use Rattle.std.specs.Prelude.{◌≡◌, ◌++◌, OnOk};
ghost use Rattle.std.specs.String.{string_bytes};
ghost use Rattle.spool_scripts.specs.TickReports.{counts_line, fault_line, tick_line};

use print_rounds::{Round, RoundFault};
use std::alloc::AllocError;

/// Adds the result of a tick: the number of children that it started and of ends of stages that were acknowledged, or
/// its fault.
pub fn push_tick(text: &mut String, answer: Result<Round, RoundFault>) -> Result<(), AllocError>
    ensures line { OnOk result (string_bytes text.new ≡ string_bytes text.old ++ tick_line answer) }
{
    match answer {
        Ok(Round { started, finished }) => push_counts(text, started, finished),
        Err(fault) => text.push_str(fault_line(fault)),
    }
}

fn push_counts(text: &mut String, started: usize, finished: usize) -> Result<(), AllocError>
    ensures { OnOk result (string_bytes text.new ≡ string_bytes text.old ++ counts_line started finished) }
{
    write!(text, "tick: started {started}, finished {finished}\n")
}

fn fault_line(fault: RoundFault) -> &'static str
    ensures { result.now ≡ fault_line fault }
{
    match fault {
        RoundFault::Dead => "tick: dead\n",
        RoundFault::Memory => "tick: no memory\n",
        RoundFault::Full => "tick: full\n",
        RoundFault::Disk => "tick: disk failed\n",
    }
}
