//! Reports the listed programs that cannot be run as they are.

use log::{Log, error};
use program_fitness::obstacle_of_program;
use program_lists::{ListedProgram, ProgramList};

/// Logs a line for each program in the file of programs that cannot be run as it is.
pub fn log_programs<L: Log>(log: &L, rt: &HostRuntime, list: &ProgramList) {
    for filter in list.filters() {
        log_program(log, rt, "filter", filter.name.as_str(), &filter.program);
    }
    for backend in list.backends() {
        log_program(log, rt, "backend", backend.name.as_str(), &backend.program);
    }
    if let Some(side) = list.side() {
        log_program(log, rt, "side", "program", side);
    }
}

fn log_program<L: Log>(log: &L, rt: &HostRuntime, kind: &str, name: &str, program: &ListedProgram) {
    if let Some(obstacle) = obstacle_of_program(rt, program) {
        error!(log; "{kind} {name}: {obstacle}");
    }
}
