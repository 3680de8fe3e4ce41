//! The programs in the service's file that cannot be run.

use crate::fault::Fault;
use crate::files::file_text;
use crate::host::variable_or;
use crate::json_lines::{print_json, unfit_json};
use program_fitness::obstacle_of_program;
use program_lists::{ListFault, ListedProgram, ProgramList};

// The environment variable that names the file, and the default file.
const VARIABLE: &str = "SPOOL_PROGRAMS";

const USUAL_PROGRAMS: &str = "/etc/cegmandi/programs";

/// Prints each program in the service's file that cannot be run. Returns whether all can be run.
pub fn report_programs(rt: &HostRuntime, json: bool) -> Result<bool, Fault> {
    let list = list_of_file(rt)?;
    let all = report_list(rt, &list, json);
    drop(list);
    all
}

fn list_of_file(rt: &HostRuntime) -> Result<ProgramList, Fault> {
    let text = file_text(rt, VARIABLE, USUAL_PROGRAMS)?;
    match ProgramList::read(rt.alloc(), text.as_str()) {
        Ok(list) => Ok(list),
        Err(ListFault::Unread) => Err(Fault::Invalid(variable_or(rt, VARIABLE, USUAL_PROGRAMS)?)),
        Err(ListFault::Memory) => Err(Fault::Memory),
    }
}

fn report_list(rt: &HostRuntime, list: &ProgramList, json: bool) -> Result<bool, Fault> {
    let mut all = true;
    for filter in list.filters() {
        let runs = report_program(rt, "filter", filter.name.as_str(), &filter.program, json)?;
        all = all && runs;
    }
    for backend in list.backends() {
        let runs = report_program(rt, "backend", backend.name.as_str(), &backend.program, json)?;
        all = all && runs;
    }
    if let Some(side) = list.side() {
        let runs = report_program(rt, "side", "program", side, json)?;
        all = all && runs;
    }
    Ok(all)
}

// Returns whether a program can be run, and prints why if it cannot.
fn report_program(
    rt: &HostRuntime,
    kind: &str,
    name: &str,
    program: &ListedProgram,
    json: bool,
) -> Result<bool, Fault> {
    match obstacle_of_program(rt, program) {
        Some(obstacle) if json => {
            let why = format!(in rt.alloc(); "{obstacle}")?;
            print_json(rt, unfit_json(rt.alloc(), kind, name, why.as_str())?)?;
            Ok(false)
        }
        Some(obstacle) => {
            println!(rt; "{kind} {name} cannot be run: {obstacle}")?;
            Ok(false)
        }
        None => Ok(true),
    }
}
