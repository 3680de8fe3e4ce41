//! The first line of a programs file that is rejected.
//!
//! Each line is read once, and compared with each line before it.
ghost use Rattle.std.specs.Prelude.{◌≡◌, ◌&&◌, true, false, IfOk, is_some, map};
ghost use Rattle.std.specs.Option.{option_map};
ghost use Rattle.std.specs.List.{list_any};
ghost use Rattle.program_lists.specs.ProgramLines.{lines_of};
ghost use Rattle.program_lists.specs.Programs.{programs_in, reads};
ghost use Rattle.fault_causes.specs.RejectedLines.{has_name, has_name_of, rejected_line, shares_program};

use program_lists::{ListFault, Listed, ListedProgram, ProgramList};
use std::alloc::{AllocError, Global};

/// Returns the number of lines before the first that is rejected, and whether it would be rejected alone too.
pub fn rejected_line(alloc: Global, text: &str) -> Result<Option<(usize, bool)>, AllocError>
    ensures { IfOk result (λ found. found ≡ rejected_line text.now) }
{
    let mut earlier = Vec::new(alloc);
    for line in lines_of(alloc, text)?.iter() {
        let Some(list) = read_alone(alloc, line)? else {
            return Ok(Some((earlier.len(), true)));
        };
        if is_taken(&earlier, &list) {
            return Ok(Some((earlier.len(), false)));
        }
        earlier.push(list)?;
    }
    Ok(None)
}

fn lines_of<'a>(alloc: Global, text: &'a str) -> Result<Vec<&'a str>, AllocError>
    ensures { IfOk result (λ lines. map (λ line. line.now) lines.items ≡ lines_of text.now) }
{
    text.split('\n').collect(alloc)
}

// Returns the programs of a line, unless it is rejected.
fn read_alone(alloc: Global, line: &str) -> Result<Option<ProgramList>, AllocError>
    ensures read { IfOk result (λ list. is_some list ≡ reads line.now) }
    ensures list { IfOk result (λ list. option_map (λ _. programs_in line.now) list ≡ list) }
{
    match ProgramList::read(alloc, line) {
        Ok(list) => Ok(Some(list)),
        Err(ListFault::Unread) => Ok(None),
        Err(ListFault::Memory) => Err(AllocError),
    }
}

// Returns whether one of the earlier lists is about the same program.
fn is_taken(earlier: &[ProgramList], list: &ProgramList) -> bool
    ensures { result ≡ list_any (λ before. shares_program before list.now) earlier.now }
{
    earlier.iter().any(|before| shares_program(before, list))
}

// Returns whether both lists are about the same program.
fn shares_program(earlier: &ProgramList, list: &ProgramList) -> bool
    ensures { result ≡ shares_program earlier.now list.now }
{
    shares_filter(earlier, list)
        || shares_backend(earlier, list)
        || (has_side(earlier) && has_side(list))
}

fn shares_filter(earlier: &ProgramList, list: &ProgramList) -> bool
    ensures { result ≡ has_name_of earlier.now.filters list.now.filters }
{
    list.filters()
        .iter()
        .any(|listed| has_filter(earlier, listed.name.as_str()))
}

fn shares_backend(earlier: &ProgramList, list: &ProgramList) -> bool
    ensures { result ≡ has_name_of earlier.now.backends list.now.backends }
{
    list.backends()
        .iter()
        .any(|listed| has_backend(earlier, listed.name.as_str()))
}

fn has_filter(list: &ProgramList, name: &str) -> bool
    ensures { result ≡ has_name name.now list.now.filters }
{
    list.filter(name).is_some()
}

fn has_backend(list: &ProgramList, name: &str) -> bool
    ensures { result ≡ has_name name.now list.now.backends }
{
    list.backend(name).is_some()
}

fn has_side(list: &ProgramList) -> bool
    ensures { result ≡ is_some list.now.side }
{
    list.side().is_some()
}
