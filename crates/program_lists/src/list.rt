//! The programs of a file.
ghost use Rattle.std.specs.Prelude.{◌≡◌, ◌∷◌, ◌++◌, [], not, false, map, IfOk, OnOk, IsErrOf, IsTrue};
ghost use Rattle.std.specs.List.{list_any};
ghost use Rattle.std.specs.Option.{option_map};
ghost use Rattle.program_lists.specs.ProgramLines.{lines_of};
ghost use Rattle.program_lists.specs.Programs.{no_programs, programs_in, reads, program_named, is_named, fits, with_said};

use crate::line::{Listed, ListedBackend, ListedFilter, ListedProgram, Said, read_line};
use spool_types::TextKind;
use std::alloc::{AllocError, Global};
use std::marker::Model;

/// Why a text is not a list of programs.
#[derive(Clone, Copy, Debug, PartialEq, Eq)]
pub enum ListFault {
    /// A line is invalid, a name occurs twice in its kind, or two lines are of the side channel.
    Unread,
    /// Out of memory.
    Memory,
}

impl From<AllocError> for ListFault {
    ghost use Rattle.program_lists.specs.declared.list.ListFault.TheVariants.{Memory};

    ghost from_gives = { λ _ e. e ≡ Memory };

    fn from(_error: AllocError) -> ListFault {
        ListFault::Memory
    }
}

/// The programs of a file, each kind in the order of its lines.
#[derive(Drop)]
pub struct ProgramList {
    filters: Vec<ListedFilter>,
    backends: Vec<ListedBackend>,
    side: Option<ListedProgram>,
}

impl Model for ProgramList {
    ghost use Rattle.program_lists.specs.Programs.{Programs, programs_code};

    ghost Value = { Programs };

    ghost coded = { programs_code };

    ghost view = { λ list. record { filters = list.filters.items; backends = list.backends.items; side = list.side } };
}

impl ProgramList {
    /// Returns a list without programs. Allocates nothing.
    pub fn empty(alloc: Global) -> ProgramList
        ensures value { result ≡ no_programs }
    {
        ProgramList {
            filters: Vec::new(alloc),
            backends: Vec::new(alloc),
            side: None,
        }
    }

    /// Reads the text of a file. If any line is invalid, the whole text is rejected.
    pub fn read(alloc: Global, text: &str) -> Result<ProgramList, ListFault>
        ensures value { IfOk result (λ list. list ≡ programs_in text.now) }
        ensures reads { OnOk result (IsTrue (reads text.now)) }
        ensures unread { IsErrOf result ListFault.Unread → reads text.now ≡ false }
    {
        let mut list = ProgramList::empty(alloc);
        for line in lines_of(alloc, text)?.iter() {
            if !list.add(read_line(alloc, line.as_bytes())?)? {
                return Err(ListFault::Unread);
            }
        }
        Ok(list)
    }

    // Adds the program of a line. Returns false if the line is invalid or one too many.
    fn add(&mut self, said: Said) -> Result<bool, AllocError>
        ensures fits { IfOk result (λ fitting. fitting ≡ fits self.old said) }
        ensures added { IfOk result (λ fitting. IsTrue fitting → self.new ≡ with_said self.old said) }
    {
        match said {
            Said::Nothing => Ok(true),
            Said::Filter(listed) => add_listed(&mut self.filters, listed),
            Said::Backend(listed) => add_listed(&mut self.backends, listed),
            Said::Side(program) => {
                if self.side.is_some() {
                    return Ok(false);
                }
                self.side = Some(program);
                Ok(true)
            }
            Said::Unread => Ok(false),
        }
    }

    /// Returns the program of the filter with this name.
    pub fn filter(&self, name: &str) -> Option<&ListedProgram>
        ensures value { option_map (λ program. program.now) result ≡ program_named name.now self.now.filters }
    {
        find(&self.filters, name)
    }

    /// Returns the program of the backend with this name, a scheme in lower case and without its colon.
    pub fn backend(&self, name: &str) -> Option<&ListedProgram>
        ensures value { option_map (λ program. program.now) result ≡ program_named name.now self.now.backends }
    {
        find(&self.backends, name)
    }

    /// Returns the filters in the order of their lines.
    pub fn filters(&self) -> &[ListedFilter]
        ensures value { result.now ≡ self.now.filters }
    {
        &self.filters
    }

    /// Returns the backends in the order of their lines.
    pub fn backends(&self) -> &[ListedBackend]
        ensures value { result.now ≡ self.now.backends }
    {
        &self.backends
    }

    /// Returns the program that ends a session of the side channel.
    pub fn side(&self) -> Option<&ListedProgram>
        ensures value { option_map (λ program. program.now) result ≡ self.now.side }
    {
        self.side.as_ref()
    }
}

// Returns the lines of a text. The last may be empty.
fn lines_of<'a>(alloc: Global, text: &'a str) -> Result<Vec<&'a str>, AllocError>
    ensures { IfOk result (λ lines. map (λ line. line.now) lines.items ≡ lines_of text.now) }
{
    text.split('\n').collect(alloc)
}

// Returns the program with this name.
fn find<'a, K: TextKind>(list: &'a [Listed<K>], name: &str) -> Option<&'a ListedProgram>
    ensures { option_map (λ program. program.now) result ≡ program_named name.now list.now }
{
    let listed = list.iter().find(|listed| listed.name.as_str() == name)?;
    Some(&listed.program)
}

// Adds a program. Returns false if its name exists already.
fn add_listed<K: TextKind>(list: &mut Vec<Listed<K>>, listed: Listed<K>) -> Result<bool, AllocError>
    ensures fits { IfOk result (λ fitting. fitting ≡ not (list_any (is_named listed.name) list.old.items)) }
    ensures added { IfOk result (λ fitting. IsTrue fitting → list.new.items ≡ list.old.items ++ listed ∷ []) }
{
    if find(list, listed.name.as_str()).is_some() {
        return Ok(false);
    }
    list.push(listed)?;
    Ok(true)
}
