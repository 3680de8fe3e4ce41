//! The programs of a print spooler: a file that names the programs of the filters, the backends and the end of the side channel.
//!
//! # The lines
//!
//! A line ends with its line feed, and the last line needs none. Its words are separated by blanks (spaces and tabs). A carriage return
//! is no blank, so it belongs to a word. A `#` at the start of a line or after a blank begins a comment, which ends with the line. A line
//! without words is skipped. Any other line is one of these:
//!
//! - `filter NAME PATH [WORD]`: NAME is the name of a filter, 1 to 127 letters, digits, `-`, `_` and `.`.
//! - `backend NAME PATH [WORD]`: NAME is the scheme of a device's URI, as the parser of the URL Standard returns it: a lower-case letter,
//!   and then lower-case letters, digits, `+`, `-` and `.`.
//! - `root-backend NAME PATH [WORD]`: a backend that runs as the user of the spooler, even if the other children have users of their own.
//!   This is a kind of line, because a word after PATH is an argument.
//! - `side PATH [WORD]`: the program that ends a session of the side channel.
//!
//! PATH is the path of the program. It begins with `/` and contains neither a blank nor `=`, so that `env` does not take it for a
//! variable. WORD, if present, precedes the words of a job.
//!
//! # Promises
//!
//! *ExactPrograms*:
//!
//! - [`ProgramList::read`] accepts a text exactly if each line is valid, no name occurs twice among the filters or among the backends,
//!   and at most one line is of the side channel (`reads`, `unread`). The list has each line's entry, in order (`value`).
//! - [`ProgramList::filter`] and [`ProgramList::backend`] return the program of a name, and `None` exactly if no program has it
//!   (`value`). [`ProgramList::filters`] and [`ProgramList::backends`] return all filters and all backends in the file's order, and
//!   [`ProgramList::side`] returns the side channel's program.
//! - [`ProgramList::empty`] has no programs.
//!
//! # Not proved
//!
//! - Cost: a file is read in time quadratic in the number of its lines.
//!
//! # Errors
//!
//! If any line is invalid, or is one too many, the whole text is rejected (`Unread`). The other error is out of memory.
//!
//! # Cost
//!
//! Each line is read once, and its name is compared with the earlier names of its kind. Only [`ProgramList::read`] allocates.
#![tactic(auto)]

mod kinds;
mod line;
mod list;

pub use kinds::{
    BackendName, BackendNameKind, ProgramPath, ProgramPathKind, ProgramWord, ProgramWordKind,
};
pub use line::{Listed, ListedBackend, ListedFilter, ListedProgram};
pub use list::{ListFault, ProgramList};
