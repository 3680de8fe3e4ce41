//! The program on a line.
ghost use Rattle.std.specs.Prelude.{◌≡◌, IfOk, map};
ghost use Rattle.program_lists.specs.ProgramLines.{words_of, said_by, listed_in, program_in, word_in, begins_remark, as_filter, as_backend, as_side};

use crate::kinds::{BackendNameKind, ProgramPath, ProgramWord};
use line_words::is_blank;
use spool_types::{FilterNameKind, Text, TextKind};
use std::alloc::{AllocError, Global};

const FILTER: &[u8] = b"filter";

const BACKEND: &[u8] = b"backend";

const ROOT_BACKEND: &[u8] = b"root-backend";

const SIDE: &[u8] = b"side";

/// A program: its path, and the word that precedes the words of a job, if any.
#[derive(Drop)]
pub struct ListedProgram {
    pub path: ProgramPath,
    pub word: Option<ProgramWord>,
    /// Whether it runs as the user of the spooler, even if the other children have users of their own.
    pub keeps_user: bool,
}

/// A program and its name, a text of the kind `K`.
#[derive(Drop)]
pub struct Listed<K: TextKind> {
    pub name: Text<K>,
    pub program: ListedProgram,
}

/// A filter of the file.
pub type ListedFilter = Listed<FilterNameKind>;

/// A backend of the file, under the scheme of the devices that it serves.
pub type ListedBackend = Listed<BackendNameKind>;

/// The contents of a line.
#[derive(Drop)]
pub enum Said {
    /// The line has no words.
    Nothing,
    Filter(ListedFilter),
    Backend(ListedBackend),
    Side(ListedProgram),
    /// The line is invalid.
    Unread,
}

/// Reads a line.
pub fn read_line(alloc: Global, line: &[u8]) -> Result<Said, AllocError>
    ensures { IfOk result (λ said. said ≡ said_by (words_of line.now)) }
{
    let words = words_of(alloc, line)?;
    let Some((first, rest)) = words.split_first() else {
        return Ok(Said::Nothing);
    };
    if *first == FILTER {
        Ok(as_filter(read_listed(alloc, rest, false)?))
    } else if *first == BACKEND {
        Ok(as_backend(read_listed(alloc, rest, false)?))
    } else if *first == ROOT_BACKEND {
        Ok(as_backend(read_listed(alloc, rest, true)?))
    } else if *first == SIDE {
        Ok(as_side(read_program(alloc, rest, false)?))
    } else {
        Ok(Said::Unread)
    }
}

// Returns the words of a line before its comment.
fn words_of<'a>(alloc: Global, line: &'a [u8]) -> Result<Vec<&'a [u8]>, AllocError>
    ensures { IfOk result (λ words. map (λ word. word.now) words.items ≡ words_of line.now) }
{
    line.split(|b| is_blank(*b))
        .filter(|word| !word.is_empty())
        .take_while(|word| !begins_remark(word))
        .collect(alloc)
}

fn begins_remark(word: &[u8]) -> bool
    ensures { result ≡ begins_remark word.now }
{
    word.first() == Some(&b'#')
}

// Reads NAME PATH [WORD]. Returns `None` if the words do not have this form.
fn read_listed<K: TextKind>(
    alloc: Global,
    words: &[&[u8]],
    keeps_user: bool,
) -> Result<Option<Listed<K>>, AllocError>
    ensures { IfOk result (λ listed. listed ≡ listed_in keeps_user K.allowed (map (λ word. word.now) words.now)) }
{
    let Some((name, rest)) = words.split_first() else {
        return Ok(None);
    };
    let Some(name) = Text::from_word(alloc, name)? else {
        return Ok(None);
    };
    let Some(program) = read_program(alloc, rest, keeps_user)? else {
        return Ok(None);
    };
    Ok(Some(Listed { name, program }))
}

// Reads PATH [WORD]. Returns `None` if the words do not have this form.
fn read_program(
    alloc: Global,
    words: &[&[u8]],
    keeps_user: bool,
) -> Result<Option<ListedProgram>, AllocError>
    ensures { IfOk result (λ program. program ≡ program_in keeps_user (map (λ word. word.now) words.now)) }
{
    let Some((path, rest)) = words.split_first() else {
        return Ok(None);
    };
    let Some(path) = ProgramPath::from_word(alloc, path)? else {
        return Ok(None);
    };
    let Some(word) = read_word(alloc, rest)? else {
        return Ok(None);
    };
    Ok(Some(ListedProgram {
        path,
        word,
        keeps_user,
    }))
}

// Reads [WORD]. Returns `None` if the words do not have this form.
fn read_word(alloc: Global, words: &[&[u8]]) -> Result<Option<Option<ProgramWord>>, AllocError>
    ensures { IfOk result (λ word. word ≡ word_in (map (λ word. word.now) words.now)) }
{
    let Some((word, more)) = words.split_first() else {
        return Ok(Some(None));
    };
    if !more.is_empty() {
        return Ok(None);
    }
    match ProgramWord::from_word(alloc, word)? {
        Some(word) => Ok(Some(Some(word))),
        None => Ok(None),
    }
}

fn as_filter(listed: Option<ListedFilter>) -> Said
    ensures { result ≡ as_filter listed }
{
    match listed {
        Some(listed) => Said::Filter(listed),
        None => Said::Unread,
    }
}

fn as_backend(listed: Option<ListedBackend>) -> Said
    ensures { result ≡ as_backend listed }
{
    match listed {
        Some(listed) => Said::Backend(listed),
        None => Said::Unread,
    }
}

fn as_side(program: Option<ListedProgram>) -> Said
    ensures { result ≡ as_side program }
{
    match program {
        Some(program) => Said::Side(program),
        None => Said::Unread,
    }
}
