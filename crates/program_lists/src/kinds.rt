//! The kinds of words of a line.
ghost use Rattle.std.specs.Prelude.{◌≡◌};
ghost use Rattle.std.specs.List.{list_all};
ghost use Rattle.program_lists.specs.ProgramWords.{is_path, is_path_byte, is_word, is_scheme, is_scheme_byte, is_small_letter};

use line_words::is_blank;
use spool_types::{Text, TextKind};

/// The kind of a program's path: it begins with `/`, and contains neither a blank nor `=`.
#[derive(Clone, Copy)]
pub struct ProgramPathKind;

/// The path of a program.
pub type ProgramPath = Text<ProgramPathKind>;

impl TextKind for ProgramPathKind {
    ghost allowed = { is_path };

    fn allows(text: &str) -> bool {
        match text.as_bytes().split_first() {
            Some((first, _)) => *first == b'/' && has_only_path_bytes(text),
            None => false,
        }
    }
}

fn has_only_path_bytes(text: &str) -> bool
    ensures { result ≡ list_all is_path_byte text.now }
{
    text.as_bytes().iter().all(|b| is_path_byte(*b))
}

// Returns whether `b` is neither a blank nor `=`.
fn is_path_byte(b: u8) -> bool
    ensures { result ≡ is_path_byte b }
{
    !is_blank(b) && b != b'='
}

/// The kind of a program's first word: it contains no blank.
#[derive(Clone, Copy)]
pub struct ProgramWordKind;

/// A word that a program gets before all others.
pub type ProgramWord = Text<ProgramWordKind>;

impl TextKind for ProgramWordKind {
    ghost allowed = { is_word };

    fn allows(text: &str) -> bool {
        text.as_bytes().iter().all(|b| !is_blank(*b))
    }
}

/// The kind of a backend's name: the scheme of a device's URI (RFC 3986) as the parser of the URL Standard returns it, with capitals
/// turned into lower case. It is a lower-case letter, and then lower-case letters, digits, `+`, `-` and `.`.
#[derive(Clone, Copy)]
pub struct BackendNameKind;

/// The scheme of the devices that a backend serves.
pub type BackendName = Text<BackendNameKind>;

impl TextKind for BackendNameKind {
    ghost allowed = { is_scheme };

    fn allows(text: &str) -> bool {
        match text.as_bytes().split_first() {
            Some((first, rest)) => is_small_letter(*first) && has_only_scheme_bytes(rest),
            None => false,
        }
    }
}

fn has_only_scheme_bytes(bytes: &[u8]) -> bool
    ensures { result ≡ list_all is_scheme_byte bytes.now }
{
    bytes.iter().all(|b| is_scheme_byte(*b))
}

fn is_small_letter(b: u8) -> bool
    ensures { result ≡ is_small_letter b }
{
    matches!(b, b'a'..=b'z')
}

// Returns whether `b` is a lower-case letter, a digit or one of `+-.`.
fn is_scheme_byte(b: u8) -> bool
    ensures { result ≡ is_scheme_byte b }
{
    matches!(b, b'a'..=b'z' | b'0'..=b'9' | b'+' | b'-' | b'.')
}
