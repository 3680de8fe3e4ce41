//! The prefix of a line (filter(7)).
ghost use Rattle.std.specs.Prelude.{◌≡◌, ◌≤◌, [], MatchOption, length, map, drop};
ghost use Rattle.stderr_lines.specs.LineEffects.{prefix_of, shown_byte, effects_by, line_effects};

use crate::cuts::cut_at;
use line_words::after_blanks;
use spool_types::Level;

/// The prefixes.
#[derive(Clone, Copy)]
pub enum Prefix {
    /// `DEBUG:`, `DEBUG2:`, `PPD:` or any other word: the line has no effect.
    Silent,
    /// `PAGE:`
    Page,
    /// `STATE:`
    State,
    /// `ATTR:`
    Attr,
    /// A message of this level.
    Level(Level),
}

/// Returns the prefix of a line that may have an effect, and the position of its text.
pub fn prefix_at(line: &[u8]) -> Option<(Prefix, usize)>
    ensures { MatchOption result (line_effects line.now ≡ []) (λ p. (p.1 ≤ length line.now) × (line_effects line.now ≡ effects_by p.0 (map shown_byte (drop p.1 line.now)))) }
{
    let (name, rest) = cut_at(b':', line)?;
    let text = after_blanks(rest);
    Some((prefix_of(name), line.len() - text.len()))
}

fn prefix_of(name: &[u8]) -> Prefix
    ensures { result ≡ prefix_of name.now }
{
    if name == b"PAGE".as_slice() {
        return Prefix::Page;
    }
    if name == b"STATE".as_slice() {
        return Prefix::State;
    }
    if name == b"ATTR".as_slice() {
        return Prefix::Attr;
    }
    if name == b"EMERG".as_slice() {
        return Prefix::Level(Level::Emergency);
    }
    if name == b"ALERT".as_slice() {
        return Prefix::Level(Level::Alert);
    }
    if name == b"CRIT".as_slice() {
        return Prefix::Level(Level::Critical);
    }
    if name == b"ERROR".as_slice() {
        return Prefix::Level(Level::Error);
    }
    if name == b"WARNING".as_slice() {
        return Prefix::Level(Level::Warning);
    }
    if name == b"NOTICE".as_slice() {
        return Prefix::Level(Level::Notice);
    }
    if name == b"INFO".as_slice() {
        return Prefix::Level(Level::Info);
    }
    Prefix::Silent
}
