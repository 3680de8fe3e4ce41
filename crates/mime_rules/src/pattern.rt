//! The patterns of `match`.
ghost use Rattle.std.specs.Prelude.{◌≡◌, ◌≤◌, ◌<◌, ◌&&◌, ◌∷◌, nat_le, [], IfOk, IfSome, MatchOption, map, length, true, false, Some, None};
ghost use Rattle.std.specs.Option.{option_map};
ghost use Rattle.mime_rules.specs.RuleReading.{read};
ghost use Rattle.mime_rules.specs.Tests.{some_end};
ghost use Rattle.mime_rules.specs.Patterns.{matching, is_in, piece_of_byte, pieces_in, with_piece, one, range_behind};
ghost use Rattle.mime_rules.specs.RuleFields.{piece_of, passes_piece, is_run, rest_matches, Reads, PatternSays, PieceSays};

use crate::stop::Stop;
use spool_types::WarningKind;
use std::alloc::Global;

/// A part of a pattern.
#[derive(Drop)]
pub(crate) enum Piece {
    /// Any bytes: `*`.
    Run,
    /// Any byte: `?`.
    Any,
    /// This byte.
    Byte(u8),
    /// A byte of a set, stored as it is written between its brackets.
    Set(Vec<u8>),
}

/// Returns whether the whole name matches the pattern. The match continues at the first position where the bytes between two runs match.
pub(crate) fn matches(pattern: &[Piece], name: &[u8]) -> bool
    ensures value { result ≡ matching (map piece_of pattern.now) name.now }
{
    let mut found = fit(pattern, name);
    while let Some((pieces, rest)) = found {
        match pieces.split_first() {
            None => return true,
            Some((_, behind)) => found = first_fit(behind, rest),
        }
    }
    false
}

// Matches the single bytes at the front of a pattern, up to a run, or up to the end of both. Returns the rests, or `None` if they do not
// match.
fn fit<'a, 'b>(pattern: &'a [Piece], name: &'b [u8]) -> Option<(&'a [Piece], &'b [u8])>
    ensures value { MatchOption result (matching (map piece_of pattern.now) name.now ≡ false) (λ r. matching (map piece_of pattern.now) name.now ≡ rest_matches (map piece_of r.0.now) r.1.now) }
    ensures leads { IfSome result (λ r. some_end (matching (map piece_of pattern.now)) name.now ≡ true → rest_matches (map piece_of r.0.now) r.1.now ≡ true) }
    ensures bound { IfSome result (λ r. length r.0.now ≤ length pattern.now) }
{
    let mut pieces = pattern;
    let mut rest = name;
    while let Some((piece, behind)) = pieces.split_first() {
        if is_run(piece) {
            return Some((pieces, rest));
        }
        match rest.split_first() {
            None => return None,
            Some((b, after)) => {
                if !passes(piece, *b) {
                    return None;
                }
                rest = after;
                pieces = behind;
            }
        }
    }
    if rest.is_empty() {
        Some((pieces, rest))
    } else {
        None
    }
}

// Finds the first end of the bytes that the front of the pattern matches.
fn first_fit<'a, 'b>(pattern: &'a [Piece], name: &'b [u8]) -> Option<(&'a [Piece], &'b [u8])>
    ensures value { MatchOption result (some_end (matching (map piece_of pattern.now)) name.now ≡ false) (λ r. some_end (matching (map piece_of pattern.now)) name.now ≡ rest_matches (map piece_of r.0.now) r.1.now) }
    ensures bound { IfSome result (λ r. length r.0.now ≤ length pattern.now) }
{
    let mut rest = name;
    loop {
        if let Some(found) = fit(pattern, rest) {
            return Some(found);
        }
        match rest.split_first() {
            Some((_, behind)) => rest = behind,
            None => return None,
        }
    }
}

fn is_run(piece: &Piece) -> bool
    ensures { result ≡ is_run (piece_of piece.now) }
{
    match piece {
        Piece::Run => true,
        Piece::Any | Piece::Byte(_) | Piece::Set(_) => false,
    }
}

// Returns whether the byte matches the piece. The caller never passes a run.
fn passes(piece: &Piece, b: u8) -> bool
    ensures { result ≡ passes_piece (piece_of piece.now) b }
{
    match piece {
        Piece::Run | Piece::Any => true,
        Piece::Byte(wanted) => b == *wanted,
        Piece::Set(set) => is_in(set, b),
    }
}

// Returns whether a byte is in a set: one of its single bytes, or in one of its ranges of three bytes.
fn is_in(set: &[u8], x: u8) -> bool
    ensures { result ≡ is_in set.now x }
{
    let mut rest = set;
    while let Some((first, behind)) = rest.split_first() {
        match range_end(behind) {
            None => {
                if x == *first {
                    return true;
                }
                rest = behind;
            }
            Some((last, further)) => {
                if is_between(*first, last, x) {
                    return true;
                }
                rest = further;
            }
        }
    }
    false
}

fn is_between(first: u8, last: u8, x: u8) -> bool
    ensures { result ≡ (nat_le first x && nat_le x last) }
{
    first <= x && x <= last
}

// Returns the last member of a range and the bytes after it, if these bytes continue a range after its first member.
fn range_end(set: &[u8]) -> Option<(u8, &[u8])>
    ensures value { option_map (λ r. (r.0, r.1.now)) result ≡ range_behind set.now }
    ensures bound { IfSome result (λ r. length r.1.now < length set.now) }
{
    match set {
        [dash, last, further @ ..] => {
            if *dash == b'-' {
                Some((*last, further))
            } else {
                None
            }
        }
        _ => None,
    }
}

/// Returns the pieces of a pattern. A set that is not closed is an error.
pub(crate) fn pattern_of(alloc: Global, text: &[u8]) -> Result<Vec<Piece>, Stop>
    ensures value { Reads result (λ v. read (map piece_of v.items) []) (PatternSays text.now) }
{
    let mut pieces = Vec::new(alloc);
    let mut rest = text;
    'pieces: loop {
        match rest.split_first() {
            None => return Ok(pieces),
            Some((b, behind)) => match next_piece(alloc, *b, behind) {
                Err(stop) => return Err(stop),
                Ok((piece, after)) => {
                    pieces.push(piece)?;
                    rest = after;
                }
            },
        }
    }
}

// Returns the piece that begins with this byte, and the bytes after it.
fn next_piece<'a>(alloc: Global, first: u8, behind: &'a [u8]) -> Result<(Piece, &'a [u8]), Stop>
    ensures value { Reads result (λ r. read (piece_of r.0) r.1.now) (PieceSays (first ∷ behind.now)) }
    ensures bound { IfOk result (λ r. length r.1.now ≤ length behind.now) }
{
    if first != b'[' {
        return Ok((piece_of_byte(first), behind));
    }
    match cut_set(behind) {
        None => Err(Stop::Fault(WarningKind::BadRule)),
        Some((set, after)) => {
            let members = Vec::from_slice(alloc, set)?;
            Ok((Piece::Set(members), after))
        }
    }
}

fn piece_of_byte(b: u8) -> Piece
    ensures { piece_of result ≡ piece_of_byte b }
{
    if b == b'*' {
        Piece::Run
    } else if b == b'?' {
        Piece::Any
    } else {
        Piece::Byte(b)
    }
}

// Returns the members of a set, and the bytes after its bracket.
fn cut_set(text: &[u8]) -> Option<(&[u8], &[u8])>
    ensures value { MatchOption result (pieces_in (Some []) text.now ≡ None) (λ r. pieces_in (Some []) text.now ≡ with_piece (one (is_in r.0.now)) (pieces_in None r.1.now)) }
    ensures bound { IfSome result (λ r. length r.1.now < length text.now) }
{
    for (i, b) in text.iter().enumerate() {
        if *b == b']' {
            return Some((&text[..i], &text[i + 1..]));
        }
    }
    None
}
