//! The arguments of tests: numbers, texts and values.
ghost use Rattle.std.specs.Prelude.{◌≡◌, ◌<◌, ◌≤◌, ◌∷◌, ℕ, ◌+◌, ◌*◌, List, length, IfOk, true, false};
ghost use Rattle.line_words.specs.Blanks.{is_blank};
ghost use Rattle.mime_lines.specs.RuleNumbers.{is_hex_digit, digit_value};
ghost use Rattle.mime_rules.specs.RuleReading.{read, on, before, from, closed_by};
ghost use Rattle.mime_rules.specs.TestArguments.{is_close, is_mark, is_quote, is_closing, number_at, number_then, text_from, text_at, pair_at, value_at, text_of_width, bare, quoted, hex, width_of, most_of, value_bytes};
ghost use Rattle.mime_rules.specs.RuleFields.{ReadsExactly, Grown};

use crate::stop::Stop;
use line_words::{after_blanks, is_blank, trim};
use mime_lines::{Number, read_number};
use spool_types::WarningKind;
use std::alloc::{AllocError, Global};

const COMMA: u8 = b',';

const CLOSE: u8 = b')';

/// The width in bytes of a value.
#[derive(Clone, Copy)]
pub(crate) enum Width {
    Char,
    Short,
    Int,
}

impl Width {
    fn bytes(self) -> usize
        ensures { result ≡ width_of self }
    {
        match self {
            Width::Char => 1,
            Width::Short => 2,
            Width::Int => 4,
        }
    }

    fn most(self) -> u32
        ensures { result ≡ most_of self }
    {
        match self {
            Width::Char => 255,
            Width::Short => 65_535,
            Width::Int => 4_294_967_295,
        }
    }
}

/// Reads a number that is at most `most`, and the byte that must follow it. Returns the number and the rest.
pub(crate) fn number_then(line: &[u8], mark: u8, most: u32) -> Result<(u32, &[u8]), Stop>
    ensures value { ReadsExactly result (λ r. read r.0 r.1.now) (number_then mark most line.now) }
    ensures within { IfOk result (λ r. r.0 ≤ most) }
    ensures bound { IfOk result (λ r. length r.1.now < length line.now) }
{
    let (number, rest) = number_at(line, most)?;
    let behind = closed_by(rest, mark)?;
    Ok((number, behind))
}

// Reads the number up to the next mark. Returns it and the rest from the mark on.
fn number_at(line: &[u8], most: u32) -> Result<(u32, &[u8]), Stop>
    ensures value { ReadsExactly result (λ r. read r.0 r.1.now) (number_at most line.now) }
    ensures within { IfOk result (λ r. r.0 ≤ most) }
    ensures bound { IfOk result (λ r. length r.1.now ≤ length line.now) }
{
    let (word, rest) = cut_at_mark(line);
    match read_number(trim(word)) {
        None => Err(Stop::Fault(WarningKind::BadNumber)),
        Some(Number::TooGreat) => Err(Stop::Fault(WarningKind::BadNumber)),
        Some(Number::Fits(n)) => {
            if n <= most {
                Ok((n, rest))
            } else {
                Err(Stop::Fault(WarningKind::BadNumber))
            }
        }
    }
}

// Returns the bytes after the wanted byte, which must be next.
fn closed_by(line: &[u8], wanted: u8) -> Result<&[u8], Stop>
    ensures value { ReadsExactly result (λ rest. read wanted rest.now) (closed_by wanted line.now) }
    ensures bound { IfOk result (λ rest. length rest.now < length line.now) }
{
    match line.split_first() {
        Some((b, behind)) => {
            if *b == wanted {
                Ok(behind)
            } else {
                Err(Stop::Fault(WarningKind::BadRule))
            }
        }
        None => Err(Stop::Fault(WarningKind::BadRule)),
    }
}

// Splits the line before its first `,` or `)`.
fn cut_at_mark(line: &[u8]) -> (&[u8], &[u8])
    ensures before { result.0.now ≡ before is_mark line.now }
    ensures rest { result.1.now ≡ from is_mark line.now }
    ensures bound { length result.1.now ≤ length line.now }
{
    for (i, b) in line.iter().enumerate() {
        if *b == COMMA || *b == CLOSE {
            return (&line[..i], &line[i..]);
        }
    }
    (line, &[])
}

// Splits the line before its first `)`.
fn cut_at_close(line: &[u8]) -> (&[u8], &[u8])
    ensures before { result.0.now ≡ before is_close line.now }
    ensures rest { result.1.now ≡ from is_close line.now }
    ensures bound { length result.1.now ≤ length line.now }
{
    for (i, b) in line.iter().enumerate() {
        if *b == CLOSE {
            return (&line[..i], &line[i..]);
        }
    }
    (line, &[])
}

/// Reads a text up to its closing parenthesis. Returns the text and the bytes after the parenthesis.
pub(crate) fn text_at<'a>(alloc: Global, line: &'a [u8]) -> Result<(Vec<u8>, &'a [u8]), Stop>
    ensures value { ReadsExactly result (λ r. read r.0.items r.1.now) (text_at line.now) }
    ensures bound { IfOk result (λ r. length r.1.now < length line.now) }
{
    let mut text = Vec::new(alloc);
    let mut rest = after_blanks(line);
    'runs: loop {
        match rest.split_first() {
            None => return Err(Stop::Fault(WarningKind::BadRule)),
            Some((b, behind)) => {
                if *b == CLOSE {
                    return Ok((text, behind));
                }
                rest = any_run(&mut text, *b, behind)?;
            }
        }
    }
}

// Reads the run that begins with this byte: a run in quotes, a run of hexadecimal digits, blanks, or a single byte.
fn any_run<'a>(text: &mut Vec<u8>, first: u8, behind: &'a [u8]) -> Result<&'a [u8], Stop>
    requires { is_close first ≡ false }
    ensures grown { Grown result (λ rest. text_from bare rest.now) text.old.items text.new.items (text_from bare (first ∷ behind.now)) }
    ensures bound { IfOk result (λ rest. length rest.now ≤ length behind.now) }
{
    if is_blank(first) {
        blank_run(text, first, behind)
    } else if is_quote(first) {
        quoted_run(text, first, behind)
    } else if first == b'<' {
        hex_run(text, behind)
    } else {
        text.push(first)?;
        Ok(behind)
    }
}

fn is_quote(b: u8) -> bool
    ensures { result ≡ is_quote b }
{
    b == b'"' || b == b'\''
}

// Reads a run up to its closing quote.
fn quoted_run<'a>(text: &mut Vec<u8>, quote: u8, line: &'a [u8]) -> Result<&'a [u8], Stop>
    ensures grown { Grown result (λ rest. text_from bare rest.now) text.old.items text.new.items (text_from (quoted quote) line.now) }
    ensures bound { IfOk result (λ rest. length rest.now ≤ length line.now) }
{
    let mut rest = line;
    'bytes: loop {
        match rest.split_first() {
            None => return Err(Stop::Fault(WarningKind::BadText)),
            Some((b, behind)) => {
                if *b == quote {
                    return Ok(behind);
                }
                text.push(*b)?;
                rest = behind;
            }
        }
    }
}

// Reads a run of pairs of hexadecimal digits up to its `>`.
fn hex_run<'a>(text: &mut Vec<u8>, line: &'a [u8]) -> Result<&'a [u8], Stop>
    ensures grown { Grown result (λ rest. text_from bare rest.now) text.old.items text.new.items (text_from hex line.now) }
    ensures bound { IfOk result (λ rest. length rest.now ≤ length line.now) }
{
    let mut rest = line;
    'pairs: loop {
        match rest.split_first() {
            None => return Err(Stop::Fault(WarningKind::BadText)),
            Some((b, behind)) => {
                if *b == b'>' {
                    return Ok(behind);
                }
                match hex_pair(*b, behind) {
                    Err(stop) => return Err(stop),
                    Ok((byte, after)) => {
                        text.push(byte)?;
                        rest = after;
                    }
                }
            }
        }
    }
}

// Returns the byte of two hexadecimal digits and the bytes after them. The second digit is the next byte.
fn hex_pair(high: u8, line: &[u8]) -> Result<(u8, &[u8]), Stop>
    ensures value { ReadsExactly result (λ r. read r.0 r.1.now) (pair_at high line.now) }
    ensures bound { IfOk result (λ r. length r.1.now < length line.now) }
{
    match line.split_first() {
        None => Err(Stop::Fault(WarningKind::BadText)),
        Some((low, after)) => {
            if !high.is_ascii_hexdigit() {
                return Err(Stop::Fault(WarningKind::BadText));
            }
            if !low.is_ascii_hexdigit() {
                return Err(Stop::Fault(WarningKind::BadText));
            }
            Ok((16 * hex_value(high) + hex_value(*low), after))
        }
    }
}

// Returns the value of a hexadecimal digit.
fn hex_value(b: u8) -> u8
    requires { is_hex_digit b ≡ true }
    ensures value { result ≡ digit_value b }
    ensures bound { result < 16 }
{
    if b <= b'9' {
        b - b'0'
    } else if b <= b'F' {
        b - b'A' + 10
    } else {
        b - b'a' + 10
    }
}

// Reads blanks. They belong to the text unless the closing parenthesis follows them.
fn blank_run<'a>(text: &mut Vec<u8>, first: u8, behind: &'a [u8]) -> Result<&'a [u8], Stop>
    requires { is_blank first ≡ true }
    ensures grown { Grown result (λ rest. text_from bare rest.now) text.old.items text.new.items (text_from bare (first ∷ behind.now)) }
    ensures bound { IfOk result (λ rest. length rest.now ≤ length behind.now) }
{
    if is_closing(behind) {
        return Ok(after_blanks(behind));
    }
    text.push(first)?;
    push_blanks(text, behind)
}

// Appends blanks that the closing parenthesis does not follow.
fn push_blanks<'a>(text: &mut Vec<u8>, line: &'a [u8]) -> Result<&'a [u8], Stop>
    requires { is_closing line.now ≡ false }
    ensures grown { Grown result (λ rest. text_from bare rest.now) text.old.items text.new.items (text_from bare line.now) }
    ensures bound { IfOk result (λ rest. length rest.now ≤ length line.now) }
{
    let mut rest = line;
    while let Some((b, behind)) = rest.split_first() {
        if !is_blank(*b) {
            break;
        }
        text.push(*b)?;
        rest = behind;
    }
    Ok(rest)
}

// Returns whether only blanks precede the closing parenthesis.
fn is_closing(line: &[u8]) -> bool
    ensures { result ≡ is_closing line.now }
{
    match after_blanks(line).split_first() {
        Some((b, _)) => *b == CLOSE,
        None => false,
    }
}

/// Reads a value up to its closing parenthesis: a number, or a text of the same width.
pub(crate) fn value_at<'a>(
    alloc: Global,
    line: &'a [u8],
    width: Width,
) -> Result<(Vec<u8>, &'a [u8]), Stop>
    ensures value { ReadsExactly result (λ r. read r.0.items r.1.now) (value_at width line.now) }
    ensures bound { IfOk result (λ r. length r.1.now < length line.now) }
{
    let (word, rest) = cut_at_close(line);
    match read_number(trim(word)) {
        None => text_of_width(alloc, line, width),
        Some(Number::TooGreat) => Err(Stop::Fault(WarningKind::BadNumber)),
        Some(Number::Fits(n)) => {
            if n <= width.most() {
                closed_value(alloc, n, width, rest)
            } else {
                Err(Stop::Fault(WarningKind::BadNumber))
            }
        }
    }
}

// Returns the bytes of a number, and the bytes after its closing parenthesis, which must be next.
fn closed_value<'a>(
    alloc: Global,
    n: u32,
    width: Width,
    line: &'a [u8],
) -> Result<(Vec<u8>, &'a [u8]), Stop>
    requires { n ≤ most_of width }
    ensures value { ReadsExactly result (λ r. read r.0.items r.1.now) (on (λ _. read (value_bytes width n)) (closed_by 41 line.now)) }
    ensures bound { IfOk result (λ r. length r.1.now < length line.now) }
{
    let behind = closed_by(line, CLOSE)?;
    let bytes = value_bytes(alloc, n, width)?;
    Ok((bytes, behind))
}

// Reads a text that must have this width.
fn text_of_width<'a>(
    alloc: Global,
    line: &'a [u8],
    width: Width,
) -> Result<(Vec<u8>, &'a [u8]), Stop>
    ensures value { ReadsExactly result (λ r. read r.0.items r.1.now) (text_of_width width line.now) }
    ensures bound { IfOk result (λ r. length r.1.now < length line.now) }
{
    let (text, rest) = text_at(alloc, line)?;
    if text.len() == width.bytes() {
        Ok((text, rest))
    } else {
        Err(Stop::Fault(WarningKind::BadText))
    }
}

// Returns the bytes of a number, most significant byte first.
fn value_bytes(alloc: Global, n: u32, width: Width) -> Result<Vec<u8>, AllocError>
    requires { n ≤ most_of width }
    ensures { IfOk result (λ v. v.items ≡ value_bytes width n) }
{
    match width {
        Width::Char => Vec::from_slice(alloc, &[n as u8]),
        Width::Short => short_bytes(alloc, n),
        Width::Int => int_bytes(alloc, n),
    }
}

fn short_bytes(alloc: Global, n: u32) -> Result<Vec<u8>, AllocError>
    requires { n ≤ 65535 }
    ensures { IfOk result (λ v. v.items ≡ value_bytes Width.Short n) }
{
    Vec::from_slice(alloc, &[(n / 256) as u8, (n % 256) as u8])
}

fn int_bytes(alloc: Global, n: u32) -> Result<Vec<u8>, AllocError>
    ensures { IfOk result (λ v. v.items ≡ value_bytes Width.Int n) }
{
    Vec::from_slice(
        alloc,
        &[
            (n / 16_777_216) as u8,
            (n / 65_536 % 256) as u8,
            (n / 256 % 256) as u8,
            (n % 256) as u8,
        ],
    )
}
