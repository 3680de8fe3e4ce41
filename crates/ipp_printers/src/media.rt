//! Sizes of paper, and keywords.
ghost use Rattle.std.specs.Prelude.{◌≡◌, ◌≤◌, ◌^◌, Some, IfOk, IfSome};
ghost use Rattle.std.specs.List.{list_all};
ghost use Rattle.std.specs.Option.{option_map};
ghost use Rattle.ipp_printers.specs.MediaNames.{is_keyword, is_keyword_byte, begins_small, parted, unit_of, fraction_of, whole_of, length_in, size_between, size_by, size_in, size_of, short_name, media_in};

use line_words::decimal;
use spool_types::{Text, TextKind};
use std::alloc::{AllocError, Global};

/// The kind of a keyword of IPP (RFC 8011, section 5.1.4): a lower-case letter, and then lower-case letters, digits, `-`, `.` and `_`, at
/// most 255 bytes in all.
#[derive(Clone, Copy)]
pub struct KeywordKind;

/// A keyword of IPP.
pub type Keyword = Text<KeywordKind>;

impl TextKind for KeywordKind {
    ghost allowed = { is_keyword };

    fn allows(text: &str) -> bool {
        begins_small(text) && 1 <= text.len() && text.len() <= 255 && has_only_keyword_bytes(text)
    }
}

fn begins_small(text: &str) -> bool
    ensures { result ≡ begins_small text.now }
{
    match text.as_bytes().first() {
        Some(b) => b.is_ascii_lowercase(),
        None => false,
    }
}

fn has_only_keyword_bytes(text: &str) -> bool
    ensures { result ≡ list_all is_keyword_byte text.now }
{
    text.as_bytes().iter().all(|b| is_keyword_byte(*b))
}

// Returns whether `b` is a lower-case letter, a digit or one of `-._`.
fn is_keyword_byte(b: u8) -> bool
    ensures { result ≡ is_keyword_byte b }
{
    matches!(b, b'a'..=b'z' | b'0'..=b'9' | b'-' | b'.' | b'_')
}

/// A size of paper.
#[derive(Drop)]
pub struct MediaSize {
    /// Its self-describing name (PWG 5101.1), such as `iso_a4_210x297mm`.
    pub name: Keyword,
    /// In hundredths of a millimetre.
    pub width: u32,
    /// In hundredths of a millimetre.
    pub height: u32,
}

impl MediaSize {
    /// Reads a self-describing name: CLASS, `_`, NAME, `_`, the width, `x`, the height, and `mm` or `in`. A length has up to 5 digits
    /// before its point and up to 4 after it, and is not 0. Returns `None` for any other word.
    pub fn read(alloc: Global, word: &[u8]) -> Result<Option<MediaSize>, AllocError>
        ensures value { IfOk result (λ media. media ≡ media_in word.now) }
    {
        let Some(name) = Keyword::from_word(alloc, word)? else {
            return Ok(None);
        };
        let Some((width, height)) = size_of(word) else {
            return Ok(None);
        };
        Ok(Some(MediaSize {
            name,
            width,
            height,
        }))
    }

    /// Returns the middle part of the name, such as `a4` of `iso_a4_210x297mm`.
    pub fn short_name(&self) -> &[u8]
        ensures value { result.now ≡ short_name self.now.name }
    {
        let Some((_class, rest)) = parted(self.name.as_str().as_bytes(), b'_') else {
            return &[];
        };
        match parted(rest, b'_') {
            Some((name, _size)) => name,
            None => &[],
        }
    }
}

// Returns the width and the height that the name states.
fn size_of(name: &[u8]) -> Option<(u32, u32)>
    ensures { result ≡ size_of name.now }
{
    let (_class, rest) = parted(name, b'_')?;
    let (_name, size) = parted(rest, b'_')?;
    size_in(size)
}

/// Returns the bytes before the first such byte, and those after it.
pub fn parted(bytes: &[u8], mark: u8) -> Option<(&[u8], &[u8])>
    ensures value { option_map (λ p. (p.0.now, p.1.now)) result ≡ parted mark bytes.now }
{
    for (i, b) in bytes.iter().enumerate() {
        if *b == mark {
            return Some((&bytes[..i], &bytes[i + 1..]));
        }
    }
    None
}

// Reads WIDTHxHEIGHT and a unit of length.
fn size_in(text: &[u8]) -> Option<(u32, u32)>
    ensures { result ≡ size_in text.now }
{
    if text.len() < 2 {
        return None;
    }
    let (lengths, unit) = text.split_at(text.len() - 2);
    size_by(lengths, unit_of(unit)?)
}

// Returns the hundredths of a millimetre in a unit of length.
fn unit_of(word: &[u8]) -> Option<u64>
    ensures value { result ≡ unit_of word.now }
    ensures bound { IfSome result (λ unit. unit ≤ 2540) }
{
    if word == b"mm".as_slice() {
        Some(100)
    } else if word == b"in".as_slice() {
        Some(2_540)
    } else {
        None
    }
}

// Reads WIDTHxHEIGHT in this unit.
fn size_by(text: &[u8], unit: u64) -> Option<(u32, u32)>
    requires { unit ≤ 2540 }
    ensures { result ≡ size_by text.now unit }
{
    let (width, height) = parted(text, b'x')?;
    size_between(length_in(width, unit)?, length_in(height, unit)?)
}

fn size_between(width: u32, height: u32) -> Option<(u32, u32)>
    ensures { result ≡ size_between (Some width) (Some height) }
{
    if 1 <= width && 1 <= height {
        Some((width, height))
    } else {
        None
    }
}

// Reads a length: digits, or digits, a point and digits.
fn length_in(word: &[u8], unit: u64) -> Option<u32>
    requires { unit ≤ 2540 }
    ensures { result ≡ length_in unit word.now }
{
    match parted(word, b'.') {
        None => Some(whole_of(word, unit)? as u32),
        Some((whole, fraction)) => {
            let whole = whole_of(whole, unit)?;
            let fraction = fraction_of(fraction, unit)?;
            Some((whole + fraction) as u32)
        }
    }
}

fn whole_of(digits: &[u8], unit: u64) -> Option<u64>
    requires { unit ≤ 2540 }
    ensures value { result ≡ whole_of unit digits.now }
    ensures bound { IfSome result (λ length. length ≤ 253997460) }
{
    let number = decimal(digits, 99_999)?;
    Some(number * unit)
}

fn fraction_of(digits: &[u8], unit: u64) -> Option<u64>
    requires { unit ≤ 2540 }
    ensures value { result ≡ fraction_of unit digits.now }
    ensures bound { IfSome result (λ length. length ≤ 25397460) }
{
    if digits.len() > 4 {
        return None;
    }
    let number = decimal(digits, 9_999)?;
    Some(number * unit / power_of_ten(digits.len()))
}

fn power_of_ten(exponent: usize) -> u64
    requires { exponent ≤ 4 }
    ensures value { result ≡ 10 ^ exponent }
    ensures positive { 1 ≤ result }
{
    match exponent {
        0 => 1,
        1 => 10,
        2 => 100,
        3 => 1_000,
        _ => 10_000,
    }
}
