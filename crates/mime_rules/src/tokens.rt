//! The tokens of a list of rules.
ghost use Rattle.std.specs.Prelude.{◌≡◌, ◌<◌, ◌≤◌, ◌+◌, ◌∷◌, Some, None, map, length, IfOk, IfSome, true, false};
ghost use Rattle.std.specs.Option.{option_map};
ghost use Rattle.line_words.specs.Blanks.{after_blanks};
ghost use Rattle.mime_rules.specs.RuleReading.{read};
ghost use Rattle.mime_rules.specs.Tests.{suffix_test};
ghost use Rattle.mime_rules.specs.Tokens.{test, tokens_of, token_at, other_token, behind_plus, is_sign, sign_token, is_and, word_token, word_here, behind_word, named_token, pattern_token, ascii_token, printable_token, string_token, istring_token, value_token, contains_token, locale_token, priority_token};
ghost use Rattle.mime_rules.specs.RuleFields.{ReadsExactly, token_of, EndsBy};

use crate::arguments::{Width, number_then, text_at, value_at};
use crate::names::{RuleName, rule_name};
use crate::pattern::pattern_of;
use crate::rule::{Test, Window};
use crate::stop::Stop;
use line_words::{after_blanks, is_blank};
use spool_types::WarningKind;
use std::alloc::{AllocError, Global};
use std::collections::VecDeque;

const COMMA: u8 = b',';

const CLOSE: u8 = b')';

const GREATEST: u32 = 4_294_967_295;

const GREATEST_PRIORITY: u32 = 200;

/// A token of a list of rules.
#[derive(Drop)]
pub(crate) enum Token {
    /// Blanks.
    Gap,
    Comma,
    /// `+` or `&&`.
    Plus,
    Bang,
    Open,
    Close,
    Test(Test),
    Priority(u8),
    /// The rest cannot be read.
    Fault(WarningKind),
}

/// Returns the tokens of a list of rules, up to the first error.
pub(crate) fn tokens_of(alloc: Global, line: &[u8]) -> Result<VecDeque<Token>, AllocError>
    ensures value { IfOk result (λ tokens. map token_of tokens.items ≡ tokens_of line.now) }
{
    let mut tokens = VecDeque::new(alloc);
    let mut rest = line;
    while !rest.is_empty() {
        match token_at(alloc, rest) {
            Ok((token, behind)) => {
                tokens.push_back(token)?;
                rest = behind;
            }
            Err(stop) => return with_last(tokens, stop),
        }
    }
    Ok(tokens)
}

// Appends the token of an error.
fn with_last(tokens: VecDeque<Token>, stop: Stop) -> Result<VecDeque<Token>, AllocError>
    ensures { IfOk result (λ all. EndsBy stop (map token_of tokens.items) (map token_of all.items)) }
{
    match stop {
        Stop::Memory => Err(AllocError),
        Stop::Fault(kind) => {
            let mut all = tokens;
            all.push_back(Token::Fault(kind))?;
            Ok(all)
        }
    }
}

// Reads the token that begins here. Blanks next to a plus are part of it.
fn token_at<'a>(alloc: Global, line: &'a [u8]) -> Result<(Token, &'a [u8]), Stop>
    ensures value { ReadsExactly result (λ r. read (token_of r.0) r.1.now) (token_at line.now) }
    ensures bound { IfOk result (λ r. length r.1.now < length line.now) }
{
    match behind_plus(after_blanks(line)) {
        Some(behind) => Ok((Token::Plus, after_blanks(behind))),
        None => other_token(alloc, line),
    }
}

// Reads a token that is not a plus.
fn other_token<'a>(alloc: Global, line: &'a [u8]) -> Result<(Token, &'a [u8]), Stop>
    requires { behind_plus (after_blanks line.now) ≡ None }
    ensures value { ReadsExactly result (λ r. read (token_of r.0) r.1.now) (other_token line.now) }
    ensures bound { IfOk result (λ r. length r.1.now < length line.now) }
{
    match line.split_first() {
        None => Err(Stop::Fault(WarningKind::BadRule)),
        Some((first, behind)) => {
            if is_sign(*first) {
                sign(*first, behind)
            } else {
                word(alloc, line)
            }
        }
    }
}

// Returns the bytes after a `+` or `&&`, if one is next.
fn behind_plus(line: &[u8]) -> Option<&[u8]>
    ensures value { option_map (λ r. r.now) result ≡ behind_plus line.now }
    ensures bound { IfSome result (λ r. length r.now < length line.now) }
{
    match line {
        [b'+', behind @ ..] => Some(behind),
        [b'&', b'&', behind @ ..] => Some(behind),
        _ => None,
    }
}

fn is_sign(b: u8) -> bool
    ensures { result ≡ is_sign b }
{
    is_blank(b) || b == b',' || b == b'+' || b == b'(' || b == b')' || b == b'!' || b == b'"'
}

// Returns the token of a byte that no word contains.
fn sign(first: u8, behind: &[u8]) -> Result<(Token, &[u8]), Stop>
    ensures value { ReadsExactly result (λ r. read (token_of r.0) r.1.now) (sign_token first behind.now) }
    ensures bound { IfOk result (λ r. length r.1.now ≤ length behind.now) }
{
    if is_blank(first) {
        return Ok((Token::Gap, after_blanks(behind)));
    }
    match first {
        b',' => Ok((Token::Comma, behind)),
        b'!' => Ok((Token::Bang, after_blanks(behind))),
        b'(' => Ok((Token::Open, behind)),
        b')' => Ok((Token::Close, behind)),
        _ => Err(Stop::Fault(WarningKind::BadRule)),
    }
}

fn is_and(line: &[u8]) -> bool
    ensures { result ≡ is_and line.now }
{
    match line {
        [a, b, ..] => *a == b'&' && *b == b'&',
        _ => false,
    }
}

// Reads a suffix of names, or a rule that begins with a name and `(`.
fn word<'a>(alloc: Global, line: &'a [u8]) -> Result<(Token, &'a [u8]), Stop>
    requires { 0 < length (word_here line.now) }
    ensures value { ReadsExactly result (λ r. read (token_of r.0) r.1.now) (word_token (word_here line.now) (behind_word line.now)) }
    ensures bound { IfOk result (λ r. length r.1.now < length line.now) }
{
    let (word, rest) = cut_word(line);
    match rest.split_first() {
        None => suffix_token(alloc, word, rest),
        Some((b, behind)) => {
            if *b == b'(' {
                named(alloc, rule_name(word), behind)
            } else {
                suffix_token(alloc, word, rest)
            }
        }
    }
}

fn suffix_token<'a>(alloc: Global, word: &[u8], rest: &'a [u8]) -> Result<(Token, &'a [u8]), Stop>
    ensures value { ReadsExactly result (λ r. read (token_of r.0) r.1.now) (read (test (suffix_test (46 ∷ word.now))) rest.now) }
    ensures bound { IfOk result (λ r. r.1.now ≡ rest.now) }
{
    let suffix = suffix(alloc, word)?;
    Ok((Token::Test(Test::Suffix(suffix)), rest))
}

// Returns a dot and the word.
fn suffix(alloc: Global, word: &[u8]) -> Result<Vec<u8>, AllocError>
    ensures { IfOk result (λ v. v.items ≡ 46 ∷ word.now) }
{
    let mut suffix = Vec::new(alloc);
    suffix.push(b'.')?;
    suffix.extend_from_slice(word)?;
    Ok(suffix)
}

// Splits the line before the first byte that ends a word.
fn cut_word(line: &[u8]) -> (&[u8], &[u8])
    ensures word { result.0.now ≡ word_here line.now }
    ensures rest { result.1.now ≡ behind_word line.now }
    ensures len { length result.0.now + length result.1.now ≡ length line.now }
{
    for (i, b) in line.iter().enumerate() {
        if is_sign(*b) || is_and(&line[i..]) {
            return (&line[..i], &line[i..]);
        }
    }
    (line, &[])
}

// Reads the arguments of the rule with this name, which are next.
fn named<'a>(
    alloc: Global,
    name: Option<RuleName>,
    line: &'a [u8],
) -> Result<(Token, &'a [u8]), Stop>
    ensures value { ReadsExactly result (λ r. read (token_of r.0) r.1.now) (named_token name line.now) }
    ensures bound { IfOk result (λ r. length r.1.now ≤ length line.now) }
{
    match name {
        None => Err(Stop::Fault(WarningKind::UnknownRule)),
        Some(RuleName::Match) => pattern_token(alloc, line),
        Some(RuleName::Ascii) => ascii_token(line),
        Some(RuleName::Printable) => printable_token(line),
        Some(RuleName::Text) => string_token(alloc, line),
        Some(RuleName::FoldedText) => istring_token(alloc, line),
        Some(RuleName::ValueChar) => value_token(alloc, Width::Char, line),
        Some(RuleName::ValueShort) => value_token(alloc, Width::Short, line),
        Some(RuleName::ValueInt) => value_token(alloc, Width::Int, line),
        Some(RuleName::Contains) => contains_token(alloc, line),
        Some(RuleName::Locale) => locale_token(alloc, line),
        Some(RuleName::Priority) => priority_token(line),
    }
}

fn pattern_token<'a>(alloc: Global, line: &'a [u8]) -> Result<(Token, &'a [u8]), Stop>
    ensures value { ReadsExactly result (λ r. read (token_of r.0) r.1.now) (pattern_token line.now) }
    ensures bound { IfOk result (λ r. length r.1.now ≤ length line.now) }
{
    let (text, rest) = text_at(alloc, line)?;
    match pattern_of(alloc, &text) {
        Ok(pattern) => Ok((Token::Test(Test::Match(pattern)), rest)),
        Err(stop) => Err(stop),
    }
}

fn ascii_token(line: &[u8]) -> Result<(Token, &[u8]), Stop>
    ensures value { ReadsExactly result (λ r. read (token_of r.0) r.1.now) (ascii_token line.now) }
    ensures bound { IfOk result (λ r. length r.1.now ≤ length line.now) }
{
    let (offset, behind) = number_then(line, COMMA, GREATEST)?;
    let (count, rest) = number_then(behind, CLOSE, GREATEST)?;
    Ok((Token::Test(Test::Ascii(Window { offset, count })), rest))
}

fn printable_token(line: &[u8]) -> Result<(Token, &[u8]), Stop>
    ensures value { ReadsExactly result (λ r. read (token_of r.0) r.1.now) (printable_token line.now) }
    ensures bound { IfOk result (λ r. length r.1.now ≤ length line.now) }
{
    let (offset, behind) = number_then(line, COMMA, GREATEST)?;
    let (count, rest) = number_then(behind, CLOSE, GREATEST)?;
    Ok((Token::Test(Test::Printable(Window { offset, count })), rest))
}

fn string_token<'a>(alloc: Global, line: &'a [u8]) -> Result<(Token, &'a [u8]), Stop>
    ensures value { ReadsExactly result (λ r. read (token_of r.0) r.1.now) (string_token line.now) }
    ensures bound { IfOk result (λ r. length r.1.now ≤ length line.now) }
{
    let (offset, behind) = number_then(line, COMMA, GREATEST)?;
    let (text, rest) = text_at(alloc, behind)?;
    Ok((Token::Test(Test::Text(offset, text)), rest))
}

fn istring_token<'a>(alloc: Global, line: &'a [u8]) -> Result<(Token, &'a [u8]), Stop>
    ensures value { ReadsExactly result (λ r. read (token_of r.0) r.1.now) (istring_token line.now) }
    ensures bound { IfOk result (λ r. length r.1.now ≤ length line.now) }
{
    let (offset, behind) = number_then(line, COMMA, GREATEST)?;
    let (text, rest) = text_at(alloc, behind)?;
    Ok((Token::Test(Test::FoldedText(offset, text)), rest))
}

fn value_token<'a>(alloc: Global, width: Width, line: &'a [u8]) -> Result<(Token, &'a [u8]), Stop>
    ensures value { ReadsExactly result (λ r. read (token_of r.0) r.1.now) (value_token width line.now) }
    ensures bound { IfOk result (λ r. length r.1.now ≤ length line.now) }
{
    let (offset, behind) = number_then(line, COMMA, GREATEST)?;
    let (text, rest) = value_at(alloc, behind, width)?;
    Ok((Token::Test(Test::Text(offset, text)), rest))
}

fn contains_token<'a>(alloc: Global, line: &'a [u8]) -> Result<(Token, &'a [u8]), Stop>
    ensures value { ReadsExactly result (λ r. read (token_of r.0) r.1.now) (contains_token line.now) }
    ensures bound { IfOk result (λ r. length r.1.now ≤ length line.now) }
{
    let (offset, behind) = number_then(line, COMMA, GREATEST)?;
    let (count, further) = number_then(behind, COMMA, GREATEST)?;
    let (text, rest) = text_at(alloc, further)?;
    Ok((
        Token::Test(Test::Contains(Window { offset, count }, text)),
        rest,
    ))
}

fn locale_token<'a>(alloc: Global, line: &'a [u8]) -> Result<(Token, &'a [u8]), Stop>
    ensures value { ReadsExactly result (λ r. read (token_of r.0) r.1.now) (locale_token line.now) }
    ensures bound { IfOk result (λ r. length r.1.now ≤ length line.now) }
{
    let (text, rest) = text_at(alloc, line)?;
    Ok((Token::Test(Test::Locale(text)), rest))
}

fn priority_token(line: &[u8]) -> Result<(Token, &[u8]), Stop>
    ensures value { ReadsExactly result (λ r. read (token_of r.0) r.1.now) (priority_token line.now) }
    ensures bound { IfOk result (λ r. length r.1.now ≤ length line.now) }
{
    let (n, rest) = number_then(line, CLOSE, GREATEST_PRIORITY)?;
    Ok((Token::Priority(n as u8), rest))
}
