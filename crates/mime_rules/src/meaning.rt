//! Evaluates the rules on a document.
ghost use Rattle.std.specs.Prelude.{◌≡◌, ◌≤◌, length, take, drop, map};
ghost use Rattle.std.specs.List.{list_all, list_any};
ghost use Rattle.mime_rules.specs.Tests.{window, last_bytes, some_end, stands, stands_folded, is_ascii_text, is_printable_text};
ghost use Rattle.mime_rules.specs.RuleFields.{subject_of, meaning_of_test, meaning_of, all_mean, any_means};

use crate::pattern::matches;
use crate::rule::{Rule, Test, Window};
use memchr::memmem;

/// The input of the rules: the document's name and bytes, and the locale.
#[derive(Clone, Copy)]
pub(crate) struct Subject<'a> {
    pub name: &'a [u8],
    pub bytes: &'a [u8],
    pub locale: &'a [u8],
}

/// Returns whether the rule is true. Groups are nested at most 16 deep, so the recursion is shallow.
#[cycle(holds)]
pub(crate) fn holds(rule: &Rule, subject: &Subject<'_>) -> bool
    ensures value { result ≡ meaning_of rule.now (subject_of subject.now) }
{
    match rule {
        Rule::Leaf(test) => test_holds(test, subject),
        Rule::Not(inner) => !holds(inner, subject),
        Rule::All(rules) => all_hold(rules, subject),
        Rule::Any(rules) => any_holds(rules, subject),
    }
}

#[cycle(holds)]
fn all_hold(rules: &[Rule], subject: &Subject<'_>) -> bool
    ensures { result ≡ all_mean rules.now (subject_of subject.now) }
{
    for rule in rules {
        if !holds(rule, subject) {
            return false;
        }
    }
    true
}

#[cycle(holds)]
fn any_holds(rules: &[Rule], subject: &Subject<'_>) -> bool
    ensures { result ≡ any_means rules.now (subject_of subject.now) }
{
    for rule in rules {
        if holds(rule, subject) {
            return true;
        }
    }
    false
}

// Returns whether a test is true.
fn test_holds(test: &Test, subject: &Subject<'_>) -> bool
    ensures { result ≡ meaning_of_test test.now (subject_of subject.now) }
{
    match test {
        Test::Suffix(suffix) => last_bytes(subject.name, suffix.len()).eq_ignore_ascii_case(suffix),
        Test::Match(pattern) => matches(pattern, subject.name),
        Test::Ascii(range) => are_ascii_text(window(subject.bytes, range)),
        Test::Printable(range) => are_printable(window(subject.bytes, range)),
        Test::Text(offset, text) => stands_at(subject.bytes, *offset, text),
        Test::FoldedText(offset, text) => stands_folded_at(subject.bytes, *offset, text),
        Test::Contains(range, text) => contains(window(subject.bytes, range), text),
        Test::Locale(text) => subject.locale == text.as_slice(),
    }
}

// The last `count` bytes, or all if there are fewer.
fn last_bytes(bytes: &[u8], count: usize) -> &[u8]
    ensures { result.now ≡ last_bytes count bytes.now }
{
    &bytes[bytes.len().saturating_sub(count)..]
}

// The bytes from an offset on. Empty if the offset is after the end.
fn from_offset(bytes: &[u8], offset: u32) -> &[u8]
    ensures { result.now ≡ drop offset bytes.now }
{
    let start = offset as usize;
    if start < bytes.len() {
        &bytes[start..]
    } else {
        &[]
    }
}

// The first `count` bytes, or all if there are fewer.
fn front(bytes: &[u8], count: usize) -> &[u8]
    ensures { result.now ≡ take count bytes.now }
{
    if count < bytes.len() {
        &bytes[..count]
    } else {
        bytes
    }
}

fn window<'a>(bytes: &'a [u8], range: &Window) -> &'a [u8]
    ensures { result.now ≡ window range.now.offset range.now.count bytes.now }
{
    front(from_offset(bytes, range.offset), range.count as usize)
}

fn stands_at(bytes: &[u8], offset: u32, text: &[u8]) -> bool
    ensures { result ≡ stands text.now (drop offset bytes.now) }
{
    front(from_offset(bytes, offset), text.len()) == text
}

fn stands_folded_at(bytes: &[u8], offset: u32, text: &[u8]) -> bool
    ensures { result ≡ stands_folded text.now (drop offset bytes.now) }
{
    front(from_offset(bytes, offset), text.len()).eq_ignore_ascii_case(text)
}

// Returns whether the text occurs in the bytes. One search, linear in their number.
fn contains(bytes: &[u8], text: &[u8]) -> bool
    ensures { result ≡ some_end (stands text.now) bytes.now }
{
    memmem::find(bytes, text).is_some()
}

fn are_ascii_text(bytes: &[u8]) -> bool
    ensures { result ≡ list_all is_ascii_text bytes.now }
{
    bytes.iter().all(|b| is_ascii_text(*b))
}

fn are_printable(bytes: &[u8]) -> bool
    ensures { result ≡ list_all is_printable_text bytes.now }
{
    bytes.iter().all(|b| is_printable_text(*b))
}

fn is_ascii_text(b: u8) -> bool
    ensures { result ≡ is_ascii_text b }
{
    b == 8 || b == 9 || b == 10 || b == 13 || (32 <= b && b <= 126)
}

fn is_printable_text(b: u8) -> bool
    ensures { result ≡ is_printable_text b }
{
    is_ascii_text(b) || (128 <= b && b <= 254)
}
