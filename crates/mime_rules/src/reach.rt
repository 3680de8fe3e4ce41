//! How much of a document the rules examine.
ghost use Rattle.std.specs.Prelude.{◌≡◌, ◌+◌, length, min};
ghost use Rattle.mime_rules.specs.Reach.{reach_of_test, reach_of, reach_of_all, reach_of_alternatives};

use crate::line::Alternative;
use crate::rule::{Rule, Test, Window};

/// Returns the number of bytes that the alternatives examine of a document of `len` bytes.
pub(crate) fn reach_of_alternatives(alternatives: &[Alternative], len: usize) -> usize
    ensures { result ≡ min len (reach_of_alternatives alternatives.now) }
{
    let mut most = 0;
    for alternative in alternatives {
        most = most.max(reach_of(&alternative.rule, len));
    }
    most
}

// Returns the number of bytes that a rule examines of a document of `len` bytes. Groups are nested at most 16 deep, so the recursion is
// shallow.
#[cycle(reaches)]
fn reach_of(rule: &Rule, len: usize) -> usize
    ensures { result ≡ min len (reach_of rule.now) }
{
    match rule {
        Rule::Leaf(test) => reach_of_test(test, len),
        Rule::Not(inner) => reach_of(inner, len),
        Rule::All(rules) => reach_of_all(rules, len),
        Rule::Any(rules) => reach_of_all(rules, len),
    }
}

#[cycle(reaches)]
fn reach_of_all(rules: &[Rule], len: usize) -> usize
    ensures { result ≡ min len (reach_of_all rules.now) }
{
    let mut most = 0;
    for rule in rules {
        most = most.max(reach_of(rule, len));
    }
    most
}

fn reach_of_test(test: &Test, len: usize) -> usize
    ensures { result ≡ min len (reach_of_test test.now) }
{
    match test {
        Test::Suffix(_) => 0,
        Test::Match(_) => 0,
        Test::Ascii(range) => end_of_window(range, len),
        Test::Printable(range) => end_of_window(range, len),
        Test::Text(offset, text) => end_of_text(*offset, text, len),
        Test::FoldedText(offset, text) => end_of_text(*offset, text, len),
        Test::Contains(range, _) => end_of_window(range, len),
        Test::Locale(_) => 0,
    }
}

fn end_of_window(range: &Window, len: usize) -> usize
    ensures { result ≡ min len (range.now.offset + range.now.count) }
{
    (range.offset as usize + range.count as usize).min(len)
}

fn end_of_text(offset: u32, text: &[u8], len: usize) -> usize
    ensures { result ≡ min len (offset + length text.now) }
{
    (offset as usize).saturating_add(text.len()).min(len)
}
