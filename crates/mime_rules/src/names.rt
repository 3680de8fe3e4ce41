//! The names of the rules.
ghost use Rattle.std.specs.Prelude.{◌≡◌};
ghost use Rattle.mime_rules.specs.Tokens.{rule_name, other_name};

/// The name before a parenthesis.
#[derive(Clone, Copy)]
pub(crate) enum RuleName {
    Match,
    Ascii,
    Printable,
    Text,
    FoldedText,
    ValueChar,
    ValueShort,
    ValueInt,
    Contains,
    Locale,
    Priority,
}

/// Returns the rule with this name, which must be in lower case.
pub(crate) fn rule_name(word: &[u8]) -> Option<RuleName>
    ensures value { result ≡ rule_name word.now }
{
    if word == b"match".as_slice() {
        Some(RuleName::Match)
    } else if word == b"ascii".as_slice() {
        Some(RuleName::Ascii)
    } else if word == b"printable".as_slice() {
        Some(RuleName::Printable)
    } else if word == b"string".as_slice() {
        Some(RuleName::Text)
    } else if word == b"istring".as_slice() {
        Some(RuleName::FoldedText)
    } else {
        other_name(word)
    }
}

// Returns the rule, if it has one of the other names.
fn other_name(word: &[u8]) -> Option<RuleName>
    ensures { result ≡ other_name word.now }
{
    if word == b"char".as_slice() {
        Some(RuleName::ValueChar)
    } else if word == b"short".as_slice() {
        Some(RuleName::ValueShort)
    } else if word == b"int".as_slice() {
        Some(RuleName::ValueInt)
    } else if word == b"contains".as_slice() {
        Some(RuleName::Contains)
    } else if word == b"locale".as_slice() {
        Some(RuleName::Locale)
    } else if word == b"priority".as_slice() {
        Some(RuleName::Priority)
    } else {
        None
    }
}
