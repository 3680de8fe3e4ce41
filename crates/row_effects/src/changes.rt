//! Changes of reasons and of attributes in place.
ghost use Rattle.std.specs.Prelude.{◌≡◌, ◌≤◌, [], ◌∷◌, IsTrue, IfOk, IfErr, vec_capacity};
ghost use Rattle.row_effects.specs.Keys.{IsPosition, IsGap, is_ascending, most_kept};
ghost use Rattle.row_effects.specs.QueueReasons.{word_of, set_reasons, add_reason, add_reasons, drop_reasons};
ghost use Rattle.row_effects.specs.QueueAttributes.{name_of, set_attribute};

use spool_types::{Attribute, AttributeName, MOST_KEPT, Reason, Words};

// Returns the position of the reason, or as an error the position for a new one.
fn reason_position(reasons: &[Reason], word: &Reason) -> Result<usize, usize>
    requires { IsTrue (is_ascending word_of reasons.now) }
    ensures found { IfOk result (IsPosition word_of reasons.now word.now) }
    ensures absent { IfErr result (IsGap word_of reasons.now word.now) }
{
    reasons.binary_search(word)
}

// Returns the position of the attribute of this name, or as an error the position for a new one.
fn attribute_position(attributes: &[Attribute], name: &AttributeName) -> Result<usize, usize>
    requires { IsTrue (is_ascending name_of attributes.now) }
    ensures found { IfOk result (IsPosition name_of attributes.now name.now) }
    ensures absent { IfErr result (IsGap name_of attributes.now name.now) }
{
    attributes.binary_search_by(|attribute| attribute.name.as_str().cmp(name.as_str()))
}

/// Replaces the reasons by the words, which are added in order. The vector has room for 64 reasons, so nothing is
/// allocated.
pub(super) fn set_reasons(reasons: &mut Vec<Reason>, words: Words)
    requires { most_kept ≤ vec_capacity reasons.old }
    ensures items { reasons.new.items ≡ set_reasons words }
    ensures ascending { IsTrue (is_ascending word_of reasons.new.items) }
    ensures room { vec_capacity reasons.old ≤ vec_capacity reasons.new }
{
    reasons.clear();
    add_reasons(reasons, words);
}

/// Adds the words in order. The vector has room for 64 reasons, so nothing is allocated.
pub(super) fn add_reasons(reasons: &mut Vec<Reason>, words: Words)
    requires ascending { IsTrue (is_ascending word_of reasons.old.items) }
    requires room { most_kept ≤ vec_capacity reasons.old }
    ensures items { reasons.new.items ≡ add_reasons words reasons.old.items }
    ensures ascending { IsTrue (is_ascending word_of reasons.new.items) }
    ensures room { vec_capacity reasons.old ≤ vec_capacity reasons.new }
{
    for word in words.into_vec() {
        add_reason(reasons, word);
    }
}

fn add_reason(reasons: &mut Vec<Reason>, word: Reason)
    requires ascending { IsTrue (is_ascending word_of reasons.old.items) }
    requires room { most_kept ≤ vec_capacity reasons.old }
    ensures items { reasons.new.items ≡ add_reason reasons.old.items word }
    ensures ascending { IsTrue (is_ascending word_of reasons.new.items) }
    ensures room { vec_capacity reasons.old ≤ vec_capacity reasons.new }
{
    if let Err(at) = reason_position(reasons, &word) {
        if reasons.len() < MOST_KEPT {
            reasons.insert(at, word).unwrap();
        }
    }
}

/// Drops the words from the reasons. Each word is found by binary search.
pub(super) fn drop_reasons(reasons: &mut Vec<Reason>, words: &[Reason])
    requires { IsTrue (is_ascending word_of reasons.old.items) }
    ensures items { reasons.new.items ≡ drop_reasons words.now reasons.old.items }
    ensures ascending { IsTrue (is_ascending word_of reasons.new.items) }
    ensures room { vec_capacity reasons.old ≤ vec_capacity reasons.new }
{
    for word in words {
        drop_reason(reasons, word);
    }
}

fn drop_reason(reasons: &mut Vec<Reason>, word: &Reason)
    requires { IsTrue (is_ascending word_of reasons.old.items) }
    ensures items { reasons.new.items ≡ drop_reasons (word.now ∷ []) reasons.old.items }
    ensures ascending { IsTrue (is_ascending word_of reasons.new.items) }
    ensures room { vec_capacity reasons.old ≤ vec_capacity reasons.new }
{
    if let Ok(at) = reason_position(reasons, word) {
        reasons.remove(at);
    }
}

/// Sets the attribute. The vector has room for 64 attributes, so nothing is allocated.
pub(super) fn set_attribute(attributes: &mut Vec<Attribute>, attribute: Attribute)
    requires ascending { IsTrue (is_ascending name_of attributes.old.items) }
    requires room { most_kept ≤ vec_capacity attributes.old }
    ensures items { attributes.new.items ≡ set_attribute attributes.old.items attribute }
    ensures ascending { IsTrue (is_ascending name_of attributes.new.items) }
    ensures room { vec_capacity attributes.old ≤ vec_capacity attributes.new }
{
    match attribute_position(attributes, &attribute.name) {
        Ok(at) => attributes[at] = attribute,
        Err(at) => {
            if attributes.len() < MOST_KEPT {
                attributes.insert(at, attribute).unwrap();
            }
        }
    }
}
