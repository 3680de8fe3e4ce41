//! The values of attributes that are a single word or number.
ghost use Rattle.std.specs.Prelude.{◌≡◌};
ghost use Rattle.std.specs.Option.{option_map};
ghost use Rattle.ipp_options.specs.AttributeWords.{only, is_same_word, natural_of, word_of, integer_of, enum_of, word_in, integer_in, enum_in};

use ipp_values::Value;

/// Returns the value of an attribute with one value.
pub(crate) fn only(values: &[Value]) -> Option<&Value>
    ensures { option_map (λ value. value.now) result ≡ only values.now }
{
    let (value, rest) = values.split_first()?;
    if rest.is_empty() { Some(value) } else { None }
}

/// Returns the only value, if it is a keyword or a name.
pub(crate) fn word_in(values: &[Value]) -> Option<&str>
    ensures { option_map (λ text. text.now) result ≡ word_in values.now }
{
    word_of(only(values)?)
}

/// Returns the only value, if it is an integer that is not negative.
pub(crate) fn integer_in(values: &[Value]) -> Option<u32>
    ensures { result ≡ integer_in values.now }
{
    integer_of(only(values)?)
}

/// Returns the only value, if it is an enum that is not negative.
pub(crate) fn enum_in(values: &[Value]) -> Option<u32>
    ensures { result ≡ enum_in values.now }
{
    enum_of(only(values)?)
}

/// Returns a keyword or a name.
pub(crate) fn word_of(value: &Value) -> Option<&str>
    ensures { option_map (λ text. text.now) result ≡ word_of value.now }
{
    match value {
        Value::Keyword(text) => Some(text.as_str()),
        Value::Name(text) => Some(text.as_str()),
        _ => None,
    }
}

/// Returns whether a value is this keyword or name.
pub(crate) fn is_word(word: &str, value: &Value) -> bool
    ensures { result ≡ is_same_word word.now (word_of value.now) }
{
    match word_of(value) {
        Some(other) => other == word,
        None => false,
    }
}

/// Returns an integer that is not negative.
pub(crate) fn integer_of(value: &Value) -> Option<u32>
    ensures { result ≡ integer_of value.now }
{
    match value {
        Value::Integer(number) => natural_of(*number),
        _ => None,
    }
}

/// Returns an enum that is not negative.
pub(crate) fn enum_of(value: &Value) -> Option<u32>
    ensures { result ≡ enum_of value.now }
{
    match value {
        Value::Enum(number) => natural_of(*number),
        _ => None,
    }
}

/// Returns a number that is not negative.
pub(crate) fn natural_of(number: i32) -> Option<u32>
    ensures { result ≡ natural_of number }
{
    if number < 0 {
        None
    } else {
        Some(number.unsigned_abs())
    }
}
