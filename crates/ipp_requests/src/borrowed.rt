//! Texts and values that a request borrows from its message.
ghost use Rattle.std.specs.Prelude.{◌≡◌};

use ipp_values::Value;
use std::marker::Model;

/// A text of a message. Its value in contracts is the list of its octets.
#[derive(Drop)]
pub struct MessageText<'m> {
    text: &'m str,
}

impl<'m> Model for MessageText<'m> {
    ghost use Rattle.std.specs.Prelude.{List, ℕ};

    ghost Value = { List ℕ };

    ghost view = { λ a. a.text.now };
}

impl<'m> MessageText<'m> {
    pub fn new(text: &'m str) -> MessageText<'m>
        ensures { result ≡ text.now }
    {
        MessageText { text }
    }

    pub fn as_str(&self) -> &'m str
        ensures { result.now ≡ self.now }
    {
        self.text
    }
}

/// The values of an attribute of a message. Its value in contracts is the list of them.
#[derive(Drop)]
pub struct MessageValues<'m> {
    values: &'m [Value],
}

impl<'m> Model for MessageValues<'m> {
    ghost use Rattle.std.specs.Prelude.{List};
    ghost use Rattle.ipp_values.specs.declared.value.Value.{Value as ValueOf};

    ghost Value = { List ValueOf };

    ghost view = { λ a. a.values.now };
}

impl<'m> MessageValues<'m> {
    pub fn new(values: &'m [Value]) -> MessageValues<'m>
        ensures { result ≡ values.now }
    {
        MessageValues { values }
    }

    pub fn as_slice(&self) -> &'m [Value]
        ensures { result.now ≡ self.now }
    {
        self.values
    }
}
