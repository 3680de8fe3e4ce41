//! A text that is cleaned as it is printed.
ghost use Rattle.std.specs.Prelude.{◌≡◌};

use crate::steering::clean_char;
use std::fmt::{self, Display, Formatter};

/// A text that is printed with U+FFFD for each character that steers.
#[derive(Clone, Copy)]
pub struct Printed<'a> {
    text: &'a str,
}

/// Returns the text, to be printed clean. It allocates nothing.
pub fn clean(text: &str) -> Printed<'_>
    ensures text { result.text.now ≡ text.now }
{
    Printed { text }
}

impl Display for Printed<'_> {
    ghost use Rattle.std.specs.Prelude.{Some};
    ghost use Rattle.clean_texts.specs.CleanTexts.{clean_text};

    ghost output = { λ shown. Some (clean_text shown.text.now) };

    fn fmt<W: fmt::Write>(&self, f: &mut Formatter<W>) -> fmt::Result {
        for c in self.text.chars() {
            f.write_char(clean_char(c))?;
        }
        Ok(())
    }
}
