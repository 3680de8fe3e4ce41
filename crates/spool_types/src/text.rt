//! Texts of a kind. A text passes the test of its kind.
ghost use Rattle.std.specs.Prelude.{◌≡◌, ◌↔◌, IfOk, OnOk, IsTrue, IsErrOf, false, []};
ghost use Rattle.std.specs.String.{string_bytes};
ghost use Rattle.spool_types.specs.Values.{text_in, folded_in};

use std::alloc::{AllocError, Global};
use std::cmp::Ordering;
use std::fmt;
use std::marker::{Model, PhantomData};

/// A kind of text, which determines the bytes that the text may contain.
pub trait TextKind {
    ghost use Rattle.std.specs.Prelude.{List, ℕ, Bool, ◌≡◌};

    ghost allowed: { List ℕ → Bool };

    /// Returns whether a text is of this kind.
    fn allows(text: &str) -> bool
        ensures { result ≡ allowed text.now };
}

/// Why a text was not read.
#[derive(Clone, Copy, Debug, PartialEq, Eq)]
pub enum TextFault {
    /// The text is not of this kind.
    Bad,
    /// Memory ran out.
    Memory,
}

impl From<AllocError> for TextFault {
    ghost use Rattle.spool_types.specs.declared.text.TextFault.TheVariants.{Memory};

    ghost from_gives = { λ _ e. e ≡ Memory };

    fn from(_error: AllocError) -> TextFault {
        TextFault::Memory
    }
}

/// A text of the kind `K`. Its value in contracts is the list of its bytes.
#[derive(Drop)]
pub struct Text<K: TextKind> {
    text: String,
    kind: PhantomData<K>,
}

impl<K: TextKind> Model for Text<K> {
    ghost use Rattle.std.specs.Prelude.{List, ℕ, IsTrue};
    ghost use Rattle.std.specs.String.{string_bytes};

    ghost Value = { List ℕ };

    ghost view = { λ a. string_bytes a.text };

    ghost invariant = { λ a. IsTrue (K.allowed (string_bytes a.text)) };
}

impl<K: TextKind> Text<K> {
    /// Copies a text of this kind.
    pub fn read(alloc: Global, text: &str) -> Result<Text<K>, TextFault>
        ensures value { IfOk result (λ copy. copy ≡ text.now) }
        ensures allowed { OnOk result (IsTrue (K.allowed text.now)) }
        ensures bad { IsErrOf result TextFault.Bad ↔ (K.allowed text.now ≡ false) }
    {
        if !K::allows(text) {
            return Err(TextFault::Bad);
        }
        Ok(Text {
            text: String::from_str(alloc, text)?,
            kind: PhantomData,
        })
    }

    /// Returns the word as a text if it is valid UTF-8 and of this kind, otherwise `None`.
    pub fn from_word(alloc: Global, word: &[u8]) -> Result<Option<Text<K>>, AllocError>
        ensures { IfOk result (λ text. text ≡ text_in K.allowed word.now) }
    {
        let Ok(text) = str::from_utf8(word) else {
            return Ok(None);
        };
        match Text::read(alloc, text) {
            Ok(text) => Ok(Some(text)),
            Err(TextFault::Bad) => Ok(None),
            Err(TextFault::Memory) => Err(AllocError),
        }
    }

    /// Returns the word with its capitals converted to lower case if that is valid UTF-8 and of this kind, otherwise
    /// `None`.
    pub fn from_folded_word(alloc: Global, word: &[u8]) -> Result<Option<Text<K>>, AllocError>
        ensures { IfOk result (λ text. text ≡ folded_in K.allowed word.now) }
    {
        let Ok(text) = str::from_utf8(word) else {
            return Ok(None);
        };
        let folded = text.to_ascii_lowercase(alloc)?;
        if K::allows(folded.as_str()) {
            Ok(Some(Text::from_string(folded)))
        } else {
            Ok(None)
        }
    }

    /// Converts a string of this kind. It allocates nothing.
    pub fn from_string(text: String) -> Text<K>
        requires { IsTrue (K.allowed (string_bytes text)) }
        ensures { result ≡ string_bytes text }
    {
        Text {
            text,
            kind: PhantomData,
        }
    }

    /// Returns the empty text, for a kind that allows it. It allocates nothing.
    pub fn empty(alloc: Global) -> Text<K>
        requires { IsTrue (K.allowed []) }
        ensures { result ≡ [] }
    {
        Text {
            text: String::new(alloc),
            kind: PhantomData,
        }
    }

    /// Returns the text.
    pub fn as_str(&self) -> &str
        ensures value { result.now ≡ self.now }
        ensures allowed { IsTrue (K.allowed self.now) }
    {
        self.text.as_str()
    }
}

impl<K: TextKind> Clone for Text<K> {
    ghost use Rattle.std.specs.Prelude.{◌≡◌};

    ghost is_clone = { λ text copy. copy ≡ text };

    fn clone(&self) -> Result<Text<K>, AllocError> {
        Ok(Text {
            text: self.text.clone()?,
            kind: PhantomData,
        })
    }
}

impl<K: TextKind> fmt::Debug for Text<K> {
    fn fmt<W: fmt::Write>(&self, f: &mut fmt::Formatter<W>) -> fmt::Result {
        let text = self.as_str();
        write!(f, "{text:?}")
    }
}

impl<K: TextKind> PartialEq for Text<K> {
    ghost use Rattle.std.specs.Prelude.{nat_eq};
    ghost use Rattle.std.specs.Cmp.{partial_equiv_from_equiv};
    ghost use Rattle.std.specs.Cmp.Lexicographic.{pointwise, nat_list_eq_equiv};

    ghost eq = { pointwise nat_eq };

    ghost laws = { partial_equiv_from_equiv nat_list_eq_equiv };

    fn eq(&self, other: &Text<K>) -> bool {
        self.as_str() == other.as_str()
    }
}

impl<K: TextKind> Eq for Text<K> {
    ghost use Rattle.std.specs.Cmp.Lexicographic.{nat_list_eq_equiv};

    ghost laws = { nat_list_eq_equiv };
}

impl<K: TextKind> PartialOrd for Text<K> {
    ghost use Rattle.std.specs.Ordering.{nat_cmp, as_partial_cmp};
    ghost use Rattle.std.specs.Cmp.Lexicographic.{slice_cmp, texts_po};

    ghost partial_cmp = { as_partial_cmp (slice_cmp nat_cmp) };

    ghost laws = { texts_po };

    fn partial_cmp(&self, other: &Text<K>) -> Option<Ordering> {
        Some(self.cmp(other))
    }
}

impl<K: TextKind> Ord for Text<K> {
    ghost use Rattle.std.specs.Prelude.{refl};
    ghost use Rattle.std.specs.Ordering.{nat_cmp};
    ghost use Rattle.std.specs.Cmp.Lexicographic.{slice_cmp, nat_list_cmp_total, texts_ties};

    ghost cmp = { slice_cmp nat_cmp };

    ghost total = { nat_list_cmp_total };

    ghost matches_partial_cmp = { λ a b. refl };

    ghost matches_eq = { texts_ties };

    fn cmp(&self, other: &Text<K>) -> Ordering {
        self.as_str().cmp(other.as_str())
    }
}
