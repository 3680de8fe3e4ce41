//! Inputs, outputs and texts of children. Clauses see each as a list, and each wraps its value without allocating.
ghost use Rattle.std.specs.Prelude.{◌≡◌, [], map};
ghost use Rattle.std.specs.String.{string_bytes};
ghost use Rattle.filter_args.specs.OptionFields.{texts as texts_of};

use std::alloc::Global;
use std::marker::Model;

/// Bytes, seen as their list.
#[derive(Drop)]
pub struct Content {
    bytes: Vec<u8>,
}

impl Model for Content {
    ghost use Rattle.std.specs.Prelude.{List, ℕ};

    ghost Value = { List ℕ };

    ghost view = { λ a. a.bytes.items };
}

impl Content {
    /// These bytes. Does not allocate.
    pub fn new(bytes: Vec<u8>) -> Content
        ensures { result ≡ bytes.items }
    {
        Content { bytes }
    }

    /// No bytes. Does not allocate.
    pub fn empty(alloc: Global) -> Content
        ensures { result ≡ [] }
    {
        Content {
            bytes: Vec::new(alloc),
        }
    }

    /// The bytes in order.
    pub fn as_slice(&self) -> &[u8]
        ensures { result.now ≡ self.now }
    {
        &self.bytes
    }

    /// The bytes, without a copy.
    pub fn into_vec(self) -> Vec<u8>
        ensures { result.items ≡ self }
    {
        self.bytes
    }
}

/// Texts in order, seen as the list of their bytes.
#[derive(Drop)]
pub struct Texts {
    texts: Vec<String>,
}

impl Model for Texts {
    ghost use Rattle.std.specs.Prelude.{List, ℕ};
    ghost use Rattle.filter_args.specs.OptionFields.{texts as texts_of};

    ghost Value = { List (List ℕ) };

    ghost view = { λ a. texts_of a.texts };
}

impl Texts {
    /// These texts. Does not allocate.
    pub fn new(texts: Vec<String>) -> Texts
        ensures { result ≡ texts_of texts }
    {
        Texts { texts }
    }

    /// The texts in order.
    pub fn as_slice(&self) -> &[String]
        ensures { map string_bytes result.now ≡ self.now }
    {
        &self.texts
    }

    /// The texts, without a copy.
    pub fn into_vec(self) -> Vec<String>
        ensures { texts_of result ≡ self }
    {
        self.texts
    }
}

/// The scheme of a device's URI, seen as its bytes. It is empty if the URI is invalid.
#[derive(Drop)]
pub struct Scheme {
    scheme: String,
}

impl Model for Scheme {
    ghost use Rattle.std.specs.Prelude.{List, ℕ};
    ghost use Rattle.std.specs.String.{string_bytes};

    ghost Value = { List ℕ };

    ghost view = { λ a. string_bytes a.scheme };
}

impl Scheme {
    /// This scheme. Does not allocate.
    pub fn new(scheme: String) -> Scheme
        ensures { result ≡ string_bytes scheme }
    {
        Scheme { scheme }
    }

    pub fn as_str(&self) -> &str
        ensures { result.now ≡ self.now }
    {
        self.scheme.as_str()
    }
}
