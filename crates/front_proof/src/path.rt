//! The path of the folder that a client makes.
ghost use Rattle.std.specs.Prelude.{◌≡◌, ◌≤◌, IfOk, IfSome, IsTrue, length, string_bytes};
ghost use Rattle.std.specs.Char.{is_ascii_hexdigit};
ghost use Rattle.std.specs.List.{list_all, list_any, slice_split};
ghost use Rattle.std.specs.Option.{option_map};
ghost use Rattle.front_proof.specs.ProofPaths.{IsPathOf, has_random_name, is_proof_path, is_slash, is_upward, parent_of};

use std::alloc::{AllocError, Global};

// The length of the last part, and of the shortest path.
const NAME: usize = 32;

const SHORTEST: usize = 33;

/// The path of a folder for a proof: an absolute path without `..` that ends with a random name.
#[derive(Drop)]
pub struct ProofPath {
    text: String,
    pub ghost checked: { IsTrue (is_proof_path (string_bytes text)) },
}

impl ProofPath {
    /// Returns the path, if it is that of such a folder.
    pub fn from_bytes(alloc: Global, bytes: &[u8]) -> Result<Option<ProofPath>, AllocError>
        ensures { IfOk result (λ found. IsPathOf bytes.now (option_map (λ path. string_bytes path.text) found)) }
    {
        if !is_proof_path(bytes) {
            return Ok(None);
        }
        match std::str::from_utf8(bytes) {
            Ok(text) => {
                let text = String::from_str(alloc, text)?;
                Ok(Some(ProofPath { text }))
            }
            Err(_) => Ok(None),
        }
    }

    /// Returns the path as a text.
    pub fn as_str(&self) -> &str
        ensures text { result.now ≡ string_bytes self.now.text }
        ensures checked { IsTrue (is_proof_path result.now) }
    {
        self.text.as_str()
    }

    /// Returns the path without its last part.
    pub fn parent(&self) -> Option<&str>
        ensures { IfSome result (λ parent. parent.now ≡ parent_of (string_bytes self.now.text)) }
    {
        let bytes = self.text.as_bytes();
        let end = bytes.len().saturating_sub(NAME);
        std::str::from_utf8(&bytes[..end]).ok()
    }
}

// Returns whether the path is that of such a folder.
fn is_proof_path(path: &[u8]) -> bool
    ensures { result ≡ is_proof_path path.now }
{
    SHORTEST <= path.len() && is_slash(path[0]) && has_random_name(path) && !has_upward(path)
}

fn is_slash(b: u8) -> bool
    ensures { result ≡ is_slash b }
{
    b == b'/'
}

// Returns whether the last part consists of 32 hexadecimal digits.
fn has_random_name(path: &[u8]) -> bool
    requires { 33 ≤ length path.now }
    ensures { result ≡ has_random_name path.now }
{
    let start = path.len() - NAME;
    is_slash(path[start - 1]) && is_hexadecimal(&path[start..])
}

fn is_hexadecimal(name: &[u8]) -> bool
    ensures { result ≡ list_all is_ascii_hexdigit name.now }
{
    name.iter().all(|b| b.is_ascii_hexdigit())
}

fn has_upward(path: &[u8]) -> bool
    ensures { result ≡ list_any is_upward (slice_split is_slash path.now) }
{
    let upward = b"..".as_slice();
    path.split(|b| *b == b'/').any(|part| part == upward)
}
