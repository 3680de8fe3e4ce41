//! The URI of a device without what only its backend needs.
ghost use Rattle.std.specs.Prelude.{◌≡◌, ◌≤◌, IfOk, IfNone, IfSome, length};
ghost use Rattle.ipp_facts.specs.ShownUris.{authority_at, authority_in, ends_authority, has_authority, is_slash, scheme_length, slashes, user_length, without_user};

use std::alloc::{AllocError, Global};

/// Returns the URI without the name and the password in front of the host, as RFC 3986 (3.2.1) and the URL Standard read it.
pub fn without_user(alloc: Global, uri: &[u8]) -> Result<Vec<u8>, AllocError>
    ensures { IfOk result (λ shown. shown.items ≡ without_user uri.now) }
{
    let is_special = has_authority(&uri[..scheme_length(uri)]);
    let (front, authority) = uri.split_at(authority_at(uri));
    let mut shown = Vec::new(alloc);
    shown.extend_from_slice(front)?;
    shown.extend_from_slice(&authority[user_length(is_special, authority)..])?;
    Ok(shown)
}

// Returns the length of the scheme. Without a colon it is that of the URI.
fn scheme_length(uri: &[u8]) -> usize
    ensures value { result ≡ scheme_length uri.now }
    ensures bound { result ≤ length uri.now }
{
    for (i, b) in uri.iter().enumerate() {
        if *b == b':' {
            return i;
        }
    }
    uri.len()
}

// Returns whether URIs of this scheme always have an authority.
fn has_authority(scheme: &[u8]) -> bool
    ensures { result ≡ has_authority scheme.now }
{
    scheme.eq_ignore_ascii_case(b"http")
        || scheme.eq_ignore_ascii_case(b"https")
        || scheme.eq_ignore_ascii_case(b"ftp")
        || scheme.eq_ignore_ascii_case(b"ws")
        || scheme.eq_ignore_ascii_case(b"wss")
}

// Returns where the authority begins. Without an authority it is the end of the URI.
fn authority_at(uri: &[u8]) -> usize
    ensures value { result ≡ authority_at uri.now }
    ensures bound { result ≤ length uri.now }
{
    let length = scheme_length(uri);
    if length == uri.len() {
        return length;
    }
    length + 1 + authority_in(has_authority(&uri[..length]), &uri[length + 1..])
}

// Returns where the authority begins after the colon.
fn authority_in(is_special: bool, rest: &[u8]) -> usize
    ensures value { result ≡ authority_in is_special rest.now }
    ensures bound { result ≤ length rest.now }
{
    if is_special {
        slashes(rest)
    } else if rest.starts_with(b"//") {
        2
    } else {
        rest.len()
    }
}

// Returns the number of the slashes and backslashes at the beginning.
fn slashes(rest: &[u8]) -> usize
    ensures value { result ≡ slashes rest.now }
    ensures bound { result ≤ length rest.now }
{
    for (i, b) in rest.iter().enumerate() {
        if !is_slash(*b) {
            return i;
        }
    }
    rest.len()
}

fn is_slash(b: u8) -> bool
    ensures { result ≡ is_slash b }
{
    b == b'/' || b == b'\\'
}

// Returns the length of the name and the password in front of the host, with the "@" after them.
fn user_length(is_special: bool, authority: &[u8]) -> usize
    ensures value { result ≡ user_length is_special authority.now }
    ensures bound { result ≤ length authority.now }
{
    let mut most = 0;
    for (i, b) in authority.iter().enumerate() {
        if ends_authority(is_special, *b) {
            break;
        }
        if *b == b'@' {
            most = i + 1;
        }
    }
    most
}

fn ends_authority(is_special: bool, b: u8) -> bool
    ensures { result ≡ ends_authority is_special b }
{
    b == b'/' || b == b'?' || b == b'#' || is_special && b == b'\\'
}
