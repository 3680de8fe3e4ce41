//! The parts of the heads of requests and answers.
ghost use Rattle.std.specs.Prelude.{◌≡◌, ◌⊎◌, ◌≤◌, [], is_ok, length};
ghost use Rattle.std.specs.Str.{str_eq_ignore_ascii_case};
ghost use Rattle.http1.specs.Head.{pairs};
ghost use Rattle.ipp_connections.specs.HeadParts.{closing, field, fields_of, is_local, piece};

use http1::{Header, WriteError};
use httparse::spans::{HeaderSpan, Span};
use ipp_access::Place;
use std::alloc::{AllocError, Global};
use std::str;

/// Returns the fields of an answer. The first closes the connection.
pub fn fields_of(media: &str) -> [Header<'_>; 4]
    ensures { pairs result ≡ closing (fields_of media.now) }
{
    [
        Header {
            name: b"Connection",
            value: b"close",
        },
        Header {
            name: b"Content-Type",
            value: media.as_bytes(),
        },
        Header {
            name: b"Cache-Control",
            value: b"no-cache",
        },
        Header {
            name: b"Content-Security-Policy",
            value: b"default-src 'none'; style-src 'unsafe-inline'",
        },
    ]
}

/// Without memory an answer is not written. The other refusals of the library do not come, since the answers are whole.
pub fn given(outcome: Result<(), WriteError>) -> Result<(), AllocError>
    ensures { is_ok result ≡ is_ok outcome }
{
    match outcome {
        Ok(()) => Ok(()),
        Err(_) => Err(AllocError),
    }
}

/// Returns the bytes as a text, which is empty if they are none.
pub fn text_of(bytes: &[u8]) -> &str
    ensures { (result.now ≡ bytes.now) ⊎ (result.now ≡ []) }
{
    match str::from_utf8(bytes) {
        Ok(text) => text,
        Err(_) => "",
    }
}

/// Returns the value of the first field with this name.
pub fn field<'a>(input: &'a [u8], fields: &[HeaderSpan], name: &[u8]) -> &'a [u8]
    ensures { result.now ≡ field input.now fields.now name.now }
{
    for field in fields {
        if is_named(input, field.name, name) {
            return piece_of(input, field.value);
        }
    }
    b""
}

fn is_named(input: &[u8], span: Span, name: &[u8]) -> bool
    ensures { result ≡ str_eq_ignore_ascii_case (piece input.now span) name.now }
{
    piece_of(input, span).eq_ignore_ascii_case(name)
}

/// Returns whether a request came over a socket of the file system.
pub fn is_local(place: Place) -> bool
    ensures { result ≡ is_local place }
{
    !matches!(place, Place::Network)
}

/// Returns whether a request states the length of its body or sends it in chunks.
pub fn has_length(input: &[u8], fields: &[HeaderSpan]) -> bool {
    !field(input, fields, b"content-length").is_empty()
        || !field(input, fields, b"transfer-encoding").is_empty()
}

/// Returns the bytes of a span.
pub fn piece_of(input: &[u8], span: Span) -> &[u8]
    ensures value { result.now ≡ piece input.now span }
    ensures bound { length result.now ≤ length input.now }
{
    match input.get(span.start..span.end) {
        Some(piece) => piece,
        None => b"",
    }
}

/// Over a socket of the file system clients name a port that does not exist.
pub fn host_text(alloc: Global, host: &[u8], is_local: bool) -> Result<String, AllocError> {
    match str::from_utf8(host) {
        Ok(host) if !is_local && !host.is_empty() => String::from_str(alloc, host),
        _ => String::from_str(alloc, "localhost"),
    }
}
