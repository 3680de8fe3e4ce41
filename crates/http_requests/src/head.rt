//! The head of a request.

/// What decides on a request.
#[derive(Clone, Copy)]
pub struct RequestHead<'h> {
    pub method: &'h [u8],
    pub target: &'h str,
    /// `Host`, or nothing.
    pub host: &'h [u8],
    /// `Content-Type`, or nothing.
    pub content_type: &'h str,
    /// Whether the request states the length of its body or sends it in chunks.
    pub has_body: bool,
    /// Whether the body has a coding other than `chunked`.
    pub is_coded: bool,
    /// Whether the request came over a socket of the file system.
    pub is_local: bool,
}
