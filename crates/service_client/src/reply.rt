//! A reply of a service.
ghost use Rattle.std.specs.Prelude.{◌≡◌};
ghost use Rattle.service_client.specs.Replies.{is_last};

use line_words::split_at_blank;

/// A reply: its rows and its last line, each without its line feed.
#[derive(Drop)]
pub struct Reply {
    pub rows: Vec<Vec<u8>>,
    pub last: Vec<u8>,
}

/// Returns whether a line, without its line feed, ends a reply: its first word is `ok` or `error`.
pub fn is_last(line: &[u8]) -> bool
    ensures { result ≡ is_last line.now }
{
    let (word, _) = split_at_blank(line);
    word == b"ok".as_slice() || word == b"error".as_slice()
}
