//! Compares replies with the expected replies.
ghost use Rattle.std.specs.Prelude.{◌≡◌, ◌≢◌, ◌↔◌, ◌<◌, ◌≤◌, ℕ, IsNone, length, slice_index};

/// The first line that differs between two texts, with its text in each.
#[derive(Clone, Copy)]
pub struct Difference<'a> {
    /// The number of the line, from 1.
    pub line: usize,
    pub wanted: &'a [u8],
    pub got: &'a [u8],
}

/// Returns how the replies differ from the expected replies, if they do.
pub fn find_difference<'a>(wanted: &'a [u8], got: &'a [u8]) -> Option<Difference<'a>>
    ensures { IsNone result ↔ (wanted.now ≡ got.now) }
{
    if wanted == got {
        return None;
    }
    let same = same_bytes(wanted, got);
    Some(Difference {
        line: line_number(&wanted[..same]),
        wanted: line_at(wanted, same),
        got: line_at(got, same),
    })
}

// Returns the number of equal bytes at the start of both.
fn same_bytes(wanted: &[u8], got: &[u8]) -> usize
    ensures within_wanted { result ≤ length wanted.now }
    ensures within_got { result ≤ length got.now }
    ensures same { (k : ℕ) → k < result → slice_index wanted.now k ≡ slice_index got.now k }
    ensures no_more { result < length wanted.now → result < length got.now → slice_index wanted.now result ≢ slice_index got.now result }
{
    let most = wanted.len().min(got.len());
    for at in 0..most {
        if wanted[at] != got[at] {
            return at;
        }
    }
    most
}

// Returns the number of a text's last line.
fn line_number(text: &[u8]) -> usize {
    let ended = text.iter().filter(|b| **b == b'\n').count();
    ended.saturating_add(1)
}

// Returns the line that contains this byte offset, without its line feed.
fn line_at(text: &[u8], at: usize) -> &[u8]
    requires { at ≤ length text.now }
{
    let rest = &text[line_start(text, at)..];
    match rest.iter().position(|b| *b == b'\n') {
        Some(end) => &rest[..end],
        None => rest,
    }
}

// Returns the byte offset where the line of this offset begins.
fn line_start(text: &[u8], at: usize) -> usize
    requires { at ≤ length text.now }
    ensures { result ≤ at }
{
    for before in (0..at).rev() {
        if text[before] == b'\n' {
            return before + 1;
        }
    }
    0
}
