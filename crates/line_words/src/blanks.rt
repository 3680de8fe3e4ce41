//! Blanks, and the words between them.
ghost use Rattle.std.specs.Prelude.{◌≡◌, ◌≤◌, length};
ghost use Rattle.line_words.specs.Blanks.{is_blank, after_blanks, word_here, behind_word, first_word, after_word, trimmed};

/// Returns whether `b` is a space or a tab.
pub fn is_blank(b: u8) -> bool
    ensures value { result ≡ is_blank b }
{
    b == b' ' || b == b'\t'
}

/// Returns the line without the blanks at its front.
pub fn after_blanks(line: &[u8]) -> &[u8]
    ensures value { result.now ≡ after_blanks line.now }
    ensures bound { length result.now ≤ length line.now }
{
    let mut rest = line;
    while let Some((b, behind)) = rest.split_first() {
        if !is_blank(*b) {
            break;
        }
        rest = behind;
    }
    rest
}

/// Splits the line at its first blank, which begins the second part.
pub fn split_at_blank(line: &[u8]) -> (&[u8], &[u8])
    ensures word { result.0.now ≡ word_here line.now }
    ensures rest { result.1.now ≡ behind_word line.now }
{
    for (i, b) in line.iter().enumerate() {
        if is_blank(*b) {
            return (&line[..i], &line[i..]);
        }
    }
    (line, &[])
}

/// Returns the first word of a line, empty if there is none, and the rest after it.
pub fn first_word(line: &[u8]) -> (&[u8], &[u8])
    ensures word { result.0.now ≡ first_word line.now }
    ensures rest { result.1.now ≡ after_word line.now }
{
    split_at_blank(after_blanks(line))
}

/// Returns the bytes without the blanks at both ends.
pub fn trim(bytes: &[u8]) -> &[u8]
    ensures value { result.now ≡ trimmed bytes.now }
{
    let mut rest = after_blanks(bytes);
    while let Some((b, before)) = rest.split_last() {
        if !is_blank(*b) {
            break;
        }
        rest = before;
    }
    rest
}
