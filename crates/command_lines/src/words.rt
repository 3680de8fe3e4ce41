//! The words of a line.
ghost use Rattle.std.specs.Prelude.{◌≡◌, IfOk, false, map};
ghost use Rattle.std.specs.Option.{option_map};
ghost use Rattle.line_words.specs.Quotes.{quoted};
ghost use Rattle.line_words.specs.WordFields.{bytes_of};
ghost use Rattle.command_lines.specs.CommandWords.{bare_word, quoted_word, is_end, next_word, words_of};
ghost use Rattle.command_lines.specs.Fronts.{front_of};

use line_words::{Word, after_blanks, has_quote, is_blank, is_quote, read_quoted, split_at_blank};
use std::alloc::{AllocError, Global};

// No command has more words, so only a line that is no command allocates again for its words.
const MOST_WORDS: usize = 7;

// The beginning of a line.
enum Front<'a> {
    // No word is left.
    Ended,
    // A word is broken.
    Broken,
    // A word, and the bytes after it.
    Word(Word<'a>, &'a [u8]),
}

/// Returns the words of a line, or `None` if one is broken: an open quote, a quote in a bare word, or no blank after a closing quote.
pub fn words_of<'a>(alloc: Global, line: &'a [u8]) -> Result<Option<Vec<Word<'a>>>, AllocError>
    ensures { IfOk result (λ words. option_map (λ v. map bytes_of v.items) words ≡ words_of line.now) }
{
    let mut words = Vec::with_capacity(alloc, MOST_WORDS)?;
    let mut rest = line;
    loop {
        match next_word(alloc, rest)? {
            Front::Ended => return Ok(Some(words)),
            Front::Broken => return Ok(None),
            Front::Word(word, behind) => {
                words.push(word)?;
                rest = behind;
            }
        }
    }
}

fn next_word<'a>(alloc: Global, line: &'a [u8]) -> Result<Front<'a>, AllocError>
    ensures { IfOk result (λ front. front_of front ≡ next_word line.now) }
{
    let here = after_blanks(line);
    match here.split_first() {
        None => Ok(Front::Ended),
        Some((b, behind)) => {
            if is_quote(*b) {
                quoted_word(alloc, behind)
            } else {
                Ok(bare_word(here))
            }
        }
    }
}

// Takes a word up to the next blank. It contains no quote.
fn bare_word(line: &[u8]) -> Front<'_>
    ensures { front_of result ≡ bare_word line.now }
{
    let (word, rest) = split_at_blank(line);
    if has_quote(word) {
        return Front::Broken;
    }
    Front::Word(Word::Borrowed(word), rest)
}

// Takes a word after its opening quote.
fn quoted_word<'a>(alloc: Global, line: &'a [u8]) -> Result<Front<'a>, AllocError>
    ensures { IfOk result (λ front. front_of front ≡ quoted_word (quoted false line.now)) }
{
    let Some((word, rest)) = read_quoted(alloc, line)? else {
        return Ok(Front::Broken);
    };
    if !is_end(rest) {
        return Ok(Front::Broken);
    }
    Ok(Front::Word(word, rest))
}

// Returns whether a quoted word may end before these bytes.
fn is_end(rest: &[u8]) -> bool
    ensures { result ≡ is_end rest.now }
{
    match rest.first() {
        Some(b) => is_blank(*b),
        None => true,
    }
}
