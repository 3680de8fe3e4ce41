//! Numbers of 1 to 13 digits.
ghost use Rattle.std.specs.Prelude.{◌≡◌};
ghost use Rattle.spool_types.specs.Limits.{greatest_number, greatest_moment};
ghost use Rattle.command_lines.specs.CommandNumbers.{number_of, ranged};

use line_words::decimal;
use spool_types::{JobId, Moment, Ranged};

// The greatest number of digits, and the greatest number with that many digits.
const MOST_DIGITS: usize = 13;

const GREATEST: u64 = 9_999_999_999_999;

/// Returns the job number that the word states.
pub fn job_number(word: &[u8]) -> Option<JobId>
    ensures { result ≡ ranged 1 greatest_number word.now }
{
    JobId::new(small_number(word)?)
}

/// Returns the moment that the word states, in seconds.
pub fn moment_number(word: &[u8]) -> Option<Moment>
    ensures { result ≡ ranged 0 greatest_moment word.now }
{
    Moment::new(number_of(word)?)
}

/// Returns the number that the word states, if it is in the range.
pub fn ranged_number<const LEAST: u32, const MOST: u32>(word: &[u8]) -> Option<Ranged<LEAST, MOST>>
    ensures { result ≡ ranged LEAST MOST word.now }
{
    Ranged::new(small_number(word)?)
}

/// Returns the number of at most 32 bits that the word states.
pub fn small_number(word: &[u8]) -> Option<u32>
    ensures { result ≡ ranged 0 4294967295 word.now }
{
    u32::try_from(number_of(word)?).ok()
}

/// Returns the number of at most 16 bits that the word states.
pub fn short_number(word: &[u8]) -> Option<u16>
    ensures { result ≡ ranged 0 65535 word.now }
{
    u16::try_from(number_of(word)?).ok()
}

/// Returns the number that a word of 1 to 13 digits states.
pub fn number_of(word: &[u8]) -> Option<u64>
    ensures { result ≡ number_of word.now }
{
    if word.len() <= MOST_DIGITS {
        decimal(word, GREATEST)
    } else {
        None
    }
}
