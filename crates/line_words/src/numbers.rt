//! Decimal numbers.
ghost use Rattle.std.specs.Prelude.{◌≡◌, ◌<◌, ◌≤◌, ◌^◌, IfSome};
ghost use Rattle.line_words.specs.DecimalNumbers.{decimal};

/// Returns the number of a word that consists of one or more decimal digits, if it is at most `most`.
pub fn decimal(word: &[u8], most: u64) -> Option<u64>
    requires { most < 2 ^ 60 }
    ensures value { result ≡ decimal most word.now }
    ensures bound { IfSome result (λ number. number ≤ most) }
{
    if word.is_empty() {
        return None;
    }
    let mut value: u64 = 0;
    for b in word {
        if !b.is_ascii_digit() {
            return None;
        }
        value = value * 10 + u64::from(*b - b'0');
        if most < value {
            return None;
        }
    }
    Some(value)
}
