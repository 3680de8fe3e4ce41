//! Splitting at a byte.
ghost use Rattle.std.specs.Prelude.{◌≡◌};
ghost use Rattle.std.specs.Option.{option_map};
ghost use Rattle.stderr_lines.specs.Cuts.{cut_at};

/// Splits at the first byte `c`, which belongs to neither part. Returns `None` if there is none.
pub fn cut_at(c: u8, bytes: &[u8]) -> Option<(&[u8], &[u8])>
    ensures { option_map (λ p. (p.0.now, p.1.now)) result ≡ cut_at c bytes.now }
{
    for (i, b) in bytes.iter().enumerate() {
        if *b == c {
            return Some((&bytes[..i], &bytes[i + 1..]));
        }
    }
    None
}
