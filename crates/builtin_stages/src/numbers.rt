//! Decimal numbers in arguments and options.
ghost use Rattle.std.specs.Prelude.{◌≡◌, ◌&&◌, cond, nat_le, None, Some};
ghost use Rattle.std.specs.Char.{is_ascii_digit};
ghost use Rattle.std.specs.List.{list_all};
ghost use Rattle.builtin_stages.specs.ToolNumbers.{ranged};

/// Reads a number of decimal digits in the range. Leading zeros are allowed, a sign is not.
pub fn ranged(text: &str, least: u32, most: u32) -> Option<u32>
    ensures { result ≡ ranged least most text.now }
{
    if !has_only_digits(text) {
        return None;
    }
    match text.parse::<u32>() {
        Ok(number) => in_range(number, least, most),
        Err(_) => None,
    }
}

fn in_range(number: u32, least: u32, most: u32) -> Option<u32>
    ensures { result ≡ cond (nat_le least number && nat_le number most) (Some number) None }
{
    if least <= number && number <= most {
        Some(number)
    } else {
        None
    }
}

fn has_only_digits(text: &str) -> bool
    ensures { result ≡ list_all is_ascii_digit text.now }
{
    text.as_bytes().iter().all(|b| b.is_ascii_digit())
}
