//! The numbers in the rules.
ghost use Rattle.std.specs.Prelude.{◌≡◌, ◌≤◌, true, min};
ghost use Rattle.std.specs.List.{list_all};
ghost use Rattle.std.specs.Option.{option_map};
ghost use Rattle.mime_lines.specs.RuleNumbers.{number_of, in_base, is_digit_in, is_hex_digit, digit_value, behind_zero, read_on, told};

// The greatest number plus one.
const TOO_GREAT: u64 = 4_294_967_296;

/// The number in a word.
#[derive(Clone, Copy, PartialEq, Eq)]
pub enum Number {
    Fits(u32),
    /// The number is above 4,294,967,295.
    TooGreat,
}

/// Returns the number of a word: decimal digits, `0x` and hexadecimal digits of either case, or `0` and octal digits. Returns `None` if
/// the word does not have the form of a number.
pub fn read_number(word: &[u8]) -> Option<Number>
    ensures value { result ≡ option_map told (number_of word.now) }
{
    let (first, rest) = word.split_first()?;
    if *first == b'0' {
        behind_zero(rest)
    } else {
        in_base(10, word)
    }
}

// Returns the number of a zero and these bytes.
fn behind_zero(bytes: &[u8]) -> Option<Number>
    ensures { result ≡ option_map told (behind_zero bytes.now) }
{
    match bytes.split_first() {
        None => Some(Number::Fits(0)),
        Some((first, rest)) => {
            if *first == b'x' && !rest.is_empty() {
                in_base(16, rest)
            } else {
                in_base(8, bytes)
            }
        }
    }
}

// Returns the number in this base, if all of these are digits of it.
fn in_base(base: u8, digits: &[u8]) -> Option<Number>
    requires least { 1 ≤ base }
    requires most { base ≤ 16 }
    ensures { result ≡ option_map told (in_base base digits.now) }
{
    if !are_digits(base, digits) {
        return None;
    }
    let value = digits_value(base, digits);
    match u32::try_from(value) {
        Ok(number) => Some(Number::Fits(number)),
        Err(_) => Some(Number::TooGreat),
    }
}

fn are_digits(base: u8, digits: &[u8]) -> bool
    ensures { result ≡ list_all (is_digit_in base) digits.now }
{
    digits.iter().all(|b| is_digit_in(base, *b))
}

fn is_digit_in(base: u8, b: u8) -> bool
    ensures { result ≡ is_digit_in base b }
{
    b.is_ascii_hexdigit() && digit_value(b) < base
}

// Returns the value of a hexadecimal digit.
fn digit_value(b: u8) -> u8
    requires { is_hex_digit b ≡ true }
    ensures { result ≡ digit_value b }
{
    if b <= b'9' {
        b - b'0'
    } else if b <= b'F' {
        b - b'A' + 10
    } else {
        b - b'a' + 10
    }
}

// Returns the number of the digits, or the greatest number plus one if it is above that.
fn digits_value(base: u8, digits: &[u8]) -> u64
    requires least { 1 ≤ base }
    requires most { base ≤ 16 }
    requires digits { list_all (is_digit_in base) digits.now ≡ true }
    ensures { result ≡ min 4294967296 (read_on base 0 digits.now) }
{
    let mut value: u64 = 0;
    for b in digits {
        let longer = value * u64::from(base) + u64::from(digit_value(*b));
        value = longer.min(TOO_GREAT);
    }
    value
}
