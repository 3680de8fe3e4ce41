//! The characters that steer a terminal or its reader.
ghost use Rattle.std.specs.Prelude.{◌≡◌};
ghost use Rattle.clean_texts.specs.SteeringCharacters.{breaks_a_line, is_control_code, is_filler, is_hidden, is_special, sets_direction, steers};
ghost use Rattle.clean_texts.specs.CleanTexts.{clean_char};

/// Returns whether a character steers a terminal or its reader.
#[tactic(auto, unfolding(crate::specs::SteeringCharacters::steers))]
pub fn steers(c: char) -> bool
    ensures value { result ≡ steers c }
{
    is_control_code(c)
        || sets_direction(c)
        || breaks_a_line(c)
        || is_filler(c)
        || is_hidden(c)
        || is_special(c)
}

/// Returns U+FFFD for a character that steers, and any other character as it is.
pub fn clean_char(c: char) -> char
    ensures value { result ≡ clean_char c }
{
    if steers(c) { '\u{fffd}' } else { c }
}

fn is_control_code(c: char) -> bool
    ensures { result ≡ is_control_code c }
{
    matches!(c, '\u{0}'..='\u{1f}' | '\u{7f}'..='\u{9f}')
}

fn sets_direction(c: char) -> bool
    ensures { result ≡ sets_direction c }
{
    matches!(c, '\u{61c}' | '\u{200e}'..='\u{200f}' | '\u{202a}'..='\u{202e}' | '\u{2066}'..='\u{2069}')
}

fn breaks_a_line(c: char) -> bool
    ensures { result ≡ breaks_a_line c }
{
    matches!(c, '\u{2028}'..='\u{2029}')
}

fn is_filler(c: char) -> bool
    ensures { result ≡ is_filler c }
{
    matches!(c, '\u{115f}'..='\u{1160}' | '\u{17b4}'..='\u{17b5}' | '\u{3164}' | '\u{ffa0}')
}

fn is_hidden(c: char) -> bool
    ensures { result ≡ is_hidden c }
{
    match c {
        '\u{ad}' | '\u{34f}' | '\u{180e}' | '\u{200b}' | '\u{feff}' => true,
        '\u{2060}'..='\u{2065}' | '\u{206a}'..='\u{206f}' => true,
        _ => false,
    }
}

fn is_special(c: char) -> bool
    ensures { result ≡ is_special c }
{
    match c {
        '\u{fff0}'..='\u{fffb}' => true,
        '\u{1bca0}'..='\u{1bca3}' | '\u{1d173}'..='\u{1d17a}' => true,
        '\u{e0000}'..='\u{e00ff}' | '\u{e01f0}'..='\u{e0fff}' => true,
        _ => false,
    }
}
