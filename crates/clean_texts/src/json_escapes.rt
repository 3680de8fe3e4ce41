//! Texts of JSON in which no character steers.
ghost use Rattle.std.specs.Prelude.{◌≡◌, ◌++◌, ◌<◌, ◌≤◌, IfOk, OnOk, false, string_bytes};
ghost use Rattle.clean_texts.specs.CleanTexts.{is_steered};
ghost use Rattle.clean_texts.specs.JsonEscapes.{clean_json, escape_of, high_unit, json_bytes, low_unit, unit_escape};
ghost use Rattle.std.specs.Char.{digit_char};

use crate::steering::steers;
use std::alloc::{AllocError, Global};

// The first character that is written as two escapes.
const FIRST_PAIR: u32 = 0x1_0000;

// The first unit of those two is at least this, and so is the second.
const HIGH_UNIT: u32 = 0xd800;

const LOW_UNIT: u32 = 0xdc00;

const UNITS: u32 = 0x400;

/// Returns a text of JSON with the escape `\uXXXX` for each character that steers. In a string of JSON the escape denotes the character, so
/// the value stays the same.
pub fn clean_json(alloc: Global, json: &str) -> Result<String, AllocError>
    ensures value { IfOk result (λ cleaned. string_bytes cleaned ≡ clean_json json.now) }
    ensures clean { IfOk result (λ cleaned. is_steered (string_bytes cleaned) ≡ false) }
{
    let mut cleaned = String::new(alloc);
    for c in json.chars() {
        push_json(&mut cleaned, c)?;
    }
    Ok(cleaned)
}

fn push_json(json: &mut String, c: char) -> Result<(), AllocError>
    ensures { OnOk result (string_bytes json.new ≡ string_bytes json.old ++ json_bytes c) }
{
    if steers(c) {
        push_escape(json, u32::from(c))
    } else {
        json.push(c)
    }
}

// Appends the escape of a character: that of its code, or those of two units of UTF-16.
fn push_escape(json: &mut String, code: u32) -> Result<(), AllocError>
    requires { code < 0x110000 }
    ensures { OnOk result (string_bytes json.new ≡ string_bytes json.old ++ escape_of code) }
{
    if code < FIRST_PAIR {
        push_unit(json, code)
    } else {
        push_pair(json, code)
    }
}

fn push_pair(json: &mut String, code: u32) -> Result<(), AllocError>
    requires low { 0x10000 ≤ code }
    requires high { code < 0x110000 }
    ensures { OnOk result (string_bytes json.new ≡ string_bytes json.old ++ (unit_escape (high_unit code) ++ unit_escape (low_unit code))) }
{
    push_unit(json, high_unit(code))?;
    push_unit(json, low_unit(code))
}

fn high_unit(code: u32) -> u32
    requires low { 0x10000 ≤ code }
    requires high { code < 0x110000 }
    ensures value { result ≡ high_unit code }
    ensures small { result < 0x10000 }
{
    HIGH_UNIT + (code - FIRST_PAIR) / UNITS
}

fn low_unit(code: u32) -> u32
    requires low { 0x10000 ≤ code }
    requires high { code < 0x110000 }
    ensures value { result ≡ low_unit code }
    ensures small { result < 0x10000 }
{
    LOW_UNIT + (code - FIRST_PAIR) % UNITS
}

// Appends `\u` and the four digits of a unit.
#[tactic(auto, unfolding(crate::specs::JsonEscapes::unit_escape))]
fn push_unit(json: &mut String, unit: u32) -> Result<(), AllocError>
    requires { unit < 0x10000 }
    ensures { OnOk result (string_bytes json.new ≡ string_bytes json.old ++ unit_escape unit) }
{
    json.push_str("\\u")?;
    json.push(digit(unit / 4096))?;
    json.push(digit(unit / 256 % 16))?;
    json.push(digit(unit / 16 % 16))?;
    json.push(digit(unit % 16))
}

fn digit(value: u32) -> char
    requires { value < 16 }
    ensures { result ≡ digit_char value }
{
    if value < 10 {
        char::from(b'0' + value as u8)
    } else {
        char::from(b'a' + (value - 10) as u8)
    }
}
