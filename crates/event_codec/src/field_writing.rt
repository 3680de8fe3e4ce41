//! Appending fields to bytes whose capacity suffices.
ghost use Rattle.std.specs.Prelude.{◌≡◌, ◌+◌, ◌*◌, ◌≤◌, ◌<◌, ◌^◌, ◌∷◌, ◌++◌, List, ℕ, [], true, length, vec_len, vec_capacity};
ghost use Rattle.std.specs.Int.{w8, w16, w32, w64, to_be_bytes};
ghost use Rattle.std.specs.List.{flat_map, AllByRecursion};
ghost use Rattle.spool_types.specs.Values.{is_media_type};
ghost use Rattle.event_codec.specs.Spelling.{text_code, counted_code, flag_code, IsText};

use spool_types::{MediaType, Text, TextKind};

/// Appends these bytes.
pub(crate) fn put(out: &mut Vec<u8>, bytes: &[u8])
    requires room { vec_len out.old + length bytes.now ≤ vec_capacity out.old }
    ensures written { out.new.items ≡ out.old.items ++ bytes.now }
    ensures len { vec_len out.new ≡ vec_len out.old + length bytes.now }
    ensures grown { vec_capacity out.old ≤ vec_capacity out.new }
{
    match out.extend_from_slice(bytes) {
        Ok(()) => {}
        Err(_) => unreachable!(),
    }
}

/// Appends the first byte of a spelling.
pub(crate) fn put_kind(out: &mut Vec<u8>, kind: u8)
    requires room { vec_len out.old + 1 ≤ vec_capacity out.old }
    ensures written { out.new.items ≡ out.old.items ++ kind ∷ [] }
    ensures len { vec_len out.new ≡ vec_len out.old + 1 }
    ensures grown { vec_capacity out.old ≤ vec_capacity out.new }
{
    put(out, &[kind]);
}

/// Appends a number in one byte.
pub(crate) fn put_u8(out: &mut Vec<u8>, number: u8)
    requires room { vec_len out.old + 1 ≤ vec_capacity out.old }
    ensures written { out.new.items ≡ out.old.items ++ to_be_bytes w8 number }
    ensures len { vec_len out.new ≡ vec_len out.old + 1 }
    ensures grown { vec_capacity out.old ≤ vec_capacity out.new }
{
    put(out, &number.to_be_bytes());
}

/// Appends a number in two bytes.
pub(crate) fn put_u16(out: &mut Vec<u8>, number: u16)
    requires room { vec_len out.old + 2 ≤ vec_capacity out.old }
    ensures written { out.new.items ≡ out.old.items ++ to_be_bytes w16 number }
    ensures len { vec_len out.new ≡ vec_len out.old + 2 }
    ensures grown { vec_capacity out.old ≤ vec_capacity out.new }
{
    put(out, &number.to_be_bytes());
}

/// Appends a number in four bytes.
pub(crate) fn put_u32(out: &mut Vec<u8>, number: u32)
    requires room { vec_len out.old + 4 ≤ vec_capacity out.old }
    ensures written { out.new.items ≡ out.old.items ++ to_be_bytes w32 number }
    ensures len { vec_len out.new ≡ vec_len out.old + 4 }
    ensures grown { vec_capacity out.old ≤ vec_capacity out.new }
{
    put(out, &number.to_be_bytes());
}

/// Appends a number in eight bytes.
pub(crate) fn put_u64(out: &mut Vec<u8>, number: u64)
    requires room { vec_len out.old + 8 ≤ vec_capacity out.old }
    ensures written { out.new.items ≡ out.old.items ++ to_be_bytes w64 number }
    ensures len { vec_len out.new ≡ vec_len out.old + 8 }
    ensures grown { vec_capacity out.old ≤ vec_capacity out.new }
{
    put(out, &number.to_be_bytes());
}

fn put_str(out: &mut Vec<u8>, text: &str)
    requires short { length text.now < 2 ^ 16 }
    requires room { vec_len out.old + length (text_code text.now) ≤ vec_capacity out.old }
    ensures written { out.new.items ≡ out.old.items ++ text_code text.now }
    ensures len { vec_len out.new ≡ vec_len out.old + length (text_code text.now) }
    ensures grown { vec_capacity out.old ≤ vec_capacity out.new }
{
    put_u16(out, text.len() as u16);
    put(out, text.as_bytes());
}

pub(crate) fn put_text<K: TextKind>(out: &mut Vec<u8>, text: &Text<K>)
    requires short { (t : List ℕ) → K.allowed t ≡ true → length t < 2 ^ 16 }
    requires room { vec_len out.old + length (text_code text.now) ≤ vec_capacity out.old }
    ensures written { out.new.items ≡ out.old.items ++ text_code text.now }
    ensures len { vec_len out.new ≡ vec_len out.old + length (text_code text.now) }
    ensures grown { vec_capacity out.old ≤ vec_capacity out.new }
    ensures is_text { IsText K.allowed text.now }
{
    put_str(out, text.as_str());
}

pub(crate) fn put_media(out: &mut Vec<u8>, media: &MediaType)
    requires room { vec_len out.old + length (text_code media.now) ≤ vec_capacity out.old }
    ensures written { out.new.items ≡ out.old.items ++ text_code media.now }
    ensures len { vec_len out.new ≡ vec_len out.old + length (text_code media.now) }
    ensures grown { vec_capacity out.old ≤ vec_capacity out.new }
    ensures is_text { IsText is_media_type media.now }
{
    put_str(out, media.as_str());
}

pub(crate) fn put_flag(out: &mut Vec<u8>, flag: bool)
    requires room { vec_len out.old + length (flag_code flag) ≤ vec_capacity out.old }
    ensures written { out.new.items ≡ out.old.items ++ flag_code flag }
    ensures len { vec_len out.new ≡ vec_len out.old + length (flag_code flag) }
    ensures grown { vec_capacity out.old ≤ vec_capacity out.new }
{
    put_u8(out, u8::from(flag));
}

/// Appends texts in order.
pub(crate) fn put_texts<K: TextKind>(out: &mut Vec<u8>, texts: &[Text<K>])
    requires short { (t : List ℕ) → K.allowed t ≡ true → length t < 2 ^ 16 }
    requires room { vec_len out.old + length (flat_map text_code texts.now) ≤ vec_capacity out.old }
    ensures written { out.new.items ≡ out.old.items ++ flat_map text_code texts.now }
    ensures len { vec_len out.new ≡ vec_len out.old + length (flat_map text_code texts.now) }
    ensures grown { vec_capacity out.old ≤ vec_capacity out.new }
    ensures are_texts { AllByRecursion (IsText K.allowed) texts.now }
{
    for text in texts {
        put_text(out, text);
    }
}

/// Appends the number of texts in one byte, and each text.
pub(crate) fn put_counted<K: TextKind>(out: &mut Vec<u8>, texts: &[Text<K>])
    requires short { (t : List ℕ) → K.allowed t ≡ true → length t < 2 ^ 16 }
    requires few { length texts.now ≤ 64 }
    requires room { vec_len out.old + length (counted_code texts.now) ≤ vec_capacity out.old }
    ensures written { out.new.items ≡ out.old.items ++ counted_code texts.now }
    ensures len { vec_len out.new ≡ vec_len out.old + length (counted_code texts.now) }
    ensures grown { vec_capacity out.old ≤ vec_capacity out.new }
    ensures are_texts { AllByRecursion (IsText K.allowed) texts.now }
{
    put_u8(out, texts.len() as u8);
    put_texts(out, texts);
}

/// Returns the number of bytes of a text's code.
pub(crate) fn text_len<K: TextKind>(text: &Text<K>) -> usize
    requires short { (t : List ℕ) → K.allowed t ≡ true → length t ≤ 2048 }
    ensures value { result ≡ length (text_code text.now) }
    ensures small { result ≤ 2050 }
{
    2 + text.as_str().len()
}

pub(crate) fn media_len(media: &MediaType) -> usize
    ensures value { result ≡ length (text_code media.now) }
    ensures small { result ≤ 2050 }
{
    2 + media.as_str().len()
}

/// Returns the number of bytes of the codes of at most 64 texts.
pub(crate) fn texts_len<K: TextKind>(texts: &[Text<K>]) -> usize
    requires short { (t : List ℕ) → K.allowed t ≡ true → length t ≤ 2048 }
    requires few { length texts.now ≤ 64 }
    ensures value { result ≡ length (flat_map text_code texts.now) }
    ensures small { result ≤ length texts.now * 2050 }
{
    let mut len = 0;
    for text in texts {
        len += text_len(text);
    }
    len
}

/// Returns the number of bytes of these texts with their number in one byte.
pub(crate) fn counted_len<K: TextKind>(texts: &[Text<K>]) -> usize
    requires short { (t : List ℕ) → K.allowed t ≡ true → length t ≤ 2048 }
    requires few { length texts.now ≤ 64 }
    ensures value { result ≡ length (counted_code texts.now) }
    ensures small { result ≤ 1 + length texts.now * 2050 }
{
    1 + texts_len(texts)
}
