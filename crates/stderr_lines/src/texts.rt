//! Bytes of a line as texts of a kind.
ghost use Rattle.std.specs.Prelude.{◌≡◌, ◌&&◌, true, None, Some, if◌then◌else◌, IfOk};
ghost use Rattle.std.specs.Option.{option_copied};
ghost use Rattle.std.specs.List.{list_all};
ghost use Rattle.std.specs.Str.{is_utf8};
ghost use Rattle.spool_types.specs.Values.{is_printable};

use spool_types::{Text, TextFault, TextKind};
use std::alloc::{AllocError, Global};

/// Returns the bytes as a text, if they are a text of this kind.
pub fn text_in<K: TextKind>(bytes: &[u8]) -> Option<&str>
    ensures { option_copied result ≡ (if is_utf8 bytes.now && K.allowed bytes.now then Some bytes.now else None) }
{
    let Ok(text) = str::from_utf8(bytes) else {
        return None;
    };
    if K::allows(text) { Some(text) } else { None }
}

/// Returns printable bytes as a text.
pub fn printable_text(bytes: &[u8]) -> &str
    requires { list_all is_printable bytes.now ≡ true }
    ensures { result.now ≡ bytes.now }
{
    match str::from_utf8(bytes) {
        Ok(text) => text,
        Err(_) => unreachable!(),
    }
}

/// Returns a copy of a text of this kind.
pub fn copy_of<K: TextKind>(alloc: Global, text: &str) -> Result<Text<K>, AllocError>
    requires { K.allowed text.now ≡ true }
    ensures { IfOk result (λ copy. copy ≡ text.now) }
{
    match Text::read(alloc, text) {
        Ok(copy) => Ok(copy),
        Err(TextFault::Bad) => unreachable!(),
        Err(TextFault::Memory) => Err(AllocError),
    }
}
