//! Texts in a page.
ghost use Rattle.std.specs.Prelude.{◌≡◌, ◌++◌, OnOk, IfOk};
ghost use Rattle.front_texts.specs.Escape.{entity, escaped};

use std::alloc::{AllocError, Global};

/// Appends a text to a page as plain text: `&`, `<`, `>`, `"` and `'` are written as character references. If memory runs out, a part of it
/// may have been appended.
pub fn push_escaped(page: &mut Vec<u8>, text: &str) -> Result<(), AllocError>
    ensures value { OnOk result (page.new.items ≡ page.old.items ++ escaped text.now) }
{
    for byte in text.as_bytes() {
        push_byte(page, *byte)?;
    }
    Ok(())
}

fn push_byte(page: &mut Vec<u8>, byte: u8) -> Result<(), AllocError>
    ensures { OnOk result (page.new.items ≡ page.old.items ++ entity byte) }
{
    match byte {
        b'&' => page.extend_from_slice(b"&amp;"),
        b'<' => page.extend_from_slice(b"&lt;"),
        b'>' => page.extend_from_slice(b"&gt;"),
        b'"' => page.extend_from_slice(b"&quot;"),
        b'\'' => page.extend_from_slice(b"&#39;"),
        _ => {
            page.push(byte)?;
            Ok(())
        }
    }
}

/// Returns the escaped text.
pub fn escape(alloc: Global, text: &str) -> Result<Vec<u8>, AllocError>
    ensures value { IfOk result (λ safe. safe.items ≡ escaped text.now) }
{
    let mut safe = Vec::new(alloc);
    push_escaped(&mut safe, text)?;
    Ok(safe)
}
