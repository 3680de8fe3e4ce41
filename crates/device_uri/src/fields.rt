//! The quoted fields of a device line.
ghost use Rattle.std.specs.Prelude.{◌≡◌, None, Some, IfOk, IsErrOf};
ghost use Rattle.std.specs.Option.{option_map};
ghost use Rattle.device_uri.specs.DeviceLineReading.{behind_quote, next_field, next_if_any};
ghost use Rattle.device_uri.specs.Taken.{AreFields};

use crate::line::LineFault;
use line_words::{after_blanks, is_blank, is_quote, read_quoted};
use spool_types::Items;
use std::alloc::Global;

/// The value of a quoted field, of at most 1,023 bytes.
pub type Field = Items<u8, 1_023>;

/// The quoted fields of a line.
#[derive(Drop)]
pub struct Fields {
    pub make: Field,
    pub info: Field,
    pub id: Option<Field>,
    pub location: Option<Field>,
}

/// Reads the quoted fields at the end of a line.
pub fn read_fields(alloc: Global, line: &[u8]) -> Result<Fields, LineFault>
    ensures value { IfOk result (λ fields. AreFields fields line.now) }
    ensures bad { IsErrOf result LineFault.BadLine → (fields : Fields) → ¬ (AreFields fields line.now) }
{
    let (make, rest) = read_field(alloc, line)?;
    let (info, rest) = read_field(alloc, rest)?;
    let (id, rest) = read_field_if_any(alloc, rest)?;
    let (location, rest) = read_field_if_any(alloc, rest)?;
    if !rest.is_empty() {
        return Err(LineFault::BadLine);
    }
    Ok(Fields {
        make,
        info,
        id,
        location,
    })
}

// Reads the next field, unless the line ends here.
fn read_field_if_any<'a>(
    alloc: Global,
    line: &'a [u8],
) -> Result<(Option<Field>, &'a [u8]), LineFault>
    ensures value { IfOk result (λ found. next_if_any line.now ≡ Some (found.0, found.1.now)) }
    ensures bad { IsErrOf result LineFault.BadLine → next_if_any line.now ≡ None }
{
    if line.is_empty() {
        return Ok((None, line));
    }
    let (field, rest) = read_field(alloc, line)?;
    Ok((Some(field), rest))
}

// Reads the next field. Returns it and the rest of the line.
fn read_field<'a>(alloc: Global, line: &'a [u8]) -> Result<(Field, &'a [u8]), LineFault>
    ensures value { IfOk result (λ found. next_field line.now ≡ Some (found.0, found.1.now)) }
    ensures bad { IsErrOf result LineFault.BadLine → next_field line.now ≡ None }
{
    let Some(inside) = behind_quote(line) else {
        return Err(LineFault::BadLine);
    };
    let Some((word, rest)) = read_quoted(alloc, inside)? else {
        return Err(LineFault::BadLine);
    };
    match Items::new(word.into_bytes(alloc)?) {
        Ok(field) => Ok((field, rest)),
        Err(_) => Err(LineFault::BadLine),
    }
}

// Returns the bytes after blanks and an opening quote.
fn behind_quote(line: &[u8]) -> Option<&[u8]>
    ensures { option_map (λ inside. inside.now) result ≡ behind_quote line.now }
{
    let (b, behind) = line.split_first()?;
    if !is_blank(*b) {
        return None;
    }
    let (b, inside) = after_blanks(behind).split_first()?;
    if is_quote(*b) { Some(inside) } else { None }
}
