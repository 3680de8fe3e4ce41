//! The line that a backend prints for each device that it knows.
ghost use Rattle.std.specs.Prelude.{◌≡◌, ◌⊎◌, false, IfOk, OnOk, IsErrOf, IsTrue, IsUtf8};
ghost use Rattle.device_uri.specs.BackendLines.{IsDeviceLine, is_device_class, is_bare_uri};

use crate::fields::{Field, read_fields};
use line_words::{after_blanks, has_quote, split_at_blank};
use spool_types::{AttributeNameKind, Text, TextKind, Uri};
use std::alloc::{AllocError, Global};

/// Why a device line was rejected.
#[derive(Clone, Copy, PartialEq, Eq)]
pub enum LineFault {
    /// The line does not have the form of a device line.
    BadLine,
    /// Out of memory.
    Memory,
}

impl From<AllocError> for LineFault {
    ghost use Rattle.device_uri.specs.declared.line.LineFault.TheVariants.{Memory};

    ghost from_gives = { λ _ e. e ≡ Memory };

    fn from(_error: AllocError) -> LineFault {
        LineFault::Memory
    }
}

/// The kind of a device's class: 1 to 127 letters, digits and hyphens.
#[derive(Clone, Copy)]
pub struct DeviceClassKind;

impl TextKind for DeviceClassKind {
    ghost allowed = { is_device_class };

    fn allows(text: &str) -> bool {
        AttributeNameKind::allows(text)
    }
}

/// The kind of connection of a device: `direct`, `network`, `serial`, `file` and so on.
pub type DeviceClass = Text<DeviceClassKind>;

/// A backend's report of one device.
#[derive(Drop)]
pub struct DeviceLine {
    /// The kind of its connection.
    pub class: DeviceClass,
    /// Its URI, or only the scheme if the backend cannot find devices. It is not read as a URL.
    pub uri: Uri,
    /// Its make and model, or `Unknown`.
    pub make: Field,
    /// A description for people.
    pub info: Field,
    /// Its IEEE 1284 device ID.
    pub id: Option<Field>,
    /// Its location.
    pub location: Option<Field>,
}

/// Reads a line without its line feed. The line must not end with a carriage return.
pub fn read_device_line(alloc: Global, line: &str) -> Result<DeviceLine, LineFault>
    ensures value { IfOk result (λ fields. IsDeviceLine fields line.now) }
    ensures bad { IsErrOf result LineFault.BadLine → (fields : DeviceLine) → ¬ (IsDeviceLine fields line.now) }
{
    let (class, behind) = split_at_blank(line.as_bytes());
    let (uri, rest) = split_at_blank(after_blanks(behind));
    let class = match read_text(alloc, class) {
        Ok(class) => class,
        Err(fault) => return Err(fault),
    };
    let uri = match read_bare_uri(alloc, uri) {
        Ok(uri) => uri,
        Err(fault) => return Err(fault),
    };
    let fields = match read_fields(alloc, rest) {
        Ok(fields) => fields,
        Err(fault) => return Err(fault),
    };
    Ok(DeviceLine {
        class,
        uri,
        make: fields.make,
        info: fields.info,
        id: fields.id,
        location: fields.location,
    })
}

// Returns a URI without a quote.
fn read_bare_uri(alloc: Global, word: &[u8]) -> Result<Uri, LineFault>
    ensures value { IfOk result (λ uri. uri ≡ word.now) }
    ensures allowed { OnOk result (IsTrue (is_bare_uri word.now)) }
    ensures bad { IsErrOf result LineFault.BadLine → is_bare_uri word.now ≡ false }
{
    if has_quote(word) {
        return Err(LineFault::BadLine);
    }
    read_text(alloc, word)
}

// Returns a text of this kind.
fn read_text<K: TextKind>(alloc: Global, word: &[u8]) -> Result<Text<K>, LineFault>
    ensures value { IfOk result (λ text. text ≡ word.now) }
    ensures allowed { OnOk result (IsTrue (K.allowed word.now)) }
    ensures bad { IsErrOf result LineFault.BadLine → (K.allowed word.now ≡ false) ⊎ ¬ (IsUtf8 word.now) }
{
    match Text::from_word(alloc, word)? {
        Some(text) => Ok(text),
        None => Err(LineFault::BadLine),
    }
}
