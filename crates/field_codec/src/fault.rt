//! Why bytes are not an event or a row.
ghost use Rattle.std.specs.Prelude.{◌≡◌};
ghost use Rattle.field_codec.specs.declared.fault.CodecFault.TheVariants.{Range, Memory};
ghost use Rattle.field_codec.specs.Fields.{codec_fault};

use spool_types::TextFault;
use std::alloc::{AllocError, AllocFailed};

/// The first error of the bytes, from left to right.
#[derive(Clone, Copy, Debug, PartialEq, Eq)]
pub enum CodecFault {
    /// The first byte is not that of an event, or of a row if a row is read.
    Kind,
    /// A field exceeds the bytes, or bytes follow the last field. Empty input is this error too.
    Length,
    /// A field's value is outside its limits.
    Range,
    /// A text is not UTF-8.
    Utf8,
    /// Memory for the copy of a field, or for a list, ran out.
    Memory,
}

impl From<AllocError> for CodecFault {
    ghost from_gives = { λ _ e. e ≡ Memory };

    fn from(_error: AllocError) -> CodecFault {
        CodecFault::Memory
    }
}

impl<T: Drop> From<AllocFailed<T>> for CodecFault {
    ghost from_gives = { λ _ e. e ≡ Memory };

    fn from(_error: AllocFailed<T>) -> CodecFault {
        CodecFault::Memory
    }
}

impl From<TextFault> for CodecFault {
    ghost from_gives = { λ fault e. e ≡ codec_fault fault };

    fn from(fault: TextFault) -> CodecFault {
        match fault {
            TextFault::Bad => CodecFault::Range,
            TextFault::Memory => CodecFault::Memory,
        }
    }
}
