//! Why octets are not a message, and why a message was not spelled.

use std::alloc::AllocError;

/// The first fault of the octets, from left to right.
#[derive(Clone, Copy, Debug, PartialEq, Eq)]
pub enum DecodeFault {
    /// The octets end within a message, which more octets can complete.
    NeedMore,
    /// The message has more than 65,536 octets, more than 4,096 values, or more than 8 collections in one another.
    TooLarge,
    /// A tag that no document assigns to a group, or a value where a group begins.
    Delimiter,
    /// The name of an attribute is empty or longer than 255 octets.
    Name,
    /// The length of a value is not one of its syntax.
    Length,
    /// A character string is not UTF-8, has an octet that its syntax does not have, or is too short or too long.
    Text,
    /// A boolean is neither 0 nor 1.
    Boolean,
    /// A mark of a collection, or a value in one, is out of place.
    Collection,
    /// Memory ran out.
    Memory,
}

impl From<AllocError> for DecodeFault {
    ghost use Rattle.std.specs.Prelude.{◌≡◌};
    ghost use Rattle.ipp_codec.specs.declared.fault.DecodeFault.TheVariants.{Memory};

    ghost from_gives = { λ _ e. e ≡ Memory };

    fn from(_error: AllocError) -> DecodeFault {
        DecodeFault::Memory
    }
}

/// Why a message was not spelled.
#[derive(Clone, Copy, Debug, PartialEq, Eq)]
pub enum EncodeFault {
    /// An attribute has no value, or a collection of it is not whole or is in 8 others.
    Malformed,
    /// Memory ran out.
    Memory,
}

impl From<AllocError> for EncodeFault {
    ghost use Rattle.std.specs.Prelude.{◌≡◌};
    ghost use Rattle.ipp_codec.specs.declared.fault.EncodeFault.TheVariants.{Memory};

    ghost from_gives = { λ _ e. e ≡ Memory };

    fn from(_error: AllocError) -> EncodeFault {
        EncodeFault::Memory
    }
}
