//! Why options were not read.
use std::alloc::AllocError;

/// The first error of a text of options from the left.
#[derive(Clone, Copy, Debug, PartialEq, Eq)]
pub enum OptionFault {
    /// A word has no name, or its name contains a byte other than letters, digits, `-`, `_` and `.`.
    BadName,
    /// A quote is not closed, or a backslash is at the end.
    Unclosed,
    /// A value begins with a bare `{`: collections of options are rejected.
    Collection,
    /// Out of memory.
    Memory,
}

impl From<AllocError> for OptionFault {
    ghost use Rattle.std.specs.Prelude.{◌≡◌};
    ghost use Rattle.filter_args.specs.declared.fault.OptionFault.TheVariants.{Memory};

    ghost from_gives = { λ _ e. e ≡ Memory };

    fn from(_error: AllocError) -> OptionFault {
        OptionFault::Memory
    }
}
