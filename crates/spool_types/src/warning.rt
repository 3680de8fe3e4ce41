//! Warnings about the lines of a file.
ghost use Rattle.std.specs.Prelude.{◌≡◌};
ghost use Rattle.spool_types.specs.Warnings.{warning_name};

/// A skipped line, and the reason.
#[derive(Clone, Copy, PartialEq, Eq)]
pub struct Warning {
    /// The number of the line, from 1. A joined line has the number of its first line.
    pub line: usize,
    pub kind: WarningKind,
}

/// Why a line was skipped: its first error from left to right.
#[derive(Clone, Copy, PartialEq, Eq)]
pub enum WarningKind {
    /// A media type was expected.
    BadType,
    /// The list of rules does not follow the grammar.
    BadRule,
    /// No rule has this name.
    UnknownRule,
    /// A number is invalid or out of range.
    BadNumber,
    /// A quote is not closed, hexadecimal digits are not in pairs, or a value has a different width.
    BadText,
    /// The line does not have the expected words.
    BadLine,
}

impl WarningKind {
    /// Returns the name of the kind, as warnings show it.
    pub fn name(self) -> &'static str
        ensures { result.now ≡ warning_name self }
    {
        match self {
            WarningKind::BadType => "BadType",
            WarningKind::BadRule => "BadRule",
            WarningKind::UnknownRule => "UnknownRule",
            WarningKind::BadNumber => "BadNumber",
            WarningKind::BadText => "BadText",
            WarningKind::BadLine => "BadLine",
        }
    }
}
