//! Why a text is not a printers file.
ghost use Rattle.std.specs.Prelude.{◌≡◌};
ghost use Rattle.ipp_printers.specs.LineReasons.{expected_of, reason_of};

use crate::kind::PropertyKind;
use std::alloc::AllocError;

/// The fault of a line.
#[derive(Clone, Copy)]
pub enum LineFault {
    /// The line begins with a word that is neither `queue` nor the keyword of a property.
    UnknownWord,
    /// `queue` without the name of a queue.
    BadQueue,
    /// The value does not have the form of this property, or there is none.
    BadValue(PropertyKind),
    /// An earlier line begins a section of the same queue.
    QueueTwice,
    /// An earlier line of the section states the same property.
    PropertyTwice,
}

impl LineFault {
    /// Returns the reason for people, without a full stop.
    pub fn reason(self) -> &'static str
        ensures value { result.now ≡ reason_of self }
    {
        match self {
            LineFault::UnknownWord => "unknown property",
            LineFault::BadQueue => "expected the name of a queue",
            LineFault::BadValue(kind) => expected(kind),
            LineFault::QueueTwice => "this queue has a section already",
            LineFault::PropertyTwice => "this section has this property already",
        }
    }
}

// Returns the form of a property's value.
fn expected(kind: PropertyKind) -> &'static str
    ensures { result.now ≡ expected_of kind }
{
    match kind {
        PropertyKind::Info | PropertyKind::Location | PropertyKind::MakeAndModel => {
            "expected a text of 1 to 127 bytes"
        }
        PropertyKind::DeviceId => "expected 1 to 1023 bytes of printable ASCII",
        PropertyKind::Media => "expected 1 to 64 sizes such as iso_a4_210x297mm",
        PropertyKind::Color | PropertyKind::Duplex => "expected yes or no",
        PropertyKind::Resolutions => "expected 1 to 64 numbers from 1 to 65535",
        PropertyKind::OutputBins => "expected 1 to 64 keywords such as face-down",
        PropertyKind::PagesPerMinute | PropertyKind::ColorPagesPerMinute => {
            "expected a number from 1 to 2147483647"
        }
    }
}

/// Why a text is not a printers file.
#[derive(Clone, Copy)]
pub enum PrintersFault {
    /// The first line with a fault.
    Line {
        /// Its number, from 1.
        number: usize,
        fault: LineFault,
    },
    /// Out of memory.
    Memory,
}

impl From<AllocError> for PrintersFault {
    ghost use Rattle.ipp_printers.specs.declared.fault.PrintersFault.TheVariants.{Memory};

    ghost from_gives = { λ _ e. e ≡ Memory };

    fn from(_error: AllocError) -> PrintersFault {
        PrintersFault::Memory
    }
}
