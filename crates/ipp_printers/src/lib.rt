//! The properties of the printer of each queue, which a file states for clients of the Internet Printing Protocol (IPP).
//!
//! # The lines
//!
//! A line ends with its line feed, and the last line needs none. Blanks are spaces and tabs. A carriage return is no blank. A `#` at the
//! start of a line or after a blank begins a comment, which ends with the line. A line without words is skipped. Any other line is a word
//! and a value, which is the rest of the line without the blanks around it:
//!
//! - `queue NAME` begins the section of a queue. The lines before the first such line are about all printers.
//! - The keyword of a property ([`PropertyKind::keyword`]) and its value state that property. No value is empty. Info, location, make and
//!   model are texts of up to 127 bytes. The device ID is up to 1,023 bytes of printable ASCII. The sizes of paper are self-describing
//!   names ([`MediaSize::read`]), and the output bins keywords. Resolutions and pages per minute are numbers. Color and duplex are `yes` or
//!   `no`. A list has at most 64 words.
//!
//! # Promises
//!
//! *ExactPrinters*:
//!
//! - [`PrinterList::read`] accepts a text exactly if no line has a fault in its place (`reads`), and returns its sections (`value`). Otherwise
//!   it reports the first line with a fault, by its number and its fault (`fault`, by `IsFirstFault` of `specs/PrinterSections.antt`). A line
//!   has a fault if it is invalid, if its queue has a section already, or if its section states its property already.
//! - [`PrinterList::printer`] returns the printer of a queue (`value`). A property of the queue's section precedes that of all printers.
//!   [`PrinterList::empty`] has no lines.
//! - The functions of [`Printer`] return the properties that lines state (`value`). Without a line the size of paper is A4, and color and
//!   duplex are false, which any printer can do. All other properties are then unknown: `None`, or an empty list.
//! - [`MediaSize::read`] returns exactly the size that a self-describing name states, in hundredths of a millimetre (`value`).
//!   [`MediaSize::short_name`] returns the middle part of the name, and [`parted`] the parts around a byte (`value`).
//! - [`Property::kind`], [`PropertyKind::keyword`] and [`LineFault::reason`] are fixed tables (`value`).
//!
//! # Errors
//!
//! If a line has a fault, the whole text is rejected ([`PrintersFault`]). The other error is out of memory.
//!
//! # Cost
//!
//! Each line is read once. A line of a queue is compared with the names of the earlier sections, and a property with its own section, which
//! has at most 11. Only [`PrinterList::read`], [`PrinterList::empty`] and [`MediaSize::read`] allocate.
#![tactic(auto)]

mod fault;
mod kind;
mod line;
mod list;
mod media;
mod printer;
mod property;

pub use fault::{LineFault, PrintersFault};
pub use kind::PropertyKind;
pub use list::PrinterList;
pub use media::{Keyword, KeywordKind, MediaSize, parted};
pub use printer::Printer;
pub use property::{MediaSizes, OutputBins, PageRate, Property, Resolution, Resolutions};
