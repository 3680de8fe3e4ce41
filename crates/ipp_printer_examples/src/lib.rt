//! Examples of printers files and of the names of media sizes, stated as facts: each clause is a table that the check computes.
//!
//! The tables are in `specs/`, and the function here does nothing. A table states the results of a definition for given values. That the
//! code returns the same is the clause of the function that cites the definition: `MediaSize::read`, `PrinterList::read` and the functions of
//! `Printer` in `ipp_printers`.
//!
//! # Errors
//!
//! None: nothing here is ever called.
#![tactic(auto)]

ghost use Rattle.ipp_printer_examples.specs.PrinterExamples.{SizeRows, NoSizeRows, ShortNameRows, FileRows, FaultRows};

/// Printers files, their faults, and names of sizes.
pub fn printer_examples()
    ensures size { SizeRows }
    ensures no_size { NoSizeRows }
    ensures short_name { ShortNameRows }
    ensures file { FileRows }
    ensures fault { FaultRows }
{}
