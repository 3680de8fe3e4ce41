//! Laws about the answers about printers, and examples of them.
ghost use Rattle.printer_answers.specs.PrinterLaws.{AllPrinterRows, AreShownStates, LpAsks};

/// The printer-state is that which the service shows.
pub fn states_are_those_shown()
    ensures { AreShownStates }
{}

/// The attributes of printers that are returned to `lp`, and those for the keywords of groups.
pub fn examples_of_printer_requests()
    ensures lp { LpAsks }
    ensures groups { AllPrinterRows }
{}
