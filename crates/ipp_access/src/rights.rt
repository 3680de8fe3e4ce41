//! The rights of clients.

/// A kind of request.
#[derive(Clone, Copy)]
pub enum Right {
    /// Print a document.
    Print,
    /// Show printers and jobs.
    Look,
    /// Change jobs of the user whom the client names.
    ChangeOwnJobs,
    /// Change jobs of any user.
    ChangeAllJobs,
    /// Stop, start, open or close a printer.
    ChangePrinter,
}
