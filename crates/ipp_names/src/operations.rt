//! The operations that the server offers.
ghost use Rattle.std.specs.Prelude.{◌≡◌, IfSome, Some};
ghost use Rattle.ipp_names.specs.IppOperations.{operation_name, operation_number, operation_of, operations};

/// An operation of IPP or of CUPS, with its number (RFC 8011 5.4.15).
#[derive(Clone, Copy, PartialEq, Eq)]
pub enum Operation {
    /// RFC 8011 4.2.1
    PrintJob = 0x0002,
    /// RFC 8011 4.2.3
    ValidateJob = 0x0004,
    /// RFC 8011 4.2.4
    CreateJob = 0x0005,
    /// RFC 8011 4.3.1
    SendDocument = 0x0006,
    /// RFC 8011 4.3.3
    CancelJob = 0x0008,
    /// RFC 8011 4.3.4
    GetJobAttributes = 0x0009,
    /// RFC 8011 4.2.6
    GetJobs = 0x000a,
    /// RFC 8011 4.2.5
    GetPrinterAttributes = 0x000b,
    /// RFC 8011 4.3.5
    HoldJob = 0x000c,
    /// RFC 8011 4.3.6
    ReleaseJob = 0x000d,
    /// RFC 8011 4.2.7
    PausePrinter = 0x0010,
    /// RFC 8011 4.2.8
    ResumePrinter = 0x0011,
    /// RFC 8011 4.2.9
    PurgeJobs = 0x0012,
    /// RFC 3380
    SetJobAttributes = 0x0014,
    /// RFC 3998
    EnablePrinter = 0x0022,
    /// RFC 3998
    DisablePrinter = 0x0023,
    /// PWG 5100.11
    CancelJobs = 0x0038,
    /// PWG 5100.11
    CancelMyJobs = 0x0039,
    /// PWG 5100.11
    CloseJob = 0x003b,
    /// PWG 5100.13
    IdentifyPrinter = 0x003c,
    /// CUPS
    CupsGetDefault = 0x4001,
    /// CUPS
    CupsGetPrinters = 0x4002,
    /// CUPS
    CupsGetClasses = 0x4005,
    /// CUPS
    CupsAcceptJobs = 0x4008,
    /// CUPS
    CupsRejectJobs = 0x4009,
}

static OPERATIONS: [Operation; 25] = [
    Operation::PrintJob,
    Operation::ValidateJob,
    Operation::CreateJob,
    Operation::SendDocument,
    Operation::CancelJob,
    Operation::GetJobAttributes,
    Operation::GetJobs,
    Operation::GetPrinterAttributes,
    Operation::HoldJob,
    Operation::ReleaseJob,
    Operation::PausePrinter,
    Operation::ResumePrinter,
    Operation::PurgeJobs,
    Operation::SetJobAttributes,
    Operation::EnablePrinter,
    Operation::DisablePrinter,
    Operation::CancelJobs,
    Operation::CancelMyJobs,
    Operation::CloseJob,
    Operation::IdentifyPrinter,
    Operation::CupsGetDefault,
    Operation::CupsGetPrinters,
    Operation::CupsGetClasses,
    Operation::CupsAcceptJobs,
    Operation::CupsRejectJobs,
];

impl Operation {
    /// Returns each operation, by its number.
    pub fn all() -> &'static [Operation]
        ensures { result.now ≡ operations }
    {
        &OPERATIONS
    }

    /// Returns its number.
    pub fn number(self) -> u16
        ensures value { result ≡ operation_number self }
        ensures round_trip { operation_of result ≡ Some self }
    {
        self as u16
    }

    /// Returns the operation with this number, if any.
    pub fn from_number(number: u16) -> Option<Operation>
        ensures value { result ≡ operation_of number }
        ensures round_trip { IfSome result (λ found. operation_number found ≡ number) }
    {
        OPERATIONS
            .iter()
            .copied()
            .find(|operation| operation.number() == number)
    }

    /// Returns its name.
    pub fn name(self) -> &'static str
        ensures { result.now ≡ operation_name self }
    {
        match self {
            Operation::PrintJob => "Print-Job",
            Operation::ValidateJob => "Validate-Job",
            Operation::CreateJob => "Create-Job",
            Operation::SendDocument => "Send-Document",
            Operation::CancelJob => "Cancel-Job",
            Operation::GetJobAttributes => "Get-Job-Attributes",
            Operation::GetJobs => "Get-Jobs",
            Operation::GetPrinterAttributes => "Get-Printer-Attributes",
            Operation::HoldJob => "Hold-Job",
            Operation::ReleaseJob => "Release-Job",
            Operation::PausePrinter => "Pause-Printer",
            Operation::ResumePrinter => "Resume-Printer",
            Operation::PurgeJobs => "Purge-Jobs",
            Operation::SetJobAttributes => "Set-Job-Attributes",
            Operation::EnablePrinter => "Enable-Printer",
            Operation::DisablePrinter => "Disable-Printer",
            Operation::CancelJobs => "Cancel-Jobs",
            Operation::CancelMyJobs => "Cancel-My-Jobs",
            Operation::CloseJob => "Close-Job",
            Operation::IdentifyPrinter => "Identify-Printer",
            Operation::CupsGetDefault => "CUPS-Get-Default",
            Operation::CupsGetPrinters => "CUPS-Get-Printers",
            Operation::CupsGetClasses => "CUPS-Get-Classes",
            Operation::CupsAcceptJobs => "CUPS-Accept-Jobs",
            Operation::CupsRejectJobs => "CUPS-Reject-Jobs",
        }
    }
}
