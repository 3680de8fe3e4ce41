//! The states of printers.
ghost use Rattle.std.specs.Prelude.{◌≡◌, IfSome, Some};
ghost use Rattle.ipp_names.specs.IppPrinterStates.{printer_state_keyword, printer_state_number, printer_state_of, printer_states};

/// A state of a printer, with its number (RFC 8011 5.4.11).
#[derive(Clone, Copy, PartialEq, Eq)]
pub enum PrinterState {
    Idle = 3,
    Processing = 4,
    Stopped = 5,
}

static PRINTER_STATES: [PrinterState; 3] = [
    PrinterState::Idle,
    PrinterState::Processing,
    PrinterState::Stopped,
];

impl PrinterState {
    /// Returns each state of a printer, by its number.
    pub fn all() -> &'static [PrinterState]
        ensures { result.now ≡ printer_states }
    {
        &PRINTER_STATES
    }

    /// Returns its number.
    pub fn number(self) -> u16
        ensures value { result ≡ printer_state_number self }
        ensures round_trip { printer_state_of result ≡ Some self }
    {
        self as u16
    }

    /// Returns the state of a printer with this number, if any.
    pub fn from_number(number: u16) -> Option<PrinterState>
        ensures value { result ≡ printer_state_of number }
        ensures round_trip { IfSome result (λ found. printer_state_number found ≡ number) }
    {
        PRINTER_STATES
            .iter()
            .copied()
            .find(|state| state.number() == number)
    }

    /// Returns its keyword.
    pub fn keyword(self) -> &'static str
        ensures { result.now ≡ printer_state_keyword self }
    {
        match self {
            PrinterState::Idle => "idle",
            PrinterState::Processing => "processing",
            PrinterState::Stopped => "stopped",
        }
    }
}
