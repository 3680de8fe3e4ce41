//! The numbers of the side channel (cups/sidechannel.h).
ghost use Rattle.std.specs.Prelude.{◌≡◌, Some};
ghost use Rattle.side_channel.specs.SideAnswers.{command_of, status_byte};

/// The command of a request.
#[derive(Clone, Copy, PartialEq, Eq)]
pub enum Command {
    None = 0,
    SoftReset = 1,
    DrainOutput = 2,
    GetBidi = 3,
    GetDeviceId = 4,
    GetState = 5,
    SnmpGet = 6,
    SnmpGetNext = 7,
    GetConnected = 8,
}

impl Command {
    /// Returns the command with this number, if any.
    pub fn from_byte(byte: u8) -> Option<Command>
        ensures { result ≡ command_of byte }
    {
        match byte {
            0 => Some(Command::None),
            1 => Some(Command::SoftReset),
            2 => Some(Command::DrainOutput),
            3 => Some(Command::GetBidi),
            4 => Some(Command::GetDeviceId),
            5 => Some(Command::GetState),
            6 => Some(Command::SnmpGet),
            7 => Some(Command::SnmpGetNext),
            8 => Some(Command::GetConnected),
            _ => None,
        }
    }

    /// Returns the command's number.
    pub fn byte(self) -> u8
        ensures { command_of result ≡ Some self }
    {
        self as u8
    }
}

/// The status of an answer.
#[derive(Clone, Copy, PartialEq, Eq)]
pub enum Status {
    None = 0,
    Ok = 1,
    IoError = 2,
    Timeout = 3,
    NoResponse = 4,
    BadMessage = 5,
    TooBig = 6,
    NotImplemented = 7,
}

impl Status {
    /// Returns the status's number.
    pub fn byte(self) -> u8
        ensures { result ≡ status_byte self }
    {
        self as u8
    }
}

/// The bits of a device's state. An offline device has none of them.
pub mod state_bits {
    pub const ONLINE: u8 = 0x01;

    pub const BUSY: u8 = 0x02;

    pub const ERROR: u8 = 0x04;

    pub const MEDIA_LOW: u8 = 0x10;

    pub const MEDIA_EMPTY: u8 = 0x20;

    pub const MARKER_LOW: u8 = 0x40;

    pub const MARKER_EMPTY: u8 = 0x80;
}
