//! The configuration of the front, and the time.
use ipp_answers::{Server, Timestamp};
use ipp_printers::PrinterList;
use mime_costs::Convs;
use spool_types::{MediaType, Moment};

/// The seconds after which a job without a whole document is canceled.
pub const TIME_OUT: u64 = 300;

/// The longest document, in bytes.
pub const LONGEST_DOCUMENT: u64 = 16_777_216;

static CREATION: [&str; 24] = [
    "copies",
    "document-format",
    "document-name",
    "finishings",
    "ipp-attribute-fidelity",
    "job-hold-until",
    "job-hold-until-time",
    "job-name",
    "job-priority",
    "job-sheets",
    "media",
    "media-col",
    "multiple-document-handling",
    "number-up",
    "orientation-requested",
    "output-bin",
    "page-ranges",
    "print-color-mode",
    "print-content-optimize",
    "print-quality",
    "print-rendering-intent",
    "print-scaling",
    "printer-resolution",
    "sides",
];

/// The configuration of the front, and the time.
#[derive(Drop)]
pub struct World {
    /// The names of this machine.
    pub names: Vec<Vec<u8>>,
    pub printers: PrinterList,
    pub convs: Convs,
    /// The types from which conversions lead.
    pub types: Vec<MediaType>,
    /// The name of the machine, and the path of the service's socket.
    pub spool: String,
    /// The default printer.
    pub default: Option<String>,
    /// When the file of printers was read, in seconds since 1970.
    pub started: u64,
    /// The time, in seconds since 1970.
    pub seconds: u64,
    /// The time, in milliseconds of the steady clock.
    pub millis: u64,
    /// Whether a proxy in front of the server offers TLS.
    pub is_secure: bool,
}

impl World {
    /// Returns the server as the client at this host sees it.
    pub fn server<'a>(&'a self, host: &'a str) -> Server<'a> {
        Server {
            host,
            is_secure: self.is_secure,
            spool: self.spool.as_str(),
            moment: Timestamp::of_seconds(self.seconds),
            configured: Timestamp::of_seconds(self.started),
            creation_attributes: &CREATION,
            longest_document: LONGEST_DOCUMENT,
            takes_several_documents: true,
            time_out: TIME_OUT as u32,
        }
    }

    /// Returns the time.
    pub fn moment(&self) -> Moment {
        match Moment::new(self.seconds) {
            Some(moment) => moment,
            None => Moment::ZERO,
        }
    }
}
