//! The arguments, and the files that they name.
use crate::fault::{StartFault, invalid_line, unread};
use ipp_printers::{PrinterList, PrintersFault};
use ipp_tasks::World;
use mime_costs::Convs;
use spool_types::MediaType;
use std::alloc::{AllocError, Global};
use std::fs;
use std::net::SocketAddr;

/// The values of the arguments.
#[derive(Clone, Copy)]
pub struct Words<'a> {
    /// The socket of the service.
    pub service: &'a str,
    /// The address and port to listen on.
    pub listen: Option<SocketAddr>,
    /// The socket of all users.
    pub socket: Option<&'a str>,
    /// The socket of operators.
    pub operators_socket: Option<&'a str>,
    /// The file of printers.
    pub printers: Option<&'a str>,
    /// The file in the format of mime.convs(5).
    pub convs: Option<&'a str>,
    /// The default printer.
    pub default: Option<&'a str>,
    /// A name of this machine.
    pub name: Option<&'a str>,
    /// Whether a proxy in front of the program offers TLS.
    pub is_behind_tls: bool,
    /// The program ends once this file exists.
    pub end: Option<&'a str>,
}

/// Why the arguments are invalid.
#[derive(Clone, Copy)]
pub enum Mistake<'a> {
    /// There is no such option.
    Unknown { option: &'a str },
    /// The value of `--listen` is no address with a port.
    NoAddress { value: &'a str },
    /// The option needs a value.
    NoValue { option: &'a str },
    /// The socket of the service is not given.
    NoService,
}

/// Reads the arguments, without the name of the program.
pub fn read_words<'a>(given: &'a [String]) -> Result<Words<'a>, Mistake<'a>> {
    let mut words = Words::none();
    let mut option = None;
    for word in given {
        let word = word.as_str();
        match option {
            None if word == "--behind-tls" => words.is_behind_tls = true,
            None => option = Some(word),
            Some(name) => {
                if !words.set(name, word) {
                    return Err(mistake_of(name, word));
                }
                option = None;
            }
        }
    }
    match option {
        Some(option) => Err(Mistake::NoValue { option }),
        None if words.service.is_empty() => Err(Mistake::NoService),
        None => Ok(words),
    }
}

// Returns why an option with this value is refused.
fn mistake_of<'a>(option: &'a str, value: &'a str) -> Mistake<'a> {
    if option == "--listen" {
        Mistake::NoAddress { value }
    } else {
        Mistake::Unknown { option }
    }
}

impl<'a> Words<'a> {
    // No arguments.
    fn none() -> Words<'a> {
        Words {
            service: "",
            listen: None,
            socket: None,
            operators_socket: None,
            printers: None,
            convs: None,
            default: None,
            name: None,
            is_behind_tls: false,
            end: None,
        }
    }

    // Sets the value of an option. Returns whether the option exists and may have this value.
    fn set(&mut self, option: &str, value: &'a str) -> bool {
        match option {
            "--service" => self.service = value,
            "--socket" => self.socket = Some(value),
            "--operators-socket" => self.operators_socket = Some(value),
            "--printers" => self.printers = Some(value),
            "--convs" => self.convs = Some(value),
            "--default" => self.default = Some(value),
            "--name" => self.name = Some(value),
            "--end" => self.end = Some(value),
            "--listen" => {
                self.listen = value.parse::<SocketAddr>().ok();
                return self.listen.is_some();
            }
            _ => return false,
        }
        true
    }
}

/// Returns the configuration of the front. `seconds` is the time.
pub fn world_of(rt: &HostRuntime, words: &Words<'_>, seconds: u64) -> Result<World, StartFault> {
    let alloc = rt.alloc();
    let text = text_of(rt, words.convs)?;
    Ok(World {
        names: names_of(alloc, words.name)?,
        spool: spool_name(alloc, words.service)?,
        default: owned(alloc, words.default)?,
        types: sources(alloc, text.as_str())?,
        printers: printers_of(rt, words.printers)?,
        convs: convs_of(alloc, text.as_str())?,
        started: seconds,
        seconds,
        millis: 0,
        is_secure: words.is_behind_tls,
    })
}

// Returns the text of a file, or the empty text.
fn text_of(rt: &HostRuntime, path: Option<&str>) -> Result<String, StartFault> {
    let Some(path) = path else {
        return Ok(String::new(rt.alloc()));
    };
    match fs::read_to_string(rt, path) {
        Ok(text) => Ok(text),
        Err(error) => Err(unread(rt.alloc(), path, error)),
    }
}

// Returns the conversions of a text. Lines that are invalid are left out, as the service leaves them out.
fn convs_of(alloc: Global, text: &str) -> Result<Convs, AllocError> {
    let (convs, warnings) = Convs::read(alloc, text)?;
    drop(warnings);
    Ok(convs)
}

// Returns the printers of the file, in which each line must be valid.
fn printers_of(rt: &HostRuntime, path: Option<&str>) -> Result<PrinterList, StartFault> {
    let text = text_of(rt, path)?;
    match PrinterList::read(rt.alloc(), text.as_str()) {
        Ok(list) => Ok(list),
        Err(PrintersFault::Line { number, fault }) => {
            let path = path.unwrap_or("");
            Err(invalid_line(rt.alloc(), path, number, fault.reason()))
        }
        Err(PrintersFault::Memory) => Err(StartFault::from(AllocError)),
    }
}

// Returns the name of the spool, from which the identifiers of its printers are made.
fn spool_name(alloc: Global, service: &str) -> Result<String, AllocError> {
    format!(in alloc; "cegmandi:{service}:")
}

/// Returns a copy of a text, if there is one.
pub fn owned(alloc: Global, text: Option<&str>) -> Result<Option<String>, AllocError> {
    match text {
        Some(text) => Ok(Some(String::from_str(alloc, text)?)),
        None => Ok(None),
    }
}

fn names_of(alloc: Global, name: Option<&str>) -> Result<Vec<Vec<u8>>, AllocError> {
    let mut names = Vec::new(alloc);
    if let Some(name) = name {
        names.push(Vec::from_slice(alloc, name.as_bytes())?)?;
    }
    Ok(names)
}

// Returns the types from which conversions lead.
fn sources(alloc: Global, convs: &str) -> Result<Vec<MediaType>, AllocError> {
    let mut types: Vec<MediaType> = Vec::new(alloc);
    for line in convs.lines() {
        let (word, _) = line_words::first_word(line.as_bytes());
        if let Some(found) = MediaType::from_word(alloc, word)? {
            if !found.as_str().contains('*') && !is_among(types.as_slice(), &found) {
                types.push(found)?;
            }
        }
    }
    Ok(types)
}

fn is_among(types: &[MediaType], found: &MediaType) -> bool {
    types.iter().any(|other| other.as_str() == found.as_str())
}
