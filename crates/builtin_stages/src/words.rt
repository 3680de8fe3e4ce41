//! The arguments of the command line: a tool and its job.
ghost use Rattle.std.specs.Prelude.{◌≡◌, map};
ghost use Rattle.std.specs.Option.{option_map};
ghost use Rattle.std.specs.String.{string_bytes};
ghost use Rattle.builtin_stages.specs.ToolNumbers.{ranged};
ghost use Rattle.builtin_stages.specs.RequestFields.{printed, request};
ghost use Rattle.builtin_stages.specs.ToolEnding.{document_name};
ghost use Rattle.builtin_stages.specs.ToolArguments.{asked_of, backend_asked, backend_of, document_of, filter_of, side_end_asked, through_asked, version_asked};

use crate::numbers::ranged;

/// The tools that convert a document for the next stage.
#[derive(Clone, Copy)]
pub enum Filter {
    /// Converts LF to CR LF, and ends the document with a form feed.
    TextToPrn,
    /// Copies the document, and counts its form feeds.
    PrnCount,
}

/// The tools that print a job.
#[derive(Clone, Copy)]
pub enum Backend {
    /// Writes the document to a file.
    SpoolFile,
    /// Waits for another `meet`.
    Meet,
    /// Requests the device id on the side channel.
    SideAsk,
    /// Sends the document to a network printer.
    AppSocket,
}

/// The document of a stage.
#[derive(Clone, Copy)]
pub struct Document<'a> {
    /// The name of its file, or none for standard input.
    pub file: Option<&'a str>,
    /// The number of copies.
    pub copies: u32,
}

impl<'a> Document<'a> {
    /// Returns its name for a message: that of its file.
    pub(crate) fn name(self) -> &'a str
        ensures { result.now ≡ document_name (printed self.entry).file }
    {
        self.file.unwrap_or("standard input")
    }
}

/// The request of the arguments.
#[derive(Clone, Copy)]
pub enum Asked<'a> {
    Filter(Filter, Document<'a>),
    Backend(Backend, Document<'a>),
    /// The device line of the backend.
    DeviceLine(Backend),
    /// To print by the chain of programs in the file of this name, with the five or six arguments of a job. Without them the chain lists its
    /// devices, of which it has none.
    Through(&'a str, &'a [String]),
    /// To end the session on the socket of this name.
    SideEnd(&'a str),
    /// The name and the version of the program.
    Version,
}

impl Filter {
    fn named(name: &str) -> Option<Filter>
        ensures { result ≡ filter_of name.now }
    {
        if name == "texttoprn" {
            Some(Filter::TextToPrn)
        } else if name == "prncount" {
            Some(Filter::PrnCount)
        } else {
            None
        }
    }
}

impl Backend {
    fn named(name: &str) -> Option<Backend>
        ensures { result ≡ backend_of name.now }
    {
        if name == "spoolfile" {
            Some(Backend::SpoolFile)
        } else if name == "meet" {
            Some(Backend::Meet)
        } else if name == "sideask" {
            Some(Backend::SideAsk)
        } else if name == "appsocket" {
            Some(Backend::AppSocket)
        } else {
            None
        }
    }
}

/// Reads the arguments: the program's name, the tool's, and those of the tool.
pub fn read_words<'a>(words: &'a [String]) -> Option<Asked<'a>>
    ensures { option_map request result ≡ asked_of (map string_bytes words.now) }
{
    let (_, words) = words.split_first()?;
    let (name, words) = words.split_first()?;
    let name = name.as_str();
    if let Some(filter) = Filter::named(name) {
        return Some(Asked::Filter(filter, read_document(words)?));
    }
    if let Some(backend) = Backend::named(name) {
        return backend_words(backend, words);
    }
    if name == "through" {
        return through_words(words);
    }
    if name == "side-end" {
        return side_end_words(words);
    }
    if name == "--version" {
        return version_words(words);
    }
    None
}

// Reads the arguments after a backend's name.
fn backend_words<'a>(backend: Backend, words: &'a [String]) -> Option<Asked<'a>>
    ensures { option_map request result ≡ backend_asked backend (map string_bytes words.now) }
{
    if words.is_empty() {
        return Some(Asked::DeviceLine(backend));
    }
    let document = read_document(words)?;
    Some(Asked::Backend(backend, document))
}

// Reads the arguments after `through`.
fn through_words<'a>(words: &'a [String]) -> Option<Asked<'a>>
    ensures { option_map request result ≡ through_asked (map string_bytes words.now) }
{
    let (file, words) = words.split_first()?;
    if !words.is_empty() {
        read_document(words)?;
    }
    Some(Asked::Through(file.as_str(), words))
}

// Reads the arguments after `side-end`.
fn side_end_words<'a>(words: &'a [String]) -> Option<Asked<'a>>
    ensures { option_map request result ≡ side_end_asked (map string_bytes words.now) }
{
    let [socket] = words else {
        return None;
    };
    Some(Asked::SideEnd(socket.as_str()))
}

// Reads the arguments after `--version`. There must be none.
fn version_words<'a>(words: &'a [String]) -> Option<Asked<'a>>
    ensures { option_map request result ≡ version_asked (map string_bytes words.now) }
{
    if words.is_empty() {
        return Some(Asked::Version);
    }
    None
}

// Reads the five or six arguments of a job (filter(7)): its number, user, title, copies, options and optionally the document's file.
fn read_document<'a>(words: &'a [String]) -> Option<Document<'a>>
    ensures { option_map printed result ≡ document_of (map string_bytes words.now) }
{
    match words {
        [_, _, _, copies, _] => {
            read_copies(copies.as_str())?;
            Some(Document {
                file: None,
                copies: 1,
            })
        }
        [_, _, _, copies, _, file] => Some(Document {
            file: Some(file.as_str()),
            copies: read_copies(copies.as_str())?,
        }),
        _ => None,
    }
}

fn read_copies(word: &str) -> Option<u32>
    ensures { result ≡ ranged 1 9999 word.now }
{
    ranged(word, 1, 9_999)
}
