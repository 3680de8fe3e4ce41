//! The standard streams of a program, which note why they fail.
//!
//! An engine returns only that a stream failed. So the program gives it a stream that keeps the error.
ghost use Rattle.std.specs.Prelude.{◌≡◌, None};
ghost use Rattle.fault_causes.specs.StreamErrors.{is_interruption, noted};
ghost use Rattle.std.specs.IoError.{error_kind};

use std::io;
use std::io::{ErrorKind, Read, Write};

/// A stream, and the last error of its calls.
#[derive(Drop)]
pub struct Noted<S: Drop> {
    stream: S,
    error: Option<io::Error>,
}

/// The errors of the standard streams, if they failed.
#[derive(Clone, Copy)]
pub struct StreamErrors {
    /// The error of standard input.
    pub input: Option<io::Error>,
    /// The error of standard output.
    pub output: Option<io::Error>,
}

impl<S: Drop> Noted<S> {
    /// Returns a stream that has not failed.
    pub fn new(stream: S) -> Noted<S>
        ensures { result.error ≡ None }
    {
        Noted {
            stream,
            error: None,
        }
    }

    /// Returns the last error. An interrupted call is none: it is made again.
    pub fn error(&self) -> Option<io::Error>
        ensures { result ≡ self.now.error }
    {
        self.error
    }

    // Notes the outcome of a call.
    fn note<T: Drop>(&mut self, outcome: &io::Result<T>)
        ensures error { self.new.error ≡ noted self.old.error outcome.now }
        ensures stream { self.new.stream ≡ self.old.stream }
    {
        if let Err(error) = outcome {
            if !is_interruption(error.kind()) {
                self.error = Some(*error);
            }
        }
    }
}

impl<S: Read + Drop> Read for Noted<S> {
    ghost remaining = { λ noted. S.remaining noted.stream };

    fn read(&mut self, buf: &mut [u8]) -> io::Result<usize> {
        let read = self.stream.read(buf);
        self.note(&read);
        read
    }
}

impl<S: Write + Drop> Write for Noted<S> {
    ghost contents = { λ noted. S.contents noted.stream };

    fn write(&mut self, buf: &[u8]) -> io::Result<usize> {
        let written = self.stream.write(buf);
        self.note(&written);
        written
    }

    fn flush(&mut self) -> io::Result<()> {
        let flushed = self.stream.flush();
        self.note(&flushed);
        flushed
    }
}

fn is_interruption(kind: ErrorKind) -> bool
    ensures { result ≡ is_interruption kind }
{
    matches!(kind, ErrorKind::Interrupted)
}
