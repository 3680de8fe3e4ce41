//! The backend `appsocket`, for printers that receive a document over a connection (AppSocket, usually on port 9100).
//!
//! # The end of the connection
//!
//! A printer that resets the connection may have lost the document. The writer does not notice this, because the system accepts its last
//! bytes. So the backend closes its half and waits until the printer closes the other half, at most the seconds of the option
//! `endtimeout`. It reads and discards the printer's data, also while it writes, so that neither waits for the other; there is no back
//! channel. [`crate::connection_ends`] says what the end means that it has seen (`Observed`).
//!
//! A printer that closes the connection at once has not read the document. So the backend closes its half no earlier than 0.1 s after it
//! connected, and sees a close before that as one that does not answer its own.
//!
//! If nobody listens, the backend exits with 6 at once, so that other children do not wait.
ghost use Rattle.std.specs.Prelude.{◌≡◌, ◌+◌, min, true, false, IfOk};
ghost use Rattle.std.specs.IoError.{error_kind};

use crate::backends::variable;
use crate::connection_ends::{ConnectionEnd, Observed, end_of_connection, rules_of};
use crate::fault::ToolFault;
use crate::options::{connect_seconds_of, end_seconds_of};
use crate::printer::{Printer, read_printer};
use crate::results::{Form, Source, write_copies};
use std::alloc::Global;
use std::fs::{File, Files};
use std::io::{ErrorKind, Read, Write};
use std::net::{Net, OpenStream, Shutdown, SocketAddr, TcpStream, ToSocketAddrs};
use std::rt::{Clock, Env};
use std::time::{Duration, Instant};
use std::{io, thread};
use url::Host;

// The number of bytes from the printer that one read takes, and the most reads in a row.
const PIECE: usize = 16_384;

const PIECES: usize = 4_096;

// The longest wait of a write before the printer's data is read, in milliseconds. The write is repeated as long as needed.
const TURN: u64 = 100;

// The wait for a reset after the printer closed the connection, and the least age of a connection whose half is closed, in milliseconds.
const SETTLING: u64 = 100;

/// How an attempt to send a document ended.
#[derive(Drop)]
pub struct Sending {
    pub end: ConnectionEnd,
    /// The address and the port of the printer.
    pub peer: String,
    /// The number of bytes that the system took for the printer.
    pub sent: u64,
}

/// Sends the copies to the printer that DEVICE_URI names, and waits until it closes the connection. A fault comes before the connection or
/// from the document.
pub fn app_socket<H: Files<File = File> + Env + Clock + Net + AllocGlobal, S: Source>(
    rt: &H,
    source: &S,
    copies: u32,
) -> Result<Sending, ToolFault> {
    let printer = read_printer(rt.alloc(), variable(rt, "DEVICE_URI")?.as_str())?;
    let rules = rules_of(&printer.options)?;
    let stream = connect(rt, &printer)?;
    let peer = peer_of(rt.alloc(), &stream)?;
    let mut line = Line {
        stream,
        sent: 0,
        closed: false,
    };
    let observed = send(rt, source, copies, &printer, &mut line)?;
    Ok(Sending {
        end: end_of_connection(rules, observed),
        peer,
        sent: line.sent,
    })
}

// Sends the copies over the line, and returns how it ended.
fn send<H: Clock + AllocGlobal, S: Source, T: Read + Write + OpenStream + Drop>(
    rt: &H,
    source: &S,
    copies: u32,
    printer: &Printer,
    line: &mut Line<T>,
) -> Result<Observed, ToolFault> {
    let Ok(start) = Instant::now(rt) else {
        return Err(ToolFault::Connect);
    };
    match write_copies(rt.alloc(), Form::Plain, source, copies, line) {
        Ok(_) => Ok(line.finish(rt, start, end_seconds_of(&printer.options))),
        Err(ToolFault::Write) => Ok(line.cut()),
        Err(fault) => Err(fault),
    }
}

// Returns the address of the printer.
fn peer_of<S: OpenStream>(alloc: Global, stream: &S) -> Result<String, ToolFault> {
    match stream.peer_addr() {
        Ok(address) => Ok(format!(in alloc; "{address}")?),
        Err(_) => Err(ToolFault::Reset),
    }
}

// Connects to the first of the printer's addresses that answers.
fn connect<H: Net>(rt: &H, printer: &Printer) -> Result<H::Stream, ToolFault> {
    let port = printer.port;
    let seconds = connect_seconds_of(&printer.options);
    let stream = match &printer.host {
        Host::Domain(name) => connect_any(rt, (name.as_str(), port), seconds),
        Host::Ipv4(address) => connect_any(rt, (*address, port), seconds),
        Host::Ipv6(address) => connect_any(rt, (*address, port), seconds),
    };
    let stream = match stream {
        Ok(stream) => stream,
        Err(error) => return Err(unconnected(&error)),
    };
    match stream.set_write_timeout(Some(Duration::from_millis(TURN))) {
        Ok(()) => Ok(stream),
        Err(_) => Err(ToolFault::Reset),
    }
}

// Converts an error of a connect. A printer may accept and reset the connection before the call returns.
fn unconnected(error: &io::Error) -> ToolFault
    ensures reset { error_kind error.now ≡ ErrorKind.ConnectionReset → result ≡ ToolFault.Reset }
    ensures other { ¬ (error_kind error.now ≡ ErrorKind.ConnectionReset) → result ≡ ToolFault.Connect }
{
    match error.kind() {
        ErrorKind::ConnectionReset => ToolFault::Reset,
        _ => ToolFault::Connect,
    }
}

fn connect_any<H: Net, A: ToSocketAddrs>(rt: &H, host: A, seconds: u32) -> io::Result<H::Stream> {
    let mut last = io::Error::from(ErrorKind::AddrNotAvailable);
    for address in host.to_socket_addrs(rt)? {
        match connect_to(rt, address, seconds) {
            Ok(stream) => return Ok(stream),
            Err(error) => last = error,
        }
    }
    Err(last)
}

fn connect_to<H: Net>(rt: &H, address: SocketAddr, seconds: u32) -> io::Result<H::Stream> {
    if seconds == 0 {
        TcpStream::connect(rt, address)
    } else {
        TcpStream::connect_timeout(rt, &address, Duration::from_secs(u64::from(seconds)))
    }
}

// A connection to a printer.
#[derive(Drop)]
struct Line<S: Read + Write + OpenStream + Drop> {
    stream: S,
    // The number of bytes that the system took.
    sent: u64,
    // Whether the printer has closed its half.
    closed: bool,
}

impl<S: Read + Write + OpenStream + Drop> Line<S> {
    // Reads the data that the printer has sent, without waiting.
    fn hear(&mut self) -> io::Result<()> {
        if self.closed {
            return Ok(());
        }
        self.stream.set_nonblocking(true)?;
        let heard = self.read_said();
        self.stream.set_nonblocking(false)?;
        heard
    }

    fn read_said(&mut self) -> io::Result<()> {
        let mut piece = [0u8; PIECE];
        for _ in 0..PIECES {
            match self.stream.read(&mut piece) {
                Ok(0) => {
                    self.closed = true;
                    return Ok(());
                }
                Ok(_) => {}
                Err(error) => match error.kind() {
                    ErrorKind::WouldBlock => return Ok(()),
                    ErrorKind::Interrupted => {}
                    _ => return Err(error),
                },
            }
        }
        Ok(())
    }

    // Counts the bytes that a write has taken.
    fn count(&mut self, written: &io::Result<usize>)
        ensures counted { IfOk written.now (λ count. self.new.sent ≡ min (self.old.sent + count) u64.MAX) }
        ensures closed { self.new.closed ≡ self.old.closed }
    {
        if let Ok(count) = written {
            self.sent = self.sent.saturating_add(*count as u64);
        }
    }

    // Returns how the line ended after a write failed.
    fn cut(&self) -> Observed
        ensures closed { self.now.closed ≡ true → result ≡ Observed.ClosedEarly }
        ensures reset { self.now.closed ≡ false → result ≡ Observed.ResetEarly }
    {
        if self.closed {
            Observed::ClosedEarly
        } else {
            Observed::ResetEarly
        }
    }

    // Ends the line after all bytes were sent: closes this half, and waits until the printer closes the other. `start` is the time of the
    // connection.
    fn finish<H: Clock>(&mut self, rt: &H, start: Instant, seconds: u32) -> Observed {
        match self.end(rt, start, Duration::from_secs(u64::from(seconds))) {
            Ok(observed) => observed,
            Err(_) => Observed::ResetLate,
        }
    }

    // The same. An `Err` is a reset or a lost connection.
    fn end<H: Clock>(&mut self, rt: &H, start: Instant, most: Duration) -> io::Result<Observed> {
        self.wait(rt, start, Duration::from_millis(SETTLING))?;
        let first = self.closed;
        self.stream.shutdown(Shutdown::Write)?;
        self.wait(rt, Instant::now(rt)?, most)?;
        if !self.closed {
            return Ok(Observed::StillOpen);
        }
        self.settle(rt)?;
        if first {
            Ok(Observed::ClosedFirst)
        } else {
            Ok(Observed::ClosedLast)
        }
    }

    // Waits until the printer closes its half, at most `most` after `start`, and reads at least once. An `Err` is a reset or a lost
    // connection.
    fn wait<H: Clock>(&mut self, rt: &H, start: Instant, most: Duration) -> io::Result<()> {
        let mut piece = [0u8; PIECE];
        for _ in 0..u64::MAX {
            if self.closed {
                return Ok(());
            }
            let left = most.saturating_sub(start.elapsed(rt)?);
            self.stream
                .set_read_timeout(Some(left.max(Duration::from_millis(1))))?;
            match self.stream.read(&mut piece) {
                Ok(0) => self.closed = true,
                Ok(_) => {}
                Err(error) => match error.kind() {
                    ErrorKind::WouldBlock | ErrorKind::Interrupted => {}
                    _ => return Err(error),
                },
            }
            if left.is_zero() {
                return Ok(());
            }
        }
        Ok(())
    }

    // Called after the printer closed the connection. If it had not read all data, a reset follows, which a read does not report.
    fn settle<H: Clock>(&self, rt: &H) -> io::Result<()> {
        thread::sleep(rt, Duration::from_millis(SETTLING));
        match self.stream.take_error()? {
            Some(error) => Err(error),
            None => Ok(()),
        }
    }
}

// A write waits for the printer without limit, and reads the printer's data meanwhile. It fails once the printer has closed its half.
impl<S: Read + Write + OpenStream + Drop> Write for Line<S> {
    fn write(&mut self, buf: &[u8]) -> io::Result<usize> {
        for _ in 0..u64::MAX {
            self.hear()?;
            if self.closed {
                return Err(io::Error::from(ErrorKind::BrokenPipe));
            }
            match self.stream.write(buf) {
                Err(error) if error.kind() == ErrorKind::WouldBlock => {}
                written => {
                    self.count(&written);
                    return written;
                }
            }
        }
        Err(io::Error::from(ErrorKind::TimedOut))
    }

    fn flush(&mut self) -> io::Result<()> {
        Ok(())
    }
}
