//! Serves the side channels of the running children: a socket for each, whose clients are answered as their bytes
//! arrive.
//!
//! # How they are served
//!
//! No client is waited for. A poll accepts the clients that have connected, and answers at most 512 bytes that have
//! arrived from each. A turn ([`SideLines::serve`]) polls all channels, and those on which something arrived again, until
//! nothing has arrived for three polls, 50 µs apart. It polls at most 512 times in a row and for at most a millisecond
//! ([`goes_on`]), whatever the children send. So a long request, or several requests each after the answer to the one
//! before, take one turn, and a child that floods its channel takes a millisecond of it.
//!
//! While a child is finished, the launcher gives the channels of all running children a turn again and again. So a child
//! gets its answers whatever other children do, and a child that keeps a silent connection gets those of its other
//! connections. However the bytes of a client are split, the bytes written for them are the answers of its session
//! (`AnswersPiece`).
//!
//! The standard library has no call that waits for several descriptors. So the channels have a turn 1 ms after something
//! arrived, and otherwise at growing intervals of at most 16 ms. A check whether a child has ended gives them one too,
//! not earlier than a millisecond after the end of the last one, so a service spends at most half of its time on them.
//! The clock measures how long a client has left its answers.
//!
//! # How they end
//!
//! A channel is closed when its child has ended, even if a client still sends requests. Before that, a session ends the
//! channel by its last packet. The program in the `side` line of the file of programs does so at the end of the child's
//! script, and the script ends that program if it hangs. So a client that does something, or fails to do it, delays
//! only itself and its child.
//!
//! A client that disconnects, even within a packet, or that leaves its answers unread for two seconds loses its
//! session, and nothing else. A child has at most eight clients at once. Others wait until one of these has
//! disconnected. After 256 clients the socket is closed, so further clients are refused.
ghost use Rattle.std.specs.Prelude.{◌≡◌, ◌<◌, ◌≤◌, ◌+◌, ◌++◌, ◌∷◌, ◌↔◌, [], IsTrue, IfOk, IsSome, OnOk, drop, length, true};
ghost use Rattle.std.specs.List.{list_all};
ghost use Rattle.std.specs.IoError.{error_kind};
ghost use Rattle.std.specs.Vec.{vec_capacity, vec_len};
ghost use Rattle.spool_runtime.specs.ClientSessions.{AnswersPiece, is_closed, may_pass};

use crate::device::remove_if_there;
use side_channel::{Device, Fed, Session, SideFault};
use spool_types::JobId;
use std::alloc::{AllocError, Global};
use std::fs::Permissions;
use std::io::{ErrorKind, Read, Write};
use std::os::unix::fs::PermissionsExt;
use std::os::unix::net::{UnixListener, UnixStream};
use std::path::Path;
use std::time::{Duration, Instant};
use std::{fs, io, thread};

// How many clients of a child are answered in all, and how many at once.
const MOST_CLIENTS: u32 = 256;

const MOST_AT_ONCE: usize = 8;

// The number of bytes read from a client at once.
const PIECE: usize = 512;

// How often the channels are polled in a turn after its first poll, for how many microseconds, and after how many polls
// on which nothing has arrived the turn ends.
const MOST_POLLS: u32 = 512;

const LONGEST_TURN: u128 = 1_000;

const MOST_QUIET: u32 = 3;

// The pause after a poll on which nothing has arrived, in microseconds.
const NAP: u64 = 50;

// How long a client may leave its answers unread, in milliseconds. The system stores more than a hundred answers for
// it.
const PATIENCE: u64 = 2_000;

/// The side channels of the running children.
#[derive(Drop)]
pub(crate) struct SideLines {
    lines: Vec<SideLine>,
}

/// The socket of a child, and the device that it describes.
#[derive(Drop)]
pub(crate) struct SideLine {
    job: JobId,
    device: Device,
    // None once no further client is accepted.
    listener: Option<UnixListener>,
    clients: Vec<SideClient>,
    // The number of clients that may still connect.
    left: u32,
    // Whether something has arrived in this turn.
    busy: bool,
}

// A client, and the answers that it has not taken yet.
#[derive(Drop)]
struct SideClient {
    stream: UnixStream,
    session: Session,
    unsent: Vec<u8>,
    // The number of these bytes that were taken.
    sent: usize,
    // For how many milliseconds none was taken.
    waited: u64,
    gone: bool,
}

// The result of polling a client.
#[derive(Clone, Copy, PartialEq, Eq)]
enum Heard {
    Nothing,
    Something,
    // The last packet ended its session.
    Last,
}

impl SideLines {
    pub fn new(alloc: Global) -> SideLines
        ensures { result.lines.items ≡ [] }
    {
        SideLines {
            lines: Vec::new(alloc),
        }
    }

    /// Reserves memory for one more channel.
    pub fn reserve(&mut self) -> Result<(), AllocError>
        ensures room { OnOk result (vec_len self.new.lines < vec_capacity self.new.lines) }
        ensures kept { self.new.lines.items ≡ self.old.lines.items }
    {
        self.lines.reserve(1)
    }

    /// Adds the channel of a child that has started.
    pub fn add(&mut self, line: SideLine)
        requires { vec_len self.old.lines < vec_capacity self.old.lines }
        ensures { self.new.lines.items ≡ self.old.lines.items ++ line ∷ [] }
    {
        self.lines.push_reserved(line);
    }

    /// Returns whether no channel has a client or accepts one.
    pub fn are_closed(&self) -> bool
        ensures { result ≡ list_all is_closed self.now.lines.items }
    {
        self.lines.iter().all(|line| line.is_closed())
    }

    /// Closes the channel of this job's child, which has ended.
    pub fn close(&mut self, job: JobId) {
        self.lines.retain(|line| line.job != job);
    }

    /// Gives the channels a turn, `since` milliseconds after the last one. Returns whether something has arrived.
    pub fn serve(&mut self, rt: &HostRuntime, since: u64) -> bool {
        if !self.poll(rt.alloc(), since) {
            return false;
        }
        if let Ok(start) = Instant::now(rt) {
            self.poll_more(rt, start);
        }
        true
    }

    // Polls the channels on which something has arrived, as long as the turn that began at `start` goes on.
    fn poll_more(&mut self, rt: &HostRuntime, start: Instant) {
        let mut quiet = 0;
        for polls in 0..=MOST_POLLS {
            let Ok(passed) = start.elapsed(rt) else {
                return;
            };
            if !goes_on(polls, passed.as_micros(), quiet) {
                return;
            }
            if self.poll_busy(rt.alloc()) {
                quiet = 0;
            } else {
                quiet += 1;
                thread::sleep(rt, Duration::from_micros(NAP));
            }
        }
    }

    // Polls each channel, as the first poll of a turn. Returns whether something has arrived.
    fn poll(&mut self, alloc: Global, since: u64) -> bool {
        let mut heard = false;
        for line in &mut self.lines {
            line.busy = line.serve(alloc, since);
            heard = heard || line.busy;
        }
        heard
    }

    // Polls the channels on which something has arrived in this turn. Returns whether something has arrived now.
    fn poll_busy(&mut self, alloc: Global) -> bool {
        let mut heard = false;
        for line in &mut self.lines {
            if line.busy && line.serve(alloc, 0) {
                heard = true;
            }
        }
        heard
    }
}

impl SideLine {
    /// Makes the socket of this job's child, which only its owner may use. A file that a crash left under this name is
    /// removed first.
    pub fn bind(rt: &HostRuntime, path: &str, job: JobId, device: Device) -> io::Result<SideLine>
        ensures device { IfOk result (λ line. line.device ≡ device) }
        ensures job { IfOk result (λ line. line.job ≡ job) }
        ensures clients { IfOk result (λ line. IsSome line.listener × (line.clients.items ≡ []) × (line.left ≡ 256)) }
    {
        remove_if_there(rt, Path::new(path))?;
        let listener = UnixListener::bind(rt, path)?;
        fs::set_permissions(rt, path, Permissions::from_mode(0o600))?;
        listener.set_nonblocking(true)?;
        Ok(SideLine {
            job,
            device,
            listener: Some(listener),
            clients: Vec::new(rt.alloc()),
            left: MOST_CLIENTS,
            busy: false,
        })
    }

    fn is_closed(&self) -> bool
        ensures { result ≡ is_closed self.now }
    {
        self.listener.is_none() && self.clients.is_empty()
    }

    // Accepts the clients that have connected, and answers their requests. Returns whether something has arrived.
    fn serve(&mut self, alloc: Global, since: u64) -> bool {
        let came = self.take_clients(alloc);
        let heard = self.hear(since);
        self.clients.retain(|client| !client.gone);
        came || heard
    }

    fn take_clients(&mut self, alloc: Global) -> bool {
        let mut came = false;
        for _ in self.clients.len()..MOST_AT_ONCE {
            match self.take_client(alloc) {
                Ok(()) => came = true,
                Err(_) => return came,
            }
        }
        came
    }

    // Accepts a client. An error means that there is none, or that it was lost.
    fn take_client(&mut self, alloc: Global) -> io::Result<()> {
        let stream = match &self.listener {
            Some(listener) => accepted(listener)?,
            None => return Err(io::Error::from(ErrorKind::WouldBlock)),
        };
        self.clients.push(SideClient::new(alloc, stream))?;
        self.left = self.left.saturating_sub(1);
        if self.left == 0 {
            self.listener = None;
        }
        Ok(())
    }

    // Answers the clients' requests, and closes the channel if a client sent the last packet. Returns whether something
    // has arrived.
    fn hear(&mut self, since: u64) -> bool {
        let mut heard = Heard::Nothing;
        for client in &mut self.clients {
            match client.look(&self.device, since) {
                Heard::Nothing => {}
                Heard::Something if heard == Heard::Last => {}
                some => heard = some,
            }
        }
        if heard == Heard::Last {
            self.listener = None;
            self.clients.clear();
        }
        heard != Heard::Nothing
    }
}

// Returns whether a turn goes on after this number of polls and this time in microseconds, if nothing has arrived in the
// last `quiet` polls.
fn goes_on(polls: u32, passed: u128, quiet: u32) -> bool
    ensures { IsTrue result ↔ ((polls < 512) × (passed < 1000) × (quiet < 3)) }
{
    polls < MOST_POLLS && passed < LONGEST_TURN && quiet < MOST_QUIET
}

// Returns a client that has connected.
fn accepted(listener: &UnixListener) -> io::Result<UnixStream> {
    let (stream, _) = listener.accept()?;
    stream.set_nonblocking(true)?;
    Ok(stream)
}

impl SideClient {
    fn new(alloc: Global, stream: UnixStream) -> SideClient {
        SideClient {
            stream,
            session: Session::new(),
            unsent: Vec::new(alloc),
            sent: 0,
            waited: 0,
            gone: false,
        }
    }

    // Sends the answers that the client has not taken. If there are none, reads its requests and answers them.
    fn look(&mut self, device: &Device, since: u64) -> Heard {
        if !self.unsent.is_empty() {
            return self.send(since);
        }
        let mut piece = [0u8; PIECE];
        match self.stream.read(&mut piece) {
            Ok(count) if 0 < count => self.answer(&piece[..count], device),
            Err(error) if may_pass(&error) => Heard::Nothing,
            _ => self.leave(),
        }
    }

    fn answer(&mut self, piece: &[u8], device: &Device) -> Heard {
        let last = match answer_all(&mut self.session, piece, device, &mut self.unsent) {
            Ok(last) => last,
            Err(_) => return self.leave(),
        };
        if !self.unsent.is_empty() {
            self.send(0);
        }
        if last { Heard::Last } else { Heard::Something }
    }

    fn send(&mut self, since: u64) -> Heard {
        match self.stream.write(left_of(&self.unsent, self.sent)) {
            Ok(count) if 0 < count => self.pass(count),
            Err(error) if may_pass(&error) => self.wait(since),
            _ => self.leave(),
        }
    }

    // Notes that the client took `count` bytes.
    fn pass(&mut self, count: usize) -> Heard
        ensures heard { result ≡ Heard.Something }
        ensures all { length self.old.unsent.items ≤ self.old.sent + count → (self.new.unsent.items ≡ []) × (self.new.sent ≡ 0) × (self.new.waited ≡ 0) }
        ensures part { self.old.sent + count < length self.old.unsent.items → self.new ≡ record self.old { waited = 0; sent = self.old.sent + count } }
    {
        self.waited = 0;
        self.sent = self.sent.saturating_add(count);
        if self.unsent.len() <= self.sent {
            self.unsent.clear();
            self.sent = 0;
        }
        Heard::Something
    }

    fn wait(&mut self, since: u64) -> Heard
        ensures lost { 2000 < self.old.waited + since → (result ≡ Heard.Something) × (self.new.gone ≡ true) }
        ensures kept { self.old.waited + since ≤ 2000 → (result ≡ Heard.Nothing) × (self.new ≡ record self.old { waited = self.old.waited + since }) }
    {
        self.waited = self.waited.saturating_add(since);
        if PATIENCE < self.waited {
            return self.leave();
        }
        Heard::Nothing
    }

    // Notes that the client is lost or has disconnected.
    fn leave(&mut self) -> Heard
        ensures { (result ≡ Heard.Something) × (self.new ≡ record self.old { gone = true }) }
    {
        self.gone = true;
        Heard::Something
    }
}

// Returns the bytes after the first `sent`.
fn left_of(bytes: &[u8], sent: usize) -> &[u8]
    ensures { result.now ≡ drop sent bytes.now }
{
    if sent < bytes.len() {
        &bytes[sent..]
    } else {
        &[]
    }
}

// Returns whether a call on a socket would wait, or was interrupted.
fn may_pass(error: &io::Error) -> bool
    ensures { result ≡ may_pass (error_kind error.now) }
{
    matches!(error.kind(), ErrorKind::WouldBlock | ErrorKind::Interrupted)
}

// Writes the answers to the requests that end in a piece. Returns whether the session has ended.
fn answer_all(
    session: &mut Session,
    piece: &[u8],
    device: &Device,
    answers: &mut Vec<u8>,
) -> Result<bool, SideFault>
    ensures { AnswersPiece device.now session.old session.new piece.now answers.old.items answers.new.items result }
{
    let mut rest = piece;
    'requests: loop {
        match session.feed(rest, device) {
            Fed::Answer { count, answer } => match answer.write(answers) {
                Ok(()) => rest = &rest[count..],
                Err(fault) => return Err(fault),
            },
            Fed::Wants => return Ok(false),
            Fed::End { .. } => return Ok(true),
        }
    }
}
