//! One connected client: its request, from the head to the answer.
ghost use Rattle.std.specs.Prelude.{◌≡◌, ◌≢◌, true};

use crate::pages::{Shown, ShownPage};
use crate::shared::{Shared, UNAVAILABLE};
use http_requests::{Page, Route};
use ipp_codec::{DecodeFault, decode};
use ipp_connections::{Answer, Asked, Came, Http};
use ipp_names::Status;
use ipp_printing::PrintingJob;
use ipp_sockets::{Stream, Tag, Times};
use ipp_tasks::{Begun, Caller, Header, Outcome, Task, answer, begin};
use ipp_values::{Group, Message};
use service_client::Reply;
use std::alloc::{AllocError, Global};
use std::io::ErrorKind;
use std::mem;

// How long a client may be idle, or send or take nothing within a request, in milliseconds.
const IDLE: u64 = 60_000;

// How long the head of a request may take, in milliseconds.
const SLOWEST_HEAD: u64 = 10_000;

// How long the rest of a body is dropped after the last answer, in milliseconds.
const LINGER: u64 = 2_000;

// The most commands of a request that are sent together.
const MOST_TOGETHER: usize = 3;

// The most bytes of the rest of a body that are dropped.
const MOST_SKIPPED: usize = 262_144;

/// The state of a client's request.
#[derive(Drop)]
enum State {
    /// The head of the next request is awaited.
    Idle,
    /// The message is awaited.
    Message(Asked),
    /// The page waits for the service.
    Showing(Shown),
    Working(Task),
    /// The request is answered, and so many bytes of the rest of its body were dropped.
    Skipping(usize),
}

/// A connected client.
#[derive(Drop)]
pub struct Client<S: Stream> {
    stream: S,
    http: Http,
    state: State,
    serial: u64,
    // When it made progress last.
    since: u64,
    readable: bool,
    // Whether the peer has closed its side.
    has_closed: bool,
    ends: bool,
}

impl<S: Stream> Client<S> {
    /// A client that has just connected.
    pub fn new(alloc: Global, stream: S, serial: u64, millis: u64) -> Client<S> {
        Client {
            stream,
            http: Http::new(alloc),
            state: State::Idle,
            serial,
            since: millis,
            readable: true,
            has_closed: false,
            ends: false,
        }
    }

    /// Notes that bytes may have come.
    pub fn note_ready(&mut self)
        ensures { self.new ≡ record self.old { readable = true } }
    {
        self.readable = true;
    }

    /// Returns whether the client can be dismissed.
    pub fn is_over(&self) -> bool {
        self.ends && !self.http.has_output()
    }

    /// Returns since when the client has no request, if it has none. A client from which more can be read may have one.
    pub fn idle_since(&self) -> Option<u64> {
        let idle = matches!(self.state, State::Idle) && !self.readable;
        if idle && !self.http.has_input() && !self.http.has_output() {
            Some(self.since)
        } else {
            None
        }
    }

    /// Disconnects the client. Returns its job, if it has one that may be given up.
    pub fn dismiss(self) -> Option<PrintingJob> {
        job_in(self.state)
    }

    /// Gives the client a turn. Returns whether it made progress.
    pub fn serve<T: Times>(&mut self, shared: &mut Shared<S>, key: usize, times: &mut T) -> bool {
        match self.drive(shared, key, times) {
            Ok(progress) => progress,
            Err(AllocError) => {
                self.fail();
                true
            }
        }
    }

    // Without memory the client gets a fixed answer.
    fn fail(&mut self) {
        if !self.http.has_output() {
            let _ = self.stream.write(UNAVAILABLE);
        }
        self.http.drop_output();
        self.ends = true;
    }

    fn drive<T: Times>(
        &mut self,
        shared: &mut Shared<S>,
        key: usize,
        times: &mut T,
    ) -> Result<bool, AllocError> {
        let mut progress = self.write_some();
        progress |= self.read_some()?;
        if self.ends {
            return Ok(progress);
        }
        progress |= self.pull_some(shared)?;
        progress |= self.work(shared, times)?;
        self.send_all(shared, key)?;
        progress |= self.write_some();
        self.note_time(shared, progress)?;
        Ok(progress)
    }

    // ## Times

    // Ends a client that has made no progress for too long. A request that has begun is answered.
    fn note_time(&mut self, shared: &mut Shared<S>, progress: bool) -> Result<(), AllocError> {
        if progress && !self.is_within_head() {
            self.since = shared.millis;
        }
        if shared.millis <= self.since.saturating_add(self.limit()) {
            return Ok(());
        }
        if self.is_between() || self.http.has_output() {
            self.http.drop_output();
            self.ends = true;
            return Ok(());
        }
        self.since = shared.millis;
        self.cut(shared, 408, "Request Timeout")
    }

    // Returns whether no request is open: none has begun, or the last one is answered.
    fn is_between(&self) -> bool {
        match self.state {
            State::Idle => !self.http.has_input(),
            State::Skipping(_) => true,
            _ => false,
        }
    }

    fn is_within_head(&self) -> bool {
        matches!(self.state, State::Idle) && self.http.has_input()
    }

    // Returns how long this state may last without progress.
    fn limit(&self) -> u64 {
        if self.http.has_output() {
            return IDLE;
        }
        match &self.state {
            State::Idle if self.http.has_input() => SLOWEST_HEAD,
            State::Skipping(_) if self.http.is_closed() => LINGER,
            State::Idle | State::Message(_) | State::Skipping(_) => IDLE,
            State::Working(task) if task.waits_for_body() => IDLE,
            State::Working(_) | State::Showing(_) => u64::MAX,
        }
    }

    // ## The request

    // Reads the next part of the request, and what follows it: the end of a body comes with its last bytes.
    fn pull_some(&mut self, shared: &mut Shared<S>) -> Result<bool, AllocError> {
        let progress = self.pull(shared)?;
        if progress && !self.http.has_ended() {
            self.pull(shared)?;
        }
        Ok(progress)
    }

    // Reads the next part of the request.
    fn pull(&mut self, shared: &mut Shared<S>) -> Result<bool, AllocError> {
        if matches!(self.state, State::Idle) && self.http.has_output() {
            return Ok(false);
        }
        let place = self.stream.place();
        let came = self
            .http
            .pull(shared.alloc, shared.world.names.as_slice(), place)?;
        match came {
            Came::Nothing => self.note_end(shared),
            Came::Head(asked) => {
                self.since = shared.millis;
                self.begin(shared, asked)?;
                Ok(true)
            }
            Came::Body => Ok(true),
            Came::Fault(status) => {
                self.fault(shared, status)?;
                Ok(true)
            }
        }
    }

    // The connection cannot go on. A request that is open is answered.
    fn fault(&mut self, shared: &mut Shared<S>, status: u16) -> Result<(), AllocError> {
        if matches!(self.state, State::Skipping(_)) {
            self.ends = true;
            return Ok(());
        }
        self.refuse(shared, status, phrase_of(status))
    }

    // A request that the peer has cut off is answered.
    fn note_end(&mut self, shared: &mut Shared<S>) -> Result<bool, AllocError> {
        if !self.has_closed {
            return Ok(false);
        }
        if self.is_between() {
            self.ends = true;
            return Ok(false);
        }
        if self.waits_for_client() {
            self.cut(shared, 400, "Bad Request")?;
            return Ok(true);
        }
        Ok(false)
    }

    // Returns whether the request cannot go on before more of it has come.
    fn waits_for_client(&self) -> bool {
        match &self.state {
            State::Idle => self.http.has_input(),
            State::Message(_) => true,
            State::Working(task) => task.waits_for_body() && !self.http.has_ended(),
            State::Showing(_) | State::Skipping(_) => false,
        }
    }

    fn begin(&mut self, shared: &mut Shared<S>, asked: Asked) -> Result<(), AllocError> {
        match asked.route {
            Ok(Route::Operation) => {
                self.http.want_body()?;
                self.state = State::Message(asked);
                Ok(())
            }
            Ok(Route::Methods) => self.answer(200, "OK", "text/plain", b""),
            Ok(Route::Show(Page::Icon)) => {
                self.answer(404, "Not Found", "text/plain", b"There is no icon.\n")
            }
            Ok(Route::Show(page)) => {
                let shown = Shown::new(shared.alloc, page, asked.target.as_str())?;
                self.state = State::Showing(shown);
                Ok(())
            }
            Err(status) => {
                let phrase = status.phrase();
                self.answer(status.number(), phrase, "text/plain", phrase.as_bytes())
            }
        }
    }

    // Goes on with the request.
    fn work<T: Times>(
        &mut self,
        shared: &mut Shared<S>,
        times: &mut T,
    ) -> Result<bool, AllocError> {
        match self.state {
            State::Idle | State::Showing(_) => Ok(false),
            State::Message(_) => self.read_message(shared, times),
            State::Working(_) => self.go_on(shared),
            State::Skipping(count) => {
                let count = count.saturating_add(self.http.skip());
                self.state = State::Skipping(count);
                self.skipped(count);
                Ok(false)
            }
        }
    }

    fn go_on(&mut self, shared: &mut Shared<S>) -> Result<bool, AllocError> {
        let before = self.has_command();
        let outcome = match &mut self.state {
            State::Working(task) => task.go_on(shared.alloc, &mut self.http)?,
            _ => Outcome::Going,
        };
        match outcome {
            Outcome::Going => Ok(!before && self.has_command()),
            Outcome::Done(status, groups) => {
                self.finish(shared, status, groups)?;
                Ok(true)
            }
        }
    }

    fn has_command(&self) -> bool {
        match &self.state {
            State::Working(task) => task.has_command(),
            _ => false,
        }
    }

    // Ends the request once its body is read away.
    fn skipped(&mut self, count: usize) {
        if count > MOST_SKIPPED {
            self.ends = true;
        } else if self.http.has_ended() {
            if self.http.is_closed() {
                self.ends = true;
            } else {
                self.state = State::Idle;
            }
        }
    }

    fn read_message<T: Times>(
        &mut self,
        shared: &mut Shared<S>,
        times: &mut T,
    ) -> Result<bool, AllocError> {
        let alloc = shared.alloc;
        match decode(alloc, self.http.body()) {
            Ok((message, count)) => {
                let begun = self.begun(shared, times, &message)?;
                drop(message);
                self.http.drop_body(count);
                self.go(alloc, begun)?;
                Ok(true)
            }
            Err(DecodeFault::NeedMore) if !self.http.has_ended() => Ok(false),
            Err(DecodeFault::Memory) => Err(AllocError),
            Err(DecodeFault::TooLarge) => self.refused(shared, 413, "Content Too Large"),
            Err(DecodeFault::NeedMore) => self.refused(shared, 400, "Bad Request"),
            Err(_) => {
                let header = Header::of_octets(self.http.body());
                self.reply(alloc, header, Status::BadRequest, Vec::new(alloc))?;
                Ok(true)
            }
        }
    }

    fn begun<T: Times>(
        &mut self,
        shared: &mut Shared<S>,
        times: &mut T,
        message: &Message,
    ) -> Result<Begun, AllocError> {
        let Some(token) = times.token()? else {
            let groups = Vec::new(shared.alloc);
            return Ok(Begun::Answer(Header::of(message), Status::InternalError, groups));
        };
        let host = self.host(shared.alloc)?;
        let caller = Caller {
            host: host.as_str(),
            place: self.stream.place(),
            digits: token.as_str(),
        };
        begin(
            shared.alloc,
            &shared.world,
            message,
            &mut shared.parked,
            caller,
        )
    }

    // Returns the host by which the client reaches the server.
    fn host(&self, alloc: Global) -> Result<String, AllocError> {
        match &self.state {
            State::Message(asked) => String::from_str(alloc, asked.host.as_str()),
            _ => String::from_str(alloc, "localhost"),
        }
    }

    // Goes on with a message that was read.
    fn go(&mut self, alloc: Global, begun: Begun) -> Result<(), AllocError> {
        match begun {
            Begun::Task(task) => {
                self.state = State::Working(task);
                Ok(())
            }
            Begun::Answer(header, status, groups) => self.reply(alloc, header, status, groups),
        }
    }

    // ## The service

    // Sends the commands that are not sent yet, so that they leave together.
    fn send_all(&mut self, shared: &mut Shared<S>, key: usize) -> Result<(), AllocError> {
        for _ in 0..MOST_TOGETHER {
            if !self.send(shared, key)? {
                break;
            }
        }
        Ok(())
    }

    // Sends the next command. Returns whether there is one, and a connection with room for it.
    fn send(&mut self, shared: &mut Shared<S>, key: usize) -> Result<bool, AllocError> {
        if self.unsent(shared.millis).is_none() {
            return Ok(false);
        }
        if shared.is_away() {
            self.desert(shared)?;
            return Ok(false);
        }
        let tag = Tag {
            key,
            serial: self.serial,
        };
        let sent = match self.unsent(shared.millis) {
            Some(command) => shared.link.ask(tag, command)?,
            None => false,
        };
        if sent {
            self.note_sent();
        }
        Ok(sent)
    }

    // Returns the next command that is to be sent now.
    fn unsent(&self, millis: u64) -> Option<&[u8]> {
        match &self.state {
            State::Working(task) => task.unsent(millis),
            State::Showing(shown) => shown.unsent(),
            _ => None,
        }
    }

    fn note_sent(&mut self) {
        match &mut self.state {
            State::Working(task) => task.note_sent(),
            State::Showing(shown) => shown.note_sent(),
            _ => {}
        }
    }

    /// Takes the reply to the command of the client with this number. Another client may have its place since.
    pub fn heard(&mut self, shared: &mut Shared<S>, serial: u64, reply: &Reply)
        // A reply to another client, which had this one's place, changes nothing.
        ensures { serial ≢ self.old.serial → self.new ≡ self.old }
    {
        if self.serial != serial {
            return;
        }
        self.since = shared.millis;
        if self.take_reply(shared, reply).is_err() {
            self.fail();
        }
    }

    fn take_reply(&mut self, shared: &mut Shared<S>, reply: &Reply) -> Result<(), AllocError> {
        let outcome = match &mut self.state {
            State::Working(task) => task.heard(shared.alloc, &shared.world, reply)?,
            State::Showing(_) => return self.show(shared.alloc, reply),
            _ => return Ok(()),
        };
        match outcome {
            Outcome::Going => Ok(()),
            Outcome::Done(status, groups) => self.finish(shared, status, groups),
        }
    }

    // Takes rows of a page, and answers with the page once it is whole.
    fn show(&mut self, alloc: Global, reply: &Reply) -> Result<(), AllocError> {
        let page = match &mut self.state {
            State::Showing(shown) => shown.heard(alloc, reply)?,
            _ => ShownPage::Going,
        };
        match page {
            ShownPage::Going => Ok(()),
            ShownPage::Missing => {
                self.answer(
                    404,
                    "Not Found",
                    "text/plain",
                    b"There is no such printer.\n",
                )
            }
            ShownPage::Whole(media, text) => self.answer(200, "OK", media, text.as_slice()),
        }
    }

    /// Notes that the connection was lost before the reply to a command of the client with this number. Its commands are sent again, or their
    /// effect is examined. Each of them is reported.
    pub fn lost(&mut self, alloc: Global, serial: u64)
        ensures { serial ≢ self.old.serial → self.new ≡ self.old }
    {
        if serial != self.serial {
            return;
        }
        let outcome = match &mut self.state {
            State::Working(task) => task.lost(alloc),
            State::Showing(shown) => {
                shown.lost();
                Ok(())
            }
            _ => Ok(()),
        };
        if outcome.is_err() {
            self.fail();
        }
    }

    // ## Answers

    // Answers the request with a status. A job that takes more documents waits for the next request.
    fn finish(
        &mut self,
        shared: &mut Shared<S>,
        status: Status,
        groups: Vec<Group>,
    ) -> Result<(), AllocError> {
        let state = mem::replace(&mut self.state, State::Idle);
        let State::Working(task) = state else {
            return Ok(());
        };
        let header = task.header();
        if let Some(job) = task.into_waiting() {
            shared.park(job)?;
        }
        self.reply(shared.alloc, header, status, groups)
    }

    // No service was reachable for too long.
    fn desert(&mut self, shared: &mut Shared<S>) -> Result<(), AllocError> {
        if matches!(self.state, State::Showing(_)) {
            return self.refuse(shared, 503, "Service Unavailable");
        }
        if let State::Working(task) = &mut self.state {
            task.deserted();
        }
        let groups = Vec::new(shared.alloc);
        self.finish(shared, Status::TemporaryError, groups)
    }

    // Sends an IPP answer.
    fn reply(
        &mut self,
        alloc: Global,
        header: Header,
        status: Status,
        groups: Vec<Group>,
    ) -> Result<(), AllocError> {
        let octets = answer(alloc, header, status, groups)?;
        self.answer(200, "OK", "application/ipp", octets.as_slice())
    }

    fn answer(
        &mut self,
        status: u16,
        phrase: &str,
        media: &str,
        content: &[u8],
    ) -> Result<(), AllocError> {
        self.state = State::Skipping(0);
        self.http.answer(Answer {
            status,
            phrase,
            media,
            closes: false,
            content,
        })
    }

    // Refuses the request, gives up its job, and ends the connection after the answer.
    fn refuse(
        &mut self,
        shared: &mut Shared<S>,
        status: u16,
        phrase: &str,
    ) -> Result<(), AllocError> {
        let state = mem::replace(&mut self.state, State::Skipping(0));
        if let Some(job) = job_in(state) {
            shared.give_up(job)?;
        }
        self.answer_last(status, phrase)
    }

    fn answer_last(&mut self, status: u16, phrase: &str) -> Result<(), AllocError> {
        self.http.answer(Answer {
            status,
            phrase,
            media: "text/plain",
            closes: true,
            content: phrase.as_bytes(),
        })
    }

    fn refused(
        &mut self,
        shared: &mut Shared<S>,
        status: u16,
        phrase: &str,
    ) -> Result<bool, AllocError> {
        self.refuse(shared, status, phrase)?;
        Ok(true)
    }

    // Refuses a request that is not whole, and does not wait for its rest.
    fn cut(&mut self, shared: &mut Shared<S>, status: u16, phrase: &str) -> Result<(), AllocError> {
        self.http.cut();
        self.refuse(shared, status, phrase)
    }

    /// Answers a request that is open when the program ends, and disconnects the client.
    pub fn close(&mut self) {
        if !self.is_between() {
            self.http.cut();
            if self.answer_last(503, "Service Unavailable").is_err() {
                self.fail();
            }
        }
        self.ends = true;
        self.write_some();
    }

    // ## The connection

    // Returns whether something was written.
    fn write_some(&mut self) -> bool {
        let mut progress = false;
        for _ in 0..u32::MAX {
            if !self.http.has_output() {
                return progress;
            }
            match self.stream.write(self.http.output()) {
                Ok(count) if count > 0 => {
                    self.http.note_written(count);
                    progress = true;
                }
                Err(error) if error.kind() == ErrorKind::WouldBlock => return progress,
                Err(error) if error.kind() == ErrorKind::Interrupted => {}
                _ => {
                    self.ends = true;
                    self.http.drop_output();
                    return progress;
                }
            }
        }
        progress
    }

    // Returns whether something was read.
    fn read_some(&mut self) -> Result<bool, AllocError> {
        if !self.readable || self.has_closed {
            return Ok(false);
        }
        if !self.http.has_room() {
            return Ok(false);
        }
        let mut piece = [0u8; 16_384];
        match self.stream.read(&mut piece) {
            Ok(0) => {
                self.has_closed = true;
                Ok(true)
            }
            Ok(count) => {
                self.http.receive(&piece[..count])?;
                Ok(true)
            }
            Err(error) if error.kind() == ErrorKind::WouldBlock => {
                self.readable = false;
                Ok(false)
            }
            Err(error) if error.kind() == ErrorKind::Interrupted => Ok(true),
            Err(_) => {
                self.ends = true;
                Ok(false)
            }
        }
    }
}

// Returns the job of a request that is given up, if it has one.
fn job_in(state: State) -> Option<PrintingJob> {
    match state {
        State::Working(task) => task.abandon(),
        _ => None,
    }
}

fn phrase_of(status: u16) -> &'static str {
    match status {
        400 => "Bad Request",
        408 => "Request Timeout",
        413 => "Content Too Large",
        414 => "URI Too Long",
        431 => "Request Header Fields Too Large",
        501 => "Not Implemented",
        505 => "HTTP Version Not Supported",
        _ => "Bad Request",
    }
}
