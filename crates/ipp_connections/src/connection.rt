//! One connection to a client, as requests and their bodies.
ghost use Rattle.std.specs.Prelude.{◌≡◌, ◌≤◌, ◌<◌, ◌↔◌, ◌==◌, ◌++◌, [], drop, length, map, min, not, take, true, false, IfOk, IsTrue, OnErr, OnOk};
ghost use Rattle.http1.specs.Server.{IsReadWithin};
ghost use Rattle.ipp_connections.specs.HeadParts.{IsOwn, is_head_method, piece};

use crate::heads::{field, fields_of, given, has_length, host_text, is_local, piece_of, text_of};
use http_requests::{HttpStatus, RequestHead, Route, route_of};
use http1::{BodySize, Event, Limits, Progress, Server};
use httparse::spans::{EMPTY_HEADER_SPAN, HeaderSpan, RequestSpans, Span};
use ipp_access::Place;
use ipp_sockets::Outgoing;
use std::alloc::{AllocError, Global};
use std::mem;

// No more of a body is read while so many of its bytes wait. It is the length of the longest message.
const MOST_BODY: usize = 65_536;

// No more of a document is received from this number of waiting bytes. One more read fills a piece for the service.
const MOST_DOCUMENT: usize = 49_153;

// No more is received while so many bytes wait to be read as requests.
const MOST_INPUT: usize = 65_536;

const MOST_HEADERS: usize = 64;

/// The next part of a client's input.
#[derive(Drop)]
pub enum Came {
    /// More bytes are needed.
    Nothing,
    /// The head of a request.
    Head(Asked),
    /// Bytes of the body, or its end.
    Body,
    /// The connection cannot go on, with this status.
    Fault(u16),
}

/// The request that a head begins.
#[derive(Drop)]
pub struct Asked {
    pub route: Result<Route, HttpStatus>,
    pub target: String,
    /// The host by which the client reaches the server, as it is named in URIs.
    pub host: String,
}

/// An answer of HTTP.
#[derive(Clone, Copy)]
pub struct Answer<'a> {
    pub status: u16,
    pub phrase: &'a str,
    pub media: &'a str,
    /// Whether the connection ends after it.
    pub closes: bool,
    pub content: &'a [u8],
}

/// A connection between the sockets and the front.
#[derive(Drop)]
pub struct Http {
    server: Server,
    input: Vec<u8>,
    body: Vec<u8>,
    // Whether the body has ended.
    ended: bool,
    // Whether the message at the beginning of the body is dropped, so that a document follows.
    has_document: bool,
    // Whether the method of the request is HEAD.
    is_head: bool,
    output: Outgoing,
    ghost bounded_input: { length input.items ≤ 81919 },
    ghost bounded_body: { length body.items ≤ 147454 },
}

impl Http {
    ghost use Rattle.ipp_connections.specs.ConnectionBytes.{HasRoom, IsBounded, answers_of, body_of, most_received, most_waiting};
    ghost use Rattle.ipp_connections.specs.ConnectionSteps.{Appends, IsPartFor, IsUnanswered, Pulls, after_cut, after_read, answered, first_state, is_closed, skipped, skipped_count, state_of, wanted, with_content, with_head};

    /// A connection before its first request.
    pub fn new(alloc: Global) -> Http
        ensures { state_of result ≡ first_state }
    {
        Http {
            server: Server::new(Limits::default()),
            input: Vec::new(alloc),
            body: Vec::new(alloc),
            ended: true,
            has_document: false,
            is_head: false,
            output: Outgoing::new(alloc),
        }
    }

    /// Returns whether no answer is possible any more.
    #[tactic(auto, using(crate::proofs::Closings::closed_is))]
    pub fn is_closed(&self) -> bool
        ensures { result ≡ is_closed (state_of self.now) }
    {
        self.server.is_closed()
    }

    /// Returns whether the body of the request has ended.
    pub fn has_ended(&self) -> bool
        ensures { result ≡ (state_of self.now).ended }
    {
        self.ended
    }

    /// Returns the part of the body that waits.
    pub fn body(&self) -> &[u8]
        ensures body { result.now ≡ body_of self.now }
        ensures bounded { IsBounded self.now }
    {
        self.body.as_slice()
    }

    /// Returns whether bytes wait to be read as requests.
    pub fn has_input(&self) -> bool
        ensures { result ≡ not (length (state_of self.now).input == 0) }
    {
        !self.input.is_empty()
    }

    /// Returns whether more bytes may be received.
    pub fn has_room(&self) -> bool
        ensures { IsTrue result ↔ HasRoom self.now }
    {
        self.input.len() < MOST_INPUT && self.body.len() < self.most_waiting()
    }

    // Returns how many bytes of the body may wait while more are received.
    fn most_waiting(&self) -> usize
        ensures { result ≡ most_waiting self.now.has_document }
    {
        if self.has_document {
            MOST_DOCUMENT
        } else {
            MOST_BODY
        }
    }

    /// Returns whether an answer waits to be written.
    pub fn has_output(&self) -> bool
        ensures { result ≡ not (length (answers_of self.now) == 0) }
    {
        !self.output.is_empty()
    }

    /// Returns the bytes of answers that wait to be written.
    pub fn output(&self) -> &[u8]
        ensures { result.now ≡ answers_of self.now }
    {
        self.output.rest()
    }

    /// Notes that so many bytes of answers are written.
    pub fn note_written(&mut self, count: usize)
        requires { count ≤ length (answers_of self.old) }
        ensures { state_of self.new ≡ record (state_of self.old) { answers = drop count (answers_of self.old) } }
    {
        self.output.advance(count);
    }

    /// Drops the answers that wait.
    pub fn drop_output(&mut self)
        ensures { state_of self.new ≡ record (state_of self.old) { answers = [] } }
    {
        self.output.clear();
    }

    /// Takes bytes that have come. An error takes none.
    pub fn receive(&mut self, bytes: &[u8]) -> Result<(), AllocError>
        requires room { HasRoom self.old }
        requires piece { length bytes.now ≤ most_received }
        ensures ok { OnOk result (state_of self.new ≡ record (state_of self.old) { input = (state_of self.old).input ++ bytes.now }) }
        ensures err { OnErr result (state_of self.new ≡ state_of self.old) }
        ensures bounded { IsBounded self.new }
    {
        self.input.extend_from_slice(bytes)
    }

    /// Drops the bytes that wait, and returns their number.
    pub fn skip(&mut self) -> usize
        ensures value { result ≡ skipped_count (state_of self.old) }
        ensures after { state_of self.new ≡ skipped (state_of self.old) }
    {
        let count = self.body.len();
        self.body.clear();
        if !self.is_closed() {
            return count;
        }
        let more = self.input.len();
        self.input.clear();
        count + more
    }

    /// Reads the next part of the input. `names` are the names of this machine.
    ///
    /// # Errors
    ///
    /// Out of memory: the connection cannot go on.
    pub fn pull(
        &mut self,
        alloc: Global,
        names: &[Vec<u8>],
        place: Place,
    ) -> Result<Came, AllocError>
        // While 64 KiB of a body wait, nothing more is read.
        ensures full { 65536 ≤ length (body_of self.old) → IfOk result (λ part. (part ≡ Came.Nothing) × (state_of self.new ≡ state_of self.old)) }
        ensures read { length (body_of self.old) < 65536 → IfOk result (λ part. Pulls (map (λ name. name.items) names.now) place (state_of self.old) part (state_of self.new)) }
        ensures bounded { IsBounded self.new }
        ensures err { OnErr result (answers_of self.new ≡ answers_of self.old) }
    {
        if self.body.len() >= MOST_BODY {
            return Ok(Came::Nothing);
        }
        let mut headers = [EMPTY_HEADER_SPAN; MOST_HEADERS];
        match self.server.read(self.input.as_slice(), &mut headers) {
            Ok(read) => self.take(alloc, names, place, read, &headers),
            Err(error) => Ok(Came::Fault(error.status())),
        }
    }

    // Takes the event that was read. Its bytes leave the input.
    fn take(
        &mut self,
        alloc: Global,
        names: &[Vec<u8>],
        place: Place,
        read: Progress<RequestSpans>,
        headers: &[HeaderSpan],
    ) -> Result<Came, AllocError>
        requires room { length (body_of self.old) < 65536 }
        requires consumed { read.consumed ≤ length (state_of self.old).input }
        requires within { IsReadWithin (state_of self.old).input headers.now read }
        ensures part { IfOk result (IsPartFor (map (λ name. name.items) names.now) place (state_of self.old).input headers.now read.event) }
        ensures after { OnOk result (state_of self.new ≡ after_read (state_of self.old) read) }
        ensures err { OnErr result (answers_of self.new ≡ answers_of self.old) }
    {
        let came = match read.event {
            Event::Head(head) => {
                self.begin(head.method);
                let fields = &headers[..head.headers];
                Came::Head(self.asked(alloc, names, place, (head.method, head.path), fields)?)
            }
            Event::Data(span) => {
                let data = piece_of(self.input.as_slice(), span);
                self.body.extend_from_slice(data)?;
                Came::Body
            }
            Event::End(_) => {
                self.ended = true;
                Came::Body
            }
            _ => Came::Nothing,
        };
        self.input.drain(..read.consumed);
        Ok(came)
    }

    // Begins a request with this method.
    fn begin(&mut self, method: Span)
        ensures { state_of self.new ≡ record (state_of self.old) { is_head = is_head_method (piece (state_of self.old).input method); ended = false; has_document = false; body = [] } }
    {
        self.is_head = piece_of(self.input.as_slice(), method) == b"HEAD".as_slice();
        self.ended = false;
        self.has_document = false;
        self.body.clear();
    }

    // Returns the request of a head.
    fn asked(
        &self,
        alloc: Global,
        names: &[Vec<u8>],
        place: Place,
        line: (Span, Span),
        fields: &[HeaderSpan],
    ) -> Result<Asked, AllocError>
        ensures { IfOk result (λ asked. asked.route ≡ Ok Route.Operation → IsOwn (map (λ name. name.items) names.now) place (state_of self.now).input fields.now) }
    {
        let input = self.input.as_slice();
        Ok(Asked {
            route: self.route(names, place, line, fields),
            target: String::from_str(alloc, text_of(piece_of(input, line.1)))?,
            host: host_text(alloc, field(input, fields, b"host"), is_local(place))?,
        })
    }

    // Returns the route of a head. A message of IPP is read only if it is meant for this machine.
    fn route(
        &self,
        names: &[Vec<u8>],
        place: Place,
        line: (Span, Span),
        fields: &[HeaderSpan],
    ) -> Result<Route, HttpStatus>
        ensures { result ≡ Ok Route.Operation → IsOwn (map (λ name. name.items) names.now) place (state_of self.now).input fields.now }
    {
        let input = self.input.as_slice();
        let local = is_local(place);
        let host = field(input, fields, b"host");
        let media = field(input, fields, b"content-type");
        let words = text_of(media);
        let head = RequestHead {
            method: piece_of(input, line.0),
            target: text_of(piece_of(input, line.1)),
            host,
            content_type: words,
            has_body: has_length(input, fields),
            is_coded: self.server.has_codings(),
            is_local: local,
        };
        route_of(names, head)
    }

    /// Asks the client for the body, if it waits for that. An error asks for nothing.
    pub fn want_body(&mut self) -> Result<(), AllocError>
        ensures ok { OnOk result (state_of self.new ≡ wanted (state_of self.old)) }
        ensures err { OnErr result (IsUnanswered (state_of self.old) (state_of self.new)) }
    {
        if self.server.expects_continue() && !self.ended {
            let mut text = Vec::new(*self.input.allocator());
            given(
                self.server
                    .write_informational(&mut text, 100, b"Continue", &[]),
            )?;
            self.output.push(text.as_slice())?;
        }
        Ok(())
    }

    /// Notes that the client sends nothing more, or that it is not waited for. A request that is not whole can be answered then.
    pub fn cut(&mut self)
        ensures { state_of self.new ≡ after_cut (state_of self.old) }
    {
        let _ = self.server.read_eof(self.input.as_slice());
    }

    /// Answers the request. An error appends nothing.
    pub fn answer(&mut self, answer: Answer<'_>) -> Result<(), AllocError>
        ensures ok { OnOk result (state_of self.new ≡ answered (state_of self.old) answer.entry) }
        ensures err { OnErr result (IsUnanswered (state_of self.old) (state_of self.new)) }
    {
        let mut text = Vec::new(*self.input.allocator());
        self.write_head(&mut text, answer)?;
        self.write_content(&mut text, answer.content)?;
        given(self.server.write_end(&mut text, &[]))?;
        self.output.push(text.as_slice())
    }

    // Appends the head of an answer to a text.
    fn write_head(&mut self, text: &mut Vec<u8>, answer: Answer<'_>) -> Result<(), AllocError>
        ensures ok { OnOk result (Appends text.old.items (with_head (state_of self.old).server answer.entry) text.new.items (state_of self.new).server) }
        ensures kept { IsUnanswered (state_of self.old) (state_of self.new) }
    {
        let fields = fields_of(answer.media);
        let size = BodySize::Known(answer.content.len() as u64);
        let phrase = answer.phrase.as_bytes();
        let headers = if answer.closes {
            &fields[..]
        } else {
            &fields[1..]
        };
        given(
            self.server
                .write_response(text, answer.status, phrase, headers, size),
        )
    }

    // Appends the content of an answer to a text. The answer to HEAD has none.
    fn write_content(&mut self, text: &mut Vec<u8>, content: &[u8]) -> Result<(), AllocError>
        ensures ok { OnOk result (Appends text.old.items (with_content (state_of self.old).is_head (state_of self.old).server content.now) text.new.items (state_of self.new).server) }
        ensures kept { IsUnanswered (state_of self.old) (state_of self.new) }
    {
        if self.is_head || content.is_empty() {
            return Ok(());
        }
        given(self.server.write_data(text, content))
    }

    /// Takes up to this many bytes from the beginning of the body. An error takes nothing.
    pub fn take_body(&mut self, alloc: Global, most: usize) -> Result<Vec<u8>, AllocError>
        ensures taken { IfOk result (λ taken. taken.items ≡ take (min (length (body_of self.old)) most) (body_of self.old)) }
        ensures rest { OnOk result (state_of self.new ≡ record (state_of self.old) { body = drop (min (length (body_of self.old)) most) (body_of self.old) }) }
        ensures err { OnErr result (state_of self.new ≡ state_of self.old) }
    {
        let count = self.body.len();
        if count <= most {
            let next = Vec::with_capacity(alloc, count)?;
            return Ok(mem::replace(&mut self.body, next));
        }
        let taken = Vec::from_slice(alloc, &self.body[..most])?;
        self.body.drain(..most);
        Ok(taken)
    }

    /// Drops up to this many bytes from the beginning of the body, those of the message. A document follows.
    pub fn drop_body(&mut self, count: usize)
        ensures { state_of self.new ≡ record (state_of self.old) { body = drop (min (length (body_of self.old)) count) (body_of self.old); has_document = true } }
    {
        let count = self.body.len().min(count);
        self.body.drain(..count);
        self.has_document = true;
    }
}
