//! Submitting a document as exactly one job.
ghost use Rattle.std.specs.Prelude.{◌≡◌, ◌<◌, ◌++◌, ◌∷◌, [], ◌↔◌, ◌⊎◌, IfOk, IsSome, IsTrue, List, None, OnOk, Some, cond, drop, false, is_some, length, map, string_bytes, take, true};
ghost use Rattle.std.specs.Io.KnownBytes.{IsAtEnd};
ghost use Rattle.std.specs.Option.{option_map};
ghost use Rattle.std.specs.Str.Iter.{HasSubslice};
ghost use Rattle.front_proof.specs.Standings.{standing_of};
ghost use Rattle.spool_front.specs.FoundJobs.{found_one, may_be_own, own_job, token_of, with_job};
ghost use Rattle.spool_front.specs.SentCommands.{close_text, job_user, piece_texts, second_text};
ghost use Rattle.spool_front.specs.DocumentPieces.{is_last, piece_of, rest_of};
ghost use Rattle.service_replies.specs.ServiceReplies.{closing_reply, reply_in, shown_of};
ghost use Rattle.spool_front.specs.Submissions.{IsAnswered, IsHeard, IsLooked, IsSupplied, cause_text, denied_text, is_refusal, joined_reply, refusal_text, lost_after, one_more, was_closed};
ghost use Rattle.front_submission.specs.Service.{First, Second, last_bytes, part_of};
ghost use Rattle.front_submission.specs.SubmissionSteps.{deserted, heard, lost, unread};
ghost use Rattle.front_submission.specs.declared.step.Step.{Step};

use crate::client::{Answer, Client, pause};
use crate::commands::{
    Draft, close_line, closeat_line, create_line, find_line, hold_line, job_line, job_user,
};
use crate::connection::ConnectionFault;
use crate::document::Document;
use crate::host::Screen;
use crate::progress::progress_line;
use crate::room::lacking_text;
use front_proof::Caller;
use front_submission::{Cause, End, Found, Own, Reply, Request, Shown, Step};
use front_texts::{JobLine, JobShown, read_job_line, read_job_shown};
use refusal_sentences::sentence_of;
use service_client::send_text;
use service_replies::{closing_reply, has_reason, reply_in, shown_of};
use std::alloc::{AllocError, Global};
use std::io::Read;
use std::time::Instant;

// The greatest length of the first of two commands that send a piece, in bytes.
const MOST_SENT: usize = 65_536;

// The time after which the progress is shown, in milliseconds.
const LONG: u64 = 300;

const NO_JOBS: Found = Found {
    own: None,
    another: None,
};

/// A submission and the data for its messages.
#[derive(Drop)]
pub struct Submitting<'a> {
    rt: &'a HostRuntime,
    draft: &'a Draft,
    // The length of the document in bytes, if it is known.
    size: Option<u64>,
    screen: Screen,
    // The last refusal: the reply, or why the document was not sent.
    refusal: Option<String>,
    // Whether the submission was given up because memory ran out.
    memory: bool,
    // The number of replies that were lost or unclear since the document last made progress.
    lost: u64,
    // When the submission began, if the clock can be read.
    started: Option<Instant>,
}

impl<'a> Submitting<'a> {
    pub fn new(
        rt: &'a HostRuntime,
        draft: &'a Draft,
        size: Option<u64>,
        screen: Screen,
    ) -> Submitting<'a>
        ensures draft { result.draft.now ≡ draft.now }
        ensures size { result.size ≡ size }
        ensures screen { result.screen ≡ screen }
        ensures refusal { result.refusal ≡ None }
        ensures memory { result.memory ≡ false }
        ensures lost { result.lost ≡ 0 }
    {
        Submitting {
            rt,
            draft,
            size,
            screen,
            refusal: None,
            memory: false,
            lost: 0,
            started: Instant::now(rt).ok(),
        }
    }

    /// Returns the message that explains why the document was refused.
    pub fn cause_text(&self, cause: Cause) -> &str
        ensures { result.now ≡ cause_text self.now.draft.now self.now.refusal self.now.memory cause }
    {
        match cause {
            Cause::Declined => match &self.refusal {
                Some(text) => {
                    refusal_text(
                        self.draft.is_named,
                        self.draft.media.is_some(),
                        text.as_str(),
                    )
                }
                None => "the service refused the document",
            },
            Cause::OtherSize => "the size of the job differs from the number of bytes sent",
            Cause::EndedEarly => "the job was ended before the document was complete",
            Cause::Unreadable => "cannot read the document",
            Cause::Deserted if self.memory => "out of memory",
            Cause::Deserted => "cannot reach the service",
        }
    }

    /// Submits the document as one job and returns the outcome. Every submission ends, with a status that is correct.
    pub fn submit<S: Read + Drop>(
        &mut self,
        client: &mut Client<'_>,
        document: &mut Document<S>,
    ) -> End
        ensures { IsTrue (was_closed result) → IsAtEnd (rest_of (S.remaining document.new.source) document.new) }
    {
        let mut step = Step::start();
        for _ in 0..u64::MAX {
            if let Step::Ended { end } = step {
                return end;
            }
            step = match step.request() {
                Request::Read { size } => self.read_piece(step, document, size),
                request => self.request(client, step, request, document.piece()),
            };
        }
        ended(step)
    }

    /// Returns the queue.
    pub fn queue(&self) -> &str
        ensures { result.now ≡ string_bytes self.now.draft.now.queue }
    {
        self.draft.queue.as_str()
    }

    /// Removes the line that shows the progress.
    pub fn end_line(&self) {
        if self.screen.shows {
            let _ = eprint!(self.rt; "\r\u{1b}[K");
        }
    }

    // Shows how much was sent, unless the submission has just begun.
    fn show_progress(&self, sent: u64) {
        let millis = self.millis();
        if !self.screen.shows || millis < LONG {
            return;
        }
        if let Ok(line) = progress_line(self.rt.alloc(), sent, self.size, millis) {
            let _ = eprint!(self.rt; "\r{line}\u{1b}[K");
        }
    }

    // Returns the milliseconds since the submission began.
    fn millis(&self) -> u64 {
        let Some(started) = self.started else {
            return 0;
        };
        match started.elapsed(self.rt) {
            Ok(passed) => {
                let seconds = passed.as_secs().saturating_mul(1_000);
                seconds.saturating_add(u64::from(passed.subsec_millis()))
            }
            Err(_) => 0,
        }
    }

    fn read_piece<S: Read + Drop>(&self, step: Step, document: &mut Document<S>, size: u64) -> Step
        ensures step { IsSupplied step (length (piece_of document.new)) (is_last document.new) (is_some self.now.draft.now.hold) result }
        ensures short { (result ≡ unread step) ⊎ (length (piece_of document.new) < 131071 → is_last document.new ≡ true) }
        ensures end { (result ≡ unread step) ⊎ (is_last document.new ≡ true → IsAtEnd (rest_of (S.remaining document.new.source) document.new)) }
    {
        self.show_progress(size);
        match document.next_piece() {
            Ok(piece) => step.supplied(piece, document.is_last(), self.draft.hold.is_some()),
            Err(_) => step.unread(),
        }
    }

    // Sends one request and returns the next step. If memory runs out, the submission is given up as if no service were reachable: the
    // request may have been executed.
    fn request(
        &mut self,
        client: &mut Client<'_>,
        step: Step,
        request: Request,
        piece: &[u8],
    ) -> Step
        ensures { IsAnswered step result }
    {
        if client.patience() < self.lost || !self.is_connected(client) {
            return step.deserted();
        }
        match self.reply(client, request, piece) {
            Ok(reply) => self.after(client, step, reply),
            Err(ConnectionFault::Lost) => {
                self.wait();
                step.lost()
            }
            Err(ConnectionFault::Memory) => {
                self.memory = true;
                step.lost().deserted()
            }
        }
    }

    fn is_connected(&mut self, client: &mut Client<'_>) -> bool
        ensures connected { IsTrue result → IsSome client.new.connection }
        ensures kept { self.new ≡ record self.old { memory = self.new.memory } }
        ensures client { client.new ≡ record client.old { connection = client.new.connection } }
    {
        match client.connect() {
            Ok(connected) => connected,
            Err(_) => {
                self.memory = true;
                false
            }
        }
    }

    // Returns the step after a reply. After an unclear reply the connection is closed. A request that was put off is sent again later.
    fn after(&mut self, client: &mut Client<'_>, step: Step, reply: Reply) -> Step
        ensures step { result ≡ heard step reply }
        ensures unclear { reply ≡ Reply.Unclear → client.new.connection ≡ None }
        ensures lost { self.new ≡ record self.old { lost = lost_after self.old.lost reply } }
    {
        match reply {
            Reply::Unclear => {
                client.disconnect();
                self.wait();
            }
            Reply::Later => self.wait(),
            Reply::Created { .. } | Reply::Sent { .. } | Reply::Done => self.lost = 0,
            _ => {}
        }
        step.heard(reply)
    }

    fn wait(&mut self)
        ensures { self.new ≡ record self.old { lost = one_more self.old.lost } }
    {
        self.lost = self.lost.saturating_add(1);
        pause(self.rt);
    }

    // Sends the request and returns its reply.
    fn reply(
        &mut self,
        client: &mut Client<'_>,
        request: Request,
        piece: &[u8],
    ) -> Result<Reply, ConnectionFault> {
        let alloc = self.rt.alloc();
        match request {
            Request::Find => self.find(client),
            Request::Show { job } => self.show(client, job),
            Request::Create => self.create(client),
            Request::Send {
                job,
                size,
                piece: count,
                last,
            } => {
                let end = last.then_some(size.saturating_add(u64::from(count)));
                self.send(client, job, last_bytes(piece, count), end)
            }
            Request::Close { job } => self.order(client, &close_line(alloc, job, self.draft)?),
            Request::Cancel { job } => self.cancel(client, job),
            Request::Hold { job } => match self.draft.hold {
                Some(until) => self.order(client, &hold_line(alloc, job, until)?),
                None => Ok(Reply::Done),
            },
            Request::Read { .. } | Request::Nothing => Ok(Reply::Unclear),
        }
    }

    // Creates the job, if the spool has room for the document. Otherwise the request is put off: the service may make room meanwhile.
    fn create(&mut self, client: &mut Client<'_>) -> Result<Reply, ConnectionFault> {
        if let Some(size) = self.size {
            let answer = client.exchange(b"room\n")?;
            let lacking = lacking_text(self.rt.alloc(), size, answer.last.as_str());
            drop(answer);
            if let Some(text) = lacking? {
                self.refusal = Some(text);
                return Ok(Reply::Later);
            }
        }
        self.create_job(client)
    }

    // Creates the job. The service's name for the user may come with the reply to `create` only: if that was denied for another name, it
    // is sent again with this one.
    fn create_job(&mut self, client: &mut Client<'_>) -> Result<Reply, ConnectionFault> {
        let is_known = client.caller().is_some();
        let reply = self.create_once(client)?;
        if is_known
            || !matches!(reply, Reply::Denied)
            || job_user(self.draft, client.caller()) == self.draft.user.as_str()
        {
            return Ok(reply);
        }
        self.create_once(client)
    }

    fn create_once(&mut self, client: &mut Client<'_>) -> Result<Reply, ConnectionFault> {
        let alloc = self.rt.alloc();
        let line = create_line(alloc, self.draft, job_user(self.draft, client.caller()))?;
        self.order(client, &line)
    }

    // Sends a piece. After the last one the job is closed at once, if it then has `end` bytes.
    fn send(
        &mut self,
        client: &mut Client<'_>,
        job: u32,
        piece: &[u8],
        end: Option<u64>,
    ) -> Result<Reply, ConnectionFault> {
        let texts = piece_texts(self.rt.alloc(), self.draft, job, piece, end)?;
        let answers = client.exchange_all(&texts);
        drop(texts);
        let mut answers = answers?;
        let reply = self.reply_to_piece(&mut answers, end.is_some());
        drop(answers);
        Ok(reply)
    }

    // Returns the reply to a piece. A refusal of the close that was sent together with it is not stored: another close follows, unless the
    // piece was refused.
    fn reply_to_piece(&mut self, answers: &mut Vec<Answer>, last: bool) -> Reply
        ensures open { last ≡ false → IsHeard answers.old.items self.old.refusal result self.new.refusal }
        ensures closed { last ≡ true → (sends : List Answer) (close : Answer) → answers.old.items ≡ sends ++ close ∷ [] → (reply : Reply)
            × (result ≡ closing_reply reply (reply_in (string_bytes close.last))) × IsHeard sends self.old.refusal reply self.new.refusal }
        ensures kept { self.new ≡ record self.old { refusal = self.new.refusal } }
    {
        if !last {
            return self.reply_to_sends(answers);
        }
        let Some(answer) = answers.pop() else {
            return Reply::Unclear;
        };
        let closed = reply_in(answer.last.as_str());
        drop(answer);
        closing_reply(self.reply_to_sends(answers), closed)
    }

    // Returns the reply to a piece from those to its commands.
    fn reply_to_sends(&mut self, answers: &mut Vec<Answer>) -> Reply
        ensures heard { IsHeard answers.old.items self.old.refusal result self.new.refusal }
        ensures kept { self.new ≡ record self.old { refusal = self.new.refusal } }
    {
        let second = answers.pop();
        let first = answers.pop();
        match (first, second) {
            (Some(first), Some(second)) => {
                let first = self.reply_of(first);
                let second = self.reply_of(second);
                joined_reply(first, second)
            }
            (None, Some(only)) => self.reply_of(only),
            _ => Reply::Unclear,
        }
    }

    // Cancels the job. A refusal of `cancel` is not stored, since the message reports that of the document.
    fn cancel(&mut self, client: &mut Client<'_>, job: u32) -> Result<Reply, ConnectionFault> {
        let line = job_line(self.rt.alloc(), "cancel", job)?;
        let answer = client.exchange(line.as_slice())?;
        Ok(reply_in(answer.last.as_str()))
    }

    fn order(&mut self, client: &mut Client<'_>, line: &[u8]) -> Result<Reply, ConnectionFault> {
        let answer = client.exchange(line)?;
        Ok(self.reply_of(answer))
    }

    fn reply_of(&mut self, answer: Answer) -> Reply
        ensures reply { result ≡ reply_in (string_bytes answer.last) }
        ensures refusal { self.new ≡ record self.old { refusal = cond (is_refusal result) (Some answer.last) self.old.refusal } }
    {
        let reply = reply_in(answer.last.as_str());
        if is_refusal(reply) {
            self.refusal = Some(answer.last);
        }
        reply
    }

    // Returns the current state of a job.
    fn show(&mut self, client: &mut Client<'_>, job: u32) -> Result<Reply, ConnectionFault> {
        match self.shown(client, job)? {
            Ok(job) => {
                let shown = shown_of(&job);
                drop(job);
                Ok(Reply::Job { shown })
            }
            Err(reply) => Ok(reply),
        }
    }

    fn shown(
        &mut self,
        client: &mut Client<'_>,
        job: u32,
    ) -> Result<Result<JobShown, Reply>, ConnectionFault> {
        let alloc = self.rt.alloc();
        let line = job_line(alloc, "job", job)?;
        let answer = client.exchange(line.as_slice())?;
        if answer.rows.is_empty() {
            return Ok(Err(self.reply_of(answer)));
        }
        let text = answer.text(alloc)?;
        match read_job_shown(alloc, text.as_slice())? {
            Some(job) => Ok(Ok(job)),
            None => Ok(Err(Reply::Unclear)),
        }
    }

    // Finds the incoming job that has the token. A service that does not know `find` lists all jobs in its place.
    fn find(&mut self, client: &mut Client<'_>) -> Result<Reply, ConnectionFault> {
        let line = find_line(self.rt.alloc(), token_of(self.draft.token.as_str()))?;
        let answer = client.exchange(line.as_slice())?;
        if answer.is_unknown() {
            drop(answer);
            return self.find_among_all(client);
        }
        match self.reply_of(answer) {
            Reply::Created { job } => self.find_one(client, job),
            Reply::Gone => Ok(Reply::Jobs { found: NO_JOBS }),
            reply => Ok(reply),
        }
    }

    // Returns the job that the service found, if it is incoming.
    fn find_one(&mut self, client: &mut Client<'_>, job: u32) -> Result<Reply, ConnectionFault> {
        match self.shown(client, job)? {
            Ok(shown) => {
                let found = found_one(job, &shown);
                drop(shown);
                Ok(Reply::Jobs { found })
            }
            Err(Reply::Gone) => Ok(Reply::Jobs { found: NO_JOBS }),
            Err(reply) => Ok(reply),
        }
    }

    fn find_among_all(&mut self, client: &mut Client<'_>) -> Result<Reply, ConnectionFault> {
        let answer = client.exchange(b"jobs\n")?;
        if !answer.is_done() {
            return Ok(self.reply_of(answer));
        }
        let found = self.find_in(client, &answer.rows);
        drop(answer);
        found
    }

    fn find_in(
        &mut self,
        client: &mut Client<'_>,
        rows: &[Vec<u8>],
    ) -> Result<Reply, ConnectionFault> {
        let mut found = NO_JOBS;
        for row in rows {
            if let Some(job) = self.own_job(client.caller(), row.as_slice())? {
                if let Err(reply) = self.look(client, job, &mut found)? {
                    return Ok(reply);
                }
            }
        }
        Ok(Reply::Jobs { found })
    }

    fn own_job(&self, caller: Option<&Caller>, row: &[u8]) -> Result<Option<u32>, AllocError>
        ensures { IfOk result (λ job. job ≡ own_job self.now.draft.now (job_user self.now.draft.now (option_map (λ caller. standing_of caller.now) caller.entry)) row.now) }
    {
        let user = job_user(self.draft, caller);
        own_job(self.rt.alloc(), self.draft, user, row)
    }

    // Adds a job to the found ones if it has the token.
    fn look(
        &mut self,
        client: &mut Client<'_>,
        job: u32,
        found: &mut Found,
    ) -> Result<Result<(), Reply>, ConnectionFault>
        ensures { IsLooked job found.old found.new }
    {
        match self.shown(client, job)? {
            Ok(shown) => {
                if has_token(shown.asked.options.as_str(), self.draft.token.as_str()) {
                    *found = with_job(*found, job, shown.job_status.size);
                }
                drop(shown);
                Ok(Ok(()))
            }
            Err(Reply::Gone) => Ok(Ok(())),
            Err(reply) => Ok(Err(reply)),
        }
    }
}

// Returns the last bytes of a piece, of this number.
fn last_bytes(piece: &[u8], count: u32) -> &[u8]
    ensures { result.now ≡ last_bytes count piece.now }
{
    &piece[piece.len().saturating_sub(count as usize)..]
}

// Returns the bytes of the two commands that send a piece. The second one has no bytes if the first one has all.
fn parts_of(piece: &[u8]) -> (&[u8], &[u8])
    ensures first { result.0.now ≡ part_of First piece.now }
    ensures second { result.1.now ≡ part_of Second piece.now }
{
    parts_at(piece, MOST_SENT)
}

// Returns at most this number of bytes, and the others.
#[tactic(auto, using(std::proofs::lemmas::List::take_all, std::proofs::lemmas::List::drop_all))]
fn parts_at(piece: &[u8], most: usize) -> (&[u8], &[u8])
    ensures first { result.0.now ≡ take most piece.now }
    ensures second { result.1.now ≡ drop most piece.now }
{
    if piece.len() <= most {
        return (piece, &[]);
    }
    piece.split_at(most)
}

// Returns the commands that send a piece, and the close that follows the last one.
fn piece_texts(
    alloc: Global,
    draft: &Draft,
    job: u32,
    piece: &[u8],
    end: Option<u64>,
) -> Result<Vec<Vec<u8>>, AllocError>
    ensures { IfOk result (λ texts. map (λ text. text.items) texts.items ≡ piece_texts draft.now job piece.now end) }
{
    let (first, second) = parts_of(piece);
    let mut texts = Vec::new(alloc);
    texts.push(send_text(alloc, job, first)?)?;
    push_second(&mut texts, job, second)?;
    push_close(&mut texts, draft, job, end)?;
    Ok(texts)
}

fn push_second(texts: &mut Vec<Vec<u8>>, job: u32, bytes: &[u8]) -> Result<(), AllocError>
    ensures { OnOk result (map (λ text. text.items) texts.new.items ≡ map (λ text. text.items) texts.old.items ++ second_text job bytes.now) }
{
    if bytes.is_empty() {
        return Ok(());
    }
    let text = send_text(*texts.allocator(), job, bytes)?;
    texts.push(text)?;
    Ok(())
}

fn push_close(
    texts: &mut Vec<Vec<u8>>,
    draft: &Draft,
    job: u32,
    end: Option<u64>,
) -> Result<(), AllocError>
    ensures { OnOk result (map (λ text. text.items) texts.new.items ≡ map (λ text. text.items) texts.old.items ++ close_text draft.now job end) }
{
    let Some(size) = end else {
        return Ok(());
    };
    let text = closeat_line(*texts.allocator(), job, size, draft)?;
    texts.push(text)?;
    Ok(())
}

// Returns the reply to a piece from the replies to its two commands. Only if the second command was refused, the first one decides: the other
// replies state the size after both commands, or leave it unknown.
fn joined_reply(first: Reply, second: Reply) -> Reply
    ensures { result ≡ joined_reply first second }
{
    if is_refusal(second) { first } else { second }
}

fn is_refusal(reply: Reply) -> bool
    ensures { result ≡ is_refusal reply }
{
    matches!(
        reply,
        Reply::Denied | Reply::NotIncoming | Reply::Later | Reply::Gone
    )
}

// Returns the number of the job in a row if it is incoming and has the draft's queue and this owner.
fn own_job(alloc: Global, draft: &Draft, user: &str, row: &[u8]) -> Result<Option<u32>, AllocError>
    ensures { IfOk result (λ job. job ≡ own_job draft.now user.now row.now) }
{
    let Some(job) = read_job_line(alloc, row)? else {
        return Ok(None);
    };
    let own = if may_be_own(draft, user, &job) {
        Some(job.number.get())
    } else {
        None
    };
    drop(job);
    Ok(own)
}

// Returns whether a job is incoming and has the draft's queue and this owner.
fn may_be_own(draft: &Draft, user: &str, job: &JobLine) -> bool
    ensures { result ≡ may_be_own draft.now user.now job.now }
{
    has_reason(&job.reason, "job-incoming")
        && job.queue.as_str() == draft.queue.as_str()
        && job.user.as_str() == user
}

// Returns the value of the option with the token.
fn token_of(option: &str) -> &str
    ensures { result.now ≡ token_of option.now }
{
    match option.split_once('=') {
        Some((_, token)) => token,
        None => "",
    }
}

// Returns the job with the token, if it is incoming.
fn found_one(job: u32, shown: &JobShown) -> Found
    ensures { result ≡ found_one job (shown_of shown.now) }
{
    match shown_of(shown) {
        Shown::Arriving { size } => Found {
            own: Some(Own { job, size }),
            another: None,
        },
        _ => NO_JOBS,
    }
}

// Explains a refusal of the document.
fn refusal_text(named: bool, typed: bool, text: &str) -> &str
    ensures { result.now ≡ refusal_text named typed text.now }
{
    if text == "error denied" {
        return denied_text(named);
    }
    if typed && text == "error syntax" {
        return "the service does not take the media type";
    }
    sentence_of(text)
}

fn denied_text(named: bool) -> &'static str
    ensures { result.now ≡ denied_text named }
{
    if named {
        "only operators may name another user (see spool_service(8), Roles)"
    } else {
        "the service denies the document (see spool_service(8), Roles)"
    }
}

fn has_token(options: &str, token: &str) -> bool
    ensures { IsTrue result ↔ HasSubslice options.now token.now }
{
    options.contains(token)
}

// Returns the found jobs with one more job that has the token.
fn with_job(found: Found, job: u32, size: u32) -> Found
    ensures { result ≡ with_job found job size }
{
    match found.own {
        Some(_) => Found {
            own: found.own,
            another: Some(job),
        },
        None => Found {
            own: Some(Own {
                job,
                size: u64::from(size),
            }),
            another: found.another,
        },
    }
}

// Returns the outcome of a submission that is given up after too many steps.
fn ended(step: Step) -> End
    ensures { deserted (lost step) ≡ Step.Ended result }
{
    match step.lost().deserted() {
        Step::Ended { end } => end,
        _ => End::Refused {
            job: None,
            cause: Cause::Deserted,
            canceled: false,
        },
    }
}
