//! The client of a service, which sends a command and reads the complete reply.
ghost use Rattle.std.specs.Prelude.{◌≡◌, ◌++◌, ◌*◌, ◌↔◌, ◌&&◌, true, false, IfErr, IfOk, IsSome, IsTrue, MatchResult, OnOk, ℕ, None, codes, filter_map, is_none, option_copied, string_bytes};
ghost use Rattle.spool_front.specs.Proofs.{caller_of};
ghost use Rattle.command_lines.specs.CommandGrammar.{is_word};
ghost use Rattle.front_texts.specs.AgedJobs.{aged_jobs};
ghost use Rattle.front_texts.specs.JobPage.{shown_job};
ghost use Rattle.front_texts.specs.JobRows.{job_row};
ghost use Rattle.front_texts.specs.QueueRows.{queue_row};
ghost use Rattle.front_texts.specs.ReplyLines.{next_in, now_in};
ghost use Rattle.service_client.specs.Mirrors.{job_at, known};
ghost use Rattle.service_client.specs.Notices.{jobs_after, known_after_all};
ghost use Rattle.spool_front.specs.ReplyOutcomes.{accepted, answer_lines, is_done, rows_text};
ghost use Rattle.spool_front.specs.TaskFaults.{IsBusyAt, IsNobodyAt};

use crate::commands::{job_line, list_line, name_line};
use crate::connection::{Connection, ConnectionFault};
use crate::fault::{Fault, unknown_queue};
use crate::proving::first_exchange;
use crate::reasons::reason_and_hint;
use cause_sentences::cause_sentence;
use front_proof::Caller;
use front_texts::{
    AgedJob, JobLine, JobShown, LastLine, QueueLine, next_in, now_in, read_aged_jobs,
    read_job_line, read_job_shown, read_last_line, read_queue_line,
};
use service_client::Mirror;
use service_replies::is_gone;
use std::alloc::{AllocError, Global};
use std::os::unix::net::UnixStream;
use std::time::Duration;

// The pause before another attempt to connect, in milliseconds, and the number of pauses in a second.
const PAUSE: u64 = 100;

const PAUSES_A_SECOND: u64 = 10;

const INVALID: Fault = Fault::Words("the reply of the service is invalid");

/// A reply: its rows and its last line.
#[derive(Drop)]
pub struct Answer {
    pub rows: Vec<Vec<u8>>,
    pub last: String,
}

impl Answer {
    /// Returns whether the reply is not a refusal.
    pub fn is_done(&self) -> bool
        ensures { result ≡ is_done (string_bytes self.now.last) }
    {
        matches!(
            read_last_line(self.last.as_str()),
            Some(LastLine::Done { .. })
        )
    }

    /// Returns whether the service has no place for the connection.
    pub fn is_busy(&self) -> bool
        ensures { result ≡ is_word (string_bytes self.now.last) (codes "error busy") }
    {
        self.last.as_str() == "error busy"
    }

    /// Returns whether the service does not know the command.
    pub fn is_unknown(&self) -> bool
        ensures { result ≡ is_word (string_bytes self.now.last) (codes "error syntax") }
    {
        self.last.as_str() == "error syntax"
    }

    /// Passes each line to a mirror.
    #[tactic(auto, using(crate::proofs::MirrorLaws::jobs_more, crate::proofs::MirrorLaws::known_more))]
    pub fn tell(&self, mirror: &mut Mirror) -> Result<(), AllocError>
        ensures jobs { OnOk result ((job : ℕ) → job_at mirror.new job ≡ jobs_after (answer_lines self.now) job (job_at mirror.old job)) }
        ensures known { OnOk result (known mirror.new ≡ known_after_all (answer_lines self.now) (known mirror.old)) }
    {
        mirror.tell_all(&self.rows)?;
        mirror.tell(self.last.as_str().as_bytes())
    }

    /// Returns the rows, each with its line feed.
    pub fn text(&self, alloc: Global) -> Result<Vec<u8>, AllocError>
        ensures { IfOk result (λ text. text.items ≡ rows_text self.now.rows.items) }
    {
        let mut text = Vec::new(alloc);
        for row in &self.rows {
            text.extend_from_slice(row.as_slice())?;
            text.extend_from_slice(b"\n")?;
        }
        Ok(text)
    }
}

// Returns why no service can be reached at a socket.
fn unreached(rt: &HostRuntime, socket: &str) -> Result<String, AllocError> {
    match UnixStream::connect(rt, socket) {
        Ok(_) => String::from_str(rt.alloc(), "the connection was lost"),
        Err(error) => reason_and_hint(rt.alloc(), &error),
    }
}

/// Waits before another attempt.
pub fn pause(rt: &HostRuntime) {
    std::thread::sleep(rt, Duration::from_millis(PAUSE));
}

/// A service, and the connection to it if one is open.
#[derive(Drop)]
pub struct Client<'a> {
    rt: &'a HostRuntime,
    socket: &'a str,
    // The number of pauses before the client gives up.
    pauses: u64,
    // Whether the client proves who it is.
    proves: bool,
    connection: Option<Connection>,
}

impl<'a> Client<'a> {
    pub fn new(rt: &'a HostRuntime, socket: &'a str, patience: u32, proves: bool) -> Client<'a>
        ensures patience { result.pauses ≡ patience * 10 }
        ensures proves { result.proves ≡ proves }
        ensures socket { result.socket.now ≡ socket.now }
    {
        Client {
            rt,
            socket,
            pauses: u64::from(patience) * PAUSES_A_SECOND,
            proves,
            connection: None,
        }
    }

    /// Returns the number of pauses before the client gives up.
    pub fn patience(&self) -> u64
        ensures { result ≡ self.now.pauses }
    {
        self.pauses
    }

    /// Connects unless a connection is open, and repeats this until the patience is over. Returns whether a connection is open.
    pub fn connect(&mut self) -> Result<bool, AllocError>
        ensures connected { IfOk result (λ connected. IsTrue connected ↔ IsSome self.new.connection) }
        ensures kept { self.new ≡ record self.old { connection = self.new.connection } }
    {
        if self.connection.is_some() {
            return Ok(true);
        }
        for _ in 0..self.pauses {
            if self.connect_once()? {
                return Ok(true);
            }
            pause(self.rt);
        }
        self.connect_once()
    }

    fn connect_once(&mut self) -> Result<bool, AllocError>
        ensures connected { IfOk result (λ connected. IsTrue connected → IsSome self.new.connection) }
        ensures not { IfOk result (λ connected. ¬ (IsTrue connected) → self.new.connection ≡ self.old.connection) }
        ensures kept { self.new ≡ record self.old { connection = self.new.connection } }
    {
        match Connection::open(self.rt, self.socket) {
            Ok(connection) => {
                self.connection = Some(connection);
                Ok(true)
            }
            Err(ConnectionFault::Lost) => Ok(false),
            Err(ConnectionFault::Memory) => Err(AllocError),
        }
    }

    /// Closes the connection.
    pub fn disconnect(&mut self)
        ensures { self.new ≡ record self.old { connection = None } }
    {
        self.connection = None;
    }

    /// Sends a command and reads its reply. After a fault the connection is closed.
    pub fn exchange(&mut self, text: &[u8]) -> Result<Answer, ConnectionFault>
        ensures over { IfErr result (λ _. self.new.connection ≡ None) }
        ensures kept { self.new ≡ record self.old { connection = self.new.connection } }
    {
        let answer = self.send_and_read(text);
        if answer.is_err() {
            self.connection = None;
        }
        answer
    }

    /// Sends two commands together and returns their replies, in the same order. After a fault the connection is closed.
    pub fn exchange_both(
        &mut self,
        first: &[u8],
        second: &[u8],
    ) -> Result<(Answer, Answer), ConnectionFault>
        ensures over { IfErr result (λ _. self.new.connection ≡ None) }
        ensures kept { self.new ≡ record self.old { connection = self.new.connection } }
    {
        let answers = self.both(first, second);
        if answers.is_err() {
            self.connection = None;
        }
        answers
    }

    // Over a new connection the client proves who it is before the second command.
    fn both(&mut self, first: &[u8], second: &[u8]) -> Result<(Answer, Answer), ConnectionFault>
        ensures { self.new ≡ record self.old { connection = self.new.connection } }
    {
        if self.must_prove() {
            let answer = self.send_and_read(first)?;
            return match self.send_and_read(second) {
                Ok(next) => Ok((answer, next)),
                Err(fault) => Err(fault),
            };
        }
        let alloc = self.rt.alloc();
        match &mut self.connection {
            Some(connection) => connection.exchange_both(alloc, first, second),
            None => Err(ConnectionFault::Lost),
        }
    }

    /// Sends commands together and returns their replies, in the same order. After a fault the connection is closed.
    pub fn exchange_all(&mut self, texts: &[Vec<u8>]) -> Result<Vec<Answer>, ConnectionFault>
        ensures over { IfErr result (λ _. self.new.connection ≡ None) }
        ensures kept { self.new ≡ record self.old { connection = self.new.connection } }
    {
        let answers = self.all(texts);
        if answers.is_err() {
            self.connection = None;
        }
        answers
    }

    // Over a new connection the client proves who it is before the second command.
    fn all(&mut self, texts: &[Vec<u8>]) -> Result<Vec<Answer>, ConnectionFault>
        ensures { self.new ≡ record self.old { connection = self.new.connection } }
    {
        if self.must_prove() {
            return self.one_by_one(texts);
        }
        let alloc = self.rt.alloc();
        match &mut self.connection {
            Some(connection) => connection.exchange_all(alloc, texts),
            None => Err(ConnectionFault::Lost),
        }
    }

    fn one_by_one(&mut self, texts: &[Vec<u8>]) -> Result<Vec<Answer>, ConnectionFault>
        ensures { self.new ≡ record self.old { connection = self.new.connection } }
    {
        let mut answers = Vec::new(self.rt.alloc());
        for text in texts {
            answers.push(self.send_and_read(text)?)?;
        }
        Ok(answers)
    }

    // Returns whether the client has not proved who it is over this connection.
    fn must_prove(&self) -> bool
        ensures { result ≡ (self.now.proves && is_none (caller_of self.now.connection)) }
    {
        self.proves && self.caller().is_none()
    }

    fn send_and_read(&mut self, text: &[u8]) -> Result<Answer, ConnectionFault>
        ensures { self.new ≡ record self.old { connection = self.new.connection } }
    {
        let rt = self.rt;
        let Some(connection) = &mut self.connection else {
            return Err(ConnectionFault::Lost);
        };
        if self.proves && connection.caller().is_none() {
            return first_exchange(rt, connection, text);
        }
        connection.exchange(rt.alloc(), text)
    }

    /// Returns the identity of the client for the service, if this connection has one.
    pub fn caller(&self) -> Option<&Caller>
        ensures { option_copied result ≡ caller_of self.now.connection }
    {
        match &self.connection {
            Some(connection) => connection.caller(),
            None => None,
        }
    }

    /// Returns the next lines that the service sends without a command. After a fault the connection must be closed.
    pub fn receive_lines(&mut self) -> Result<Vec<Vec<u8>>, ConnectionFault> {
        match &mut self.connection {
            Some(connection) => connection.receive_lines(),
            None => Err(ConnectionFault::Lost),
        }
    }

    /// Sends a command that changes nothing, again if the connection is lost or the service is busy. A refusal is a fault.
    pub fn ask(&mut self, text: &[u8]) -> Result<Answer, Fault>
        ensures done { IfOk result (λ answer. IsTrue (is_done (string_bytes answer.last))) }
        ensures kept { self.new ≡ record self.old { connection = self.new.connection } }
    {
        accepted(self.ask_or_refused(text)?)
    }

    // Does the same, but may return a refusal other than `error busy`.
    fn ask_or_refused(&mut self, text: &[u8]) -> Result<Answer, Fault>
        ensures busy { IfOk result (λ answer. ¬ (IsTrue (is_word (string_bytes answer.last) (codes "error busy")))) }
        ensures kept { self.new ≡ record self.old { connection = self.new.connection } }
    {
        let mut is_busy = false;
        for _ in 0..=self.pauses {
            if !self.connect()? {
                return Err(self.nobody()?);
            }
            match self.exchange(text) {
                Ok(answer) if answer.is_busy() => {
                    drop(answer);
                    is_busy = true;
                    self.disconnect();
                }
                Ok(answer) => return Ok(answer),
                Err(ConnectionFault::Lost) => is_busy = false,
                Err(ConnectionFault::Memory) => return Err(Fault::Memory),
            }
            pause(self.rt);
        }
        Err(self.unserved(is_busy)?)
    }

    // The fault if the patience is over.
    fn unserved(&self, is_busy: bool) -> Result<Fault, AllocError>
        ensures busy { is_busy ≡ true → IfOk result (IsBusyAt self.now.socket.now) }
        ensures nobody { is_busy ≡ false → IfOk result (IsNobodyAt self.now.socket.now) }
    {
        if is_busy {
            Ok(Fault::Busy(String::from_str(self.rt.alloc(), self.socket)?))
        } else {
            self.nobody()
        }
    }

    /// Sends a command once. If its reply is lost, it is unknown whether the command was executed.
    pub fn order(&mut self, text: &[u8]) -> Result<(), Fault> {
        if !self.connect()? {
            return Err(self.nobody()?);
        }
        match self.exchange(text) {
            Ok(answer) => done(answer),
            Err(ConnectionFault::Lost) => Err(Fault::Unknown),
            Err(ConnectionFault::Memory) => Err(Fault::Memory),
        }
    }

    /// Returns the fault if no connection can be made.
    pub fn nobody(&self) -> Result<Fault, AllocError>
        ensures { IfOk result (IsNobodyAt self.now.socket.now) }
    {
        let why = unreached(self.rt, self.socket)?;
        Ok(Fault::Nobody(String::from_str(self.rt.alloc(), self.socket)?, why))
    }

    /// Returns the jobs, in the order of their numbers.
    pub fn jobs(&mut self) -> Result<Vec<JobLine>, Fault> {
        let answer = self.ask(b"jobs\n")?;
        let jobs = jobs_in(self.rt.alloc(), &answer.rows);
        drop(answer);
        Ok(jobs?)
    }

    /// Returns the jobs with their ages, in the order of their numbers. The service lists them in pieces, so their states are not all of the
    /// same moment. A listing that does not advance is invalid. A service that does not know `list` is asked for `jobs`, and no age is known.
    pub fn aged_jobs(&mut self) -> Result<Vec<AgedJob>, Fault> {
        let alloc = self.rt.alloc();
        let now = self.now()?;
        let mut jobs = Vec::new(alloc);
        let mut from = 1;
        for _ in 0..u64::MAX {
            let Some(answer) = self.list(from)? else {
                drop(jobs);
                return self.jobs_without_ages();
            };
            let next = take_piece(alloc, &answer, now, &mut jobs);
            drop(answer);
            match next? {
                Some(next) if from < next => from = next,
                Some(_) => break,
                None => return Ok(jobs),
            }
        }
        drop(jobs);
        Err(INVALID)
    }

    // Returns the jobs from a number on, or `None` if the service does not know `list`.
    fn list(&mut self, from: u64) -> Result<Option<Answer>, Fault> {
        let line = list_line(self.rt.alloc(), from)?;
        let answer = self.ask_or_refused(line.as_slice())?;
        if answer.is_unknown() {
            drop(answer);
            return Ok(None);
        }
        Ok(Some(accepted(answer)?))
    }

    fn jobs_without_ages(&mut self) -> Result<Vec<AgedJob>, Fault> {
        let mut jobs = Vec::new(self.rt.alloc());
        for line in self.jobs()? {
            jobs.push(AgedJob {
                line,
                age: None,
                left: None,
            })?;
        }
        Ok(jobs)
    }

    /// Returns a job, or `None` if it does not exist.
    pub fn job(&mut self, job: u32) -> Result<Option<JobShown>, Fault> {
        let line = job_line(self.rt.alloc(), "job", job)?;
        let answer = self.ask_or_refused(line.as_slice())?;
        if is_gone(answer.last.as_str()) {
            drop(answer);
            return Ok(None);
        }
        shown_of_answer(self.rt.alloc(), accepted(answer)?)
    }

    /// Returns the time of the service in seconds since 1970, or `None` if the service does not know the question.
    pub fn now(&mut self) -> Result<Option<u64>, Fault> {
        let answer = self.ask_or_refused(b"now\n")?;
        if answer.is_unknown() {
            drop(answer);
            return Ok(None);
        }
        moment_of_answer(accepted(answer)?)
    }

    /// Returns the reply to a question about a queue, or `None` if the service does not know the question.
    pub fn queue(&mut self, name: &str) -> Result<Option<Answer>, Fault> {
        let line = name_line(self.rt.alloc(), "queue", name)?;
        let answer = self.ask_or_refused(line.as_slice())?;
        if answer.is_unknown() {
            drop(answer);
            return Ok(None);
        }
        if answer.last.as_str() == "error queue" {
            drop(answer);
            return Err(unknown_queue(self.rt.alloc(), name)?);
        }
        Ok(Some(accepted(answer)?))
    }

    /// Returns why a job does not print, as a sentence. Returns `None` if the service names no cause, or does not know the question.
    pub fn why(&mut self, job: u32) -> Result<Option<Vec<u8>>, Fault> {
        let line = job_line(self.rt.alloc(), "why", job)?;
        let answer = self.ask_or_refused(line.as_slice())?;
        let sentence = cause_sentence(self.rt.alloc(), answer.last.as_str().as_bytes());
        drop(answer);
        Ok(sentence?)
    }

    // Returns the listing of the queues. A service that does not know `printers` is asked for `queues`.
    fn ask_queues(&mut self) -> Result<Answer, Fault> {
        let answer = self.ask_or_refused(b"printers\n")?;
        if answer.is_unknown() {
            drop(answer);
            return self.ask(b"queues\n");
        }
        accepted(answer)
    }

    /// Returns the queues, in the order of their names.
    pub fn queues(&mut self) -> Result<Vec<QueueLine>, Fault> {
        let answer = self.ask_queues()?;
        let queues = queues_in(self.rt.alloc(), &answer.rows);
        drop(answer);
        Ok(queues?)
    }
}

// Adds the jobs of a piece of the listing, and returns the number from which the next piece begins, if there is one.
fn take_piece(
    alloc: Global,
    answer: &Answer,
    now: Option<u64>,
    jobs: &mut Vec<AgedJob>,
) -> Result<Option<u64>, AllocError>
    ensures jobs { OnOk result (jobs.new.items ≡ jobs.old.items ++ aged_jobs now answer.now.rows.items) }
    ensures next { IfOk result (λ next. next ≡ next_in (string_bytes answer.now.last)) }
{
    let mut piece = read_aged_jobs(alloc, answer.rows.as_slice(), now)?;
    jobs.append(&mut piece)?;
    Ok(next_in(answer.last.as_str()))
}

// Returns the reply unless it is a refusal.
fn accepted(answer: Answer) -> Result<Answer, Fault>
    ensures { result ≡ accepted answer }
{
    if answer.is_done() {
        Ok(answer)
    } else {
        Err(Fault::Refused(answer.last))
    }
}

// Returns an error if the reply is a refusal.
fn done(answer: Answer) -> Result<(), Fault>
    ensures { MatchResult result (λ _. IsTrue (is_done (string_bytes answer.last))) (λ fault. fault ≡ Fault.Refused answer.last) }
{
    drop(accepted(answer)?);
    Ok(())
}

// Returns the moment in the reply to `now`.
fn moment_of_answer(answer: Answer) -> Result<Option<u64>, Fault>
    ensures { IfOk result (λ moment. IsSome moment × (moment ≡ now_in (string_bytes answer.last))) }
{
    let moment = now_in(answer.last.as_str());
    drop(answer);
    match moment {
        Some(moment) => Ok(Some(moment)),
        None => Err(INVALID),
    }
}

fn shown_of_answer(alloc: Global, answer: Answer) -> Result<Option<JobShown>, Fault>
    ensures { IfOk result (λ job. IsSome job × (job ≡ shown_job (rows_text answer.rows.items))) }
{
    let shown = shown_in(alloc, &answer);
    drop(answer);
    shown
}

// Returns the job that the rows describe.
fn shown_in(alloc: Global, answer: &Answer) -> Result<Option<JobShown>, Fault>
    ensures { IfOk result (λ job. IsSome job × (job ≡ shown_job (rows_text answer.now.rows.items))) }
{
    let text = answer.text(alloc)?;
    match read_job_shown(alloc, text.as_slice())? {
        Some(shown) => Ok(Some(shown)),
        None => Err(INVALID),
    }
}

// Returns the jobs in the rows. Invalid rows are left out.
fn jobs_in(alloc: Global, rows: &[Vec<u8>]) -> Result<Vec<JobLine>, AllocError>
    ensures { IfOk result (λ jobs. jobs.items ≡ filter_map (λ row. job_row row.items) rows.now) }
{
    let mut jobs = Vec::new(alloc);
    for row in rows {
        if let Some(job) = read_job_line(alloc, row.as_slice())? {
            jobs.push(job)?;
        }
    }
    Ok(jobs)
}

fn queues_in(alloc: Global, rows: &[Vec<u8>]) -> Result<Vec<QueueLine>, AllocError>
    ensures { IfOk result (λ queues. queues.items ≡ filter_map (λ row. queue_row row.items) rows.now) }
{
    let mut queues = Vec::new(alloc);
    for row in rows {
        if let Some(queue) = read_queue_line(alloc, row.as_slice())? {
            queues.push(queue)?;
        }
    }
    Ok(queues)
}
