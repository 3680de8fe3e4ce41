//! The submission of an IPP job.
ghost use Rattle.std.specs.Prelude.{◌≡◌, ◌<◌, ◌≢◌, IfOk, OnErr, OnOk, true, length};
ghost use Rattle.ipp_submission.specs.JobParts.{all_accepted, all_closed, begun, closes_with_last, closing_at, current, deserted_in, finished, follow, given_up, heard_in, is_accepted, is_closed, is_ended, is_ready, is_reading, lost_in, move_after, moved, next_part, next_request, part_at, supplied_in, supplied_last_in, undoing_at, with_current, with_document};

use crate::stage::{Move, Stage};
use front_submission::{End, Reply, Request, Step};
use std::alloc::{AllocError, Global};
use std::marker::Model;

/// A request, and the number of the part that it concerns, from 0 on.
#[derive(Clone, Copy)]
pub struct PartRequest {
    pub part: usize,
    pub request: Request,
}

/// The submission of an IPP job: a part for each of its documents. Each part is a job of the service.
#[derive(Drop)]
pub struct Submission {
    parts: Vec<Step>,
    // The part in progress.
    at: usize,
    stage: Stage,
    holds: bool,
}

impl Model for Submission {
    ghost use Rattle.std.specs.Prelude.{◌<◌, length};
    ghost use Rattle.ipp_submission.specs.JobParts.{Progress};

    ghost Value = { Progress };

    ghost view = { λ s. record { parts = s.parts.items; at = s.at; stage = s.stage; holds = s.holds } };

    ghost invariant = { λ s. s.at < length s.parts.items };
}

impl Submission {
    /// The submission of a job whose first document is not sent yet. `holds` states whether the job must be held.
    pub fn new(alloc: Global, holds: bool) -> Result<Submission, AllocError>
        ensures { IfOk result (λ submission. submission ≡ begun holds) }
    {
        let mut parts = Vec::new(alloc);
        parts.push(Step::start())?;
        Ok(Submission {
            parts,
            at: 0,
            stage: Stage::Taking,
            holds,
        })
    }

    /// Returns the steps of all parts.
    pub fn parts(&self) -> &[Step]
        ensures { result.now ≡ self.now.parts }
    {
        &self.parts
    }

    /// Returns the next request. It is [`Request::Read`] if the submission waits for the client.
    pub fn request(&self) -> PartRequest
        ensures part { result.part ≡ self.now.at }
        ensures request { result.request ≡ next_request self.now }
    {
        PartRequest {
            part: self.at,
            request: self.parts[self.at].request(),
        }
    }

    /// Returns whether the client may send a piece of the document, the next document or the end of the last one.
    pub fn is_ready(&self) -> bool
        ensures { result ≡ is_ready self.now }
    {
        matches!(self.stage, Stage::Taking) && is_reading(self.parts[self.at])
    }

    /// Returns whether nothing more happens: the jobs are closed, or the submission has failed.
    pub fn is_over(&self) -> bool
        ensures { result ≡ is_ended (current self.now) }
    {
        is_ended(self.parts[self.at])
    }

    /// Takes the reply to the request.
    pub fn heard(&mut self, reply: Reply)
        ensures { self.new ≡ heard_in self.old reply }
    {
        let step = self.parts[self.at].heard(reply);
        self.change(step);
    }

    /// Notes that the connection was lost before the reply.
    pub fn lost(&mut self)
        ensures { self.new ≡ lost_in self.old }
    {
        let step = self.parts[self.at].lost();
        self.change(step);
    }

    /// Notes that no service was reachable for too long.
    pub fn deserted(&mut self)
        ensures { self.new ≡ deserted_in self.old }
    {
        let step = self.parts[self.at].deserted();
        self.change(step);
    }

    /// Notes that a piece of the document has come, which has `count` bytes.
    pub fn supplied(&mut self, count: u32)
        requires some { count ≢ 0 }
        requires ready { is_ready self.old ≡ true }
        ensures { self.new ≡ supplied_in self.old count }
    {
        let at = self.at;
        self.parts[at] = self.parts[at].supplied(count, false, self.holds);
    }

    /// Returns whether the job can be closed with the last piece of its document: it has one document and is not held.
    pub fn closes_with_last(&self) -> bool
        ensures { result ≡ closes_with_last self.now }
    {
        self.parts.len() == 1 && !self.holds
    }

    /// Notes that the last piece of the only document has come, which has `count` bytes, and its end with it: the job is closed with it. This
    /// is [`Submission::supplied`] and [`Submission::finish`] in one.
    pub fn supplied_last(&mut self, count: u32)
        requires some { count ≢ 0 }
        requires ready { is_ready self.old ≡ true }
        requires closes { closes_with_last self.old ≡ true }
        ensures { self.new ≡ supplied_last_in self.old count }
    {
        let at = self.at;
        self.stage = Stage::Closing;
        self.parts[at] = self.parts[at].supplied(count, true, self.holds);
    }

    /// Begins the next document. An error changes nothing.
    pub fn next_document(&mut self) -> Result<(), AllocError>
        requires { is_ready self.old ≡ true }
        ensures ok { OnOk result (self.new ≡ with_document self.old) }
        ensures err { OnErr result (self.new ≡ self.old) }
    {
        let at = self.parts.len();
        self.parts.push(Step::start())?;
        self.at = at;
        Ok(())
    }

    /// Ends the last document: the jobs are closed now. Each document must be whole.
    pub fn finish(&mut self)
        requires { is_ready self.old ≡ true }
        ensures { self.new ≡ finished self.old }
    {
        self.close_at(0);
    }

    /// Notes that the client gives up. If all documents are whole, this changes nothing: their jobs can be canceled.
    pub fn give_up(&mut self)
        ensures { self.new ≡ given_up self.old }
    {
        if matches!(self.stage, Stage::Taking) {
            self.stage = Stage::Undoing;
            self.advance();
        }
    }

    /// Returns whether the job of each document was closed, and filters convert it for the printer.
    pub fn is_accepted(&self) -> bool
        ensures { result ≡ all_accepted self.now }
    {
        self.parts.iter().all(|step| is_accepted(*step))
    }

    /// Returns whether the job of each document was closed.
    pub fn is_closed(&self) -> bool
        ensures { result ≡ all_closed self.now }
    {
        self.parts.iter().all(|step| is_closed(*step))
    }

    fn change(&mut self, step: Step)
        ensures { self.new ≡ moved (with_current self.old step) }
    {
        let at = self.at;
        self.parts[at] = step;
        self.advance();
    }

    // Moves to another part if the one in progress has ended.
    fn advance(&mut self)
        ensures { self.new ≡ moved self.old }
    {
        let at = self.at;
        match move_after(self.stage, self.parts[at]) {
            Move::Stay => {}
            Move::CloseNext => self.close_next(),
            Move::UndoNext => self.undo_next(),
            Move::UndoThis => self.undo_at(at),
        }
    }

    fn undo_next(&mut self)
        ensures { self.new ≡ follow self.old Move.UndoNext }
    {
        let next = self.next_part();
        self.undo_at(next);
    }

    fn next_part(&self) -> usize
        ensures next { result ≡ next_part self.now }
        ensures bound { result < length self.now.parts }
    {
        let next = self.at + 1;
        if next < self.parts.len() { next } else { 0 }
    }

    fn close_next(&mut self)
        ensures { self.new ≡ follow self.old Move.CloseNext }
    {
        let next = self.at + 1;
        if next < self.parts.len() {
            self.close_at(next);
        }
    }

    fn close_at(&mut self, part: usize)
        requires { part < length self.old.parts }
        ensures { self.new ≡ closing_at self.old part }
    {
        self.at = part;
        self.stage = Stage::Closing;
        self.parts[part] = self.parts[part].supplied(0, false, self.holds);
    }

    fn undo_at(&mut self, part: usize)
        requires { part < length self.old.parts }
        ensures { self.new ≡ undoing_at self.old part }
    {
        self.at = part;
        self.stage = Stage::Undoing;
        self.parts[part] = self.parts[part].unread();
    }
}

fn move_after(stage: Stage, step: Step) -> Move
    ensures { result ≡ move_after stage step }
{
    match stage {
        Stage::Closing if is_closed(step) => Move::CloseNext,
        Stage::Undoing if is_reading(step) => Move::UndoThis,
        _ if is_ended(step) => Move::UndoNext,
        _ => Move::Stay,
    }
}

fn is_reading(step: Step) -> bool
    ensures { result ≡ is_reading step }
{
    matches!(step, Step::Reading { .. })
}

fn is_ended(step: Step) -> bool
    ensures { result ≡ is_ended step }
{
    matches!(step, Step::Ended { .. })
}

fn is_accepted(step: Step) -> bool
    ensures { result ≡ is_accepted step }
{
    match step {
        Step::Ended { end } => matches!(end, End::Accepted { .. }),
        _ => false,
    }
}

fn is_closed(step: Step) -> bool
    ensures { result ≡ is_closed step }
{
    match step {
        Step::Ended { end } => matches!(end, End::Accepted { .. } | End::Unprintable { .. }),
        _ => false,
    }
}
