//! The answers to a client's requests.
ghost use Rattle.std.specs.Prelude.{◌≡◌, ◌&&◌, ◌||◌, ℕ, true, List, [], ◌∷◌, Option, None, OnOk};
ghost use Rattle.client_roles.specs.RoleTable.{is_allowed};
ghost use Rattle.client_standing.specs.ClientStanding.{with_proof};
ghost use Rattle.client_standing.specs.declared.caller.Proved.{Proved};
ghost use Rattle.spool_engine.specs.AnswerTexts.{answer_text};
ghost use Rattle.service_loop.specs.ServiceCalls.{GoesWithin};
ghost use Rattle.service_loop.specs.ClientActions.{with_answer};
ghost use Rattle.service_loop.specs.ConnectionViews.{examined, named};
ghost use Rattle.service_loop.specs.ProofTexts.{offer_text, proof_text};
ghost use Rattle.service_loop.specs.ShownAnswers.{shown_answer};
ghost use Rattle.engine_reserve.specs.CommandRoom.{full_text};
ghost use Rattle.service_loop.specs.TakenRoom.{is_reserved};
ghost use Rattle.service_rules.specs.Listeners.{may_listen};
ghost use Rattle.service_loop.specs.AdmissionViews.{is_listener};
ghost use Rattle.service_loop.specs.ClientListening.{BeginsAtMost, wait_for};
ghost use Rattle.service_loop.specs.Progress.{IsMarked, as_answered, is_shutdown, is_watch};
ghost use Rattle.service_loop.specs.ClientSteps.{GoesProving, IsAdded, IsAnswered, status_of};

use super::{Client, ClientFault, Turn};
use crate::connection::Connection;
use crate::proof_texts::{push_offer, push_proof};
use crate::shared::Shared;
use crate::shown_answers::append_shown_answer;
use child_pipeline::Children;
use client_reader::Ask;
use client_roles::is_allowed;
use command_lines::{Answer, Command};
use job_table::Table;
use service_texts::OwnWord;
use spool_disk::Disk;
use spool_engine::{append_answer, round_answer};
use std::alloc::AllocError;

// The reply to `end` if no child of the job runs.
const NO_JOB: &[u8] = b"error job\n";

const DONE: &[u8] = b"ok\n";

// The reply to a request that the roles do not allow.
const DENIED: &[u8] = b"error denied\n";

// The reply to a request that would take room from the reserve of the journal.
const FULL: &[u8] = b"error full\n";

impl<L: Connection> Client<L> {
    // Serves a request, if the roles allow it and it takes no room from the reserve of the journal.
    pub(super) fn answer<D: Disk, C: Children>(
        &mut self,
        shared: &mut Shared<D, C>,
        ask: Ask,
        turn: &mut Turn,
    ) -> Result<(), ClientFault>
        requires { self.old.waits ≡ None }
        ensures done { OnOk result (IsAnswered D.device L.view shared.old.engine self.old ask shared.new.engine self.new) }
        ensures marked { IsMarked L.view self.old → IsMarked L.view self.new }
        ensures kept { self.new ≡ as_answered self.old self.new }
        ensures listens { OnOk result (BeginsAtMost (may_listen turn.old.listening) self.old self.new) }
        ensures turn { turn.new ≡ record turn.old { served = true; shutdown = turn.new.shutdown } }
        // A request that would take room from the reserve is answered with `error full`, and nothing is done.
        ensures reserved { is_allowed self.old.standing shared.old.engine.run_state.spool.state ask ≡ true → is_reserved shared.old.area shared.old.engine.run_state ask ≡ true →
            (shared.new ≡ record shared.old { full = true }) × OnOk result (IsAdded self.old full_text self.new) }
        ensures calls { GoesWithin D.device shared.old.most shared.old.engine shared.new.most shared.new.engine }
    {
        turn.served = true;
        if !is_allowed(&self.standing, shared.engine.table(), &ask) {
            drop(ask);
            self.add(DENIED)?;
            return Ok(());
        }
        if shared.is_reserved(&ask) {
            drop(ask);
            // Maintenance makes room.
            shared.full = true;
            self.add(FULL)?;
            return Ok(());
        }
        match ask {
            Ask::Command(command) => self.answer_command(shared, command),
            Ask::Own(word) => self.answer_own(shared, word, turn),
        }
    }

    // Serves a command of the engine. A `round` or `drain` is one tick: a round would wait for the children, and block all other clients.
    fn answer_command<D: Disk, C: Children>(
        &mut self,
        shared: &mut Shared<D, C>,
        command: Command,
    ) -> Result<(), ClientFault>
        requires waits { self.old.waits ≡ None }
        requires role { is_allowed self.old.standing shared.old.engine.run_state.spool.state (Ask.Command command) ≡ true }
        ensures done { OnOk result (IsAnswered D.device L.view shared.old.engine self.old (Ask.Command command) shared.new.engine self.new) }
        ensures marked { IsMarked L.view self.old → IsMarked L.view self.new }
        ensures kept { self.new ≡ record self.old { replies = self.new.replies; standing = self.new.standing } }
        ensures calls { GoesWithin D.device shared.old.most shared.old.engine shared.new.most shared.new.engine }
    {
        match command {
            Command::Round | Command::Drain(_) => {
                let counts = shared.tick();
                self.add_answer(shared.engine.table(), &round_answer(counts))?;
                Ok(())
            }
            command => {
                let answer = shared.execute(command)?;
                self.add_shown_answer(shared.engine.table(), &answer)?;
                self.note_created(&answer)?;
                Ok(())
            }
        }
    }

    // Answers a word of the service.
    fn answer_own<D: Disk, C: Children>(
        &mut self,
        shared: &mut Shared<D, C>,
        word: OwnWord,
        turn: &mut Turn,
    ) -> Result<(), ClientFault>
        requires waits { self.old.waits ≡ None }
        requires role { is_allowed self.old.standing shared.old.engine.run_state.spool.state (Ask.Own word) ≡ true }
        ensures done { OnOk result (IsAnswered D.device L.view shared.old.engine self.old (Ask.Own word) shared.new.engine self.new) }
        ensures marked { IsMarked L.view self.old → IsMarked L.view self.new }
        ensures kept { self.new ≡ as_answered self.old self.new }
        ensures watches { OnOk result (self.new.watches ≡ (self.old.watches || (is_watch word && (is_listener self.old || may_listen turn.old.listening)))) }
        ensures waits { OnOk result (self.new.waits ≡ wait_for word (is_listener self.old || may_listen turn.old.listening)) }
        ensures turn { turn.new ≡ record turn.old { shutdown = turn.old.shutdown || is_shutdown word } }
        ensures calls { GoesWithin D.device shared.old.most shared.old.engine shared.new.most shared.new.engine }
    {
        match word {
            OwnWord::Job(job) => self.show_job(shared, job)?,
            OwnWord::Queue(name) => self.show_queue(shared, &name)?,
            OwnWord::List(selection) => self.list(shared, &selection)?,
            OwnWord::Find(token) => self.find(shared, &token)?,
            OwnWord::Incoming => self.list_left(shared)?,
            OwnWord::Room => self.show_room(shared)?,
            OwnWord::Now => self.show_now(shared)?,
            OwnWord::Printers => self.show_queues(shared)?,
            OwnWord::Why(job) => self.show_why(shared, job)?,
            OwnWord::Wait(job) => self.wait_for(shared, job, &turn.listening)?,
            OwnWord::Watch => self.watch(shared, &turn.listening)?,
            OwnWord::WatchFrom(number) => self.watch_after(shared, number, &turn.listening)?,
            OwnWord::Stop(job) => self.stop_job(shared, job)?,
            OwnWord::CloseAs { job, name, media } => self.close_as(shared, job, name, media)?,
            OwnWord::CloseAt {
                job,
                size,
                name,
                media,
            } => self.close_at(shared, job, size, name, media)?,
            OwnWord::End(job) => {
                let ends = shared.endings.ask(&shared.engine, job)?;
                self.add(if ends { DONE } else { NO_JOB })?;
            }
            OwnWord::Shutdown => {
                turn.shutdown = true;
                self.add(DONE)?;
            }
            OwnWord::Challenge => self.offer_proof()?,
            OwnWord::Prove => self.examine_proof()?,
        }
        Ok(())
    }

    // Notes the job that it created, if an answer reports one.
    fn note_created(&mut self, answer: &Answer) -> Result<(), AllocError>
        ensures ok { OnOk result (self.new.standing ≡ with_answer self.old.standing answer.now) }
        ensures kept { self.new ≡ record self.old { standing = self.new.standing } }
    {
        match answer {
            Answer::Created(job) => self.standing.note_job(*job),
            _ => Ok(()),
        }
    }

    // Names a folder by which it may prove who it is.
    fn offer_proof(&mut self) -> Result<(), AllocError>
        ensures offered { OnOk result ((path : Option (List ℕ)) × GoesProving L.view self.old [] (offer_text path) (named path ∷ []) self.new) }
        ensures status { status_of self.new ≡ status_of self.old }
        ensures marked { IsMarked L.view self.old → IsMarked L.view self.new }
        ensures kept { self.new ≡ record self.old { connection = self.new.connection; replies = self.new.replies } }
    {
        let path = self.connection.challenge()?;
        push_offer(&mut self.replies, &path)?;
        Ok(())
    }

    // Examines the folder that it made, and notes who it is.
    fn examine_proof(&mut self) -> Result<(), AllocError>
        ensures proved { OnOk result ((who : Option Proved) × (self.new.standing ≡ with_proof self.old.standing who) ×
            GoesProving L.view self.old [] (proof_text who) (examined who ∷ []) self.new) }
        ensures marked { IsMarked L.view self.old → IsMarked L.view self.new }
        ensures kept { self.new ≡ record self.old { connection = self.new.connection; replies = self.new.replies; standing = self.new.standing } }
    {
        let who = self.connection.prove()?;
        push_proof(&mut self.replies, &who)?;
        self.standing.note_proof(who);
        Ok(())
    }

    // Appends the text of an answer over this table to its replies.
    pub(super) fn add_answer(&mut self, table: &Table, answer: &Answer) -> Result<(), AllocError>
        ensures added { OnOk result (IsAdded self.old (answer_text table.now.state answer.now) self.new) }
        ensures status { status_of self.new ≡ status_of self.old }
        ensures kept { self.new ≡ record self.old { replies = self.new.replies } }
    {
        append_answer(&mut self.replies, table, answer)
    }

    // Appends the text of an answer over this table to its replies, as far as it may see it.
    fn add_shown_answer(&mut self, table: &Table, answer: &Answer) -> Result<(), AllocError>
        ensures added { OnOk result (IsAdded self.old (shown_answer self.old.standing table.now.state answer.now) self.new) }
        ensures status { status_of self.new ≡ status_of self.old }
        ensures kept { self.new ≡ record self.old { replies = self.new.replies } }
    {
        append_shown_answer(&mut self.replies, table, answer, &self.standing)
    }
}
