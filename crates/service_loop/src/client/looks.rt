//! The answers to words that look at jobs and queues.
ghost use Rattle.std.specs.Prelude.{◌≡◌, ℕ, List, OnOk};
ghost use Rattle.event_records.specs.SeenTimes.{job_times, queue_time};
ghost use Rattle.service_texts.specs.FoundTexts.{found_text};
ghost use Rattle.service_texts.specs.LeftJobs.{incoming_text};
ghost use Rattle.service_texts.specs.Listings.{listed_text};
ghost use Rattle.service_texts.specs.MeasuredTexts.{now_text};
ghost use Rattle.service_texts.specs.QueueShown.{IsShownQueue};
ghost use Rattle.service_texts.specs.Shown.{shown_job};
ghost use Rattle.queue_sayings.specs.QueueSayings.{all_queues_shown};
ghost use Rattle.wait_causes.specs.WaitCauses.{IsWhy};
ghost use Rattle.wait_causes.specs.declared.cause.ServiceFacts.{ServiceFacts as Facts};
ghost use Rattle.service_loop.specs.ClientActions.{moment_of};
ghost use Rattle.service_loop.specs.ClientSteps.{IsAdded, status_of};

use super::Client;
use crate::connection::Connection;
use crate::shared::Shared;
use child_pipeline::Children;
use queue_sayings::push_all_queues;
use service_texts::{Selection, TokenText, listed_text, push_now, shown_job, shown_queue};
use spool_disk::Disk;
use spool_types::{JobId, QueueName};
use std::alloc::AllocError;
use wait_causes::why_text;

impl<L: Connection> Client<L> {
    // Shows a job with all its fields and times, as it may see them.
    pub(super) fn show_job<D: Disk, C: Children>(
        &mut self,
        shared: &Shared<D, C>,
        job: JobId,
    ) -> Result<(), AllocError>
        ensures shown { OnOk result (IsAdded self.old (shown_job self.old.standing (job_times shared.now.records.seen) shared.now.engine.run_state.spool.state job) self.new) }
        ensures status { status_of self.new ≡ status_of self.old }
        ensures kept { self.new ≡ record self.old { replies = self.new.replies } }
    {
        let alloc = *self.replies.allocator();
        let table = shared.engine.table();
        let text = shown_job(alloc, table, &shared.records.seen, &self.standing, job)?;
        self.add(&text)
    }

    // Shows a queue with all its fields, as it may see them.
    pub(super) fn show_queue<D: Disk, C: Children>(
        &mut self,
        shared: &Shared<D, C>,
        name: &QueueName,
    ) -> Result<(), AllocError>
        ensures shown { OnOk result ((text : List ℕ) × IsShownQueue self.old.standing (queue_time shared.now.records.seen name.now) shared.now.engine.run_state.spool.state name.now text × IsAdded self.old text self.new) }
        ensures status { status_of self.new ≡ status_of self.old }
        ensures kept { self.new ≡ record self.old { replies = self.new.replies } }
    {
        let alloc = *self.replies.allocator();
        let table = shared.engine.table();
        let text = shown_queue(alloc, table, &shared.records.seen, &self.standing, name)?;
        self.add(&text)
    }

    // Shows all queues, as it may see them.
    pub(super) fn show_queues<D: Disk, C: Children>(
        &mut self,
        shared: &Shared<D, C>,
    ) -> Result<(), AllocError>
        ensures shown { OnOk result (IsAdded self.old (all_queues_shown self.old.standing shared.now.engine.run_state.spool.state) self.new) }
        ensures status { status_of self.new ≡ status_of self.old }
        ensures kept { self.new ≡ record self.old { replies = self.new.replies } }
    {
        push_all_queues(&mut self.replies, shared.engine.table(), &self.standing)
    }

    // Shows why a job does not print.
    pub(super) fn show_why<D: Disk, C: Children>(
        &mut self,
        shared: &Shared<D, C>,
        job: JobId,
    ) -> Result<(), AllocError>
        ensures shown { OnOk result ((facts : Facts) × (text : List ℕ) × IsWhy facts shared.now.engine.run_state.spool.state job text × IsAdded self.old text self.new) }
        ensures status { status_of self.new ≡ status_of self.old }
        ensures kept { self.new ≡ record self.old { replies = self.new.replies } }
    {
        let alloc = *self.replies.allocator();
        let facts = shared.facts_of(job);
        let text = why_text(alloc, shared.engine.table(), job, facts)?;
        self.add(&text)
    }

    // Lists a piece of the jobs, as it may see them.
    pub(super) fn list<D: Disk, C: Children>(
        &mut self,
        shared: &Shared<D, C>,
        selection: &Selection,
    ) -> Result<(), AllocError>
        ensures shown { OnOk result (IsAdded self.old (listed_text self.old.standing (job_times shared.now.records.seen) selection.now shared.now.engine.run_state.spool.state) self.new) }
        ensures status { status_of self.new ≡ status_of self.old }
        ensures kept { self.new ≡ record self.old { replies = self.new.replies } }
    {
        let alloc = *self.replies.allocator();
        let table = shared.engine.table();
        let text = listed_text(
            alloc,
            table,
            &shared.records.seen,
            &self.standing,
            selection,
        )?;
        self.add(&text)
    }

    // Finds the job of a token.
    pub(super) fn find<D: Disk, C: Children>(
        &mut self,
        shared: &Shared<D, C>,
        token: &TokenText,
    ) -> Result<(), AllocError>
        ensures found { OnOk result (IsAdded self.old (found_text shared.now.known.tokens shared.now.engine.run_state.spool.state token.now) self.new) }
        ensures status { status_of self.new ≡ status_of self.old }
        ensures kept { self.new ≡ record self.old { replies = self.new.replies } }
    {
        let alloc = *self.replies.allocator();
        let text = shared
            .known
            .tokens
            .found_text(alloc, shared.engine.table(), token)?;
        self.add(&text)
    }

    // Shows the moment of the service, or that of the table if the clock cannot be read.
    pub(super) fn show_now<D: Disk, C: Children>(
        &mut self,
        shared: &Shared<D, C>,
    ) -> Result<(), AllocError>
        ensures shown { OnOk result (IsAdded self.old (now_text (moment_of shared.now.records.now shared.now.engine.run_state.spool.state)) self.new) }
        ensures status { status_of self.new ≡ status_of self.old }
        ensures kept { self.new ≡ record self.old { replies = self.new.replies } }
    {
        let table = shared.engine.table().now();
        push_now(&mut self.replies, shared.records.now.unwrap_or(table).get())
    }

    // Lists the incoming jobs whose clients have disconnected, with their age.
    pub(super) fn list_left<D: Disk, C: Children>(
        &mut self,
        shared: &Shared<D, C>,
    ) -> Result<(), AllocError>
        ensures shown { OnOk result (IsAdded self.old (incoming_text shared.now.known.now shared.now.engine.run_state.spool.state shared.now.known.left) self.new) }
        ensures status { status_of self.new ≡ status_of self.old }
        ensures kept { self.new ≡ record self.old { replies = self.new.replies } }
    {
        let alloc = *self.replies.allocator();
        let text = shared
            .known
            .left
            .text(alloc, shared.engine.table(), shared.known.now)?;
        self.add(&text)
    }
}
