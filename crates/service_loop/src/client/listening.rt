//! The answers to words after which the client listens: `wait` and `watch`.
ghost use Rattle.std.specs.Prelude.{◌≡◌, ◌&&◌, ◌||◌, ℕ, List, cond, true, None, Some, IfOk, OnOk};
ghost use Rattle.client_reader.specs.declared.ask.Ask.{Ask};
ghost use Rattle.client_roles.specs.RoleTable.{is_allowed};
ghost use Rattle.service_rules.specs.Listeners.{may_listen};
ghost use Rattle.service_texts.specs.declared.own_words.OwnWord.{OwnWord};
ghost use Rattle.service_loop.specs.AdmissionViews.{is_listener};
ghost use Rattle.service_loop.specs.ClientSteps.{IsAnswered};

use super::{Client, ClientFault};
use crate::connection::Connection;
use crate::shared::Shared;
use child_pipeline::Children;
use service_rules::{Listening, may_listen};
use spool_disk::Disk;
use spool_types::JobId;

const DONE: &[u8] = b"ok\n";

// The reply if no more clients may listen.
const BUSY: &[u8] = b"error busy\n";

impl<L: Connection> Client<L> {
    // Whether it listens already or may begin to.
    fn may_listen(&self, listening: &Listening) -> bool
        ensures { result ≡ (is_listener self.now || may_listen listening.now) }
    {
        self.is_listener() || may_listen(listening)
    }

    // Waits for the end of a job.
    pub(super) fn wait_for<D: Disk, C: Children>(
        &mut self,
        shared: &Shared<D, C>,
        job: JobId,
        listening: &Listening,
    ) -> Result<(), ClientFault>
        requires waits { self.old.waits ≡ None }
        requires role { is_allowed self.old.standing shared.now.engine.run_state.spool.state (Ask.Own (OwnWord.Wait job)) ≡ true }
        ensures done { OnOk result (IsAnswered D.device L.view shared.now.engine self.old (Ask.Own (OwnWord.Wait job)) shared.now.engine self.new) }
        ensures waits { OnOk result (self.new.waits ≡ cond (is_listener self.old || may_listen listening.now) (Some job) None) }
        ensures kept { self.new ≡ record self.old { replies = self.new.replies; waits = self.new.waits } }
    {
        if !self.may_listen(listening) {
            self.add(BUSY)?;
            return Ok(());
        }
        self.waits = Some(job);
        Ok(())
    }

    // Sends it all changes from now on.
    pub(super) fn watch<D: Disk, C: Children>(
        &mut self,
        shared: &Shared<D, C>,
        listening: &Listening,
    ) -> Result<(), ClientFault>
        requires waits { self.old.waits ≡ None }
        requires role { is_allowed self.old.standing shared.now.engine.run_state.spool.state (Ask.Own OwnWord.Watch) ≡ true }
        ensures done { OnOk result (IsAnswered D.device L.view shared.now.engine self.old (Ask.Own OwnWord.Watch) shared.now.engine self.new) }
        ensures watches { OnOk result (self.new.watches ≡ (self.old.watches || (is_listener self.old || may_listen listening.now))) }
        ensures kept { self.new ≡ record self.old { replies = self.new.replies; watches = self.new.watches } }
    {
        if !self.may_listen(listening) {
            self.add(BUSY)?;
            return Ok(());
        }
        self.watches = true;
        self.add(DONE)?;
        Ok(())
    }

    // Sends it what changed after this change, and all changes from now on, each group with the number of the last one.
    pub(super) fn watch_after<D: Disk, C: Children>(
        &mut self,
        shared: &Shared<D, C>,
        number: u64,
        listening: &Listening,
    ) -> Result<(), ClientFault>
        requires waits { self.old.waits ≡ None }
        requires role { is_allowed self.old.standing shared.now.engine.run_state.spool.state (Ask.Own (OwnWord.WatchFrom number)) ≡ true }
        ensures done { OnOk result (IsAnswered D.device L.view shared.now.engine self.old (Ask.Own (OwnWord.WatchFrom number)) shared.now.engine self.new) }
        ensures watches { OnOk result (self.new.watches ≡ (self.old.watches || (is_listener self.old || may_listen listening.now))) }
        ensures kept { self.new ≡ record self.old { replies = self.new.replies; watches = self.new.watches; counts = self.new.counts } }
    {
        if !self.may_listen(listening) {
            self.add(BUSY)?;
            return Ok(());
        }
        self.watch_from(shared, number)?;
        Ok(())
    }
}
