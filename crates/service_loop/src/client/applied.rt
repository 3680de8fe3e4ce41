//! The answers to the words that a service serves by its engine or by its records.
ghost use Rattle.std.specs.Prelude.{◌≡◌, ℕ, List, true, None, OnOk};
ghost use Rattle.client_reader.specs.declared.ask.Ask.{Ask};
ghost use Rattle.client_roles.specs.RoleTable.{is_allowed};
ghost use Rattle.event_records.specs.NumberedChanges.{NumberedChanges};
ghost use Rattle.service_texts.specs.MeasuredTexts.{room_text};
ghost use Rattle.service_texts.specs.Notices.{watch_text};
ghost use Rattle.service_texts.specs.declared.own_words.OwnWord.{OwnWord};
ghost use Rattle.service_loop.specs.ServiceCalls.{GoesWithin};
ghost use Rattle.service_loop.specs.Progress.{IsMarked};
ghost use Rattle.service_loop.specs.ClientSteps.{IsAdded, IsAnswered, status_of};
ghost use Rattle.service_loop.specs.TakenRoom.{room_for};

use super::{Client, ClientFault};
use crate::connection::Connection;
use crate::shared::Shared;
use child_pipeline::Children;
use service_rules::bounds::LONGEST_DOCUMENT;
use service_texts::{has_other_size, push_room};
use spool_disk::Disk;
use spool_types::{FileName, JobId, MediaType};
use std::alloc::AllocError;

// The reply to `closeat` if the job is incoming and its document has another size.
const OTHER_SIZE: &[u8] = b"error size\n";

impl<L: Connection> Client<L> {
    // Cancels a job, and has its running child end.
    pub(super) fn stop_job<D: Disk, C: Children>(
        &mut self,
        shared: &mut Shared<D, C>,
        job: JobId,
    ) -> Result<(), ClientFault>
        requires waits { self.old.waits ≡ None }
        requires role { is_allowed self.old.standing shared.old.engine.run_state.spool.state (Ask.Own (OwnWord.Stop job)) ≡ true }
        ensures done { OnOk result (IsAnswered D.device L.view shared.old.engine self.old (Ask.Own (OwnWord.Stop job)) shared.new.engine self.new) }
        ensures marked { IsMarked L.view self.old → IsMarked L.view self.new }
        ensures kept { self.new ≡ record self.old { replies = self.new.replies } }
        ensures calls { GoesWithin D.device shared.old.most shared.old.engine shared.new.most shared.new.engine }
    {
        let answer = shared.stop(job)?;
        self.add_answer(shared.engine.table(), &answer)?;
        Ok(())
    }

    // Closes a job as a document of this type.
    pub(super) fn close_as<D: Disk, C: Children>(
        &mut self,
        shared: &mut Shared<D, C>,
        job: JobId,
        name: FileName,
        media: MediaType,
    ) -> Result<(), ClientFault>
        requires waits { self.old.waits ≡ None }
        requires role { is_allowed self.old.standing shared.old.engine.run_state.spool.state (Ask.Own (OwnWord.CloseAs job name media)) ≡ true }
        ensures done { OnOk result (IsAnswered D.device L.view shared.old.engine self.old (Ask.Own (OwnWord.CloseAs job name media)) shared.new.engine self.new) }
        ensures marked { IsMarked L.view self.old → IsMarked L.view self.new }
        ensures kept { self.new ≡ record self.old { replies = self.new.replies } }
        ensures calls { GoesWithin D.device shared.old.most shared.old.engine shared.new.most shared.new.engine }
    {
        drop(name);
        let answer = shared.close_as(job, media)?;
        self.add_answer(shared.engine.table(), &answer)?;
        Ok(())
    }

    // Closes a job if its document has this size.
    pub(super) fn close_at<D: Disk, C: Children>(
        &mut self,
        shared: &mut Shared<D, C>,
        job: JobId,
        size: u64,
        name: FileName,
        media: Option<MediaType>,
    ) -> Result<(), ClientFault>
        requires waits { self.old.waits ≡ None }
        requires role { is_allowed self.old.standing shared.old.engine.run_state.spool.state (Ask.Own (OwnWord.CloseAt job size name media)) ≡ true }
        ensures done { OnOk result (IsAnswered D.device L.view shared.old.engine self.old (Ask.Own (OwnWord.CloseAt job size name media)) shared.new.engine self.new) }
        ensures marked { IsMarked L.view self.old → IsMarked L.view self.new }
        ensures kept { self.new ≡ record self.old { replies = self.new.replies } }
        ensures calls { GoesWithin D.device shared.old.most shared.old.engine shared.new.most shared.new.engine }
    {
        if has_other_size(shared.engine.table(), job, size) {
            drop(name);
            drop(media);
            self.add(OTHER_SIZE)?;
            return Ok(());
        }
        let answer = shared.close(job, name, media)?;
        self.add_answer(shared.engine.table(), &answer)?;
        Ok(())
    }

    // Shows the length of the longest document that is let in now. If a longer one is allowed, a checkpoint may make room for it.
    pub(super) fn show_room<D: Disk, C: Children>(
        &mut self,
        shared: &mut Shared<D, C>,
    ) -> Result<(), ClientFault>
        requires waits { self.old.waits ≡ None }
        requires role { is_allowed self.old.standing shared.old.engine.run_state.spool.state (Ask.Own OwnWord.Room) ≡ true }
        ensures done { OnOk result (IsAnswered D.device L.view shared.old.engine self.old (Ask.Own OwnWord.Room) shared.new.engine self.new) }
        ensures shown { OnOk result (IsAdded self.old (room_text (room_for shared.old.area shared.old.engine.run_state)) self.new) }
        ensures marked { IsMarked L.view self.old → IsMarked L.view self.new }
        ensures kept { self.new ≡ record self.old { replies = self.new.replies } }
        ensures engine { shared.new ≡ record shared.old { full = shared.new.full } }
        ensures calls { GoesWithin D.device shared.old.most shared.old.engine shared.new.most shared.new.engine }
    {
        let bytes = shared.room_for_document();
        shared.full = shared.full | (bytes < LONGEST_DOCUMENT);
        push_room(&mut self.replies, bytes)?;
        Ok(())
    }

    // Sends what changed after a change, and all changes from now on, each group with the number of the last one.
    pub(super) fn watch_from<D: Disk, C: Children>(
        &mut self,
        shared: &Shared<D, C>,
        number: u64,
    ) -> Result<(), AllocError>
        ensures added { OnOk result ((changes : NumberedChanges) × IsAdded self.old (watch_text self.old.standing shared.now.engine.run_state.spool.state changes number) self.new) }
        ensures watches { self.new.watches ≡ true }
        ensures status { status_of self.new ≡ status_of self.old }
        ensures kept { self.new ≡ record self.old { replies = self.new.replies; watches = self.new.watches; counts = self.new.counts } }
    {
        self.watches = true;
        self.counts = true;
        shared.push_changes_since(&mut self.replies, number, &self.standing)
    }
}
