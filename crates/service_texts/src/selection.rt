//! The jobs that a listing shows.
ghost use Rattle.std.specs.Prelude.{◌≡◌, ◌≤◌, IfOk, Some, None, true, false, map};
ghost use Rattle.line_words.specs.WordFields.{bytes_of};
ghost use Rattle.service_texts.specs.Selections.{all_jobs, selection_in, with_key, with_queue, with_state, with_user, with_from, with_most, from_of, most_of};

use command_lines::{job_number, ranged_number};
use line_words::Word;
use spool_types::{JobId, QueueName, Ranged, UserName};
use std::alloc::{AllocError, Global};

/// The number of a job's state (job-state, RFC 8011).
pub type StateNumber = Ranged<3, 9>;

/// The number of jobs in a piece of a listing.
pub type PieceLength = Ranged<1, 100>;

/// The jobs that a listing shows: those that match, from a number on, up to a maximum number.
#[derive(Drop)]
pub struct Selection {
    pub queue: Option<QueueName>,
    pub state: Option<StateNumber>,
    pub user: Option<UserName>,
    pub from: Option<JobId>,
    pub most: Option<PieceLength>,
}

impl Selection {
    /// All jobs.
    pub fn all() -> Selection
        ensures { result ≡ all_jobs }
    {
        Selection {
            queue: None,
            state: None,
            user: None,
            from: None,
            most: None,
        }
    }

    /// The number of the first job that may be shown.
    pub fn from(&self) -> u32
        ensures value { result ≡ from_of self.now }
        ensures at_least { 1 ≤ result }
    {
        match self.from {
            Some(job) => job.get(),
            None => 1,
        }
    }

    /// The most jobs that are shown.
    pub fn most(&self) -> u32
        ensures { result ≡ most_of self.now }
    {
        match self.most {
            Some(most) => most.get(),
            None => 50,
        }
    }

    // Adds a key with its value. Returns false if there is no such key, if it has a value already, or if this is no value of it.
    fn add(&mut self, alloc: Global, key: &[u8], value: &[u8]) -> Result<bool, AllocError>
        ensures added { IfOk result (λ added. added ≡ true → with_key self.old key.now value.now ≡ Some self.new) }
        ensures refused { IfOk result (λ added. added ≡ false → with_key self.old key.now value.now ≡ None) }
    {
        if key == b"queue".as_slice() {
            return self.add_queue(alloc, value);
        }
        if key == b"state".as_slice() {
            return Ok(self.add_state(value));
        }
        if key == b"user".as_slice() {
            return self.add_user(alloc, value);
        }
        if key == b"from".as_slice() {
            return Ok(self.add_from(value));
        }
        if key == b"most".as_slice() {
            return Ok(self.add_most(value));
        }
        Ok(false)
    }

    fn add_queue(&mut self, alloc: Global, value: &[u8]) -> Result<bool, AllocError>
        ensures added { IfOk result (λ added. added ≡ true → with_queue self.old value.now ≡ Some self.new) }
        ensures refused { IfOk result (λ added. added ≡ false → with_queue self.old value.now ≡ None) }
    {
        if self.queue.is_some() {
            return Ok(false);
        }
        self.queue = QueueName::from_word(alloc, value)?;
        Ok(self.queue.is_some())
    }

    fn add_state(&mut self, value: &[u8]) -> bool
        ensures added { result ≡ true → with_state self.old value.now ≡ Some self.new }
        ensures refused { result ≡ false → with_state self.old value.now ≡ None }
    {
        if self.state.is_some() {
            return false;
        }
        self.state = ranged_number(value);
        self.state.is_some()
    }

    fn add_user(&mut self, alloc: Global, value: &[u8]) -> Result<bool, AllocError>
        ensures added { IfOk result (λ added. added ≡ true → with_user self.old value.now ≡ Some self.new) }
        ensures refused { IfOk result (λ added. added ≡ false → with_user self.old value.now ≡ None) }
    {
        if self.user.is_some() {
            return Ok(false);
        }
        self.user = UserName::from_word(alloc, value)?;
        Ok(self.user.is_some())
    }

    fn add_from(&mut self, value: &[u8]) -> bool
        ensures added { result ≡ true → with_from self.old value.now ≡ Some self.new }
        ensures refused { result ≡ false → with_from self.old value.now ≡ None }
    {
        if self.from.is_some() {
            return false;
        }
        self.from = job_number(value);
        self.from.is_some()
    }

    fn add_most(&mut self, value: &[u8]) -> bool
        ensures added { result ≡ true → with_most self.old value.now ≡ Some self.new }
        ensures refused { result ≡ false → with_most self.old value.now ≡ None }
    {
        if self.most.is_some() {
            return false;
        }
        self.most = ranged_number(value);
        self.most.is_some()
    }
}

/// The selection in the words after `list`: each key at most once, with its value.
pub(crate) fn selection_in(
    alloc: Global,
    words: &[Word<'_>],
) -> Result<Option<Selection>, AllocError>
    ensures { IfOk result (λ selection. selection ≡ selection_in all_jobs (map bytes_of words.now)) }
{
    let mut selection = Selection::all();
    let mut rest = words;
    loop {
        match rest {
            [] => return Ok(Some(selection)),
            [_] => return Ok(None),
            [key, value, others @ ..] => {
                if !selection.add(alloc, key.bytes(), value.bytes())? {
                    return Ok(None);
                }
                rest = others;
            }
        }
    }
}
