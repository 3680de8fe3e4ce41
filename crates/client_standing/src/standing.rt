//! A client of a service, as far as its rights depend on it.
ghost use Rattle.std.specs.Prelude.{◌≡◌, OnOk, OnErr};
ghost use Rattle.client_standing.specs.ClientStanding.{first_standing, is_operator, owns, sees_all, shows, shows_uri, with_job, with_proof};

use crate::caller::{Caller, Proved};
use crate::made_jobs::MadeJobs;
use crate::rules::RoleRules;
use spool_types::{Job, JobId};
use std::alloc::{AllocError, Global};
use std::marker::Model;
use std::mem;

/// The rules for a client, who it is, and the jobs that it created over its connection.
#[derive(Drop)]
pub struct Standing {
    rules: RoleRules,
    caller: Caller,
    made: MadeJobs,
}

impl Model for Standing {
    ghost use Rattle.client_standing.specs.ClientStanding.{ClientStanding};

    ghost Value = { ClientStanding };

    ghost view = { λ a. record { rules = a.rules; caller = a.caller; made = a.made } };
}

impl Standing {
    /// A client that has proved nothing yet. Does not allocate.
    pub fn new(alloc: Global, rules: RoleRules, is_operators: bool) -> Standing
        ensures { result ≡ first_standing rules is_operators }
    {
        Standing {
            rules,
            caller: Caller::first(is_operators),
            made: MadeJobs::new(alloc),
        }
    }

    pub fn caller(&self) -> &Caller
        ensures { result.now ≡ self.now.caller }
    {
        &self.caller
    }

    /// The jobs that it created over its connection.
    pub fn made(&self) -> &MadeJobs
        ensures { result.now ≡ self.now.made }
    {
        &self.made
    }

    /// Whether it may do everything.
    pub fn is_operator(&self) -> bool
        ensures { result ≡ is_operator self.now }
    {
        self.caller.is_operator(self.rules.trust)
    }

    /// Whether the job is its own: it is of the user that the client has proved to be, or the client created it over its connection.
    pub fn owns(&self, job: &Job) -> bool
        ensures { result ≡ owns self.now job.now }
    {
        self.caller.is_user(&job.user) || self.made.has(job.id)
    }

    /// Whether title, user and options of each job are shown to it.
    pub fn sees_all(&self) -> bool
        ensures { result ≡ sees_all self.now }
    {
        self.rules.show_all || self.is_operator()
    }

    /// Whether title, user and options of this job are shown to it.
    pub fn shows(&self, job: &Job) -> bool
        ensures { result ≡ shows self.now job.now }
    {
        self.sees_all() || self.owns(job)
    }

    /// Whether the URI of a queue is shown to it.
    pub fn shows_uri(&self) -> bool
        ensures { result ≡ shows_uri self.now }
    {
        self.is_operator()
    }

    /// Notes a job that it created.
    pub fn note_job(&mut self, job: JobId) -> Result<(), AllocError>
        ensures ok { OnOk result (self.new ≡ with_job self.old job) }
        ensures err { OnErr result (self.new ≡ self.old) }
    {
        self.made.note(job)
    }

    /// Notes the result of a proof. A failed one changes nothing.
    pub fn note_proof(&mut self, proved: Option<Proved>)
        ensures { self.new ≡ with_proof self.old proved }
    {
        if let Some(proved) = proved {
            drop(mem::replace(&mut self.caller, Caller::of(proved)));
        }
    }
}
