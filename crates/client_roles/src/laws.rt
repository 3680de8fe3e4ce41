//! Laws on the table of roles. The functions do nothing: their clauses are the laws.
ghost use Rattle.std.specs.Prelude.{◌≡◌, ℕ, List, true, false, Some};
ghost use Rattle.spool_types.specs.State.{State, Job, job_at};
ghost use Rattle.client_reader.specs.declared.ask.Ask.{Ask as AskOf};
ghost use Rattle.client_standing.specs.ClientStanding.{ClientStanding, has_made, is_operator, owns};
ghost use Rattle.client_standing.specs.declared.caller.Caller.TheVariants.{User, Unproved};
ghost use Rattle.client_standing.specs.declared.rules.Trust.TheVariants as trusts;
ghost use Rattle.client_roles.specs.RoleTable.{concerns, creates, is_allowed, looks, operates, request_of};

/// A client that is no operator changes nothing of others.
pub fn others_jobs_are_kept()
    // It changes only a job of its own.
    ensures others { (c : ClientStanding) (s : State) (ask : AskOf) (j : ℕ) (r : Job) → is_operator c ≡ false → request_of ask ≡ concerns j → job_at s j ≡ Some r →
        is_allowed c s ask ≡ owns c r }
    // An unproved client that is not trusted changes only a job that it created over its connection.
    ensures strangers { (c : ClientStanding) (s : State) (ask : AskOf) (j : ℕ) (r : Job) → c.caller ≡ Unproved → c.rules.trust ≡ trusts.None → request_of ask ≡ concerns j → job_at s j ≡ Some r →
        is_allowed c s ask ≡ has_made c.made r.id }
    // A user creates jobs under its own name alone.
    ensures names { (c : ClientStanding) (s : State) (ask : AskOf) (own name : List ℕ) → c.caller ≡ User own → request_of ask ≡ creates name → is_allowed c s ask ≡ true → own ≡ name }
    // It changes no queue, neither time nor service, and runs nothing.
    ensures service { (c : ClientStanding) (s : State) (ask : AskOf) → request_of ask ≡ operates → is_allowed c s ask ≡ is_operator c }
{}

/// An operator may request everything, and each client may look.
pub fn operators_are_denied_nothing()
    ensures operators { (c : ClientStanding) (s : State) (ask : AskOf) → is_operator c ≡ true → is_allowed c s ask ≡ true }
    ensures looks { (c : ClientStanding) (s : State) (ask : AskOf) → request_of ask ≡ looks → is_allowed c s ask ≡ true }
{}
