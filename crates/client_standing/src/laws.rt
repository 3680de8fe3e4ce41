//! Laws on owners. The functions do nothing: their clauses are the laws.
ghost use Rattle.std.specs.Prelude.{◌≡◌, ◌⊎◌, ℕ, List, true, false};
ghost use Rattle.spool_types.specs.State.{Job};
ghost use Rattle.client_standing.specs.ClientStanding.{ClientStanding, has_made, is_operator, owns, shows};
ghost use Rattle.client_standing.specs.declared.caller.Caller.TheVariants.{User, Unproved};

/// An owner is decided by the user of the job and the proved name, or by the connection that created the job.
pub fn users_own_by_proof()
    ensures proved { (c : ClientStanding) (r : Job) → owns c r ≡ true → has_made c.made r.id ≡ false → c.caller ≡ User r.user }
    ensures unproved { (c : ClientStanding) (r : Job) → c.caller ≡ Unproved → owns c r ≡ has_made c.made r.id }
{}

/// A job is shown to nobody but operators and its owner, unless the rules show all.
pub fn strangers_see_nothing()
    ensures { (c : ClientStanding) (r : Job) → c.rules.show_all ≡ false → is_operator c ≡ false → shows c r ≡ owns c r }
{}
