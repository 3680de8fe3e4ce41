//! Laws on what a queue shows. The functions do nothing: their clauses are the laws.
ghost use Rattle.std.specs.Prelude.{◌≡◌, ℕ, Bool, true, false, List, [], None, filter};
ghost use Rattle.client_standing.specs.ClientStanding.{ClientStanding, sees_all};
ghost use Rattle.command_lines.specs.Replies.{queue_text};
ghost use Rattle.job_table.specs.Attempts.{busy_of};
ghost use Rattle.spool_types.specs.State.{State};
ghost use Rattle.spool_types.specs.declared.rows.QueueRow.{QueueRow as Row};
ghost use Rattle.queue_sayings.specs.QueueSayings.{is_lasting, shown_message, shown_queue_line, shown_reasons};

/// A queue in which no attempt runs shows nothing of its attempts but the lasting reasons and its attributes.
pub fn ended_attempts_are_silent()
    ensures { (c : ClientStanding) (s : State) (q : Row) → busy_of s q.name ≡ None → shown_queue_line c s q ≡ queue_text false (record q { reasons = filter is_lasting q.reasons; message = [] }) }
{}

/// While an attempt runs of which a stage has ended, everything is shown to a client that sees all titles.
pub fn running_attempts_are_shown()
    ensures reasons { (reasons : List (List ℕ)) → shown_reasons true reasons ≡ reasons }
    ensures message { (c : ClientStanding) (message : List ℕ) → sees_all c ≡ true → shown_message c true message ≡ message }
{}

/// The lasting reasons are always shown, in their order.
pub fn lasting_reasons_stay()
    ensures { (spoken : Bool) (reasons : List (List ℕ)) → filter is_lasting (shown_reasons spoken reasons) ≡ filter is_lasting reasons }
{}

/// What a client that does not see all titles is shown of a queue does not depend on the message.
pub fn messages_are_for_those_who_see_all()
    ensures { (c : ClientStanding) (s : State) (q : Row) (message : List ℕ) → sees_all c ≡ false → shown_queue_line c s (record q { message = message }) ≡ shown_queue_line c s q }
{}
