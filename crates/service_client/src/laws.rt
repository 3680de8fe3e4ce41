//! Laws on replies and their commands. The functions do nothing: their clauses are the laws.
ghost use Rattle.std.specs.Prelude.{◌≡◌, ℕ, List, ◌++◌, map};
ghost use Rattle.service_client.specs.Pipelines.{Standing};
ghost use Rattle.service_client.specs.PipelineRuns.{Call, IsOneConnection, IsRun, asked_in, bytes_in, nothing, outcomes_in, replies_in};
ghost use Rattle.service_client.specs.Replies.{Cuts, IsPartial, ReplyText};

/// A stream has only one reading: no other replies, and no other rest, are its bytes.
pub fn one_reading()
    ensures { (bytes : List ℕ) (replies others : List ReplyText) (rest other : List ℕ) → Cuts bytes replies rest → Cuts bytes others other →
        (replies ≡ others) }
{}

/// Reply k belongs to command k, over every list of calls, whatever the pieces, and whenever connections are lost.
pub fn in_order<T>()
    // Each command has exactly one outcome, its reply or its loss, in the order of the commands, or still waits for it.
    ensures outcomes { (calls : List (Call T)) (end : Standing T) → IsRun nothing calls end →
        map (λ outcome. outcome.tag) (outcomes_in calls) ++ end.tags ≡ asked_in calls }

    // Over one connection the replies are those of the bytes that have come, and no others.
    ensures replies { (calls : List (Call T)) (end : Standing T) → IsRun nothing calls end → IsOneConnection calls → IsPartial end.rest →
        Cuts (bytes_in calls) (replies_in calls) end.rest }
{}
