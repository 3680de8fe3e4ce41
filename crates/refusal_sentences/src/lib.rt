//! The sentences for people about the refusals and errors in the replies of a service (cegmandi_protocol(5)).
//!
//! # Promises
//!
//! - [`sentence_of`] returns the sentence of a reply by two tables, with one row for each refusal and each error (`RefusalSentences`). A
//!   reply that is in neither is its own sentence, so that the words of a newer service are not lost.
//!
//! # Errors
//!
//! There are none: nothing is allocated.
#![tactic(auto)]

ghost use Rattle.std.specs.Prelude.{◌≡◌};
ghost use Rattle.std.specs.Option.{option_map};
ghost use Rattle.refusal_sentences.specs.RefusalSentences.{error_sentence, refusal_sentence, sentence_of};

/// Returns the sentence about the last line of a reply, `error N NAME` or `error WORD`, without its line feed. Any other line is returned
/// as it is.
pub fn sentence_of(reply: &str) -> &str
    ensures { result.now ≡ sentence_of reply.now }
{
    if let Some(sentence) = refusal_sentence(reply) {
        return sentence;
    }
    match error_sentence(reply) {
        Some(sentence) => sentence,
        None => reply,
    }
}

fn refusal_sentence(reply: &str) -> Option<&'static str>
    ensures { option_map (λ text. text.now) result ≡ refusal_sentence reply.now }
{
    match reply {
        "error 1 NoQueue" => Some("no such queue (spool queues lists the queues)"),
        "error 2 QueueExists" => Some("a queue with this name exists"),
        "error 3 TooManyQueues" => Some("the spool has 64 queues already"),
        "error 4 NotAccepting" => Some(
            "the queue rejects jobs (spool queue accept lets it accept them)",
        ),
        "error 5 NoJob" => Some("no such job (spool status lists the jobs)"),
        "error 6 NotIncoming" => Some("the document of the job is complete"),
        "error 7 TooLong" => Some("the document is longer than 16,777,216 bytes"),
        "error 8 OldNumber" => Some("the number of the job is not new"),
        "error 9 NoNumberLeft" => Some(
            "the spool has given its last job number (start a new spool)",
        ),
        "error 10 JobEnded" => Some("the job has ended"),
        "error 11 NotWaiting" => Some("the job is printing"),
        "error 12 NotNext" => Some("another job is next"),
        "error 13 NotProcessing" => Some("the job is not printing"),
        "error 14 WrongStage" => Some("another stage of the job is running"),
        "error 15 NotHeld" => Some("the job is not held"),
        "error 16 NotEnded" => Some(
            "the job has not ended (cancel it, or wait until it has printed)",
        ),
        "error 17 NeedsCheckpoint" => Some(
            "the spool has an older version (spool say checkpoint brings it to the newest)",
        ),
        _ => None,
    }
}

fn error_sentence(reply: &str) -> Option<&'static str>
    ensures { option_map (λ text. text.now) result ≡ error_sentence reply.now }
{
    match reply {
        "error syntax" => Some("the service does not know the command, or a text is too long"),
        "error uri" => Some(
            "the URI of the device is not absolute (write it as in socket://192.0.2.9/)",
        ),
        "error options" => Some(
            "the options are invalid, or longer than 2,048 bytes (quote values with blanks)",
        ),
        "error memory" => Some("the service is out of memory (try again)"),
        "error full" => Some("the spool is full (see spool_service(8), A full spool)"),
        "error epoch" => Some("the spool has had its last checkpoint (start a new spool)"),
        "error disk" => Some("the device of the spool failed (see the log of the service)"),
        "error dead" => Some("the device of the spool failed (see the log of the service)"),
        "error job" => Some("no such job, or none of its programs runs"),
        "error queue" => Some("no such queue (spool queues lists the queues)"),
        "error denied" => Some("the service denies it (see spool_service(8), Roles)"),
        "error proof" => Some("the service takes no proof of the user"),
        "error busy" => Some("the service is busy (try again)"),
        _ => None,
    }
}
