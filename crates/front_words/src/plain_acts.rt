//! Actions that need nothing but a job's number.
ghost use Rattle.std.specs.Prelude.{◌≡◌, ◌++◌, codes};
ghost use Rattle.front_words.specs.PlainActs.{act_named, word_for};

/// An action on a job whose task has no options. Its task and its command of the service have the same word.
#[derive(Clone, Copy)]
pub enum PlainAct {
    /// Release the held job.
    Release,
    /// Remove the ended job.
    Purge,
    /// Terminate the running filter or backend of the job, so that its queue continues.
    End,
}

impl PlainAct {
    /// Returns its word.
    pub fn word(self) -> &'static str
        ensures { result.now ≡ word_for self }
    {
        match self {
            PlainAct::Release => "release",
            PlainAct::Purge => "purge",
            PlainAct::End => "end",
        }
    }

    // Returns the name of its task, and what the task does.
    pub(crate) fn task_and_purpose<'a>(self) -> (&'a str, &'a str)
        ensures { result.0.now ≡ codes "spool " ++ word_for self }
    {
        match self {
            PlainAct::Release => ("spool release", "Release held jobs"),
            PlainAct::Purge => ("spool purge", "Remove jobs that have ended"),
            PlainAct::End => (
                "spool end",
                "Terminate the running filter or backend of jobs",
            ),
        }
    }
}

// Returns the action with this word.
pub(crate) fn act_named(word: &str) -> Option<PlainAct>
    ensures { result ≡ act_named word.now }
{
    if word == PlainAct::Release.word() {
        Some(PlainAct::Release)
    } else if word == PlainAct::Purge.word() {
        Some(PlainAct::Purge)
    } else if word == PlainAct::End.word() {
        Some(PlainAct::End)
    } else {
        None
    }
}
