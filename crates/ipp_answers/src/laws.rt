//! Laws about the answers, and examples of them.
ghost use Rattle.ipp_answers.specs.JobAnswerLaws.{AreHidden, LpstatAsks, AllJobRows};
ghost use Rattle.ipp_answers.specs.JobStates.{AreReasons};

/// Each reason is read back from its word. The service shows one of these words with each phase of a job, and the job-state that follows
/// from the word is that which the service shows.
pub fn reasons_follow_phases()
    ensures { AreReasons }
{}

/// The answer about a job whose owner is hidden does not depend on its title.
pub fn hidden_titles_are_not_answered()
    ensures { AreHidden }
{}

/// The attributes of jobs that are returned to `lpstat`, and those for the keywords of groups.
pub fn examples_of_job_requests()
    ensures lpstat { LpstatAsks }
    ensures groups { AllJobRows }
{}
