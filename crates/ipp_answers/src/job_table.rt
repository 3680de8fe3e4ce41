//! The attributes of jobs, each with its source.
ghost use Rattle.std.specs.Prelude.{◌≡◌, map};
ghost use Rattle.ipp_answers.specs.JobRows.{job_rows};
ghost use Rattle.ipp_answers.specs.JobSources.{stated};
ghost use Rattle.ipp_answers.specs.declared.facts.JobFacts.{JobFacts};
ghost use Rattle.ipp_answers.specs.declared.facts.Server.{Server};

use crate::job_sources::JobSource::{
    Address, Charset, Date, Format, HoldUntil, HoldUntilTime, Number, Seconds, State, StateMessage,
    StateReasons, Title, UpTime, User,
};
use crate::job_sources::{JobAddress, JobNumber, JobRow, JobTime};
use requested_attributes::AttributeGroup;

static JOB: [JobRow<'static>; 26] = [
    JobRow {
        name: "attributes-charset",
        group: AttributeGroup::JobDescription,
        source: Charset,
    },
    JobRow {
        name: "copies",
        group: AttributeGroup::JobTemplate,
        source: Number(JobNumber::Copies),
    },
    JobRow {
        name: "date-time-at-completed",
        group: AttributeGroup::JobDescription,
        source: Date(JobTime::Completion),
    },
    JobRow {
        name: "date-time-at-creation",
        group: AttributeGroup::JobDescription,
        source: Date(JobTime::Creation),
    },
    JobRow {
        name: "date-time-at-processing",
        group: AttributeGroup::JobDescription,
        source: Date(JobTime::Processing),
    },
    JobRow {
        name: "document-format",
        group: AttributeGroup::JobDescription,
        source: Format,
    },
    JobRow {
        name: "job-hold-until",
        group: AttributeGroup::JobTemplate,
        source: HoldUntil,
    },
    JobRow {
        name: "job-hold-until-time",
        group: AttributeGroup::JobTemplate,
        source: HoldUntilTime,
    },
    JobRow {
        name: "job-id",
        group: AttributeGroup::JobDescription,
        source: Number(JobNumber::Id),
    },
    JobRow {
        name: "job-impressions-completed",
        group: AttributeGroup::JobDescription,
        source: Number(JobNumber::Impressions),
    },
    JobRow {
        name: "job-k-octets",
        group: AttributeGroup::JobDescription,
        source: Number(JobNumber::KiloOctets),
    },
    JobRow {
        name: "job-more-info",
        group: AttributeGroup::JobDescription,
        source: Address(JobAddress::Page),
    },
    JobRow {
        name: "job-name",
        group: AttributeGroup::JobDescription,
        source: Title,
    },
    JobRow {
        name: "job-originating-user-name",
        group: AttributeGroup::JobDescription,
        source: User,
    },
    JobRow {
        name: "job-printer-up-time",
        group: AttributeGroup::JobDescription,
        source: UpTime,
    },
    JobRow {
        name: "job-printer-uri",
        group: AttributeGroup::JobDescription,
        source: Address(JobAddress::Printer),
    },
    JobRow {
        name: "job-priority",
        group: AttributeGroup::JobTemplate,
        source: Number(JobNumber::Priority),
    },
    JobRow {
        name: "job-state",
        group: AttributeGroup::JobDescription,
        source: State,
    },
    JobRow {
        name: "job-state-message",
        group: AttributeGroup::JobDescription,
        source: StateMessage,
    },
    JobRow {
        name: "job-state-reasons",
        group: AttributeGroup::JobDescription,
        source: StateReasons,
    },
    JobRow {
        name: "job-uri",
        group: AttributeGroup::JobDescription,
        source: Address(JobAddress::Job),
    },
    JobRow {
        name: "job-uuid",
        group: AttributeGroup::JobDescription,
        source: Address(JobAddress::Uuid),
    },
    JobRow {
        name: "number-of-documents",
        group: AttributeGroup::JobDescription,
        source: Number(JobNumber::Documents),
    },
    JobRow {
        name: "time-at-completed",
        group: AttributeGroup::JobDescription,
        source: Seconds(JobTime::Completion),
    },
    JobRow {
        name: "time-at-creation",
        group: AttributeGroup::JobDescription,
        source: Seconds(JobTime::Creation),
    },
    JobRow {
        name: "time-at-processing",
        group: AttributeGroup::JobDescription,
        source: Seconds(JobTime::Processing),
    },
];

// Returns the attributes of a job.
pub fn job_table() -> &'static [JobRow<'static>]
    ensures { (s : Server) (j : JobFacts) → map (stated s j) result.now ≡ job_rows s j }
{
    &JOB
}
