//! The answers about jobs.
ghost use Rattle.std.specs.Prelude.{◌≡◌, ◌++◌, filter, map, IfOk, OnOk};
ghost use Rattle.std.specs.List.{filter_map};
ghost use Rattle.ipp_values.specs.declared.tags.GroupTag.TheVariants as group_tags;
ghost use Rattle.requested_attributes.specs.AttributeGroups.{answered, attribute_of, is_wanted, is_wanted_row};
ghost use Rattle.ipp_answers.specs.JobRows.{job_rows};
ghost use Rattle.ipp_answers.specs.JobSelections.{selected_job_rows};
ghost use Rattle.ipp_answers.specs.JobSources.{stated};
ghost use Rattle.ipp_answers.specs.declared.facts.JobFacts.{JobFacts as JobFactsOf};
ghost use Rattle.ipp_answers.specs.declared.facts.Server.{Server as ServerOf};

use crate::facts::{JobFacts, Server};
use crate::job_sources::JobRow;
use crate::job_table::job_table;
use crate::job_values::job_values;
use ipp_values::{Attribute, Group, GroupTag, Items};
use requested_attributes::{Asked, is_wanted, push_attribute};
use std::alloc::{AllocError, Global};

/// The attributes that a client asks for of jobs. It is made once for a request, for all jobs of the answer.
#[derive(Drop)]
pub struct JobSelection {
    rows: Vec<JobRow<'static>>,
}

impl JobSelection {
    /// Returns the attributes of the table that are asked for, in its order.
    pub fn of(alloc: Global, asked: Asked<'_>) -> Result<JobSelection, AllocError>
        ensures { IfOk result (λ selection. (s : ServerOf) (j : JobFactsOf) → selected_job_rows selection s j ≡ filter (is_wanted_row asked.entry) (job_rows s j)) }
    {
        let rows = wanted(alloc, asked, job_table())?;
        Ok(JobSelection { rows })
    }

    /// Returns these attributes of a job. An attribute without values is absent.
    pub fn group(
        &self,
        alloc: Global,
        server: &Server<'_>,
        job: &JobFacts,
    ) -> Result<Group, AllocError>
        ensures tag { IfOk result (λ group. group.tag ≡ group_tags.Job) }
        ensures attributes { IfOk result (λ group. group.attributes ≡ filter_map attribute_of (selected_job_rows self.now server.now job.now)) }
    {
        let attributes = attributes_of(alloc, self.rows.as_slice(), server, job)?;
        Ok(Group {
            tag: GroupTag::Job,
            attributes,
        })
    }
}

fn wanted(
    alloc: Global,
    asked: Asked<'_>,
    table: &[JobRow<'static>],
) -> Result<Vec<JobRow<'static>>, AllocError>
    ensures { IfOk result (λ rows. rows.items ≡ filter (λ row. is_wanted asked.entry row.name.now row.group) table.now) }
{
    let mut rows = Vec::new(alloc);
    for row in table {
        if is_wanted(asked, row.name, row.group) {
            rows.push(*row)?;
        }
    }
    Ok(rows)
}

fn attributes_of(
    alloc: Global,
    rows: &[JobRow<'_>],
    server: &Server<'_>,
    job: &JobFacts,
) -> Result<Items<Attribute>, AllocError>
    ensures { IfOk result (λ attributes. attributes ≡ filter_map attribute_of (map (stated server.now job.now) rows.now)) }
{
    let mut attributes = Items::empty(alloc);
    for row in rows {
        let values = job_values(alloc, server, job, row.source)?;
        push_attribute(alloc, &mut attributes, row.name, values)?;
    }
    Ok(attributes)
}

/// Returns the attributes of a job that a client asks for.
pub fn job_group(
    alloc: Global,
    asked: Asked<'_>,
    server: &Server<'_>,
    job: &JobFacts,
) -> Result<Group, AllocError>
    ensures tag { IfOk result (λ group. group.tag ≡ group_tags.Job) }
    ensures attributes { IfOk result (λ group. group.attributes ≡ answered asked.entry (job_rows server.now job.now)) }
{
    let selection = JobSelection::of(alloc, asked)?;
    let group = selection.group(alloc, server, job);
    drop(selection);
    group
}
