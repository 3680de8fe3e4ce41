//! Which attributes a client asks for.
ghost use Rattle.std.specs.Prelude.{◌≡◌};
ghost use Rattle.std.specs.List.{list_any};
ghost use Rattle.requested_attributes.specs.AttributeGroups.{asks, asks_group, is_job_id, is_wanted};

use ipp_values::Value;

/// A group of attributes that a client can ask for by one keyword.
#[derive(Clone, Copy)]
pub enum AttributeGroup {
    /// `printer-description` (RFC 8011, 4.2.5.1).
    PrinterDescription,
    /// `job-template` (RFC 8011, 4.2.5.1 and 4.3.4.1).
    JobTemplate,
    /// `job-description` (RFC 8011, 4.3.4.1).
    JobDescription,
    /// No group: the attribute is returned only if the client asks for its name, as `media-col-database` (PWG 5100.7).
    OwnName,
}

/// The attributes that a client asks for.
#[derive(Clone, Copy)]
pub enum Asked<'a> {
    /// The values of `requested-attributes`: names of attributes and of groups. Values that are no keywords ask for nothing.
    These(&'a [Value]),
    /// The request has no `requested-attributes`: all attributes, except those of no group.
    All,
    /// A request Get-Jobs without `requested-attributes`: `job-id` and `job-uri` (RFC 8011, 4.2.6.1).
    JobIds,
}

/// Returns whether the attribute of this name in this group is asked for.
pub fn is_wanted(asked: Asked<'_>, name: &str, group: AttributeGroup) -> bool
    ensures { result ≡ is_wanted asked.entry name.now group }
{
    match asked {
        Asked::These(values) => is_among(values, name, group),
        Asked::All => asks_group("all", group),
        Asked::JobIds => is_job_id(name),
    }
}

fn is_among(values: &[Value], name: &str, group: AttributeGroup) -> bool
    ensures { result ≡ list_any (asks name.now group) values.now }
{
    values.iter().any(|value| asks(name, group, value))
}

fn asks(name: &str, group: AttributeGroup, value: &Value) -> bool
    ensures { result ≡ asks name.now group value.now }
{
    match value {
        Value::Keyword(word) => word.as_str() == name || asks_group(word.as_str(), group),
        _ => false,
    }
}

fn asks_group(word: &str, group: AttributeGroup) -> bool
    ensures { result ≡ asks_group word.now group }
{
    match group {
        AttributeGroup::PrinterDescription => word == "all" || word == "printer-description",
        AttributeGroup::JobTemplate => word == "all" || word == "job-template",
        AttributeGroup::JobDescription => word == "all" || word == "job-description",
        AttributeGroup::OwnName => false,
    }
}

fn is_job_id(name: &str) -> bool
    ensures { result ≡ is_job_id name.now }
{
    name == "job-id" || name == "job-uri"
}
