//! The URIs and UUIDs of printers and jobs.
ghost use Rattle.std.specs.Prelude.{◌≡◌, IfOk};
ghost use Rattle.std.specs.Fmt.{decimal};
ghost use Rattle.std.specs.String.{string_bytes};
ghost use Rattle.ipp_answers.specs.AnswerUris.{ipp_uri, page_uri, uri_of, uuid_of, uuid_urn};

use crate::facts::Server;
use std::alloc::{AllocError, Global};
use uuid::Uuid;
use uuid::fmt::Urn;

/// The path of the printers.
pub const PRINTERS: &str = "/printers/";

/// The path of the jobs.
pub const JOBS: &str = "/jobs/";

/// Returns a URI by which IPP clients reach a printer or a job.
pub fn ipp_uri(
    alloc: Global,
    server: &Server<'_>,
    path: &str,
    end: &str,
) -> Result<String, AllocError>
    ensures { IfOk result (λ uri. string_bytes uri ≡ ipp_uri server.now path.now end.now) }
{
    let scheme = if server.is_secure { "ipps" } else { "ipp" };
    uri_of(alloc, scheme, server, path, end)
}

/// Returns the URI of a page for browsers.
pub fn page_uri(
    alloc: Global,
    server: &Server<'_>,
    path: &str,
    end: &str,
) -> Result<String, AllocError>
    ensures { IfOk result (λ uri. string_bytes uri ≡ page_uri server.now path.now end.now) }
{
    let scheme = if server.is_secure { "https" } else { "http" };
    uri_of(alloc, scheme, server, path, end)
}

fn uri_of(
    alloc: Global,
    scheme: &str,
    server: &Server<'_>,
    path: &str,
    end: &str,
) -> Result<String, AllocError>
    ensures { IfOk result (λ uri. string_bytes uri ≡ uri_of scheme.now server.now path.now end.now) }
{
    let host = server.host;
    format!(in alloc; "{scheme}://{host}{path}{end}")
}

/// Returns the URN of the UUID of a printer or a job. It is the same after a restart.
#[tactic(auto, unfolding(crate::specs::AnswerUris::uuid_urn))]
pub fn uuid_urn(
    alloc: Global,
    server: &Server<'_>,
    path: &str,
    end: &str,
) -> Result<String, AllocError>
    ensures { IfOk result (λ urn. string_bytes urn ≡ uuid_urn server.now path.now end.now) }
{
    let spool = server.spool;
    let name = format!(in alloc; "{spool}{path}{end}")?;
    let urn = uuid_of(name.as_str()).urn();
    let mut buffer = [0; Urn::LENGTH];
    String::from_str(alloc, urn.encode_lower(&mut buffer))
}

#[tactic(auto, unfolding(crate::specs::AnswerUris::uuid_of))]
fn uuid_of(name: &str) -> Uuid
    ensures { result ≡ uuid_of name.now }
{
    Uuid::new_v5(&Uuid::NAMESPACE_URL, name.as_bytes())
}

/// Returns the decimal digits of a number.
pub fn decimal(alloc: Global, number: u32) -> Result<String, AllocError>
    ensures { IfOk result (λ text. string_bytes text ≡ decimal number) }
{
    format!(in alloc; "{number}")
}
