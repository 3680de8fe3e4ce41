//! Examples of requests, stated as facts: the messages of clients, and messages with a fault.
//!
//! Each function does nothing. Each of its clauses is a table of examples in `specs/`, and the check computes the definitions on each row.
//! `ClientMessages` has messages of lp(1), lpstat(1), cancel(1), cupsdisable(8) and ipptool(1) of CUPS 2.4.2, as they were sent: each
//! operation occurs. `ExchangeExamples` has the octets of some messages, also of answers. The requests and statuses are written from
//! RFC 8011. `HttpExamples` has fields of requests over HTTP, also of pages of other sites.
//!
//! # Promises
//!
//! A fact is about the definition `request_of`, `message_spelling`, or one of `HttpRoutes`. That the code does the same is promised by
//! `Request::of` of `ipp_requests`, by `decode` and `encode` of `ipp_codec`, and by the functions of `http_requests`.
//!
//! # Errors
//!
//! None: nothing here is ever called.
#![tactic(auto)]

ghost use Rattle.ipp_examples.specs.ExchangeExamples.{ExchangeRows};
ghost use Rattle.ipp_examples.specs.HttpExamples as http;
ghost use Rattle.ipp_examples.specs.RequestExamples as requests;

/// The octets of messages as they were sent, and their meaning.
pub fn octet_examples()
    ensures { ExchangeRows }
{}

/// The requests of CUPS's commands.
pub fn command_examples()
    ensures lp { requests.LpRows }
    ensures lpstat { requests.LpstatRows }
    ensures cancel { requests.CancelRows }
    ensures printers { requests.PrinterRows }
{}

/// The requests of ipptool(1).
pub fn tool_examples()
    ensures tool { requests.ToolRows }
    ensures questions { requests.QuestionRows }
    ensures faults { requests.ToolFaultRows }
{}

/// Messages with faults, and URIs.
pub fn fault_examples()
    ensures order { requests.OrderRows }
    ensures values { requests.ValueRows }
    ensures settings { requests.SettingRows }
    ensures printer_uris { requests.PrinterUriRows }
    ensures job_uris { requests.JobUriRows }
{}

/// Fields of requests over HTTP.
pub fn http_examples()
    ensures own { http.OwnHosts }
    ensures other { http.OtherHosts }
    ensures types { http.TypeRows }
    ensures pages { http.PageRows }
    ensures missing { http.MissingPages }
    ensures names { http.NameRows }
{}
