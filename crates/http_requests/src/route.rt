//! The routes of requests.
ghost use Rattle.std.specs.Prelude.{◌≡◌, ◌⊎◌, Ok, map, true};
ghost use Rattle.http_requests.specs.HttpRoutes.{by_method, is_ipp_type, is_own_host, is_shown, media_type, page_of, posted, route_of, shown, status_number, status_phrase};

use crate::head::RequestHead;
use crate::hosts::is_own_host;
use crate::pages::page_of;
use line_words::trim;

/// The status of a refused request (RFC 9110 15).
#[derive(Clone, Copy)]
pub enum HttpStatus {
    Forbidden,
    NotFound,
    MethodNotAllowed,
    LengthRequired,
    UnsupportedMediaType,
    NotImplemented,
}

impl HttpStatus {
    /// Returns the number of the status.
    pub fn number(self) -> u16
        ensures { result ≡ status_number self }
    {
        match self {
            HttpStatus::Forbidden => 403,
            HttpStatus::NotFound => 404,
            HttpStatus::MethodNotAllowed => 405,
            HttpStatus::LengthRequired => 411,
            HttpStatus::UnsupportedMediaType => 415,
            HttpStatus::NotImplemented => 501,
        }
    }

    /// Returns the reason phrase of the status.
    pub fn phrase(self) -> &'static str
        ensures { result.now ≡ status_phrase self }
    {
        match self {
            HttpStatus::Forbidden => "Forbidden",
            HttpStatus::NotFound => "Not Found",
            HttpStatus::MethodNotAllowed => "Method Not Allowed",
            HttpStatus::LengthRequired => "Length Required",
            HttpStatus::UnsupportedMediaType => "Unsupported Media Type",
            HttpStatus::NotImplemented => "Not Implemented",
        }
    }
}

/// A page for a browser or a monitor.
#[derive(Clone, Copy)]
pub enum Page {
    /// All printers and jobs.
    Index,
    /// A printer, which [`crate::printer_of`] names.
    Printer,
    Icon,
    Metrics,
}

/// The route of a request.
#[derive(Clone, Copy)]
pub enum Route {
    /// An IPP message is the body.
    Operation,
    /// GET or HEAD of a page.
    Show(Page),
    /// OPTIONS.
    Methods,
}

/// Returns the route of a request. `names` are the names of this machine.
pub fn route_of(names: &[Vec<u8>], head: RequestHead<'_>) -> Result<Route, HttpStatus>
    ensures value { result ≡ route_of (map (λ name. name.items) names.now) head.entry }
    ensures host { result ≡ Ok Route.Operation → (head.entry.is_local ≡ true) ⊎ (is_own_host (map (λ name. name.items) names.now) head.entry.host.now ≡ true) }
    ensures media { result ≡ Ok Route.Operation → is_ipp_type head.entry.content_type.now ≡ true }
{
    if !(head.is_local || is_own_host(names, head.host)) {
        return Err(HttpStatus::Forbidden);
    }
    if head.is_coded {
        return Err(HttpStatus::NotImplemented);
    }
    by_method(head)
}

fn by_method(head: RequestHead<'_>) -> Result<Route, HttpStatus>
    ensures { result ≡ by_method head.entry }
{
    if head.method == b"POST".as_slice() {
        posted(head)
    } else if is_shown(head.method) {
        shown(head.target)
    } else if head.method == b"OPTIONS".as_slice() {
        Ok(Route::Methods)
    } else {
        Err(HttpStatus::MethodNotAllowed)
    }
}

fn is_shown(method: &[u8]) -> bool
    ensures { result ≡ is_shown method.now }
{
    method == b"GET".as_slice() || method == b"HEAD".as_slice()
}

fn posted(head: RequestHead<'_>) -> Result<Route, HttpStatus>
    ensures { result ≡ posted head.entry }
{
    if !head.has_body {
        Err(HttpStatus::LengthRequired)
    } else if is_ipp_type(head.content_type) {
        Ok(Route::Operation)
    } else {
        Err(HttpStatus::UnsupportedMediaType)
    }
}

fn shown(target: &str) -> Result<Route, HttpStatus>
    ensures { result ≡ shown (page_of target.now) }
{
    match page_of(target) {
        Some(page) => Ok(Route::Show(page)),
        None => Err(HttpStatus::NotFound),
    }
}

/// Returns whether a `Content-Type` is that of IPP messages.
pub fn is_ipp_type(value: &str) -> bool
    ensures { result ≡ is_ipp_type value.now }
{
    trim(media_type(value).as_bytes()).eq_ignore_ascii_case(b"application/ipp")
}

// Returns what precedes the parameters.
fn media_type(value: &str) -> &str
    ensures { result.now ≡ media_type value.now }
{
    match value.split_once(';') {
        Some((media, _)) => media,
        None => value,
    }
}
