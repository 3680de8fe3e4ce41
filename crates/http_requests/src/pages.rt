//! The pages of a target.
ghost use Rattle.std.specs.Prelude.{◌≡◌, option_map};
ghost use Rattle.http_requests.specs.HttpRoutes.{begins_with_slash, first_part, later_parts, page_at, page_of, page_of_kind, path_of, printer_of, without_query};

use crate::route::Page;
use spool_types::{QueueNameKind, TextKind};

/// Returns the page of a target.
pub fn page_of(target: &str) -> Option<Page>
    ensures { result ≡ page_of target.now }
{
    page_at(path_of(target)?)
}

/// Returns the name of the printer whose page a target names.
pub fn printer_of(target: &str) -> &str
    ensures { result.now ≡ printer_of target.now }
{
    match path_of(target) {
        Some(path) => {
            let (_, name) = parted(path);
            name
        }
        None => "",
    }
}

// Returns the path without its first slash and its query.
fn path_of(target: &str) -> Option<&str>
    ensures { option_map (λ path. path.now) result ≡ path_of target.now }
{
    if !begins_with_slash(target) {
        return None;
    }
    let (_, path) = parted(target);
    Some(without_query(path))
}

fn begins_with_slash(text: &str) -> bool
    ensures { result ≡ begins_with_slash text.now }
{
    match text.as_bytes() {
        [b, ..] => *b == b'/',
        [] => false,
    }
}

fn without_query(path: &str) -> &str
    ensures { result.now ≡ without_query path.now }
{
    match path.split_once('?') {
        Some((path, _)) => path,
        None => path,
    }
}

fn page_at(path: &str) -> Option<Page>
    ensures { result ≡ page_at path.now }
{
    let (kind, name) = parted(path);
    if name == "" {
        return page_of_kind(kind);
    }
    if kind == "printers" && QueueNameKind::allows(name) {
        Some(Page::Printer)
    } else {
        None
    }
}

fn page_of_kind(kind: &str) -> Option<Page>
    ensures { result ≡ page_of_kind kind.now }
{
    if kind == "" || kind == "printers" || kind == "jobs" {
        Some(Page::Index)
    } else if kind == "icon.png" {
        Some(Page::Icon)
    } else if kind == "metrics" {
        Some(Page::Metrics)
    } else {
        None
    }
}

// Splits the text at its first slash, which is dropped.
fn parted(text: &str) -> (&str, &str)
    ensures first { result.0.now ≡ first_part text.now }
    ensures later { result.1.now ≡ later_parts text.now }
{
    match text.split_once('/') {
        Some(parts) => parts,
        None => (text, ""),
    }
}
