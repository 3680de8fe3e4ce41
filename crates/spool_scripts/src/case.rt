//! Reads the files of a case.

use crate::fault::CaseFault;
use crate::fuse::{Fuse, read_fuse};
use crate::limits::{Limits, read_limits};
use std::alloc::Global;
use std::fs::{File, Files};
use std::io::ErrorKind;
use std::{fs, io};

// The length of a disk in bytes, unless the case specifies it.
const USUAL_SIZE: usize = 4_194_304;

// The locale, unless the case specifies it.
const USUAL_LANG: &str = "C";

/// A script, the expected replies, and the conditions under which it is served.
#[derive(Drop)]
pub struct Case {
    pub script: Vec<u8>,
    pub replies: Vec<u8>,
    /// The expected account, in addition to the replies.
    pub account: Vec<u8>,
    /// Rules of types, as in mime.types(5).
    pub types: String,
    /// Conversions, as in mime.convs(5).
    pub convs: String,
    /// The locale of type detection.
    pub lang: String,
    /// The length of the disk in bytes.
    pub size: usize,
    /// The version written into the new spool's first area, if any.
    pub version: Option<u8>,
    /// How the children behave.
    pub children: String,
    /// When the disk fails.
    pub fuse: Fuse,
    /// The limits of the reader and the writer.
    pub limits: Limits,
}

/// Returns the names of the cases in a folder, each once, in ascending order. A file's case is its name without the
/// extension.
pub fn case_names<R: Files<File = File> + AllocGlobal + Clone + Drop>(
    rt: &R,
    folder: &str,
) -> io::Result<Vec<String>> {
    let mut names = Vec::new(rt.alloc());
    for entry in fs::read_dir(rt, folder)? {
        let entry = entry?;
        names.push(stem(entry.file_name()).to_string(rt.alloc())?)?;
    }
    names.sort()?;
    names.dedup();
    Ok(names)
}

// Returns a file's name without its extension.
fn stem(name: &str) -> &str {
    match name.rsplit_once('.') {
        Some((stem, _)) => stem,
        None => name,
    }
}

/// Reads the files of the case of this name in a folder.
pub fn read_case<R: Files<File = File> + AllocGlobal>(
    rt: &R,
    folder: &str,
    name: &str,
) -> Result<Case, CaseFault> {
    let path = format!(in rt.alloc(); "{folder}/{name}")?;
    let path = path.as_str();
    let Some(script) = file_of(rt, path, "script")? else {
        return Err(CaseFault::NoScript);
    };
    let Some(replies) = file_of(rt, path, "replies")? else {
        return Err(CaseFault::NoReplies);
    };
    let account = match file_of(rt, path, "account")? {
        Some(account) => account,
        None => Vec::new(rt.alloc()),
    };
    Ok(Case {
        script,
        replies,
        account,
        types: text_of(rt, path, "types")?,
        convs: text_of(rt, path, "convs")?,
        lang: lang_of(rt.alloc(), text_of(rt, path, "lang")?.as_str())?,
        size: size_of(text_of(rt, path, "size")?.as_str())?,
        version: version_of(text_of(rt, path, "version")?.as_str())?,
        children: text_of(rt, path, "children")?,
        fuse: read_fuse(text_of(rt, path, "fuse")?.as_str())?,
        limits: read_limits(text_of(rt, path, "limits")?.as_str())?,
    })
}

// Returns the locale that a file of a case specifies.
fn lang_of(alloc: Global, text: &str) -> Result<String, CaseFault> {
    let lang = if text.is_empty() {
        USUAL_LANG
    } else {
        text.trim_end()
    };
    Ok(String::from_str(alloc, lang)?)
}

// Returns the length of the disk that a file of a case specifies.
fn size_of(text: &str) -> Result<usize, CaseFault> {
    if text.is_empty() {
        return Ok(USUAL_SIZE);
    }
    match text.trim_end().parse::<usize>() {
        Ok(size) => Ok(size),
        Err(_) => Err(CaseFault::NoSize),
    }
}

// Returns the version that a file of a case specifies.
fn version_of(text: &str) -> Result<Option<u8>, CaseFault> {
    if text.is_empty() {
        return Ok(None);
    }
    match text.trim_end().parse::<u8>() {
        Ok(version) => Ok(Some(version)),
        Err(_) => Err(CaseFault::NoVersion),
    }
}

// Returns the text of a file of a case, or an empty text if the file does not exist.
fn text_of<R: Files<File = File> + AllocGlobal>(
    rt: &R,
    path: &str,
    ending: &str,
) -> Result<String, CaseFault> {
    match file_of(rt, path, ending)? {
        Some(bytes) => text_from(rt.alloc(), &bytes),
        None => Ok(String::new(rt.alloc())),
    }
}

// Returns these bytes as text. Fails if they are not UTF-8.
fn text_from(alloc: Global, bytes: &[u8]) -> Result<String, CaseFault> {
    match str::from_utf8(bytes) {
        Ok(text) => Ok(String::from_str(alloc, text)?),
        Err(_) => Err(CaseFault::NoText),
    }
}

// Returns the bytes of a file of a case, if it exists.
fn file_of<R: Files<File = File> + AllocGlobal>(
    rt: &R,
    path: &str,
    ending: &str,
) -> Result<Option<Vec<u8>>, CaseFault> {
    let file = format!(in rt.alloc(); "{path}.{ending}")?;
    match fs::read(rt, file.as_str()) {
        Ok(bytes) => Ok(Some(bytes)),
        Err(error) if error.kind() == ErrorKind::NotFound => Ok(None),
        Err(error) => Err(CaseFault::Unread(error)),
    }
}
