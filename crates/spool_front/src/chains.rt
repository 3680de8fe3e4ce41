//! The types of printers that documents can be converted to, by the service's files of types and conversions.
ghost use Rattle.std.specs.Prelude.{◌≡◌, ◌++◌, IfOk, OnOk};
ghost use Rattle.std.specs.List.{list_any};
ghost use Rattle.spool_front.specs.ReachableTypes.{kinds_in, leads, listed};
ghost use Rattle.spool_types.specs.Values.{media_in};

use crate::fault::Fault;
use crate::files::file_text;
use line_words::first_word;
use mime_costs::Convs;
use mime_lines::joined_lines;
use spool_types::MediaType;
use std::alloc::{AllocError, Global};

// The default files.
const USUAL_TYPES: &str = "/etc/cegmandi/types";

const USUAL_CONVS: &str = "/etc/cegmandi/convs";

// The type of an unrecognized document.
const UNKNOWN_TYPE: &str = "application/octet-stream";

/// The types that documents may have, and the conversions between types.
#[derive(Drop)]
pub struct Chains {
    kinds: Vec<MediaType>,
    convs: Convs,
}

/// Reads both files, whose names are in the environment or are the defaults.
pub fn read_chains(rt: &HostRuntime) -> Result<Chains, Fault> {
    let kinds = kinds_of_file(rt)?;
    let convs = convs_of_file(rt)?;
    Ok(Chains { kinds, convs })
}

fn kinds_of_file(rt: &HostRuntime) -> Result<Vec<MediaType>, Fault> {
    let text = file_text(rt, "SPOOL_TYPES", USUAL_TYPES)?;
    Ok(kinds_in(rt.alloc(), text.as_str())?)
}

fn convs_of_file(rt: &HostRuntime) -> Result<Convs, Fault> {
    let text = file_text(rt, "SPOOL_CONVS", USUAL_CONVS)?;
    let (convs, _) = Convs::read(rt.alloc(), text.as_str())?;
    Ok(convs)
}

// Returns the types that the file of types defines, and that of an unrecognized document.
fn kinds_in(alloc: Global, text: &str) -> Result<Vec<MediaType>, AllocError>
    ensures { IfOk result (λ kinds. kinds.items ≡ kinds_in text.now) }
{
    let mut kinds = Vec::new(alloc);
    push_kind(alloc, &mut kinds, UNKNOWN_TYPE.as_bytes())?;
    for line in joined_lines(alloc, text)?.iter() {
        let (word, _) = first_word(line.text.bytes());
        push_kind(alloc, &mut kinds, word)?;
    }
    Ok(kinds)
}

// Adds a type if the word is a valid one.
fn push_kind(alloc: Global, kinds: &mut Vec<MediaType>, word: &[u8]) -> Result<(), AllocError>
    ensures { OnOk result (kinds.new.items ≡ kinds.old.items ++ listed (media_in word.now)) }
{
    if let Some(kind) = MediaType::from_word(alloc, word)? {
        kinds.push(kind)?;
    }
    Ok(())
}

impl Chains {
    /// Returns whether a document of some type can be converted to this type.
    pub fn lead_to(&self, target: &MediaType) -> Result<bool, AllocError>
        ensures { IfOk result (λ found. found ≡ list_any (leads self.now.convs target.now) self.now.kinds.items) }
    {
        for kind in &self.kinds {
            if self.convs.filters(kind, target)?.is_some() {
                return Ok(true);
            }
        }
        Ok(false)
    }
}
