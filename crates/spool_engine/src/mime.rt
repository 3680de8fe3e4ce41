//! The MIME database, by which documents are typed and filters are chosen.
ghost use Rattle.std.specs.Prelude.{◌≡◌, ◌≤◌, IfOk, min};
ghost use Rattle.mime_costs.specs.LeastWalk.{filters_between};
ghost use Rattle.mime_rules.specs.Reach.{reach};
ghost use Rattle.spool_engine.specs.Mime.{media_of, unknown_type, IsEnough};

use mime_costs::Convs;
use mime_rules::Types;
use spool_types::{Filters, MediaType, TextFault};
use std::alloc::{AllocError, Global};
use std::marker::Model;

// The type of a document for which no rule is true.
const UNKNOWN_TYPE: &str = "application/octet-stream";

/// The rules and the locale by which documents are typed, and the conversions from one type into another.
#[derive(Drop)]
pub(crate) struct Mime<'a> {
    pub types: &'a Types,
    pub convs: &'a Convs,
    /// The locale of the children.
    pub locale: &'a str,
}

impl<'a> Model for Mime<'a> {
    ghost use Rattle.spool_engine.specs.Mime.{Mime, mime_code};

    ghost Value = { Mime };

    ghost coded = { mime_code };

    ghost view = { λ mime. record { types = mime.types.now; convs = mime.convs.now; locale = mime.locale.now } };
}

impl<'a> Mime<'a> {
    /// Returns the type of a document with this name and these bytes.
    pub fn type_of(
        &self,
        alloc: Global,
        name: &str,
        document: &[u8],
    ) -> Result<MediaType, AllocError>
        ensures { IfOk result (λ media. media ≡ media_of self.now name.now document.now) }
    {
        match self.types.type_of(name, document, self.locale) {
            Some(media) => media.clone(),
            None => unknown_type(alloc),
        }
    }

    /// Returns the number of first bytes that determine the type of a document of this length.
    pub fn reach(&self, len: usize) -> usize
        ensures value { result ≡ min len (reach self.now.types) }
        ensures within { result ≤ len }
        ensures enough { IsEnough self.now len result }
    {
        self.types.reach(len)
    }

    /// Returns the filters that convert one type into another, or `None` if no chain of conversions does.
    pub fn filters(&self, from: &MediaType, to: &MediaType) -> Result<Option<Filters>, AllocError>
        ensures { IfOk result (λ filters. filters ≡ filters_between self.now.convs from.now to.now) }
    {
        self.convs.filters(from, to)
    }
}

fn unknown_type(alloc: Global) -> Result<MediaType, AllocError>
    ensures { IfOk result (λ media. media ≡ unknown_type) }
{
    match MediaType::read(alloc, UNKNOWN_TYPE) {
        Ok(media) => Ok(media),
        Err(TextFault::Bad) => unreachable!(),
        Err(TextFault::Memory) => Err(AllocError),
    }
}
