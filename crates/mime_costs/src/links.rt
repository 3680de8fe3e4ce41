//! The positions of the sources that accept a type, computed once when a file is read.
ghost use Rattle.std.specs.Prelude.{◌≡◌, ℕ, List, IfOk};
ghost use Rattle.std.specs.String.{string_bytes};
ghost use Rattle.mime_costs.specs.Conversions.{super_source};
ghost use Rattle.mime_costs.specs.SourceIndex.{sources_of, position_in, positions_in, takes, links_in, AreSources};

use crate::conversion::{Conversion, EVERY_TYPE};
use spool_types::MediaType;
use std::alloc::{AllocError, Global};
use std::collections::HashMap;

/// The positions of the first conversions with the three sources that accept a type. If no conversion has such a source, its position is
/// the number of conversions.
#[derive(Clone, Copy)]
pub struct Positions {
    pub of_type: usize,
    pub of_super: usize,
    pub of_any: usize,
}

/// The links of a conversion.
#[derive(Clone, Copy)]
pub struct Link {
    /// The first conversion with the same source.
    pub group: usize,
    /// The groups that accept its destination.
    pub next: Positions,
}

impl Positions {
    /// Returns whether the conversions of this group accept the type.
    pub fn takes(self, group: usize) -> bool
        ensures { result ≡ takes self group }
    {
        group == self.of_type || group == self.of_super || group == self.of_any
    }
}

/// Returns the links of all conversions.
pub fn links_of(alloc: Global, conversions: &[Conversion]) -> Result<Vec<Link>, AllocError>
    ensures { IfOk result (λ links. links.items ≡ links_in conversions.now) }
{
    let sources = Sources::of(alloc, conversions)?;
    let mut links = Vec::with_capacity(alloc, conversions.len())?;
    for conversion in conversions {
        let group = sources.position_of(conversion.source.as_str());
        let next = sources.positions_of(alloc, conversion.destination.as_str())?;
        links.push(Link { group, next })?;
    }
    Ok(links)
}

// The first conversion of each source, for the links of a whole file. `positions_of` searches all conversions for one type, so its use
// here would take quadratic time.
#[derive(Drop)]
struct Sources<'a> {
    positions: HashMap<&'a str, usize>,
    // The number of conversions.
    count: usize,
}

impl<'a> Sources<'a> {
    // Inserts from the last conversion to the first, so that the first of each source remains.
    fn of(alloc: Global, conversions: &'a [Conversion]) -> Result<Sources<'a>, AllocError>
        ensures { IfOk result (λ sources. AreSources sources (sources_of conversions.entry.now)) }
    {
        let mut positions = HashMap::new(alloc);
        let mut rest = conversions;
        while let Some((last, before)) = rest.split_last() {
            positions.insert(last.source.as_str(), before.len())?;
            rest = before;
        }
        Ok(Sources {
            positions,
            count: conversions.len(),
        })
    }

    // Returns the position of the first conversion with a source, or the number of conversions.
    fn position_of(&self, source: &str) -> usize
        ensures { (sources : List (List ℕ)) → AreSources self.now sources → result ≡ position_in sources source.now }
    {
        self.positions.get(&source).copied().unwrap_or(self.count)
    }

    // Returns the groups that accept a type.
    fn positions_of(&self, alloc: Global, media: &str) -> Result<Positions, AllocError>
        ensures { (sources : List (List ℕ)) → AreSources self.now sources → IfOk result (λ positions. positions ≡ positions_in sources media.now) }
    {
        let of_super = super_source(alloc, media)?;
        Ok(Positions {
            of_type: self.position_of(media),
            of_super: self.position_of(of_super.as_str()),
            of_any: self.position_of(EVERY_TYPE),
        })
    }
}

/// Returns the groups that accept a type.
pub fn positions_of(
    alloc: Global,
    conversions: &[Conversion],
    media: &MediaType,
) -> Result<Positions, AllocError>
    ensures { IfOk result (λ positions. positions ≡ positions_in (sources_of conversions.now) media.now) }
{
    let of_super = super_source(alloc, media.as_str())?;
    Ok(Positions {
        of_type: position_of(conversions, media.as_str()),
        of_super: position_of(conversions, of_super.as_str()),
        of_any: position_of(conversions, EVERY_TYPE),
    })
}

// Returns the super type of a media type and `/*`.
fn super_source(alloc: Global, media: &str) -> Result<String, AllocError>
    ensures { IfOk result (λ source. string_bytes source ≡ super_source media.now) }
{
    let kind = match media.split_once('/') {
        Some((kind, _)) => kind,
        None => media,
    };
    let mut source = String::from_str(alloc, kind)?;
    source.push_str("/*")?;
    Ok(source)
}

// Returns the position of the first conversion with a source, or the number of conversions.
fn position_of(conversions: &[Conversion], source: &str) -> usize
    ensures { result ≡ position_in (sources_of conversions.now) source.now }
{
    for (i, conversion) in conversions.iter().enumerate() {
        if conversion.source.as_str() == source {
            return i;
        }
    }
    conversions.len()
}
