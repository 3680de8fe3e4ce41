//! The conversions of a file.
ghost use Rattle.std.specs.Prelude.{◌≡◌, ◌≤◌, List, IfOk, IfSome, IfNone, map, length};
ghost use Rattle.std.specs.List.{Contains, All};
ghost use Rattle.std.specs.Option.{option_map};
ghost use Rattle.mime_costs.specs.Walks.{Worth, line_of, worth_of, most_lines, IsReached, IsLeast, IsApart};
ghost use Rattle.mime_costs.specs.LeastWalk.{least_walk, filters_of, filters_between};
ghost use Rattle.mime_costs.specs.ConversionFiles.{conversions_of, warnings_of};
ghost use Rattle.mime_costs.specs.ConversionFields.{worth_of_chain};
ghost use Rattle.mime_costs.specs.declared.conversion.Conversion.{Conversion};

use crate::chain::{Chain, find_chain};
use crate::conversion::{Conversion, NO_FILTER};
use crate::links::{Link, links_of, positions_of};
use crate::reading::read_lines;
use spool_types::{FilterName, Filters, MediaType, Warning};
use std::alloc::{AllocError, Global};
use std::marker::Model;

/// The conversions of a file, in the order of their lines.
#[derive(Drop)]
pub struct Convs {
    alloc: Global,
    conversions: Vec<Conversion>,
    // The link of each conversion.
    links: Vec<Link>,
}

impl Model for Convs {
    ghost use Rattle.std.specs.Prelude.{List};
    ghost use Rattle.mime_costs.specs.declared.conversion.Conversion.{Conversion};

    ghost Value = { List Conversion };

    ghost use Rattle.mime_costs.specs.ConversionFields.{IsIndexed};

    ghost view = { λ convs. convs.conversions.items };

    ghost invariant = { IsIndexed };
}

impl Convs {
    /// Reads the text of a file. Each invalid line is skipped, with a warning.
    pub fn read(alloc: Global, text: &str) -> Result<(Convs, Vec<Warning>), AllocError>
        ensures conversions { IfOk result (λ r. r.0 ≡ conversions_of text.now) }
        ensures warnings { IfOk result (λ r. r.1.items ≡ warnings_of text.now) }
    {
        let (conversions, warnings) = read_lines(alloc, text)?;
        let links = links_of(alloc, &conversions)?;
        let convs = Convs {
            alloc,
            conversions,
            links,
        };
        Ok((convs, warnings))
    }

    /// Returns the best walk from one type to another, if any exists.
    pub fn chain(&self, from: &MediaType, to: &MediaType) -> Result<Option<Chain>, AllocError>
        ensures reached { IfOk result (λ answer. IfSome answer (λ chain. IsReached self.now from.now to.now (worth_of_chain chain))) }
        ensures least { IfOk result (λ answer. IfSome answer (λ chain. IsLeast self.now from.now to.now (worth_of_chain chain))) }
        ensures none { IfOk result (λ answer. IfNone answer (IsApart self.now from.now to.now)) }
        ensures lines { IfOk result (λ answer. IfSome answer (λ chain. All (Contains (map line_of self.now)) chain.lines.items)) }
        ensures walk { IfOk result (λ answer. option_map worth_of_chain answer ≡ option_map worth_of (least_walk self.now from.now to.now)) }
    {
        if from == to {
            return Ok(Some(Chain {
                lines: Vec::new(self.alloc),
                cost: 0,
            }));
        }
        let positions = positions_of(self.alloc, &self.conversions, from)?;
        find_chain(self.alloc, &self.conversions, &self.links, positions, to)
    }

    /// Returns the programs of the best walk in the order that they run in, if a walk exists. A conversion whose filter is `-` runs no
    /// program.
    pub fn filters(&self, from: &MediaType, to: &MediaType) -> Result<Option<Filters>, AllocError>
        ensures value { IfOk result (λ filters. filters ≡ filters_between self.now from.now to.now) }
    {
        match self.chain(from, to)? {
            Some(chain) => Ok(Some(self.filters_at(&chain.lines)?)),
            None => Ok(None),
        }
    }

    // Returns the programs of the conversions with these line numbers.
    fn filters_at(&self, lines: &[usize]) -> Result<Filters, AllocError>
        requires there { All (Contains (map line_of self.now)) lines.now }
        requires few { length lines.now ≤ most_lines }
        ensures { IfOk result (λ filters. (walk : List Conversion) → All (Contains self.now) walk → map line_of walk ≡ lines.now → filters ≡ filters_of walk) }
    {
        let mut filters = Vec::with_capacity(self.alloc, lines.len())?;
        for line in lines {
            let filter = self.filter_name(*line);
            if filter.as_str() != NO_FILTER {
                filters.push(filter.clone()?)?;
            }
        }
        match Filters::new(filters) {
            Ok(filters) => Ok(filters),
            Err(_) => unreachable!(),
        }
    }

    /// Returns the filter of the conversion with this line number, `-` for none. Each line of a chain is the line of a conversion.
    pub fn filter(&self, line: usize) -> &str
        requires { Contains (map line_of self.now) line }
        ensures value { (c : Conversion) → Contains self.now c → c.line ≡ line → result.now ≡ c.filter }
    {
        self.filter_name(line).as_str()
    }

    // The same, as stored.
    fn filter_name(&self, line: usize) -> &FilterName
        requires { Contains (map line_of self.now) line }
        ensures value { (c : Conversion) → Contains self.now c → c.line ≡ line → result.now ≡ c.filter }
    {
        for conversion in &self.conversions {
            if conversion.line == line {
                return &conversion.filter;
            }
        }
        unreachable!()
    }
}
