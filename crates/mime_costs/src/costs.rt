//! The least costs of walks, by their number of lines.
//!
//! A row contains for each conversion the cost of the cheapest walk of n lines after it, if one exists.
ghost use Rattle.std.specs.Prelude.{◌≡◌, ◌≤◌, ℕ, IfOk, IfSome, map, length, ◌==◌, slice_index_or, cond, None};
ghost use Rattle.std.specs.List.{All};
ghost use Rattle.mime_costs.specs.SourceIndex.{takes, links_in};
ghost use Rattle.mime_costs.specs.Costs.{lesser, plus, is_at, least_in, row_of, IsSmall, cost_in_groups, next_cost, is_of_group, is_taken};

use crate::conversion::Conversion;
use crate::links::{Link, Positions};
use spool_types::MediaType;
use std::alloc::{AllocError, Global};
use walk_costs::lesser;

/// The maximum number of lines of a walk.
pub const MOST_LINES: usize = 15;

/// Returns the cost of a conversion and of the walk after it, if that walk exists.
pub fn cost_with(conversion: &Conversion, rest: Option<u32>) -> Option<u32>
    requires { IsSmall rest }
    ensures { result ≡ plus conversion.now.cost rest }
{
    walk_costs::cost_with(conversion.cost.get(), rest)
}

// The same, if the conversion accepts the type at these positions.
fn cost_if_taken(
    conversion: &Conversion,
    link: Link,
    rest: Option<u32>,
    positions: Positions,
) -> Option<u32>
    requires { IsSmall rest }
    ensures { result ≡ cond (takes positions link.group) (plus conversion.now.cost rest) None }
{
    if positions.takes(link.group) {
        cost_with(conversion, rest)
    } else {
        None
    }
}

/// Returns whether a conversion accepts the type at these positions and begins a walk of this cost.
pub fn is_step(
    conversion: &Conversion,
    link: Link,
    rest: Option<u32>,
    positions: Positions,
    cost: u32,
) -> bool
    requires { IsSmall rest }
    ensures { result ≡ is_at (cond (takes positions link.group) (plus conversion.now.cost rest) None) cost }
{
    match cost_if_taken(conversion, link, rest, positions) {
        Some(least) => least == cost,
        None => false,
    }
}

/// Returns the row of walks of no lines, which exist for conversions to `to`.
pub fn first_row(
    alloc: Global,
    conversions: &[Conversion],
    to: &MediaType,
) -> Result<Vec<Option<u32>>, AllocError>
    ensures { IfOk result (λ row. row.items ≡ row_of conversions.now to.now 0) }
{
    let mut row = Vec::with_capacity(alloc, conversions.len())?;
    for conversion in conversions {
        row.push(if conversion.destination == *to {
            Some(0)
        } else {
            None
        })?;
    }
    Ok(row)
}

/// Returns the row of walks of one more line.
pub fn next_row(
    alloc: Global,
    links: &[Link],
    groups: &[Option<u32>],
) -> Result<Vec<Option<u32>>, AllocError>
    ensures { IfOk result (λ row. row.items ≡ map (next_cost groups.now) links.now) }
{
    let mut row = Vec::with_capacity(alloc, links.len())?;
    for link in links {
        row.push(cost_at(groups, link.next))?;
    }
    Ok(row)
}

// Returns the least cost among the groups that accept a type.
fn cost_at(groups: &[Option<u32>], positions: Positions) -> Option<u32>
    ensures { result ≡ cost_in_groups groups.now positions }
{
    lesser(
        group_cost(groups, positions.of_type),
        lesser(
            group_cost(groups, positions.of_super),
            group_cost(groups, positions.of_any),
        ),
    )
}

fn group_cost(groups: &[Option<u32>], group: usize) -> Option<u32>
    ensures { result ≡ slice_index_or groups.now group None }
{
    if group < groups.len() {
        groups[group]
    } else {
        None
    }
}

/// Returns for each group the least cost of a walk that begins with a conversion of it. The row has the cost of the rest.
pub fn group_costs(
    alloc: Global,
    conversions: &[Conversion],
    links: &[Link],
    row: &[Option<u32>],
) -> Result<Vec<Option<u32>>, AllocError>
    requires links { links.now ≡ links_in conversions.now }
    requires row { length row.now ≡ length conversions.now }
    requires small { All IsSmall row.now }
    ensures { IfOk result (λ groups. (g : ℕ) → slice_index_or groups.items g None ≡ least_in (is_of_group conversions.now g) conversions.now row.now) }
{
    let mut groups = vec![in alloc; None; conversions.len()]?;
    for (i, conversion) in conversions.iter().enumerate() {
        let group = links[i].group;
        groups[group] = lesser(groups[group], cost_with(conversion, row[i]));
    }
    Ok(groups)
}

/// Returns the least cost of a walk that begins with a conversion that accepts the type at these positions.
pub fn cost_from(
    conversions: &[Conversion],
    links: &[Link],
    row: &[Option<u32>],
    positions: Positions,
) -> Option<u32>
    requires links { links.now ≡ links_in conversions.now }
    requires row { length row.now ≡ length conversions.now }
    requires small { All IsSmall row.now }
    ensures { result ≡ least_in (is_taken conversions.now positions) conversions.now row.now }
{
    let mut least = None;
    for (i, conversion) in conversions.iter().enumerate() {
        least = lesser(
            least,
            cost_if_taken(conversion, links[i], row[i], positions),
        );
    }
    least
}
