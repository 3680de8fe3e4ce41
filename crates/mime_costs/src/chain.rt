//! The cheapest chain from one type to another.
ghost use Rattle.std.specs.Prelude.{◌≡◌, ◌≤◌, ◌<◌, ◌+◌, ℕ, List, Option, Some, true, false, IfOk, map, length, get_or};
ghost use Rattle.std.specs.List.{All};
ghost use Rattle.std.specs.declared.alloc.Global.{Global};
ghost use Rattle.std.specs.declared.vec.Vec.{Vec};
ghost use Rattle.mime_costs.specs.SourceIndex.{sources_of, positions_in, links_in, AreCheap, Ascends};
ghost use Rattle.mime_costs.specs.Costs.{best, least_in, IsSmall, IsRow, IsTable, IsBestSize, better_size, costs_from, is_taken, is_step};
ghost use Rattle.mime_costs.specs.Walks.{line_of};
ghost use Rattle.mime_costs.specs.ConversionFields.{IsAnswer};
ghost use Rattle.mime_costs.specs.declared.conversion.Conversion.{Conversion};

use crate::conversion::Conversion;
use crate::costs::{MOST_LINES, cost_from, first_row, group_costs, is_step, next_row};
use crate::links::{Link, Positions};
use spool_types::MediaType;
use std::alloc::{AllocError, Global};

/// The line numbers of a walk, and its cost.
#[derive(Drop)]
pub struct Chain {
    pub lines: Vec<usize>,
    pub cost: u32,
}

// The cost of a walk, and the number of its lines after the first.
#[derive(Clone, Copy)]
struct Size {
    cost: u32,
    rest: usize,
}

/// Returns the best walk to `to` from the type at these positions, if any.
pub fn find_chain(
    alloc: Global,
    conversions: &[Conversion],
    links: &[Link],
    positions: Positions,
    to: &MediaType,
) -> Result<Option<Chain>, AllocError>
    requires links { links.now ≡ links_in conversions.now }
    requires cheap { AreCheap conversions.now }
    requires rising { Ascends 1 conversions.now }
    ensures { IfOk result (λ answer. (from : List ℕ) → positions ≡ positions_in (sources_of conversions.now) from → ¬ (from ≡ to.now) → IsAnswer conversions.now from to.now answer) }
{
    let rows = cost_rows(alloc, conversions, links, to)?;
    match best_size(conversions, links, &rows, positions) {
        Some(size) => {
            let lines = walk_lines(alloc, conversions, links, &rows, positions, size)?;
            Ok(Some(Chain {
                lines,
                cost: size.cost,
            }))
        }
        None => Ok(None),
    }
}

// Returns the rows of walks of 0 to 14 lines.
fn cost_rows(
    alloc: Global,
    conversions: &[Conversion],
    links: &[Link],
    to: &MediaType,
) -> Result<Vec<Vec<Option<u32>>>, AllocError>
    requires links { links.now ≡ links_in conversions.now }
    requires cheap { AreCheap conversions.now }
    ensures { IfOk result (λ rows. IsTable conversions.now to.now 15 rows.items) }
{
    let mut rows = Vec::with_capacity(alloc, MOST_LINES)?;
    let mut row = first_row(alloc, conversions, to)?;
    for _count in 0..MOST_LINES - 1 {
        let groups = group_costs(alloc, conversions, links, &row)?;
        let next = next_row(alloc, links, &groups)?;
        rows.push(row)?;
        row = next;
    }
    rows.push(row)?;
    Ok(rows)
}

// Returns the least cost of a walk, and the smallest number of lines at that cost.
fn best_size(
    conversions: &[Conversion],
    links: &[Link],
    rows: &[Vec<Option<u32>>],
    positions: Positions,
) -> Option<Size>
    requires links { links.now ≡ links_in conversions.now }
    requires rows { All (IsRow (length conversions.now)) rows.now }
    ensures { IsBestSize (costs_from conversions.now positions rows.now) result }
{
    let mut best = None;
    for (i, row) in rows.iter().enumerate() {
        best = better(best, cost_from(conversions, links, row, positions), i);
    }
    best
}

// Returns the better of the best walk so far and one of more lines.
fn better(best: Option<Size>, cost: Option<u32>, rest: usize) -> Option<Size>
    ensures { result ≡ better_size best cost rest }
{
    let Some(cost) = cost else {
        return best;
    };
    match best {
        Some(best) if best.cost <= cost => Some(best),
        _ => Some(Size { cost, rest }),
    }
}

// Returns the lines of the first walk of this size.
fn walk_lines(
    alloc: Global,
    conversions: &[Conversion],
    links: &[Link],
    rows: &[Vec<Option<u32>>],
    positions: Positions,
    size: Size,
) -> Result<Vec<usize>, AllocError>
    requires links { links.now ≡ links_in conversions.now }
    requires cheap { AreCheap conversions.now }
    requires table { (to : List ℕ) × IsTable conversions.now to 15 rows.now }
    requires rest { size.rest < 15 }
    requires there { (d : Vec (Option ℕ) Global) → least_in (is_taken conversions.now positions) conversions.now (get_or rows.now size.rest d).items ≡ Some size.cost }
    ensures { IfOk result (λ lines. (to : List ℕ) → IsTable conversions.now to 15 rows.now → lines.items ≡ map line_of (best conversions.now to (size.rest + 1) size.cost positions)) }
{
    let mut lines = Vec::with_capacity(alloc, MOST_LINES)?;
    let mut positions = positions;
    let mut cost = size.cost;
    let mut left = size.rest + 1;
    while 0 < left {
        left -= 1;
        let i = first_step(conversions, links, &rows[left], positions, cost);
        let conversion = &conversions[i];
        lines.push(conversion.line)?;
        cost -= conversion.cost.get();
        positions = links[i].next;
    }
    Ok(lines)
}

// Returns the first conversion that accepts the type at these positions and begins a walk of this cost.
fn first_step(
    conversions: &[Conversion],
    links: &[Link],
    row: &[Option<u32>],
    positions: Positions,
    cost: u32,
) -> usize
    requires links { links.now ≡ links_in conversions.now }
    requires row { length row.now ≡ length conversions.now }
    requires small { All IsSmall row.now }
    requires there { least_in (is_taken conversions.now positions) conversions.now row.now ≡ Some cost }
    ensures inside { result < length conversions.now }
    ensures begins { (d : Conversion) → is_step conversions.now row.now positions cost result d ≡ true }
    ensures first { (j : ℕ) (d : Conversion) → j < result → is_step conversions.now row.now positions cost j d ≡ false }
{
    for (i, conversion) in conversions.iter().enumerate() {
        if is_step(conversion, links[i], row[i], positions, cost) {
            return i;
        }
    }
    conversions.len()
}
