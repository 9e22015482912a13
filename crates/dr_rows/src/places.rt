//! Rows by place.

ghost use Rattle.std.specs.Prelude.{◌≡◌, map, IfOk};
ghost use Rattle.std.specs.List.{list_any};
ghost use Rattle.dr_rows.specs.Outcome.{is_broken};
ghost use Rattle.dr_rows.specs.Places.{is_beside, joins, places, most_lost, differs, decides};

use crate::cells::kind;
use crate::row::Row;
use dr_plan::{Point, count_at};
use std::alloc::{AllocError, Global};

/// Both stop the same servers after as many tried steps and writes, whatever is torn.
fn is_beside(a: Point, b: Point) -> bool
    ensures { result ≡ is_beside a b }
{
    match (a, b) {
        (
            Point::Cut {
                disaster,
                place,
                server,
                writes,
                ..
            },
            Point::Cut {
                disaster: other_disaster,
                place: other_place,
                server: other_server,
                writes: other_writes,
                ..
            },
        ) => {
            disaster == other_disaster
                && place == other_place
                && server == other_server
                && count_at(&writes, server) == count_at(&other_writes, other_server)
        }
        (
            Point::Gap { disaster, place },
            Point::Gap {
                disaster: other_disaster,
                place: other_place,
            },
        ) => disaster == other_disaster && place == other_place,
        _ => false,
    }
}

/// The row is of the same place as the first of these.
fn joins(here: &[Row], row: &Row) -> bool
    ensures { result ≡ joins here.now row.now }
{
    match here {
        [] => true,
        [first, ..] => is_beside(first.point(), row.point()),
    }
}

/// Rows by place. Those of one place stand together.
#[tactic(auto, unfolding(crate::specs::Places::places))]
pub(crate) fn places(alloc: Global, rows: &[Row]) -> Result<Vec<&[Row]>, AllocError>
    ensures { IfOk result (λ found. map (λ place. place.now) found.items ≡ places rows.now) }
{
    let mut found = Vec::new(alloc);
    if rows.is_empty() {
        return Ok(found);
    }
    let mut start = 0;
    for end in 1..rows.len() {
        if joins(&rows[start..end], &rows[end]) {
            continue;
        }
        found.push(&rows[start..end])?;
        start = end;
    }
    found.push(&rows[start..])?;
    Ok(found)
}

/// The most writes that are lost to a use in one of some rows.
pub fn most_lost(which: usize, rows: &[Row]) -> usize
    ensures { result ≡ most_lost which rows.now }
{
    let mut most = 0;
    for row in rows {
        most = most.max(row.lost_count(which));
    }
    most
}

/// A row is broken.
pub(crate) fn any_broken(which: usize, rows: &[Row]) -> bool
    ensures { result ≡ list_any (is_broken which) rows.now }
{
    rows.iter().any(|row| row.is_broken(which))
}

/// Other groups came back, or with other decisions, or more or fewer writes are lost.
pub fn differs(
    alloc: Global,
    asks: bool,
    which: usize,
    first: &Row,
    row: &Row,
) -> Result<bool, AllocError>
    ensures { IfOk result (λ found. found ≡ differs asks which first.now row.now) }
{
    let first_kind = kind(alloc, asks, first)?;
    let row_kind = kind(alloc, asks, row)?;
    Ok(first_kind.bytes() != row_kind.bytes() || first.lost_count(which) != row.lost_count(which))
}

/// One of some rows differs from a first one.
fn any_differs(
    alloc: Global,
    asks: bool,
    which: usize,
    first: &Row,
    more: &[Row],
) -> Result<bool, AllocError>
    ensures { IfOk result (λ found. found ≡ list_any (differs asks which first.now) more.now) }
{
    for row in more {
        let is_other = differs(alloc, asks, which, first, row)?;
        if is_other {
            return Ok(true);
        }
    }
    Ok(false)
}

/// What is torn decides.
pub(crate) fn decides(
    alloc: Global,
    asks: bool,
    which: usize,
    rows: &[Row],
) -> Result<bool, AllocError>
    ensures { IfOk result (λ found. found ≡ decides asks which rows.now) }
{
    match rows {
        [] => Ok(false),
        [first, more @ ..] => any_differs(alloc, asks, which, first, more),
    }
}
