//! The columns of a panel: the moments of a disaster, in order.

ghost use Rattle.std.specs.Prelude.{◌≡◌, ◌∷◌, ◌++◌, filter, map, IfOk, OnOk};
ghost use Rattle.std.specs.List.{flat_map, list_any, range_with_len};
ghost use Rattle.dr_rows.specs.Outcome.{is_broken, lacks_members};
ghost use Rattle.dr_rows.specs.Places.{differs};
ghost use Rattle.dr_chart.specs.Columns.{stretches, stretch_of, rows_in, is_write_at, is_gap, after_place, places_in, group_mark, mark_of, column_of, write_column, gap_column, stretch_columns, columns_in, columns};

use dr_plan::{Point, SweepPlan};
use dr_rows::{Answer, Row, SessionPhase, differs, groups_in, most_of, writes_before};
use std::alloc::{AllocError, Global};

/// What colours and bars say.
#[derive(Clone, Copy)]
pub(crate) enum Mark {
    /// A group came back; its number modulo 6.
    Group(u32),
    /// A group was asked for, and none came back.
    NoGroup,
    /// No session is asked.
    NoSession,
    /// What is torn decides.
    Torn,
    /// A write that is held depends on a lost one.
    Broken,
    /// Fewer members count than there are.
    Short,
}

/// A moment of a disaster.
#[derive(Clone, Copy)]
pub(crate) struct Column {
    /// 0 is the gap before the first tried step, and each later one a tried step with the gap after it.
    pub(crate) stretch: usize,
    /// How many device writes of the disaster's servers come before in the step; none in the gap.
    pub(crate) place: Option<u128>,
    /// How many writes are lost at most.
    pub(crate) lost: usize,
    /// Which group came back.
    pub(crate) mark: Mark,
    /// A write that is held depends on a lost one.
    pub(crate) broken: bool,
    /// Fewer members count than there are.
    pub(crate) short: bool,
    /// The phase of the first session.
    pub(crate) phase: Option<SessionPhase>,
}

/// In which stretch of the plan a point is.
fn stretch_of(point: Point) -> u128
    ensures { result ≡ stretch_of point }
{
    match point {
        Point::Cut { place, .. } => place as u128 + 1,
        Point::Gap { place, .. } => place as u128,
    }
}

/// The rows of a stretch.
fn rows_in<'a>(alloc: Global, stretch: usize, rows: &[&'a Row]) -> Result<Vec<&'a Row>, AllocError>
    ensures { IfOk result (λ found. map (λ row. row.now) found.items ≡ rows_in stretch (map (λ row. row.now) rows.now)) }
{
    let mut found = Vec::new(alloc);
    for row in rows {
        if stretch_of(row.point()) == stretch as u128 {
            found.push(*row)?;
        }
    }
    Ok(found)
}

/// A device write is cut short at the point, after that many of the disaster's servers.
fn is_write_at(place: u128, point: Point) -> bool
    ensures { result ≡ is_write_at place point }
{
    match point {
        Point::Cut { writes, .. } => writes_before(&writes) == place,
        Point::Gap { .. } => false,
    }
}

fn is_gap(point: Point) -> bool
    ensures { result ≡ is_gap point }
{
    match point {
        Point::Cut { .. } => false,
        Point::Gap { .. } => true,
    }
}

/// One more than the place of a device write, and 0 of a gap.
fn after_place(point: Point) -> u128
    ensures { result ≡ after_place point }
{
    match point {
        Point::Cut { writes, .. } => writes_before(&writes) + 1,
        Point::Gap { .. } => 0,
    }
}

/// How many places there are, up to that of the last device write.
fn places_in(rows: &[&Row]) -> u128
    ensures { result ≡ places_in (map (λ row. row.now) rows.now) }
{
    let mut places = 0;
    for row in rows {
        places = places.max(after_place(row.point()));
    }
    places
}

/// The rows of the device writes at a place.
fn rows_at<'a>(alloc: Global, place: u128, rows: &[&'a Row]) -> Result<Vec<&'a Row>, AllocError>
    ensures { IfOk result (λ found. map (λ row. row.now) found.items ≡ filter (λ row. is_write_at place row.point) (map (λ row. row.now) rows.now)) }
{
    let mut found = Vec::new(alloc);
    for row in rows {
        if is_write_at(place, row.point()) {
            found.push(*row)?;
        }
    }
    Ok(found)
}

/// The rows of gaps.
fn gap_rows<'a>(alloc: Global, rows: &[&'a Row]) -> Result<Vec<&'a Row>, AllocError>
    ensures { IfOk result (λ found. map (λ row. row.now) found.items ≡ filter (λ row. is_gap row.point) (map (λ row. row.now) rows.now)) }
{
    let mut found = Vec::new(alloc);
    for row in rows {
        if is_gap(row.point()) {
            found.push(*row)?;
        }
    }
    Ok(found)
}

fn any_broken(which: usize, rows: &[&Row]) -> bool
    ensures { result ≡ list_any (is_broken which) (map (λ row. row.now) rows.now) }
{
    let mut broken = false;
    for row in rows {
        broken = broken || row.is_broken(which);
    }
    broken
}

fn any_short(rows: &[&Row]) -> bool
    ensures { result ≡ list_any lacks_members (map (λ row. row.now) rows.now) }
{
    let mut short = false;
    for row in rows {
        short = short || row.lacks_members();
    }
    short
}

/// One of some rows differs from a first one.
fn any_differs(
    alloc: Global,
    asks: bool,
    which: usize,
    first: &Row,
    more: &[&Row],
) -> Result<bool, AllocError>
    ensures { IfOk result (λ found. found ≡ list_any (differs asks which first.now) (map (λ row. row.now) more.now)) }
{
    let mut differ = false;
    for row in more {
        differ = differ || differs(alloc, asks, which, first, row)?;
    }
    Ok(differ)
}

/// What answers with a group say: the first one, or that none came back.
fn group_mark(asks: bool, found: &[Answer]) -> Mark
    ensures { result ≡ group_mark asks found.now }
{
    match found {
        [] if asks => Mark::NoGroup,
        [] => Mark::NoSession,
        [a, ..] => Mark::Group(a.b % 6),
    }
}

/// The colour of a column.
fn mark_of(
    alloc: Global,
    asks: bool,
    which: usize,
    first: &Row,
    more: &[&Row],
) -> Result<Mark, AllocError>
    ensures { IfOk result (λ mark. mark ≡ mark_of asks which first.now (first.now ∷ map (λ row. row.now) more.now)) }
{
    if any_differs(alloc, asks, which, first, more)? {
        return Ok(Mark::Torn);
    }
    Ok(group_mark(asks, &groups_in(alloc, first)?))
}

/// Adds the column of a moment of a stretch, if it has rows.
fn add_column(
    alloc: Global,
    found: &mut Vec<Column>,
    asks: bool,
    which: usize,
    stretch: usize,
    place: Option<u128>,
    rows: &[&Row],
) -> Result<(), AllocError>
    ensures { OnOk result (found.new.items ≡ found.old.items ++ column_of asks which stretch place (map (λ row. row.now) rows.now)) }
{
    match rows {
        [] => Ok(()),
        [first, more @ ..] => {
            let column = Column {
                stretch,
                place,
                lost: most_of(which, rows),
                mark: mark_of(alloc, asks, which, first, more)?,
                broken: any_broken(which, rows),
                short: any_short(rows),
                phase: first.phases().first().copied(),
            };
            found.push(column)?;
            Ok(())
        }
    }
}

/// Adds the column of the device writes at a place.
fn add_write_column(
    alloc: Global,
    found: &mut Vec<Column>,
    asks: bool,
    which: usize,
    stretch: usize,
    rows: &[&Row],
    place: u128,
) -> Result<(), AllocError>
    ensures { OnOk result (found.new.items ≡ found.old.items ++ write_column asks which stretch (map (λ row. row.now) rows.now) place) }
{
    let here = rows_at(alloc, place, rows)?;
    add_column(alloc, found, asks, which, stretch, Some(place), &here)
}

/// Adds the columns of all device writes of a stretch.
fn add_write_columns(
    alloc: Global,
    found: &mut Vec<Column>,
    asks: bool,
    which: usize,
    stretch: usize,
    rows: &[&Row],
) -> Result<(), AllocError>
    ensures { OnOk result (found.new.items ≡ found.old.items ++ flat_map (write_column asks which stretch (map (λ row. row.now) rows.now)) (range_with_len 0 (places_in (map (λ row. row.now) rows.now)))) }
{
    for place in 0..places_in(rows) {
        add_write_column(alloc, found, asks, which, stretch, rows, place)?;
    }
    Ok(())
}

/// Adds the column of a gap.
fn add_gap_column(
    alloc: Global,
    found: &mut Vec<Column>,
    asks: bool,
    which: usize,
    stretch: usize,
    rows: &[&Row],
) -> Result<(), AllocError>
    ensures { OnOk result (found.new.items ≡ found.old.items ++ gap_column asks which stretch (map (λ row. row.now) rows.now)) }
{
    let here = gap_rows(alloc, rows)?;
    add_column(alloc, found, asks, which, stretch, None, &here)
}

/// Adds the columns of a stretch: its device writes by their places, and its gap last.
fn add_stretch_columns(
    alloc: Global,
    found: &mut Vec<Column>,
    asks: bool,
    which: usize,
    stretch: usize,
    rows: &[&Row],
) -> Result<(), AllocError>
    ensures { OnOk result (found.new.items ≡ found.old.items ++ stretch_columns asks which stretch (map (λ row. row.now) rows.now)) }
{
    add_write_columns(alloc, found, asks, which, stretch, rows)?;
    add_gap_column(alloc, found, asks, which, stretch, rows)
}

/// Adds the columns of a stretch of some rows.
fn add_columns_in(
    alloc: Global,
    found: &mut Vec<Column>,
    asks: bool,
    which: usize,
    rows: &[&Row],
    stretch: usize,
) -> Result<(), AllocError>
    ensures { OnOk result (found.new.items ≡ found.old.items ++ columns_in asks which (map (λ row. row.now) rows.now) stretch) }
{
    let here = rows_in(alloc, stretch, rows)?;
    add_stretch_columns(alloc, found, asks, which, stretch, &here)
}

/// How many stretches a plan has: the gap before the first tried step, and each tried step with the gap after it.
pub(crate) fn stretches(plan: &SweepPlan) -> usize
    ensures { result ≡ stretches plan.now }
{
    plan.tried().len() + 1
}

/// The columns of all stretches.
#[tactic(auto, unfolding(crate::specs::Columns::columns))]
pub(crate) fn columns(
    alloc: Global,
    plan: &SweepPlan,
    asks: bool,
    which: usize,
    rows: &[&Row],
) -> Result<Vec<Column>, AllocError>
    ensures { IfOk result (λ found. found.items ≡ columns plan.now asks which (map (λ row. row.now) rows.now)) }
{
    let mut found = Vec::new(alloc);
    for stretch in 0..stretches(plan) {
        add_columns_in(alloc, &mut found, asks, which, rows, stretch)?;
    }
    Ok(found)
}
