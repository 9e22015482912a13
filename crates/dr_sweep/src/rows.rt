//! The rows of one part of a sweep.

ghost use Rattle.std.specs.Prelude.{◌≡◌, ◌∷◌, [], IfOk, IfErr, OnOk, IsSome};
ghost use Rattle.dr_model.specs.Groups.{In};
ghost use Rattle.dr_plan.specs.declared.points.Point.TheVariants.{Cut};
ghost use Rattle.dr_plan.specs.Points.{script_of};
ghost use Rattle.dr_sweep.specs.Comes.{ComesTo, FailsAt};
ghost use Rattle.dr_sweep.specs.Parts.{Adds, AreRowsOf, AddsWhereReached, AddsWrite, AreWithin, AreRows, FailsWrite, FailsIn, IsOf, parts_of};
ghost use Rattle.dr_sweep.specs.declared.parts.Part.TheVariants.{Within};

use crate::counts::{first_counts, first_write, raise, raised};
use crate::fault::PointFault;
use crate::parts::Part;
use crate::point::{Came, PointTold, run_point};
use crate::reach::{FirstStop, is_own};
use crate::row::row_of;
use dr_plan::{Point, SweepPlan, Torn, WriteCounts};
use dr_rows::Row;
use std::alloc::{AllocError, Global};

/// Adds the row of a point of whose run this was told.
fn push_told(
    alloc: Global,
    plan: &SweepPlan,
    point: Point,
    told: PointTold,
    rows: &mut Vec<Row>,
) -> Result<(), AllocError>
    requires { ComesTo plan.now point told }
    ensures { OnOk result (Adds (AreRowsOf plan.now (point ∷ [])) rows.old.items rows.new.items) }
{
    let row = row_of(alloc, plan, point, told)?;
    rows.push(row)?;
    Ok(())
}

/// Adds the row of a point if its server is the first to stop in the tried step; gives the first stop there.
fn add_row(
    alloc: Global,
    plan: &SweepPlan,
    point: Point,
    rows: &mut Vec<Row>,
) -> Result<FirstStop, PointFault>
    requires { IsSome (script_of plan.now point) }
    ensures adds { IfOk result (AddsWhereReached plan.now point (point ∷ []) rows.old.items rows.new.items) }
    ensures fails { IfErr result (FailsAt plan.now point) }
{
    match run_point(alloc, plan, point)? {
        Came::Struck(told) => {
            push_told(alloc, plan, point, told, rows)?;
            Ok(FirstStop::Own)
        }
        Came::Missed(stop) => Ok(stop),
    }
}

/// The point of a device write.
pub(crate) fn cut_at(
    disaster: usize,
    place: usize,
    server: usize,
    torn: Torn,
    writes: &WriteCounts,
) -> Point
    ensures { result ≡ Cut disaster place server torn writes.now }
{
    Point::Cut {
        disaster,
        place,
        server,
        torn,
        writes: *writes,
    }
}

/// Adds the rows of a device write if it is reached; gives the first stop in the tried step.
fn add_write(
    alloc: Global,
    plan: &SweepPlan,
    disaster: usize,
    place: usize,
    server: usize,
    writes: &WriteCounts,
    rows: &mut Vec<Row>,
) -> Result<FirstStop, PointFault>
    requires is_of { IsOf plan.now (Within disaster place server) }
    ensures adds { IfOk result (AddsWrite plan.now disaster place server writes.now rows.old.items rows.new.items) }
    ensures fails { IfErr result (FailsWrite plan.now disaster place server writes.now) }
{
    let unchanged = cut_at(disaster, place, server, Torn::Unchanged, writes);
    let zeros = cut_at(disaster, place, server, Torn::Zeros, writes);
    let ones = cut_at(disaster, place, server, Torn::Ones, writes);
    let stop = add_row(alloc, plan, unchanged, rows)?;
    if !is_own(stop) {
        return Ok(stop);
    }
    add_row(alloc, plan, zeros, rows)?;
    add_row(alloc, plan, ones, rows)?;
    Ok(stop)
}

/// Adds the rows of a server's device writes in a tried step.
fn add_within(
    alloc: Global,
    plan: &SweepPlan,
    disaster: usize,
    place: usize,
    server: usize,
    rows: &mut Vec<Row>,
) -> Result<(), PointFault>
    requires is_of { IsOf plan.now (Within disaster place server) }
    ensures adds { OnOk result (Adds (AreWithin plan.now disaster place server) rows.old.items rows.new.items) }
    ensures fails { IfErr result (FailsIn plan.now (Within disaster place server)) }
{
    let first = first_write(alloc, plan, disaster, place, server)?;
    let mut writes = first_counts(server, first);
    for _total in first..u32::MAX {
        let stop = add_write(alloc, plan, disaster, place, server, &writes, rows)?;
        let Some(next) = raised(server, stop) else {
            return Ok(());
        };
        raise(&mut writes, next);
    }
    Ok(())
}

/// Adds the rows of one part of a sweep, in order.
pub(crate) fn add_part(
    alloc: Global,
    plan: &SweepPlan,
    part: Part,
    rows: &mut Vec<Row>,
) -> Result<(), PointFault>
    requires is_of { In part (parts_of plan.now) }
    ensures adds { OnOk result (Adds (AreRows plan.now part) rows.old.items rows.new.items) }
    ensures fails { IfErr result (FailsIn plan.now part) }
{
    match part {
        Part::Between { disaster, place } => {
            add_row(alloc, plan, Point::Gap { disaster, place }, rows)?;
            Ok(())
        }
        Part::Within {
            disaster,
            place,
            server,
        } => add_within(alloc, plan, disaster, place, server, rows),
    }
}
