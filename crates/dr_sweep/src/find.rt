//! The script of a point that is named: of a device write, its counts are found.

ghost use Rattle.std.specs.Prelude.{◌≡◌, ◌&&◌, nat_eq, IfOk, IfErr};
ghost use Rattle.dr_sweep.specs.Calls.{IsCutScript, IsScriptOf};
ghost use Rattle.dr_sweep.specs.Parts.{FailsAtPart, FailsIn, FindsCounts, IsOf, FailsWrite};
ghost use Rattle.dr_sweep.specs.Printing.{AsksOf};
ghost use Rattle.dr_sweep.specs.Reach.{is_own};
ghost use Rattle.dr_sweep.specs.declared.printing.Asked.TheVariants.{Script};
ghost use Rattle.dr_sweep.specs.Comes.{Stops};
ghost use Rattle.dr_sweep.specs.declared.parts.Part.TheVariants.{Within};
ghost use Rattle.dr_plan.specs.Parts.{IsSweep};
ghost use Rattle.dr_plan.specs.Points.{count_at};
ghost use Rattle.dr_plan.specs.declared.points.Point.TheVariants.{Cut};
ghost use Rattle.dr_plan.specs.declared.points.Torn.TheVariants.{Unchanged};

use crate::counts::{first_counts, first_write, raise, raised};
use crate::fault::PointFault;
use crate::point::stop_at;
use crate::printing::NamedPoint;
use crate::reach::{FirstStop, is_own};
use crate::rows::cut_at;
use dr_ids::Text;
use dr_plan::{Point, SweepPlan, Torn, WriteCounts, count_at, script_at};
use std::alloc::Global;

/// The first stop in a tried step, with the block of the server that is to be cut short as it was.
fn stop_with(
    alloc: Global,
    plan: &SweepPlan,
    disaster: usize,
    place: usize,
    server: usize,
    writes: &WriteCounts,
) -> Result<FirstStop, PointFault>
    requires is_of { IsOf plan.now (Within disaster place server) }
    requires sweep { IsSweep plan.now }
    ensures stops { IfOk result (Stops plan.now (Cut disaster place server Unchanged writes.now)) }
    ensures fails { IfErr result (FailsWrite plan.now disaster place server writes.now) }
{
    let point = cut_at(disaster, place, server, Torn::Unchanged, writes);
    stop_at(alloc, plan, point)
}

/// Whether these are the counts of that server's device write of that number.
fn is_sought(stop: FirstStop, writes: &[u32], server: usize, write: u32) -> bool
    ensures { result ≡ (is_own stop && nat_eq (count_at writes.now server) write) }
{
    is_own(stop) && count_at(writes, server) == write
}

/// The counts of a server's device write of that number in a tried step; none if its rows end before it.
pub(crate) fn counts_of(
    alloc: Global,
    plan: &SweepPlan,
    disaster: usize,
    place: usize,
    server: usize,
    write: u32,
) -> Result<Option<WriteCounts>, PointFault>
    requires is_of { IsOf plan.now (Within disaster place server) }
    ensures finds { IfOk result (FindsCounts plan.now disaster place server write) }
    ensures fails { IfErr result (FailsIn plan.now (Within disaster place server)) }
{
    let first = first_write(alloc, plan, disaster, place, server)?;
    let mut writes = first_counts(server, first);
    for _total in first..u32::MAX {
        let stop = stop_with(alloc, plan, disaster, place, server, &writes)?;
        if is_sought(stop, &writes, server, write) {
            return Ok(Some(writes));
        }
        let Some(next) = raised(server, stop) else {
            return Ok(None);
        };
        raise(&mut writes, next);
    }
    Ok(None)
}

/// The script of a server's device write of that number in a tried step; none if its rows end before it.
fn cut_script(
    alloc: Global,
    plan: &SweepPlan,
    disaster: usize,
    place: usize,
    server: usize,
    write: u32,
    torn: Torn,
) -> Result<Option<Text>, PointFault>
    requires is_of { IsOf plan.now (Within disaster place server) }
    ensures is { IfOk result (IsCutScript plan.now disaster place server write torn) }
    ensures fails { IfErr result (FailsAtPart plan.now) }
{
    let Some(writes) = counts_of(alloc, plan, disaster, place, server, write)? else {
        return Ok(None);
    };
    let point = cut_at(disaster, place, server, torn, &writes);
    Ok(script_at(alloc, plan, point)?)
}

/// The script of a point that is named; none if there is no such point.
pub(crate) fn script_of(
    alloc: Global,
    plan: &SweepPlan,
    named: Option<NamedPoint>,
) -> Result<Option<Text>, PointFault>
    requires { AsksOf plan.now (Script named) }
    ensures is { IfOk result (IsScriptOf plan.now named) }
    ensures fails { IfErr result (FailsAtPart plan.now) }
{
    match named {
        None => Ok(None),
        Some(NamedPoint::Gap { disaster, place }) => {
            Ok(script_at(alloc, plan, Point::Gap { disaster, place })?)
        }
        Some(
            NamedPoint::Cut {
                disaster,
                place,
                server,
                write,
                torn,
            },
        ) => cut_script(alloc, plan, disaster, place, server, write, torn),
    }
}
