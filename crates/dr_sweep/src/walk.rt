//! All rows of a plan.

ghost use Rattle.std.specs.Prelude.{◌≡◌, IfOk, IfErr, OnOk};
ghost use Rattle.dr_sweep.specs.Parts.{Adds, AreSwept, FailsAtPart, parts_of};

use crate::fault::PointFault;
use crate::parts::{Part, parts_of};
use crate::rows::add_part;
use dr_ids::Text;
use dr_io::Sink;
use dr_plan::SweepPlan;
use dr_rows::{Row, gap_place, push_place_name};
use dr_top::put_all;
use std::alloc::{AllocError, Global};

/// What is told after the rows of a gap: how far the sweep is.
fn told(
    alloc: Global,
    plan: &SweepPlan,
    disaster: usize,
    place: usize,
    points: usize,
) -> Result<Text, AllocError> {
    let (disaster, disasters) = (disaster.saturating_add(1), plan.disasters().len());
    let mut text = Text::new(alloc);
    let begin = format!(in alloc; "disaster {disaster} of {disasters}, line ")?;
    text.append(begin.as_bytes())?;
    push_place_name(&mut text, gap_place(plan, place))?;
    let end = format!(in alloc; ": {points} points\n")?;
    text.append(end.as_bytes())?;
    Ok(text)
}

/// Tells how far a sweep is, after the rows of a part. What fails is passed over.
fn tell<Q: Sink>(alloc: Global, progress: &mut Q, plan: &SweepPlan, part: Part, points: usize) {
    let Part::Between { disaster, place } = part else {
        return;
    };
    if let Ok(says) = told(alloc, plan, disaster, place, points) {
        let _ = put_all(progress, says.bytes());
    }
}

/// Adds the rows of a plan's parts, in order.
fn add_parts<Q: Sink>(
    alloc: Global,
    plan: &SweepPlan,
    parts: &[Part],
    rows: &mut Vec<Row>,
    progress: &mut Q,
) -> Result<(), PointFault>
    requires all { parts.now ≡ parts_of plan.now }
    ensures adds { OnOk result (Adds (AreSwept plan.now (parts_of plan.now)) rows.old.items rows.new.items) }
    ensures fails { IfErr result (FailsAtPart plan.now) }
{
    for part in parts {
        add_part(alloc, plan, *part, rows)?;
        tell(alloc, progress, plan, *part, rows.len());
    }
    Ok(())
}

/// Adds the rows of all parts of a plan, in order.
fn add_all<Q: Sink>(
    alloc: Global,
    plan: &SweepPlan,
    rows: &mut Vec<Row>,
    progress: &mut Q,
) -> Result<(), PointFault>
    ensures adds { OnOk result (Adds (AreSwept plan.now (parts_of plan.now)) rows.old.items rows.new.items) }
    ensures fails { IfErr result (FailsAtPart plan.now) }
{
    let parts = parts_of(alloc, plan)?;
    add_parts(alloc, plan, &parts, rows, progress)
}

/// The rows of all parts of a plan, in order.
pub(crate) fn all_rows<Q: Sink>(
    alloc: Global,
    plan: &SweepPlan,
    progress: &mut Q,
) -> Result<Vec<Row>, PointFault>
    ensures rows { IfOk result (λ rows. AreSwept plan.now (parts_of plan.now) rows.items) }
    ensures fails { IfErr result (FailsAtPart plan.now) }
{
    let mut rows = Vec::new(alloc);
    match add_all(alloc, plan, &mut rows, progress) {
        Ok(()) => Ok(rows),
        Err(fault) => Err(fault),
    }
}
