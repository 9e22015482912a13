//! The row of a point, by what was told of its run.

ghost use Rattle.std.specs.Prelude.{IfOk};
ghost use Rattle.dr_sweep.specs.Rows.{IsRow};

use crate::acks::newest;
use crate::answers::answers_of;
use crate::losses::losses;
use crate::point::PointTold;
use dr_plan::{Point, SweepPlan};
use dr_rows::Row;
use std::alloc::{AllocError, Global};

/// The row of a point of whose run this was told.
pub(crate) fn row_of(
    alloc: Global,
    plan: &SweepPlan,
    point: Point,
    told: PointTold,
) -> Result<Row, AllocError>
    ensures { IfOk result (IsRow plan.now point told) }
{
    let journal = told.journal();
    let newest = newest(journal, told.begin());
    let losses = losses(alloc, plan.uses(), journal, told.begin())?;
    let answers = answers_of(alloc, journal, told.before())?;
    let (phases, members) = told.into_lists();
    Ok(Row::new(point, phases, answers, members, newest, losses))
}
