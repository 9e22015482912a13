//! The report on a sweep.

ghost use Rattle.std.specs.Prelude.{◌≡◌, IfOk};
ghost use Rattle.dr_rows.specs.Report.{report};

use crate::calm::{Calm, push_calm};
use crate::disasters::push_disasters;
use crate::findings::asks_recovery;
use crate::recovery::push_recovery_told;
use crate::row::Row;
use crate::strip::push_strip_told;
use crate::table::push_table_told;
use dr_ids::Text;
use dr_plan::SweepPlan;
use std::alloc::{AllocError, Global};

/// The report on a sweep: the calm run of the plan, and the table, the disasters, the recovery and the strip of the plan that is tried, in which
/// lines of several steps are taken apart.
pub fn report(
    alloc: Global,
    plan: &SweepPlan,
    tried: &SweepPlan,
    calm: &Calm,
    rows: &[Row],
) -> Result<Text, AllocError>
    ensures { IfOk result (λ text. text ≡ report plan.now tried.now calm.now rows.now) }
{
    let asks = asks_recovery(alloc, tried)?;
    let mut text = Text::new(alloc);
    push_calm(&mut text, plan, calm)?;
    push_table_told(alloc, &mut text, tried, asks, rows)?;
    push_disasters(alloc, &mut text, tried, asks, rows)?;
    push_recovery_told(&mut text, tried, rows)?;
    push_strip_told(alloc, &mut text, tried, asks, rows)?;
    Ok(text)
}
