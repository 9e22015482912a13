//! The names of lines and parts, and the words that show a point.

ghost use Rattle.std.specs.Prelude.{◌≡◌, ◌++◌, OnOk};
ghost use Rattle.dr_rows.specs.Words.{step_place, gap_place, part_word, place_name, disaster_word, point_words};

use crate::cells::{server_name, torn_cell};
use crate::pieces::{push_counted, push_number};
use dr_ids::Text;
use dr_plan::{PlanPlace, Point, SweepPlan, count_at};
use std::alloc::AllocError;

/// The line and part of a tried step.
pub(crate) fn step_place(plan: &SweepPlan, place: usize) -> PlanPlace
    ensures { result ≡ step_place plan.now place }
{
    match plan.tried().get(place) {
        None => PlanPlace { line: 0, part: 0 },
        Some(tried) => PlanPlace {
            line: tried.line(),
            part: tried.part(),
        },
    }
}

/// The line and part of the tried step before a gap, which comes after that many steps; the first one has the line of `here`.
pub fn gap_place(plan: &SweepPlan, place: usize) -> PlanPlace
    ensures { result ≡ gap_place plan.now place }
{
    if place == 0 {
        return PlanPlace {
            line: plan.setup().len() + 1,
            part: 0,
        };
    }
    step_place(plan, place - 1)
}

/// Adds the number of a part, after a dot.
fn push_part(text: &mut Text, part: usize) -> Result<(), AllocError>
    ensures { OnOk result (text.new ≡ text.old ++ part_word part) }
{
    if part == 0 {
        return Ok(());
    }
    text.append(b".")?;
    push_number(text, part)
}

/// Adds the name of a line or part.
pub fn push_place_name(text: &mut Text, p: PlanPlace) -> Result<(), AllocError>
    ensures { OnOk result (text.new ≡ text.old ++ place_name p) }
{
    push_number(text, p.line)?;
    push_part(text, p.part)
}

/// Adds the number of a disaster that isn't the first.
fn push_disaster(text: &mut Text, disaster: usize) -> Result<(), AllocError>
    ensures { OnOk result (text.new ≡ text.old ++ disaster_word disaster) }
{
    if disaster == 0 {
        return Ok(());
    }
    text.append(b" ")?;
    push_counted(text, disaster)
}

/// Adds the program's words that show a point.
pub(crate) fn push_words(text: &mut Text, plan: &SweepPlan, point: Point) -> Result<(), AllocError>
    ensures { OnOk result (text.new ≡ text.old ++ point_words plan.now point) }
{
    text.append(b"script ")?;
    match point {
        Point::Cut {
            disaster,
            place,
            server,
            torn,
            writes,
        } => {
            push_place_name(text, step_place(plan, place))?;
            text.append(b" ")?;
            text.append(server_name(plan, disaster, server))?;
            text.append(b" ")?;
            push_number(text, count_at(&writes, server) as usize)?;
            text.append(b" ")?;
            text.append(torn_cell(torn))?;
            push_disaster(text, disaster)
        }
        Point::Gap { disaster, place } => {
            push_place_name(text, gap_place(plan, place))?;
            text.append(b" gap")?;
            push_disaster(text, disaster)
        }
    }
}
