//! The lines that are printed of a row.

ghost use Rattle.std.specs.Prelude.{◌≡◌, ◌++◌, ◌<◌, ◌^◌, OnOk};
ghost use Rattle.dr_rows.specs.Line.{heading, part_cell, place_cells, writes_before, write_cells, cut_cells, disaster_of, point_cells, phase_cells, answer_cells, member_cells, loss_cells, refusal_cells, loss_line, use_line, row_lines};

use crate::cells::{
    decision_cell, push_broken, push_first_refused, push_group_cell, push_least, push_member_list,
    push_newest, push_phase_list, push_quoted, push_use_name, refused_count, server_name,
    torn_cell,
};
use crate::pieces::{push_counted, push_number, push_total};
use crate::row::{Loss, Row};
use crate::words::{gap_place, step_place};
use dr_ids::Text;
use dr_plan::{PlanPlace, Point, SweepPlan, Torn, count_at};
use std::alloc::{AllocError, Global};

/// The line with the names of the cells.
pub fn heading() -> &'static [u8]
    ensures { result.now ≡ heading }
{
    b"disaster,use,line,part,server,write,torn,place,phases,group,decision,members,newest,lost,lost writes,age,broken,refused,first refused line\n"
}

/// Adds the number of a part; a dash where a line has no parts.
fn push_part(text: &mut Text, part: usize) -> Result<(), AllocError>
    ensures { OnOk result (text.new ≡ text.old ++ part_cell part) }
{
    if part == 0 {
        return text.append(b"-");
    }
    push_number(text, part)
}

/// Adds a line and its part.
fn push_place(text: &mut Text, p: PlanPlace) -> Result<(), AllocError>
    ensures { OnOk result (text.new ≡ text.old ++ place_cells p) }
{
    text.append(b",")?;
    push_number(text, p.line)?;
    text.append(b",")?;
    push_part(text, p.part)
}

/// How many device writes the servers of a disaster make in a step before the one that is cut short.
pub fn writes_before(writes: &[u32]) -> u128
    ensures is { result ≡ writes_before writes.now }
    ensures few { result < 2 ^ 127 }
{
    let mut sum = 0;
    for count in writes {
        sum += u128::from(*count);
    }
    sum
}

/// Adds the server, the write, what is torn, and how many device writes come before.
fn push_write(
    text: &mut Text,
    plan: &SweepPlan,
    disaster: usize,
    server: usize,
    torn: Torn,
    writes: &[u32],
) -> Result<(), AllocError>
    ensures { OnOk result (text.new ≡ text.old ++ write_cells plan.now disaster server torn writes.now) }
{
    text.append(b",")?;
    text.append(server_name(plan, disaster, server))?;
    text.append(b",")?;
    push_number(text, count_at(writes, server) as usize)?;
    text.append(b",")?;
    text.append(torn_cell(torn))?;
    text.append(b",")?;
    push_total(text, writes_before(writes))
}

/// Adds the line and the part, with these; a gap has the step before it.
fn push_cut(text: &mut Text, plan: &SweepPlan, point: Point) -> Result<(), AllocError>
    ensures { OnOk result (text.new ≡ text.old ++ cut_cells plan.now point) }
{
    match point {
        Point::Cut {
            disaster,
            place,
            server,
            torn,
            writes,
        } => {
            push_place(text, step_place(plan, place))?;
            push_write(text, plan, disaster, server, torn, &writes)
        }
        Point::Gap { place, .. } => {
            push_place(text, gap_place(plan, place))?;
            text.append(b",gap,-,-,-")
        }
    }
}

/// The disaster of a point.
pub fn disaster_of(point: Point) -> usize
    ensures { result ≡ disaster_of point }
{
    match point {
        Point::Cut { disaster, .. } => disaster,
        Point::Gap { disaster, .. } => disaster,
    }
}

/// Adds the disaster, the use at a place, and where the disaster came.
fn push_point(
    text: &mut Text,
    plan: &SweepPlan,
    which: usize,
    point: Point,
) -> Result<(), AllocError>
    ensures { OnOk result (text.new ≡ text.old ++ point_cells plan.now which point) }
{
    push_counted(text, disaster_of(point))?;
    text.append(b",")?;
    push_use_name(text, plan, which)?;
    push_cut(text, plan, point)
}

/// Adds the phases of sessions.
fn push_phases(text: &mut Text, row: &Row) -> Result<(), AllocError>
    ensures { OnOk result (text.new ≡ text.old ++ phase_cells row.now) }
{
    text.append(b",")?;
    push_phase_list(text, row.phases())
}

/// Adds the groups that came back, and their decisions.
fn push_answers(alloc: Global, text: &mut Text, row: &Row) -> Result<(), AllocError>
    ensures { OnOk result (text.new ≡ text.old ++ answer_cells row.now) }
{
    text.append(b",")?;
    push_group_cell(alloc, text, row)?;
    text.append(b",")?;
    push_quoted(text, decision_cell(alloc, row)?.bytes())
}

/// Adds the members after each `@recover`, and the newest write.
fn push_members(text: &mut Text, row: &Row) -> Result<(), AllocError>
    ensures { OnOk result (text.new ≡ text.old ++ member_cells row.now) }
{
    text.append(b",")?;
    push_member_list(text, row.members())?;
    text.append(b",")?;
    push_newest(text, row.newest())
}

/// Adds what is lost, and what is broken.
fn push_loss(text: &mut Text, loss: &Loss) -> Result<(), AllocError>
    ensures { OnOk result (text.new ≡ text.old ++ loss_cells loss.now) }
{
    text.append(b",")?;
    push_number(text, loss.count())?;
    text.append(b",")?;
    push_least(text, loss)?;
    text.append(b",")?;
    push_number(text, loss.age())?;
    text.append(b",")?;
    push_broken(text, loss.broken())
}

/// Adds what was refused.
fn push_refusals(text: &mut Text, plan: &SweepPlan, row: &Row) -> Result<(), AllocError>
    ensures { OnOk result (text.new ≡ text.old ++ refusal_cells plan.now row.now) }
{
    text.append(b",")?;
    push_number(text, refused_count(row.answers()))?;
    text.append(b",")?;
    push_first_refused(text, plan, row.answers())
}

/// Adds the line of a row with one of its losses.
fn push_loss_line(
    alloc: Global,
    text: &mut Text,
    plan: &SweepPlan,
    row: &Row,
    which: usize,
    loss: &Loss,
) -> Result<(), AllocError>
    ensures { OnOk result (text.new ≡ text.old ++ loss_line plan.now row.now which loss.now) }
{
    push_point(text, plan, which, row.point())?;
    push_phases(text, row)?;
    push_answers(alloc, text, row)?;
    push_members(text, row)?;
    push_loss(text, loss)?;
    push_refusals(text, plan, row)?;
    text.append(b"\n")
}

/// Adds the line of a row for the use at a place.
fn push_use_line(
    alloc: Global,
    text: &mut Text,
    plan: &SweepPlan,
    row: &Row,
    which: usize,
) -> Result<(), AllocError>
    ensures { OnOk result (text.new ≡ text.old ++ use_line plan.now row.now which) }
{
    match row.losses().get(which) {
        None => Ok(()),
        Some(loss) => push_loss_line(alloc, text, plan, row, which, loss),
    }
}

/// Adds the lines of a row, one for each use.
pub fn push_row(
    alloc: Global,
    text: &mut Text,
    plan: &SweepPlan,
    row: &Row,
) -> Result<(), AllocError>
    ensures { OnOk result (text.new ≡ text.old ++ row_lines plan.now row.now) }
{
    for which in 0..row.losses().len() {
        push_use_line(alloc, text, plan, row, which)?;
    }
    Ok(())
}
