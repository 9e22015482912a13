//! A plan, its calm run, the table of its report and its rows, as one JSON object.

ghost use Rattle.std.specs.Prelude.{◌≡◌, ◌++◌, drop, codes, IfOk, OnOk};
ghost use Rattle.std.specs.List.{flat_map, range_with_len};
ghost use Rattle.dr_ids.specs.Spelling.{hex4};
ghost use Rattle.dr_rows.specs.Cells.{broken_cell, group_cell, least_cell, listed, members_said, newest_cell, phase_said, use_name};
ghost use Rattle.dr_rows.specs.Json.{answer_fields, array, bound_value, calm_fields, calm_item, column_field, column_key, column_value, cut_fields, disaster_item, field, first_refused_value, gap_fields, item, json_text, key_byte, loss_fields, member_fields, name_items, name_value, object, pair_item, part_value, place_fields, plan_fields, point_fields, refusal_fields, row_fields, row_item, row_items, string, table_item, table_items, text_or_null, use_item, use_row, write_fields};

use crate::calm::{Calm, CalmStep, was_announced};
use crate::cells::{
    decision_cell, first_refused, push_broken, push_group_cell, push_least, push_member_list,
    push_newest, push_phase_list, push_use_name, refused_count, server_name, torn_cell,
};
use crate::findings::asks_recovery;
use crate::json_pieces::{
    push_array_field, push_array_item, push_digits_field, push_field, push_number_field,
    push_object, push_object_field, push_object_item, push_string_field, push_string_item,
    push_text_field, truth,
};
use crate::line::{disaster_of, writes_before};
use crate::row::{Answer, Loss, Row};
use crate::table::is_number;
use crate::table_cells::{COLUMN_COUNT, Cells, column_name, table};
use crate::words::{gap_place, step_place};
use dr_ids::Text;
use dr_lost::Broken;
use dr_model::{Item, Name};
use dr_plan::{
    Disaster, PlanPlace, Point, SweepPlan, Torn, Use, count_at, name_bytes, push_volume,
};
use std::alloc::{AllocError, Global};

/// Adds the names of servers.
fn push_name_items(items: &mut Text, names: &[Name]) -> Result<(), AllocError>
    ensures { OnOk result (items.new ≡ items.old ++ name_items names.now) }
{
    for name in names {
        push_string_item(items, name_bytes(name))?;
    }
    Ok(())
}

/// Adds the servers of a disaster.
fn push_disaster(alloc: Global, items: &mut Text, names: &[Name]) -> Result<(), AllocError>
    ensures { OnOk result (items.new ≡ items.old ++ disaster_item names.now) }
{
    let mut servers = Text::new(alloc);
    push_name_items(&mut servers, names)?;
    push_array_item(items, servers.bytes())
}

/// Adds disasters.
fn push_disasters(alloc: Global, items: &mut Text, disasters: &[Disaster]) -> Result<(), AllocError>
    ensures { OnOk result (items.new ≡ items.old ++ flat_map disaster_item disasters.now) }
{
    for disaster in disasters {
        push_disaster(alloc, items, disaster.servers())?;
    }
    Ok(())
}

/// Adds a volume.
fn push_volume_item(alloc: Global, items: &mut Text, volume: u16) -> Result<(), AllocError>
    ensures { OnOk result (items.new ≡ items.old ++ item (string (hex4 volume))) }
{
    let mut name = Text::new(alloc);
    push_volume(&mut name, volume)?;
    push_string_item(items, name.bytes())
}

/// Adds a pair of volumes.
fn push_pair(alloc: Global, items: &mut Text, pair: Item) -> Result<(), AllocError>
    ensures { OnOk result (items.new ≡ items.old ++ pair_item pair) }
{
    let mut volumes = Text::new(alloc);
    push_volume_item(alloc, &mut volumes, pair.first)?;
    push_volume_item(alloc, &mut volumes, pair.second)?;
    push_array_item(items, volumes.bytes())
}

/// Adds pairs of volumes.
fn push_pairs(alloc: Global, items: &mut Text, pairs: &[Item]) -> Result<(), AllocError>
    ensures { OnOk result (items.new ≡ items.old ++ flat_map pair_item pairs.now) }
{
    for pair in pairs {
        push_pair(alloc, items, *pair)?;
    }
    Ok(())
}

/// Adds a name that may be missing.
fn push_name_field(fields: &mut Text, name: Option<Name>) -> Result<(), AllocError>
    ensures { OnOk result (fields.new ≡ fields.old ++ field (codes "name") (name_value name)) }
{
    match name {
        None => push_field(fields, b"name", b"null"),
        Some(name) => push_string_field(fields, b"name", name_bytes(&name)),
    }
}

/// Adds a use.
fn push_use(alloc: Global, items: &mut Text, of: &Use) -> Result<(), AllocError>
    ensures { OnOk result (items.new ≡ items.old ++ use_item of.now) }
{
    let mut pairs = Text::new(alloc);
    push_pairs(alloc, &mut pairs, of.pairs())?;
    let mut fields = Text::new(alloc);
    push_name_field(&mut fields, of.name())?;
    push_array_field(&mut fields, b"pairs", pairs.bytes())?;
    push_object_item(items, fields.bytes())
}

/// Adds uses.
fn push_uses(alloc: Global, items: &mut Text, uses: &[Use]) -> Result<(), AllocError>
    ensures { OnOk result (items.new ≡ items.old ++ flat_map use_item uses.now) }
{
    for of in uses {
        push_use(alloc, items, of)?;
    }
    Ok(())
}

/// Adds how many lost writes are no finding.
fn push_bound_field(fields: &mut Text, bound: Option<u32>) -> Result<(), AllocError>
    ensures { OnOk result (fields.new ≡ fields.old ++ field (codes "at_most") (bound_value bound)) }
{
    match bound {
        None => push_field(fields, b"at_most", b"null"),
        Some(bound) => push_number_field(fields, b"at_most", u128::from(bound)),
    }
}

/// Adds the fields of a plan.
#[tactic(auto, unfolding(crate::specs::Json::plan_fields))]
fn push_plan_fields(alloc: Global, fields: &mut Text, plan: &SweepPlan) -> Result<(), AllocError>
    ensures { OnOk result (fields.new ≡ fields.old ++ plan_fields plan.now) }
{
    let mut disasters = Text::new(alloc);
    push_disasters(alloc, &mut disasters, plan.disasters())?;
    push_array_field(fields, b"disasters", disasters.bytes())?;
    let mut uses = Text::new(alloc);
    push_uses(alloc, &mut uses, plan.uses())?;
    push_array_field(fields, b"uses", uses.bytes())?;
    push_bound_field(fields, plan.bound())
}

/// Adds the plan.
fn push_plan(alloc: Global, fields: &mut Text, plan: &SweepPlan) -> Result<(), AllocError>
    ensures { OnOk result (fields.new ≡ fields.old ++ field (codes "plan") (object (plan_fields plan.now))) }
{
    let mut of_plan = Text::new(alloc);
    push_plan_fields(alloc, &mut of_plan, plan)?;
    push_object_field(fields, b"plan", of_plan.bytes())
}

/// Adds the fields of a step of the calm run that was refused or held.
#[tactic(auto, unfolding(crate::specs::Json::calm_fields))]
fn push_calm_fields(fields: &mut Text, plan: &SweepPlan, step: &CalmStep) -> Result<(), AllocError>
    ensures { OnOk result (fields.new ≡ fields.old ++ calm_fields plan.now step.now) }
{
    push_number_field(fields, b"line", step.line() as u128)?;
    push_string_field(fields, b"text", step.text())?;
    push_string_field(fields, b"answer", step.says())?;
    push_field(fields, b"announced", truth(was_announced(plan, step)))
}

/// Adds such a step.
fn push_calm_step(
    alloc: Global,
    items: &mut Text,
    plan: &SweepPlan,
    step: &CalmStep,
) -> Result<(), AllocError>
    ensures { OnOk result (items.new ≡ items.old ++ calm_item plan.now step.now) }
{
    let mut fields = Text::new(alloc);
    push_calm_fields(&mut fields, plan, step)?;
    push_object_item(items, fields.bytes())
}

/// Adds such steps.
fn push_calm_steps(
    alloc: Global,
    items: &mut Text,
    plan: &SweepPlan,
    told: &[CalmStep],
) -> Result<(), AllocError>
    ensures { OnOk result (items.new ≡ items.old ++ flat_map (calm_item plan.now) told.now) }
{
    for step in told {
        push_calm_step(alloc, items, plan, step)?;
    }
    Ok(())
}

/// Adds the calm run.
fn push_calm_field(
    alloc: Global,
    fields: &mut Text,
    plan: &SweepPlan,
    calm: &Calm,
) -> Result<(), AllocError>
    ensures { OnOk result (fields.new ≡ fields.old ++ field (codes "calm") (array (flat_map (calm_item plan.now) calm.now.told))) }
{
    let mut items = Text::new(alloc);
    push_calm_steps(alloc, &mut items, plan, calm.told())?;
    push_array_field(fields, b"calm", items.bytes())
}

/// Adds a byte of a column's key.
fn push_key_byte(key: &mut Text, byte: u8) -> Result<(), AllocError>
    ensures { OnOk result (key.new ≡ key.old ++ key_byte byte) }
{
    match byte {
        b' ' => key.append(b"_"),
        _ => key.append(&[byte]),
    }
}

/// Adds the bytes of a column's key.
fn push_key(key: &mut Text, name: &[u8]) -> Result<(), AllocError>
    ensures { OnOk result (key.new ≡ key.old ++ flat_map key_byte name.now) }
{
    for byte in name {
        push_key_byte(key, *byte)?;
    }
    Ok(())
}

/// The key of a column.
fn column_key(alloc: Global, column: usize) -> Result<Text, AllocError>
    ensures { IfOk result (λ key. key ≡ column_key column) }
{
    let mut key = Text::new(alloc);
    push_key(&mut key, column_name(column))?;
    Ok(key)
}

/// Adds the field of a column with a key.
fn push_cell(fields: &mut Text, key: &[u8], column: usize, cell: &[u8]) -> Result<(), AllocError>
    ensures { OnOk result (fields.new ≡ fields.old ++ field key.now (column_value column cell.now)) }
{
    if is_number(column) {
        push_digits_field(fields, key, cell)
    } else {
        push_text_field(fields, key, cell)
    }
}

/// Adds the field of a column.
fn push_column(
    alloc: Global,
    fields: &mut Text,
    cells: &Cells,
    column: usize,
) -> Result<(), AllocError>
    ensures { OnOk result (fields.new ≡ fields.old ++ column_field cells.now column) }
{
    let key = column_key(alloc, column)?;
    push_cell(fields, key.bytes(), column, cells.cell(column))
}

/// Adds the fields of all columns.
fn push_columns(alloc: Global, fields: &mut Text, cells: &Cells) -> Result<(), AllocError>
    ensures { OnOk result (fields.new ≡ fields.old ++ flat_map (column_field cells.now) (range_with_len 0 14)) }
{
    for column in 0..COLUMN_COUNT {
        push_column(alloc, fields, cells, column)?;
    }
    Ok(())
}

/// Adds a row of the table.
#[tactic(auto, unfolding(crate::specs::Json::table_item))]
fn push_table_row(alloc: Global, items: &mut Text, cells: &Cells) -> Result<(), AllocError>
    ensures { OnOk result (items.new ≡ items.old ++ table_item cells.now) }
{
    let mut fields = Text::new(alloc);
    push_columns(alloc, &mut fields, cells)?;
    push_object_item(items, fields.bytes())
}

/// Adds rows of the table.
fn push_table_rows(alloc: Global, items: &mut Text, rows: &[Cells]) -> Result<(), AllocError>
    ensures { OnOk result (items.new ≡ items.old ++ flat_map table_item rows.now) }
{
    for cells in rows {
        push_table_row(alloc, items, cells)?;
    }
    Ok(())
}

/// The rows of a table after the names of its columns.
fn without_names(rows: &[Cells]) -> &[Cells]
    ensures { result.now ≡ drop 1 rows.now }
{
    match rows {
        [] => rows,
        [_, rest @ ..] => rest,
    }
}

/// Adds the table.
fn push_table_field(
    alloc: Global,
    fields: &mut Text,
    plan: &SweepPlan,
    rows: &[Row],
) -> Result<(), AllocError>
    ensures { OnOk result (fields.new ≡ fields.old ++ field (codes "table") (array (table_items plan.now rows.now))) }
{
    let asks = asks_recovery(alloc, plan)?;
    let cells = table(alloc, plan, asks, rows)?;
    let mut items = Text::new(alloc);
    push_table_rows(alloc, &mut items, without_names(&cells))?;
    push_array_field(fields, b"table", items.bytes())
}

/// Adds the number of a part, or null if a line has no parts.
fn push_part_field(fields: &mut Text, part: usize) -> Result<(), AllocError>
    ensures { OnOk result (fields.new ≡ fields.old ++ field (codes "part") (part_value part)) }
{
    if part == 0 {
        return push_field(fields, b"part", b"null");
    }
    push_number_field(fields, b"part", part as u128)
}

/// Adds a line and its part.
#[tactic(auto, unfolding(crate::specs::Json::place_fields))]
fn push_place(fields: &mut Text, p: PlanPlace) -> Result<(), AllocError>
    ensures { OnOk result (fields.new ≡ fields.old ++ place_fields p) }
{
    push_number_field(fields, b"line", p.line as u128)?;
    push_part_field(fields, p.part)
}

/// Adds the server, the write, what is torn, and how many device writes come before.
#[tactic(auto, unfolding(crate::specs::Json::write_fields))]
fn push_write_fields(
    fields: &mut Text,
    plan: &SweepPlan,
    disaster: usize,
    server: usize,
    torn: Torn,
    writes: &[u32],
) -> Result<(), AllocError>
    ensures { OnOk result (fields.new ≡ fields.old ++ write_fields plan.now disaster server torn writes.now) }
{
    push_string_field(fields, b"server", server_name(plan, disaster, server))?;
    push_number_field(fields, b"write", u128::from(count_at(writes, server)))?;
    push_string_field(fields, b"torn", torn_cell(torn))?;
    push_number_field(fields, b"place", writes_before(writes))
}

/// Adds the same of a gap.
#[tactic(auto, unfolding(crate::specs::Json::gap_fields))]
fn push_gap_fields(fields: &mut Text) -> Result<(), AllocError>
    ensures { OnOk result (fields.new ≡ fields.old ++ gap_fields) }
{
    push_string_field(fields, b"server", b"gap")?;
    push_field(fields, b"write", b"null")?;
    push_field(fields, b"torn", b"null")?;
    push_field(fields, b"place", b"null")
}

/// Adds where the disaster came.
fn push_cut_fields(fields: &mut Text, plan: &SweepPlan, point: Point) -> Result<(), AllocError>
    ensures { OnOk result (fields.new ≡ fields.old ++ cut_fields plan.now point) }
{
    match point {
        Point::Cut {
            disaster,
            place,
            server,
            torn,
            writes,
        } => {
            push_place(fields, step_place(plan, place))?;
            push_write_fields(fields, plan, disaster, server, torn, &writes)
        }
        Point::Gap { place, .. } => {
            push_place(fields, gap_place(plan, place))?;
            push_gap_fields(fields)
        }
    }
}

/// Adds the use at a place.
fn push_use_field(
    alloc: Global,
    fields: &mut Text,
    plan: &SweepPlan,
    which: usize,
) -> Result<(), AllocError>
    ensures { OnOk result (fields.new ≡ fields.old ++ field (codes "use") (text_or_null (use_name plan.now which))) }
{
    let mut cell = Text::new(alloc);
    push_use_name(&mut cell, plan, which)?;
    push_text_field(fields, b"use", cell.bytes())
}

/// Adds where the disaster came, with the disaster and the use at a place.
#[tactic(auto, unfolding(crate::specs::Json::point_fields))]
fn push_point_fields(
    alloc: Global,
    fields: &mut Text,
    plan: &SweepPlan,
    which: usize,
    point: Point,
) -> Result<(), AllocError>
    ensures { OnOk result (fields.new ≡ fields.old ++ point_fields plan.now which point) }
{
    push_number_field(fields, b"disaster", disaster_of(point) as u128 + 1)?;
    push_use_field(alloc, fields, plan, which)?;
    push_cut_fields(fields, plan, point)
}

/// Adds the phases of sessions.
fn push_phases_field(alloc: Global, fields: &mut Text, row: &Row) -> Result<(), AllocError>
    ensures { OnOk result (fields.new ≡ fields.old ++ field (codes "phases") (text_or_null (listed phase_said row.now.phases))) }
{
    let mut cell = Text::new(alloc);
    push_phase_list(&mut cell, row.phases())?;
    push_text_field(fields, b"phases", cell.bytes())
}

/// Adds the groups that came back.
fn push_group_field(alloc: Global, fields: &mut Text, row: &Row) -> Result<(), AllocError>
    ensures { OnOk result (fields.new ≡ fields.old ++ field (codes "group") (text_or_null (group_cell row.now))) }
{
    let mut cell = Text::new(alloc);
    push_group_cell(alloc, &mut cell, row)?;
    push_text_field(fields, b"group", cell.bytes())
}

/// Adds the phases of sessions, and what came back.
#[tactic(auto, unfolding(crate::specs::Json::answer_fields))]
fn push_answer_fields(alloc: Global, fields: &mut Text, row: &Row) -> Result<(), AllocError>
    ensures { OnOk result (fields.new ≡ fields.old ++ answer_fields row.now) }
{
    push_phases_field(alloc, fields, row)?;
    push_group_field(alloc, fields, row)?;
    push_text_field(fields, b"decision", decision_cell(alloc, row)?.bytes())
}

/// Adds the members after each `@recover`.
fn push_members_field(alloc: Global, fields: &mut Text, row: &Row) -> Result<(), AllocError>
    ensures { OnOk result (fields.new ≡ fields.old ++ field (codes "members") (text_or_null (listed members_said row.now.members))) }
{
    let mut cell = Text::new(alloc);
    push_member_list(&mut cell, row.members())?;
    push_text_field(fields, b"members", cell.bytes())
}

/// Adds the newest write.
fn push_newest_field(
    alloc: Global,
    fields: &mut Text,
    newest: Option<u32>,
) -> Result<(), AllocError>
    ensures { OnOk result (fields.new ≡ fields.old ++ field (codes "newest") (text_or_null (newest_cell newest))) }
{
    let mut cell = Text::new(alloc);
    push_newest(&mut cell, newest)?;
    push_text_field(fields, b"newest", cell.bytes())
}

/// Adds the members after each `@recover`, and the newest write.
#[tactic(auto, unfolding(crate::specs::Json::member_fields))]
fn push_member_fields(alloc: Global, fields: &mut Text, row: &Row) -> Result<(), AllocError>
    ensures { OnOk result (fields.new ≡ fields.old ++ member_fields row.now) }
{
    push_members_field(alloc, fields, row)?;
    push_newest_field(alloc, fields, row.newest())
}

/// Adds the least of the lost writes.
fn push_least_field(alloc: Global, fields: &mut Text, loss: &Loss) -> Result<(), AllocError>
    ensures { OnOk result (fields.new ≡ fields.old ++ field (codes "lost_writes") (text_or_null (least_cell loss.now))) }
{
    let mut cell = Text::new(alloc);
    push_least(&mut cell, loss)?;
    push_text_field(fields, b"lost_writes", cell.bytes())
}

/// Adds the write that is held, and the lost one on which it depends.
fn push_broken_field(
    alloc: Global,
    fields: &mut Text,
    broken: Option<Broken>,
) -> Result<(), AllocError>
    ensures { OnOk result (fields.new ≡ fields.old ++ field (codes "broken") (text_or_null (broken_cell broken))) }
{
    let mut cell = Text::new(alloc);
    push_broken(&mut cell, broken)?;
    push_text_field(fields, b"broken", cell.bytes())
}

/// Adds what is lost, and what is broken.
#[tactic(auto, unfolding(crate::specs::Json::loss_fields))]
fn push_loss_fields(alloc: Global, fields: &mut Text, loss: &Loss) -> Result<(), AllocError>
    ensures { OnOk result (fields.new ≡ fields.old ++ loss_fields loss.now) }
{
    push_number_field(fields, b"lost", loss.count() as u128)?;
    push_least_field(alloc, fields, loss)?;
    push_number_field(fields, b"age", loss.age() as u128)?;
    push_broken_field(alloc, fields, loss.broken())
}

/// Adds the line of the first refusal, by its number in the plan.
fn push_first_refused_field(
    fields: &mut Text,
    plan: &SweepPlan,
    answers: &[Answer],
) -> Result<(), AllocError>
    ensures { OnOk result (fields.new ≡ fields.old ++ field (codes "first_refused_line") (first_refused_value plan.now answers.now)) }
{
    match first_refused(answers) {
        None => push_field(fields, b"first_refused_line", b"null"),
        Some(a) => push_number_field(
            fields,
            b"first_refused_line",
            plan.then_line() as u128 + a.line as u128,
        ),
    }
}

/// Adds what was refused.
#[tactic(auto, unfolding(crate::specs::Json::refusal_fields))]
fn push_refusal_fields(
    fields: &mut Text,
    plan: &SweepPlan,
    answers: &[Answer],
) -> Result<(), AllocError>
    ensures { OnOk result (fields.new ≡ fields.old ++ refusal_fields plan.now answers.now) }
{
    push_number_field(fields, b"refused", refused_count(answers) as u128)?;
    push_first_refused_field(fields, plan, answers)
}

/// Adds the fields of a row with one of its losses.
#[tactic(auto, unfolding(crate::specs::Json::row_fields))]
fn push_row_fields(
    alloc: Global,
    fields: &mut Text,
    plan: &SweepPlan,
    row: &Row,
    which: usize,
    loss: &Loss,
) -> Result<(), AllocError>
    ensures { OnOk result (fields.new ≡ fields.old ++ row_fields plan.now row.now which loss.now) }
{
    push_point_fields(alloc, fields, plan, which, row.point())?;
    push_answer_fields(alloc, fields, row)?;
    push_member_fields(alloc, fields, row)?;
    push_loss_fields(alloc, fields, loss)?;
    push_refusal_fields(fields, plan, row.answers())
}

/// Adds a row with one of its losses.
fn push_loss_item(
    alloc: Global,
    items: &mut Text,
    plan: &SweepPlan,
    row: &Row,
    which: usize,
    loss: &Loss,
) -> Result<(), AllocError>
    ensures { OnOk result (items.new ≡ items.old ++ row_item plan.now row.now which loss.now) }
{
    let mut fields = Text::new(alloc);
    push_row_fields(alloc, &mut fields, plan, row, which, loss)?;
    push_object_item(items, fields.bytes())
}

/// Adds a row for the use at a place.
fn push_use_row(
    alloc: Global,
    items: &mut Text,
    plan: &SweepPlan,
    row: &Row,
    which: usize,
) -> Result<(), AllocError>
    ensures { OnOk result (items.new ≡ items.old ++ use_row plan.now row.now which) }
{
    match row.losses().get(which) {
        None => Ok(()),
        Some(loss) => push_loss_item(alloc, items, plan, row, which, loss),
    }
}

/// Adds a row for each use.
fn push_row_items(
    alloc: Global,
    items: &mut Text,
    plan: &SweepPlan,
    row: &Row,
) -> Result<(), AllocError>
    ensures { OnOk result (items.new ≡ items.old ++ row_items plan.now row.now) }
{
    for which in 0..row.losses().len() {
        push_use_row(alloc, items, plan, row, which)?;
    }
    Ok(())
}

/// Adds rows.
fn push_rows(
    alloc: Global,
    items: &mut Text,
    plan: &SweepPlan,
    rows: &[Row],
) -> Result<(), AllocError>
    ensures { OnOk result (items.new ≡ items.old ++ flat_map (row_items plan.now) rows.now) }
{
    for row in rows {
        push_row_items(alloc, items, plan, row)?;
    }
    Ok(())
}

/// Adds the rows.
fn push_rows_field(
    alloc: Global,
    fields: &mut Text,
    plan: &SweepPlan,
    rows: &[Row],
) -> Result<(), AllocError>
    ensures { OnOk result (fields.new ≡ fields.old ++ field (codes "rows") (array (flat_map (row_items plan.now) rows.now))) }
{
    let mut items = Text::new(alloc);
    push_rows(alloc, &mut items, plan, rows)?;
    push_array_field(fields, b"rows", items.bytes())
}

/// The plan, its calm run, and table and rows of the plan that is tried, in which lines of several steps are taken apart, as one JSON object.
pub fn json_text(
    alloc: Global,
    plan: &SweepPlan,
    tried: &SweepPlan,
    calm: &Calm,
    rows: &[Row],
) -> Result<Text, AllocError>
    ensures { IfOk result (λ text. text ≡ json_text plan.now tried.now calm.now rows.now) }
{
    let mut fields = Text::new(alloc);
    push_plan(alloc, &mut fields, plan)?;
    push_calm_field(alloc, &mut fields, plan, calm)?;
    push_table_field(alloc, &mut fields, tried, rows)?;
    push_rows_field(alloc, &mut fields, tried, rows)?;
    let mut text = Text::new(alloc);
    push_object(&mut text, fields.bytes())?;
    text.append(b"\n")?;
    Ok(text)
}
