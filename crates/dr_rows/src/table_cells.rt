//! The cells of the table at the head of a report.

ghost use Rattle.std.specs.Prelude.{ℕ, ◌≡◌, [], ◌∷◌, ◌++◌, length, map, find, OnOk, IfOk};
ghost use Rattle.std.specs.Fmt.{decimal};
ghost use Rattle.std.specs.List.{range_with_len};
ghost use Rattle.std.specs.Option.{option_copied};
ghost use Rattle.dr_model.specs.LineText.{name_text};
ghost use Rattle.dr_rows.specs.Cells.{decision_cell, group_cell, listed, phase_said, use_name};
ghost use Rattle.dr_rows.specs.Findings.{is_finding_for};
ghost use Rattle.dr_rows.specs.Table.{cell_in, column_name, column_names, count_cells, disaster_cells, finding_cell, finding_kind, finding_said, head_cells, no_worst, point_place, table, use_cells, uses_cells, worst_cells, worst_of};
ghost use Rattle.dr_rows.specs.Words.{place_name, point_words};

use crate::cells::{decision_cell, push_broken, push_group_cell, push_phase_list, push_use_name};
use crate::disasters::{
    broken_count, first_worst, most_of, no_group_count, push_names, row_count, rows_of, servers_of,
    short_count,
};
use crate::findings::{is_above, is_finding_for, lacks_group, wanted};
use crate::pieces::push_number;
use crate::row::{Row, SessionPhase};
use crate::words::{gap_place, push_place_name, push_words, step_place};
use dr_ids::Text;
use dr_model::Name;
use dr_plan::{PlanPlace, Point, SweepPlan, name_bytes};
use std::alloc::{AllocError, Global};
use std::marker::Model;

/// How many columns there are.
pub(crate) const COLUMN_COUNT: usize = 14;

/// How many columns are about the first row with the most lost writes.
const WORST_COUNT: usize = 6;

/// The cells of a row of the table.
#[derive(Drop)]
pub(crate) struct Cells {
    cells: Vec<Text>,
}

impl Model for Cells {
    ghost use Rattle.std.specs.Prelude.{ℕ, List};

    ghost Value = { List (List ℕ) };

    ghost view = { λ c. c.cells.items };
}

impl Cells {
    /// No cells.
    pub(crate) fn new(alloc: Global) -> Cells
        ensures { result ≡ [] }
    {
        Cells {
            cells: Vec::new(alloc),
        }
    }

    /// How many there are.
    pub(crate) fn len(&self) -> usize
        ensures { result ≡ length self.now }
    {
        self.cells.len()
    }

    /// Adds a cell.
    pub(crate) fn add(&mut self, cell: Text) -> Result<(), AllocError>
        ensures { OnOk result (self.new ≡ self.old ++ cell ∷ []) }
    {
        self.cells.push(cell)?;
        Ok(())
    }

    /// The cell in a column.
    pub(crate) fn cell(&self, column: usize) -> &[u8]
        ensures { result.now ≡ cell_in column self.now }
    {
        match self.cells.get(column) {
            Some(cell) => cell.bytes(),
            None => b"",
        }
    }
}

/// The name of a column.
pub(crate) fn column_name(column: usize) -> &'static [u8]
    ensures { result.now ≡ column_name column }
{
    match column {
        0 => b"lost at once",
        1 => b"use",
        2 => b"points",
        3 => b"most lost",
        4 => b"age",
        5 => b"line",
        6 => b"phases",
        7 => b"group",
        8 => b"decision",
        9 => b"shown by",
        10 => b"broken",
        11 => b"no group",
        12 => b"fewer members",
        13 => b"first finding",
        _ => b"",
    }
}

/// Adds a cell of these bytes.
pub(crate) fn add_bytes(alloc: Global, cells: &mut Cells, bytes: &[u8]) -> Result<(), AllocError>
    ensures { OnOk result (cells.new ≡ cells.old ++ bytes.now ∷ []) }
{
    let mut text = Text::new(alloc);
    text.append(bytes)?;
    cells.add(text)
}

/// The names of all columns.
pub(crate) fn column_names(alloc: Global) -> Result<Cells, AllocError>
    ensures { IfOk result (λ cells. cells ≡ column_names) }
{
    let mut cells = Cells::new(alloc);
    for column in 0..COLUMN_COUNT {
        add_bytes(alloc, &mut cells, column_name(column))?;
    }
    Ok(cells)
}

/// Adds a number.
fn add_number(alloc: Global, cells: &mut Cells, n: usize) -> Result<(), AllocError>
    ensures { OnOk result (cells.new ≡ cells.old ++ decimal n ∷ []) }
{
    let mut text = Text::new(alloc);
    push_number(&mut text, n)?;
    cells.add(text)
}

/// The line and part of a point.
fn point_place(plan: &SweepPlan, point: Point) -> PlanPlace
    ensures { result ≡ point_place plan.now point }
{
    match point {
        Point::Cut { place, .. } => step_place(plan, place),
        Point::Gap { place, .. } => gap_place(plan, place),
    }
}

/// Adds the name of a line or part.
fn add_place(alloc: Global, cells: &mut Cells, p: PlanPlace) -> Result<(), AllocError>
    ensures { OnOk result (cells.new ≡ cells.old ++ place_name p ∷ []) }
{
    let mut text = Text::new(alloc);
    push_place_name(&mut text, p)?;
    cells.add(text)
}

/// Adds the phases of sessions.
fn add_phases(alloc: Global, cells: &mut Cells, phases: &[SessionPhase]) -> Result<(), AllocError>
    ensures { OnOk result (cells.new ≡ cells.old ++ listed phase_said phases.now ∷ []) }
{
    let mut text = Text::new(alloc);
    push_phase_list(&mut text, phases)?;
    cells.add(text)
}

/// Adds the groups of a row.
fn add_groups(alloc: Global, cells: &mut Cells, row: &Row) -> Result<(), AllocError>
    ensures { OnOk result (cells.new ≡ cells.old ++ group_cell row.now ∷ []) }
{
    let mut text = Text::new(alloc);
    push_group_cell(alloc, &mut text, row)?;
    cells.add(text)
}

/// Adds the words that show a point.
fn add_words(
    alloc: Global,
    cells: &mut Cells,
    plan: &SweepPlan,
    point: Point,
) -> Result<(), AllocError>
    ensures { OnOk result (cells.new ≡ cells.old ++ point_words plan.now point ∷ []) }
{
    let mut text = Text::new(alloc);
    push_words(&mut text, plan, point)?;
    cells.add(text)
}

/// Adds what is said of the first row with the most lost writes.
fn add_worst(
    alloc: Global,
    cells: &mut Cells,
    plan: &SweepPlan,
    which: usize,
    row: &Row,
) -> Result<(), AllocError>
    ensures { OnOk result (cells.new ≡ cells.old ++ worst_cells plan.now which row.now) }
{
    add_number(alloc, cells, row.age(which))?;
    add_place(alloc, cells, point_place(plan, row.point()))?;
    add_phases(alloc, cells, row.phases())?;
    add_groups(alloc, cells, row)?;
    cells.add(decision_cell(alloc, row)?)?;
    add_words(alloc, cells, plan, row.point())
}

/// Adds dashes in place of these.
fn add_no_worst(alloc: Global, cells: &mut Cells) -> Result<(), AllocError>
    ensures { OnOk result (cells.new ≡ cells.old ++ no_worst) }
{
    for _ in 0..WORST_COUNT {
        add_bytes(alloc, cells, b"-")?;
    }
    Ok(())
}

/// Adds one or the other, of rows.
fn add_worst_of(
    alloc: Global,
    cells: &mut Cells,
    plan: &SweepPlan,
    which: usize,
    rows: &[&Row],
) -> Result<(), AllocError>
    ensures { OnOk result (cells.new ≡ cells.old ++ worst_of plan.now which (map (λ row. row.now) rows.now)) }
{
    match first_worst(rows, which, most_of(which, rows)) {
        None => add_no_worst(alloc, cells),
        Some(row) => add_worst(alloc, cells, plan, which, row),
    }
}

/// Adds the kind of a row that is a finding for the use at a place.
fn push_finding_kind(
    text: &mut Text,
    plan: &SweepPlan,
    numbers: &[u128],
    which: usize,
    row: &Row,
) -> Result<(), AllocError>
    ensures { OnOk result (text.new ≡ text.old ++ finding_kind plan.now numbers.now which row.now) }
{
    if row.is_broken(which) {
        text.append(b"broken ")?;
        push_broken(text, row.broken_at(which))
    } else if is_above(plan.bound(), row.lost_count(which)) {
        text.append(b"too many lost")
    } else if lacks_group(numbers, row) {
        text.append(b"group missing")
    } else {
        text.append(b"fewer members")
    }
}

/// Adds the kind, and the words that show the row.
fn push_finding_said(
    text: &mut Text,
    plan: &SweepPlan,
    numbers: &[u128],
    which: usize,
    row: &Row,
) -> Result<(), AllocError>
    ensures { OnOk result (text.new ≡ text.old ++ finding_said plan.now numbers.now which row.now) }
{
    push_finding_kind(text, plan, numbers, which, row)?;
    text.append(b": ")?;
    push_words(text, plan, row.point())
}

/// The first row that is a finding for the use at a place.
fn first_finding<'a>(
    plan: &SweepPlan,
    numbers: &[u128],
    which: usize,
    rows: &[&'a Row],
) -> Option<&'a Row>
    ensures { option_copied result ≡ find (is_finding_for plan.now numbers.now which) (map (λ row. row.now) rows.now) }
{
    for row in rows {
        if is_finding_for(plan, numbers, which, row) {
            return Some(*row);
        }
    }
    None
}

/// Adds the first finding.
fn push_finding(
    text: &mut Text,
    plan: &SweepPlan,
    numbers: &[u128],
    which: usize,
    rows: &[&Row],
) -> Result<(), AllocError>
    ensures { OnOk result (text.new ≡ text.old ++ finding_cell plan.now numbers.now which (map (λ row. row.now) rows.now)) }
{
    match first_finding(plan, numbers, which, rows) {
        None => text.append(b"no finding"),
        Some(row) => push_finding_said(text, plan, numbers, which, row),
    }
}

/// The first finding.
fn finding_cell(
    alloc: Global,
    plan: &SweepPlan,
    numbers: &[u128],
    which: usize,
    rows: &[&Row],
) -> Result<Text, AllocError>
    ensures { IfOk result (λ text. text ≡ finding_cell plan.now numbers.now which (map (λ row. row.now) rows.now)) }
{
    let mut text = Text::new(alloc);
    push_finding(&mut text, plan, numbers, which, rows)?;
    Ok(text)
}

/// Adds names, with a space between them.
fn push_server_names(text: &mut Text, names: &[Name]) -> Result<(), AllocError>
    ensures { OnOk result (text.new ≡ text.old ++ listed name_text names.now) }
{
    match names {
        [] => text.append(b"-"),
        [first, more @ ..] => {
            text.append(name_bytes(first))?;
            push_names(text, more)
        }
    }
}

/// Adds the servers of a disaster.
fn add_servers(alloc: Global, cells: &mut Cells, names: &[Name]) -> Result<(), AllocError>
    ensures { OnOk result (cells.new ≡ cells.old ++ listed name_text names.now ∷ []) }
{
    let mut text = Text::new(alloc);
    push_server_names(&mut text, names)?;
    cells.add(text)
}

/// Adds the name of the use at a place.
fn add_use(
    alloc: Global,
    cells: &mut Cells,
    plan: &SweepPlan,
    which: usize,
) -> Result<(), AllocError>
    ensures { OnOk result (cells.new ≡ cells.old ++ use_name plan.now which ∷ []) }
{
    let mut text = Text::new(alloc);
    push_use_name(&mut text, plan, which)?;
    cells.add(text)
}

/// Adds the servers, the use, how many points there are, and how many writes are lost at most.
fn add_head(
    alloc: Global,
    cells: &mut Cells,
    plan: &SweepPlan,
    disaster: usize,
    rows: &[&Row],
    which: usize,
) -> Result<(), AllocError>
    ensures { OnOk result (cells.new ≡ cells.old ++ head_cells plan.now disaster (map (λ row. row.now) rows.now) which) }
{
    add_servers(alloc, cells, servers_of(plan, disaster))?;
    add_use(alloc, cells, plan, which)?;
    add_number(alloc, cells, row_count(rows))?;
    add_number(alloc, cells, most_of(which, rows))
}

/// Adds how many rows are broken, have no group, and have members that don't count.
fn add_counts(
    alloc: Global,
    cells: &mut Cells,
    asks: bool,
    which: usize,
    rows: &[&Row],
) -> Result<(), AllocError>
    ensures { OnOk result (cells.new ≡ cells.old ++ count_cells asks which (map (λ row. row.now) rows.now)) }
{
    add_number(alloc, cells, broken_count(which, rows))?;
    add_number(alloc, cells, no_group_count(asks, rows))?;
    add_number(alloc, cells, short_count(rows))
}

/// The cells of the rows of a disaster, for the use at a place.
#[tactic(auto, unfolding(crate::specs::Table::use_cells))]
pub(crate) fn use_cells(
    alloc: Global,
    plan: &SweepPlan,
    asks: bool,
    numbers: &[u128],
    disaster: usize,
    rows: &[&Row],
    which: usize,
) -> Result<Cells, AllocError>
    ensures { IfOk result (λ cells. cells ≡ use_cells plan.now asks numbers.now disaster (map (λ row. row.now) rows.now) which) }
{
    let mut cells = Cells::new(alloc);
    add_head(alloc, &mut cells, plan, disaster, rows, which)?;
    add_worst_of(alloc, &mut cells, plan, which, rows)?;
    add_counts(alloc, &mut cells, asks, which, rows)?;
    cells.add(finding_cell(alloc, plan, numbers, which, rows)?)?;
    Ok(cells)
}

/// Adds the same for each use.
fn add_uses(
    alloc: Global,
    table: &mut Vec<Cells>,
    plan: &SweepPlan,
    asks: bool,
    numbers: &[u128],
    disaster: usize,
    rows: &[&Row],
) -> Result<(), AllocError>
    ensures { OnOk result (table.new.items ≡ table.old.items ++ uses_cells plan.now asks numbers.now disaster (map (λ row. row.now) rows.now)) }
{
    for which in 0..plan.uses().len() {
        table.push(use_cells(alloc, plan, asks, numbers, disaster, rows, which)?)?;
    }
    Ok(())
}

/// Adds the same of a disaster.
fn add_disaster(
    alloc: Global,
    table: &mut Vec<Cells>,
    plan: &SweepPlan,
    asks: bool,
    numbers: &[u128],
    rows: &[Row],
    disaster: usize,
) -> Result<(), AllocError>
    ensures { OnOk result (table.new.items ≡ table.old.items ++ disaster_cells plan.now asks numbers.now rows.now disaster) }
{
    let found = rows_of(alloc, rows, disaster)?;
    add_uses(alloc, table, plan, asks, numbers, disaster, &found)
}

/// The names of the columns, and the rows of all disasters.
#[tactic(auto, unfolding(crate::specs::Table::table))]
pub(crate) fn table(
    alloc: Global,
    plan: &SweepPlan,
    asks: bool,
    rows: &[Row],
) -> Result<Vec<Cells>, AllocError>
    ensures { IfOk result (λ found. found.items ≡ table plan.now asks rows.now) }
{
    let numbers = wanted(alloc, plan)?;
    let mut found = Vec::new(alloc);
    found.push(column_names(alloc)?)?;
    for disaster in 0..plan.disasters().len() {
        add_disaster(alloc, &mut found, plan, asks, &numbers, rows, disaster)?;
    }
    Ok(found)
}
