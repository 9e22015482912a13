//! Two plans side by side.

ghost use Rattle.std.specs.Prelude.{◌≡◌, [], ◌∷◌, ◌++◌, List, length, nat_lt, IfOk, OnOk};
ghost use Rattle.std.specs.List.{flat_map, range_with_len};
ghost use Rattle.dr_plan.specs.Above.{is_among};
ghost use Rattle.dr_plan.specs.Sweep.{Sweep};
ghost use Rattle.dr_rows.specs.Calm.{Calm as CalmRun};
ghost use Rattle.dr_rows.specs.Findings.{finding_count, has_finding};
ghost use Rattle.dr_rows.specs.Outcome.{Outcome};
ghost use Rattle.dr_rows.specs.Table.{column_name};
ghost use Rattle.dr_rows.specs.Compare.{are_among, both, compared, compared_names, comparison, disaster_like, findings_line, first_row, first_rows, found_in, found_like, has_like, is_same_set, is_same_use, lettered, no_cells, only_second, or_dashes, row_cells, second_row, second_rows, side_by_side, use_like};

use crate::calm::Calm;
use crate::cells::name_at;
use crate::disasters::{rows_of, servers_of};
use crate::findings::{asks_recovery, finding_count, wanted};
use crate::pieces::push_total;
use crate::row::Row;
use crate::table::{Layout, is_number, push_lines};
use crate::table_cells::{COLUMN_COUNT, Cells, add_bytes, column_name, column_names, use_cells};
use dr_ids::Text;
use dr_model::Name;
use dr_plan::{SweepPlan, is_same_name};
use std::alloc::{AllocError, Global};
use std::marker::Model;

/// What a sweep of a plan came to.
#[derive(Drop)]
pub struct Swept {
    plan: SweepPlan,
    calm: Calm,
    rows: Vec<Row>,
}

impl Model for Swept {
    ghost use Rattle.dr_rows.specs.Compare.{Swept as SweptPlan};

    ghost Value = { SweptPlan };

    ghost view = { λ s. record { plan = s.plan; calm = s.calm; rows = s.rows.items } };
}

impl Swept {
    /// The plan that was tried, its calm run and all its rows.
    pub fn new(plan: SweepPlan, calm: Calm, rows: Vec<Row>) -> Swept
        ensures { result ≡ record { plan = plan; calm = calm; rows = rows.items } }
    {
        Swept { plan, calm, rows }
    }

    /// The plan that was tried.
    pub fn plan(&self) -> &SweepPlan
        ensures { result.now ≡ self.now.plan }
    {
        &self.plan
    }

    /// Its calm run.
    pub fn calm(&self) -> &Calm
        ensures { result.now ≡ self.now.calm }
    {
        &self.calm
    }

    /// Its rows.
    pub fn rows(&self) -> &[Row]
        ensures { result.now ≡ self.now.rows }
    {
        &self.rows
    }
}

fn is_among(name: &Name, names: &[Name]) -> bool
    ensures { result ≡ is_among name.now names.now }
{
    names.iter().any(|other| is_same_name(other, name))
}

/// Each name of the first ones is among the second ones.
fn are_among(names: &[Name], others: &[Name]) -> bool
    ensures { result ≡ are_among names.now others.now }
{
    names.iter().all(|name| is_among(name, others))
}

/// Both have the same names, in whatever order.
fn is_same_set(names: &[Name], others: &[Name]) -> bool
    ensures { result ≡ is_same_set names.now others.now }
{
    are_among(names, others) && are_among(others, names)
}

/// Both uses have the same name, or none has one.
fn is_same_use(name: Option<Name>, other: Option<Name>) -> bool
    ensures { result ≡ is_same_use name other }
{
    match (name, other) {
        (Some(name), Some(other)) => is_same_name(&name, &other),
        (None, None) => true,
        _ => false,
    }
}

/// The place in another plan of the disaster that takes the same servers.
fn disaster_like(other: &SweepPlan, plan: &SweepPlan, disaster: usize) -> Option<usize>
    ensures { result ≡ disaster_like other.now plan.now disaster }
{
    let servers = servers_of(plan, disaster);
    other
        .disasters()
        .iter()
        .position(|lost| is_same_set(servers, lost.servers()))
}

/// The place in another plan of the use with the same name.
fn use_like(other: &SweepPlan, plan: &SweepPlan, which: usize) -> Option<usize>
    ensures { result ≡ use_like other.now plan.now which }
{
    let name = name_at(plan, which);
    other
        .uses()
        .iter()
        .position(|of| is_same_use(name, of.name()))
}

/// The other plan has both.
fn has_like(other: &SweepPlan, plan: &SweepPlan, disaster: usize, which: usize) -> bool
    ensures { result ≡ has_like other.now plan.now disaster which }
{
    disaster_like(other, plan, disaster).is_some() && use_like(other, plan, which).is_some()
}

/// The row of a report's table for a disaster and a use.
fn row_cells(
    alloc: Global,
    swept: &Swept,
    disaster: usize,
    which: usize,
) -> Result<Cells, AllocError>
    ensures { IfOk result (λ cells. cells ≡ row_cells swept.now disaster which) }
{
    let plan = swept.plan();
    let asks = asks_recovery(alloc, plan)?;
    let numbers = wanted(alloc, plan)?;
    let rows = rows_of(alloc, swept.rows(), disaster)?;
    use_cells(alloc, plan, asks, &numbers, disaster, &rows, which)
}

/// Dashes in the place of a row that a plan hasn't got.
fn no_cells(alloc: Global) -> Result<Cells, AllocError>
    ensures { IfOk result (λ cells. cells ≡ no_cells) }
{
    let mut cells = Cells::new(alloc);
    for _ in 0..COLUMN_COUNT {
        add_bytes(alloc, &mut cells, b"-")?;
    }
    Ok(cells)
}

/// The row of another sweep for the same disaster and use, if its plan has both.
fn found_like(
    alloc: Global,
    other: &Swept,
    plan: &SweepPlan,
    disaster: usize,
    which: usize,
) -> Result<Option<Cells>, AllocError>
    ensures { IfOk result (λ cells. cells ≡ found_like other.now plan.now disaster which) }
{
    let Some(disaster) = disaster_like(other.plan(), plan, disaster) else {
        return Ok(None);
    };
    let Some(which) = use_like(other.plan(), plan, which) else {
        return Ok(None);
    };
    Ok(Some(row_cells(alloc, other, disaster, which)?))
}

/// A row that was found, or dashes.
fn or_dashes(alloc: Global, found: Option<Cells>) -> Result<Cells, AllocError>
    ensures { IfOk result (λ cells. cells ≡ or_dashes found) }
{
    match found {
        Some(cells) => Ok(cells),
        None => no_cells(alloc),
    }
}

/// Adds the cells of two rows in a column of numbers.
fn add_both(
    alloc: Global,
    cells: &mut Cells,
    first: &Cells,
    second: &Cells,
    column: usize,
) -> Result<(), AllocError>
    ensures { OnOk result (cells.new ≡ cells.old ++ both first.now second.now column) }
{
    if !is_number(column) {
        return Ok(());
    }
    add_bytes(alloc, cells, first.cell(column))?;
    add_bytes(alloc, cells, second.cell(column))
}

/// Adds the numbers of two rows.
fn add_numbers(
    alloc: Global,
    cells: &mut Cells,
    first: &Cells,
    second: &Cells,
) -> Result<(), AllocError>
    ensures { OnOk result (cells.new ≡ cells.old ++ flat_map (both first.now second.now) (range_with_len 0 14)) }
{
    for column in 0..COLUMN_COUNT {
        add_both(alloc, cells, first, second, column)?;
    }
    Ok(())
}

/// Servers and use of a row, and the numbers of two rows side by side.
fn side_by_side(
    alloc: Global,
    named: &Cells,
    first: &Cells,
    second: &Cells,
) -> Result<Cells, AllocError>
    ensures { IfOk result (λ cells. cells ≡ side_by_side named.now first.now second.now) }
{
    let mut cells = Cells::new(alloc);
    add_bytes(alloc, &mut cells, named.cell(0))?;
    add_bytes(alloc, &mut cells, named.cell(1))?;
    add_numbers(alloc, &mut cells, first, second)?;
    Ok(cells)
}

/// Adds the name of a column, with a letter after it.
fn add_lettered(
    alloc: Global,
    cells: &mut Cells,
    letter: &[u8],
    column: usize,
) -> Result<(), AllocError>
    ensures { OnOk result (cells.new ≡ cells.old ++ (column_name column ++ letter.now) ∷ []) }
{
    let mut name = Text::new(alloc);
    name.append(column_name(column))?;
    name.append(letter)?;
    cells.add(name)
}

/// The names of columns, with a letter after each.
fn lettered(alloc: Global, letter: &[u8]) -> Result<Cells, AllocError>
    ensures { IfOk result (λ cells. cells ≡ lettered letter.now) }
{
    let mut cells = Cells::new(alloc);
    for column in 0..COLUMN_COUNT {
        add_lettered(alloc, &mut cells, letter, column)?;
    }
    Ok(cells)
}

/// The names of the columns.
#[tactic(auto, unfolding(crate::specs::Compare::compared_names))]
fn compared_names(alloc: Global) -> Result<Cells, AllocError>
    ensures { IfOk result (λ cells. cells ≡ compared_names) }
{
    let first = lettered(alloc, b" A")?;
    let second = lettered(alloc, b" B")?;
    side_by_side(alloc, &column_names(alloc)?, &first, &second)
}

/// The row of a disaster and a use of the first plan.
#[tactic(auto, unfolding(crate::specs::Compare::first_row))]
fn first_row(
    alloc: Global,
    first: &Swept,
    second: &Swept,
    disaster: usize,
    which: usize,
) -> Result<Cells, AllocError>
    ensures { IfOk result (λ cells. cells ≡ first_row first.now second.now disaster which) }
{
    let cells = row_cells(alloc, first, disaster, which)?;
    let found = found_like(alloc, second, first.plan(), disaster, which)?;
    side_by_side(alloc, &cells, &cells, &or_dashes(alloc, found)?)
}

/// Adds the rows of a disaster of the first plan.
fn add_first_rows(
    alloc: Global,
    table: &mut Vec<Cells>,
    first: &Swept,
    second: &Swept,
    disaster: usize,
) -> Result<(), AllocError>
    ensures { OnOk result (table.new.items ≡ table.old.items ++ first_rows first.now second.now disaster) }
{
    for which in 0..first.plan().uses().len() {
        table.push(first_row(alloc, first, second, disaster, which)?)?;
    }
    Ok(())
}

/// The row of a disaster and a use of the second plan.
#[tactic(auto, unfolding(crate::specs::Compare::second_row))]
fn second_row(
    alloc: Global,
    second: &Swept,
    disaster: usize,
    which: usize,
) -> Result<Cells, AllocError>
    ensures { IfOk result (λ cells. cells ≡ second_row second.now disaster which) }
{
    let cells = row_cells(alloc, second, disaster, which)?;
    side_by_side(alloc, &cells, &no_cells(alloc)?, &cells)
}

/// Adds the same, if the first plan hasn't got them.
fn add_only_second(
    alloc: Global,
    table: &mut Vec<Cells>,
    first: &Swept,
    second: &Swept,
    disaster: usize,
    which: usize,
) -> Result<(), AllocError>
    ensures { OnOk result (table.new.items ≡ table.old.items ++ only_second first.now second.now disaster which) }
{
    if has_like(first.plan(), second.plan(), disaster, which) {
        return Ok(());
    }
    table.push(second_row(alloc, second, disaster, which)?)?;
    Ok(())
}

/// Adds those of a disaster of the second plan.
fn add_second_rows(
    alloc: Global,
    table: &mut Vec<Cells>,
    first: &Swept,
    second: &Swept,
    disaster: usize,
) -> Result<(), AllocError>
    ensures { OnOk result (table.new.items ≡ table.old.items ++ second_rows first.now second.now disaster) }
{
    for which in 0..second.plan().uses().len() {
        add_only_second(alloc, table, first, second, disaster, which)?;
    }
    Ok(())
}

/// Adds the rows of the first plan.
fn add_all_first(
    alloc: Global,
    table: &mut Vec<Cells>,
    first: &Swept,
    second: &Swept,
) -> Result<(), AllocError>
    ensures { OnOk result (table.new.items ≡ table.old.items ++ flat_map (first_rows first.now second.now) (range_with_len 0 (length first.now.plan.loses))) }
{
    for disaster in 0..first.plan().disasters().len() {
        add_first_rows(alloc, table, first, second, disaster)?;
    }
    Ok(())
}

/// Adds those that only the second plan has.
fn add_all_second(
    alloc: Global,
    table: &mut Vec<Cells>,
    first: &Swept,
    second: &Swept,
) -> Result<(), AllocError>
    ensures { OnOk result (table.new.items ≡ table.old.items ++ flat_map (second_rows first.now second.now) (range_with_len 0 (length second.now.plan.loses))) }
{
    for disaster in 0..second.plan().disasters().len() {
        add_second_rows(alloc, table, first, second, disaster)?;
    }
    Ok(())
}

/// The names of the columns, the rows of the first plan, and those that only the second one has.
#[tactic(auto, unfolding(crate::specs::Compare::compared))]
fn compared(alloc: Global, first: &Swept, second: &Swept) -> Result<Vec<Cells>, AllocError>
    ensures { IfOk result (λ table. table.items ≡ compared first.now second.now) }
{
    let mut table = Vec::new(alloc);
    table.push(compared_names(alloc)?)?;
    add_all_first(alloc, &mut table, first, second)?;
    add_all_second(alloc, &mut table, first, second)?;
    Ok(table)
}

/// How many findings a sweep has.
fn found_in(alloc: Global, swept: &Swept) -> Result<u128, AllocError>
    ensures { IfOk result (λ n. n ≡ found_in swept.now) }
{
    finding_count(alloc, swept.plan(), swept.calm(), swept.rows())
}

/// Adds the last line: how many findings each has.
#[tactic(auto, unfolding(crate::specs::Compare::findings_line))]
fn push_findings(text: &mut Text, first: u128, second: u128) -> Result<(), AllocError>
    ensures { OnOk result (text.new ≡ text.old ++ findings_line first second) }
{
    text.append(b"findings: ")?;
    push_total(text, first)?;
    text.append(b" of A, ")?;
    push_total(text, second)?;
    text.append(b" of B\n")
}

/// What is printed of two plans: a table of what each loses at worst, with a row for each disaster and use of either, and how many findings each
/// has. Fails if there is no memory.
#[tactic(auto, using(crate::proofs::CountLemmas::findings_counted), unfolding(crate::specs::Compare::comparison))]
pub fn comparison(alloc: Global, first: &Swept, second: &Swept) -> Result<Text, AllocError>
    ensures is { IfOk result (λ text. text ≡ comparison first.now second.now) }
    ensures counted { (plan : Sweep) (calm : CalmRun) (rows : List Outcome) → has_finding plan calm rows ≡ nat_lt 0 (finding_count plan calm rows) }
{
    let mut text = Text::new(alloc);
    push_lines(
        &mut text,
        Layout::OfTwoPlans,
        &compared(alloc, first, second)?,
    )?;
    push_findings(&mut text, found_in(alloc, first)?, found_in(alloc, second)?)?;
    Ok(text)
}
