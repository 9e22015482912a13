//! How a table stands: that at the head of a report, and that of two plans.

ghost use Rattle.std.specs.Prelude.{◌≡◌, ◌++◌, OnOk};
ghost use Rattle.std.specs.List.{flat_map, range_with_len};
ghost use Rattle.dr_rows.specs.Table.{aligned, at_right, blanks, blanks_after, column_said, is_number, is_number_in, last_said, lines_of, table_line, table_told, width};

use crate::row::Row;
use crate::table_cells::{Cells, table};
use dr_ids::Text;
use dr_plan::SweepPlan;
use std::alloc::{AllocError, Global};

/// Which table it is.
#[derive(Clone, Copy)]
pub(crate) enum Layout {
    /// That at the head of a report.
    OfReport,
    /// That of two plans.
    OfTwoPlans,
}

/// A column of numbers in a report's table.
pub(crate) fn is_number(column: usize) -> bool
    ensures { result ≡ is_number column }
{
    column == 2 || column == 3 || column == 4 || column == 10 || column == 11 || column == 12
}

/// A column of numbers.
fn is_number_in(layout: Layout, column: usize) -> bool
    ensures { result ≡ is_number_in layout column }
{
    match layout {
        Layout::OfReport => is_number(column),
        Layout::OfTwoPlans => 1 < column,
    }
}

/// How wide the widest cell of a column is.
fn width(rows: &[Cells], column: usize) -> usize
    ensures { result ≡ width rows.now column }
{
    let mut widest = 0;
    for cells in rows {
        widest = widest.max(cells.cell(column).len());
    }
    widest
}

/// Adds the blanks that a cell lacks.
pub(crate) fn push_blanks(text: &mut Text, wide: usize, cell: &[u8]) -> Result<(), AllocError>
    ensures { OnOk result (text.new ≡ text.old ++ blanks wide cell.now) }
{
    for _ in 0..wide.saturating_sub(cell.len()) {
        text.append(b" ")?;
    }
    Ok(())
}

/// Adds a cell in that width, and no blanks after it: a number stands at the right.
fn push_at_right(
    text: &mut Text,
    layout: Layout,
    wide: usize,
    column: usize,
    cell: &[u8],
) -> Result<(), AllocError>
    ensures { OnOk result (text.new ≡ text.old ++ at_right layout wide column cell.now) }
{
    if is_number_in(layout, column) {
        push_blanks(text, wide, cell)?;
    }
    text.append(cell)
}

/// Adds the blanks after it: another one stands at the left.
fn push_blanks_after(
    text: &mut Text,
    layout: Layout,
    wide: usize,
    column: usize,
    cell: &[u8],
) -> Result<(), AllocError>
    ensures { OnOk result (text.new ≡ text.old ++ blanks_after layout wide column cell.now) }
{
    if is_number_in(layout, column) {
        return Ok(());
    }
    push_blanks(text, wide, cell)
}

/// Adds a cell in that width, before the next one.
fn push_aligned(
    text: &mut Text,
    layout: Layout,
    wide: usize,
    column: usize,
    cell: &[u8],
) -> Result<(), AllocError>
    ensures { OnOk result (text.new ≡ text.old ++ aligned layout wide column cell.now) }
{
    push_at_right(text, layout, wide, column, cell)?;
    push_blanks_after(text, layout, wide, column, cell)?;
    text.append(b"  ")
}

/// Adds the cell of a row in a column, before the next one.
fn push_column(
    text: &mut Text,
    layout: Layout,
    rows: &[Cells],
    cells: &Cells,
    column: usize,
) -> Result<(), AllocError>
    ensures { OnOk result (text.new ≡ text.old ++ column_said layout rows.now cells.now column) }
{
    let wide = width(rows, column);
    push_aligned(text, layout, wide, column, cells.cell(column))
}

/// Adds the last one of a row.
fn push_last(
    text: &mut Text,
    layout: Layout,
    rows: &[Cells],
    cells: &Cells,
    column: usize,
) -> Result<(), AllocError>
    ensures { OnOk result (text.new ≡ text.old ++ last_said layout rows.now cells.now column) }
{
    let wide = width(rows, column);
    push_at_right(text, layout, wide, column, cells.cell(column))
}

/// Adds the cells of a row in so many columns.
fn push_columns(
    text: &mut Text,
    layout: Layout,
    rows: &[Cells],
    cells: &Cells,
    columns: usize,
) -> Result<(), AllocError>
    ensures { OnOk result (text.new ≡ text.old ++ flat_map (column_said layout rows.now cells.now) (range_with_len 0 columns)) }
{
    for column in 0..columns {
        push_column(text, layout, rows, cells, column)?;
    }
    Ok(())
}

/// Adds the line of a row.
#[tactic(auto, unfolding(crate::specs::Table::table_line))]
fn push_line(
    text: &mut Text,
    layout: Layout,
    rows: &[Cells],
    cells: &Cells,
) -> Result<(), AllocError>
    ensures { OnOk result (text.new ≡ text.old ++ table_line layout rows.now cells.now) }
{
    let last = cells.len().saturating_sub(1);
    push_columns(text, layout, rows, cells, last)?;
    push_last(text, layout, rows, cells, last)?;
    text.append(b"\n")
}

/// Adds the lines of all rows.
pub(crate) fn push_lines(text: &mut Text, layout: Layout, rows: &[Cells]) -> Result<(), AllocError>
    ensures { OnOk result (text.new ≡ text.old ++ lines_of layout rows.now) }
{
    for cells in rows {
        push_line(text, layout, rows, cells)?;
    }
    Ok(())
}

/// Adds the table of a plan and its rows.
#[tactic(auto, unfolding(crate::specs::Table::table_told))]
pub(crate) fn push_table_told(
    alloc: Global,
    text: &mut Text,
    plan: &SweepPlan,
    asks: bool,
    rows: &[Row],
) -> Result<(), AllocError>
    ensures { OnOk result (text.new ≡ text.old ++ table_told plan.now asks rows.now) }
{
    push_lines(text, Layout::OfReport, &table(alloc, plan, asks, rows)?)
}
