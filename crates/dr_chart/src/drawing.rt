//! The picture of a plan's rows.

ghost use Rattle.std.specs.Prelude.{◌≡◌, [], ◌++◌, ◌+◌, ◌*◌, ◌<◌, ◌^◌, length, map, OnOk, IfOk, ℕ};
ghost use Rattle.dr_chart.specs.Columns.{InOrder, columns};
ghost use Rattle.dr_chart.specs.Picture.{begin_text, title_text, drawn, filled, panel_text, moved, moved_end, panel_at, panels_text, drawn_panels, numbered, picture};
ghost use Rattle.dr_rows.specs.Findings.{asks_recovery};
ghost use Rattle.dr_rows.specs.Kinds.{rows_of};

use crate::axes::push_axes;
use crate::columns::{Column, Mark};
use crate::heads::push_head;
use crate::legend::{occurring, push_legend};
use crate::moments::{push_columns, push_phases};
use crate::panels::{Frame, Panel, frame_of, panels};
use crate::pieces::push_attribute;
use crate::places::{top, width};
use crate::stretches::push_stretches;
use dr_ids::Text;
use dr_plan::SweepPlan;
use dr_rows::{Row, asks_recovery, push_total, rows_of};
use std::alloc::{AllocError, Global};

/// Adds the begin of a picture of that size.
#[tactic(auto, unfolding(crate::specs::Picture::begin_text))]
pub(crate) fn push_begin(text: &mut Text, wide: u128, high: u128) -> Result<(), AllocError>
    ensures { OnOk result (text.new ≡ text.old ++ begin_text wide high) }
{
    text.append(b"<svg xmlns='http://www.w3.org/2000/svg'")?;
    push_attribute(text, b"width", wide)?;
    push_attribute(text, b"height", high)?;
    text.append(b" font-family='sans-serif' font-size='12' fill='#333333'>\n")
}

/// The ground and the title.
#[tactic(auto, unfolding(crate::specs::Picture::title_text))]
pub(crate) fn title() -> &'static [u8]
    ensures { result.now ≡ title_text }
{
    b"\
        <title>what a disaster costs, at each moment of the plan</title>\n\
        <rect width='100%' height='100%' fill='#ffffff'/>\n\
        <text x='60' y='24' font-size='17'>What a disaster costs, at each moment of the plan</text>\n"
}

/// Adds what is drawn of columns.
fn push_drawn(
    alloc: Global,
    text: &mut Text,
    plan: &SweepPlan,
    frame: Frame,
    columns: &[Column],
) -> Result<(), AllocError>
    ensures { OnOk result (text.new ≡ text.old ++ drawn plan.now frame columns.now) }
{
    push_axes(text, frame)?;
    push_columns(text, frame, columns)?;
    push_phases(text, frame, columns)?;
    push_stretches(alloc, text, plan, frame, columns)
}

/// What is drawn of a plan: its rows in a frame, and a name at the head of each panel, which is empty if one plan is drawn.
#[derive(Clone, Copy)]
pub(crate) struct Sheet<'a> {
    pub(crate) name: &'a [u8],
    pub(crate) plan: &'a SweepPlan,
    /// Whether its recovery asks for a group.
    pub(crate) asks: bool,
    pub(crate) rows: &'a [Row],
    pub(crate) frame: Frame,
}

/// Adds a head and what is drawn below it.
fn push_filled(
    alloc: Global,
    text: &mut Text,
    sheet: Sheet<'_>,
    panel: &Panel,
    rows: &[&Row],
) -> Result<(), AllocError>
    ensures { OnOk result (text.new ≡ text.old ++ filled sheet.entry.name.now sheet.entry.plan.now sheet.entry.asks sheet.entry.frame panel.now.disaster panel.now.which panel.now.columns (map (λ row. row.now) rows.now)) }
{
    push_head(
        alloc,
        text,
        sheet.name,
        sheet.plan,
        sheet.asks,
        panel.disaster(),
        panel.which(),
        rows,
    )?;
    push_drawn(alloc, text, sheet.plan, sheet.frame, panel.columns())
}

/// Adds a panel, with the rows of its disaster.
fn push_panel(
    alloc: Global,
    text: &mut Text,
    sheet: Sheet<'_>,
    panel: &Panel,
) -> Result<(), AllocError>
    ensures { OnOk result (text.new ≡ text.old ++ panel_text sheet.entry.name.now sheet.entry.plan.now sheet.entry.asks sheet.entry.rows.now sheet.entry.frame panel.now) }
{
    let here = rows_of(alloc, sheet.rows, panel.disaster())?;
    push_filled(alloc, text, sheet, panel, &here)
}

/// Adds the begin of what is moved down by that.
fn push_moved(text: &mut Text, y: u128) -> Result<(), AllocError>
    ensures { OnOk result (text.new ≡ text.old ++ moved y) }
{
    text.append(b"<g transform='translate(0 ")?;
    push_total(text, y)?;
    text.append(b")'>\n")
}

/// Adds its end.
#[tactic(auto, unfolding(crate::specs::Picture::moved_end))]
fn push_moved_end(text: &mut Text) -> Result<(), AllocError>
    ensures { OnOk result (text.new ≡ text.old ++ moved_end) }
{
    text.append(b"</g>\n")
}

/// Adds the panel with that number, in its place.
fn push_panel_at(
    alloc: Global,
    text: &mut Text,
    sheet: Sheet<'_>,
    place: u128,
    panel: &Panel,
) -> Result<(), AllocError>
    requires { place < 2 ^ 66 }
    ensures { OnOk result (text.new ≡ text.old ++ panel_at sheet.entry.name.now sheet.entry.plan.now sheet.entry.asks sheet.entry.rows.now sheet.entry.frame place panel.now) }
{
    push_moved(text, top(sheet.frame, place))?;
    push_panel(alloc, text, sheet, panel)?;
    push_moved_end(text)
}

/// Adds panels, of which so many stand above, by their numbers.
pub(crate) fn push_numbered(
    alloc: Global,
    text: &mut Text,
    sheet: Sheet<'_>,
    above: usize,
    panels: &[Panel],
) -> Result<(), AllocError>
    ensures { OnOk result (text.new ≡ text.old ++ numbered (panel_at sheet.entry.name.now sheet.entry.plan.now sheet.entry.asks sheet.entry.rows.now sheet.entry.frame) above panels.now) }
{
    for (i, panel) in panels.iter().enumerate() {
        push_panel_at(alloc, text, sheet, above as u128 + i as u128, panel)?;
    }
    Ok(())
}

/// Panels, and a legend of the marks that occur in them.
fn panels_text(
    alloc: Global,
    sheet: Sheet<'_>,
    panels: &[Panel],
    found: &[Mark],
) -> Result<Text, AllocError>
    requires { sheet.name.now ≡ [] }
    ensures { IfOk result (λ text. text ≡ panels_text sheet.entry.plan.now sheet.entry.asks sheet.entry.rows.now sheet.entry.frame panels.now found.now) }
{
    let below = top(sheet.frame, panels.len() as u128);
    let high = below + 18 * found.len() as u128 + 16;
    let mut text = Text::new(alloc);
    push_begin(&mut text, width(sheet.frame.stretches), high)?;
    text.append(title())?;
    push_numbered(alloc, &mut text, sheet, 0, panels)?;
    push_legend(&mut text, below, found)?;
    text.append(b"</svg>\n")?;
    Ok(text)
}

/// The picture of panels.
fn drawn_panels(
    alloc: Global,
    plan: &SweepPlan,
    asks: bool,
    rows: &[Row],
    panels: &[Panel],
) -> Result<Text, AllocError>
    ensures { IfOk result (λ text. text ≡ drawn_panels plan.now asks rows.now panels.now) }
{
    let found = occurring(alloc, panels)?;
    let frame = frame_of(alloc, plan, rows)?;
    let sheet = Sheet {
        name: b"",
        plan,
        asks,
        rows,
        frame,
    };
    panels_text(alloc, sheet, panels, &found)
}

/// The picture of a plan's rows: a panel for each disaster and use, whose columns are in the order of line, part and place. Fails if there is
/// no memory.
#[tactic(auto, using(crate::proofs::OrderLemmas::in_order))]
pub fn picture(alloc: Global, plan: &SweepPlan, rows: &[Row]) -> Result<Text, AllocError>
    ensures is { IfOk result (λ text. text ≡ picture plan.now rows.now) }
    ensures in_order { (disaster which : ℕ) → InOrder (columns plan.now (asks_recovery plan.now) which (rows_of disaster rows.now)) }
{
    let asks = asks_recovery(alloc, plan)?;
    let panels = panels(alloc, plan, asks, rows)?;
    drawn_panels(alloc, plan, asks, rows, &panels)
}
