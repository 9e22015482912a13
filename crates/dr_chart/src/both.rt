//! The picture of two plans.

ghost use Rattle.std.specs.Prelude.{◌≡◌, ◌++◌, codes, max, IfOk, OnOk};
ghost use Rattle.dr_rows.specs.Findings.{asks_recovery};
ghost use Rattle.dr_chart.specs.Panels.{panels};
ghost use Rattle.dr_chart.specs.Picture.{both_text, compared_picture, drawn_both, named_panels};

use crate::columns::Mark;
use crate::drawing::{Sheet, push_begin, push_numbered, title};
use crate::legend::{occurring_in_both, push_legend};
use crate::panels::{Frame, Panel, panels, shared_frame};
use crate::places::{top, width};
use dr_ids::Text;
use dr_rows::{Swept, asks_recovery};
use std::alloc::{AllocError, Global};

fn wider(n: u128, m: u128) -> u128
    ensures { result ≡ max n m }
{
    n.max(m)
}

/// A name before a head.
fn heading(alloc: Global, name: &[u8]) -> Result<Text, AllocError>
    ensures { IfOk result (λ text. text ≡ name.now ++ codes ": ") }
{
    let mut text = Text::new(alloc);
    text.append(name)?;
    text.append(b": ")?;
    Ok(text)
}

/// A plan that is drawn beside another one: the name of its file, what its sweep came to, and its panels.
#[derive(Clone, Copy)]
struct Side<'a> {
    name: &'a [u8],
    swept: &'a Swept,
    panels: &'a [Panel],
}

/// Adds the panels of a plan in a frame, of which so many stand above, each headed with its name.
fn push_named(
    alloc: Global,
    text: &mut Text,
    side: Side<'_>,
    frame: Frame,
    above: usize,
) -> Result<(), AllocError>
    ensures { OnOk result (text.new ≡ text.old ++ named_panels side.entry.name.now side.entry.swept.now.plan side.entry.swept.now.rows frame above side.entry.panels.now) }
{
    let heading = heading(alloc, side.name)?;
    let sheet = Sheet {
        name: heading.bytes(),
        plan: side.swept.plan(),
        asks: asks_recovery(alloc, side.swept.plan())?,
        rows: side.swept.rows(),
        frame,
    };
    push_numbered(alloc, text, sheet, above, side.panels)
}

/// The panels of both plans in their frames, and a legend of the marks that occur in them.
fn both_text(
    alloc: Global,
    first: Side<'_>,
    frame: Frame,
    second: Side<'_>,
    other: Frame,
    found: &[Mark],
) -> Result<Text, AllocError>
    ensures { IfOk result (λ text. text ≡ both_text first.entry.name.now first.entry.swept.now frame first.entry.panels.now second.entry.name.now second.entry.swept.now other second.entry.panels.now found.now) }
{
    let above = first.panels.len();
    let below = top(frame, above as u128 + second.panels.len() as u128);
    let high = below + 18 * found.len() as u128 + 16;
    let wide = wider(width(frame.stretches), width(other.stretches));
    let mut text = Text::new(alloc);
    push_begin(&mut text, wide, high)?;
    text.append(title())?;
    push_named(alloc, &mut text, first, frame, 0)?;
    push_named(alloc, &mut text, second, other, above)?;
    push_legend(&mut text, below, found)?;
    text.append(b"</svg>\n")?;
    Ok(text)
}

/// The same with those marks, at the scale of both.
fn drawn_both(alloc: Global, first: Side<'_>, second: Side<'_>) -> Result<Text, AllocError>
    ensures { IfOk result (λ text. text ≡ drawn_both first.entry.name.now first.entry.swept.now first.entry.panels.now second.entry.name.now second.entry.swept.now second.entry.panels.now) }
{
    let found = occurring_in_both(alloc, first.panels, second.panels)?;
    let frame = shared_frame(alloc, first.swept, second.swept, first.swept.plan())?;
    let other = shared_frame(alloc, first.swept, second.swept, second.swept.plan())?;
    both_text(alloc, first, frame, second, other, &found)
}

/// The panels of a sweep.
fn panels_of(alloc: Global, swept: &Swept) -> Result<Vec<Panel>, AllocError>
    ensures { IfOk result (λ found. found.items ≡ panels swept.now.plan (asks_recovery swept.now.plan) swept.now.rows) }
{
    let asks = asks_recovery(alloc, swept.plan())?;
    panels(alloc, swept.plan(), asks, swept.rows())
}

/// The picture of two sweeps: all panels of the first one and then all of the second, at one scale, each headed with the name of its file. Fails if
/// there is no memory.
pub fn compared_picture(
    alloc: Global,
    name: &[u8],
    first: &Swept,
    other: &[u8],
    second: &Swept,
) -> Result<Text, AllocError>
    ensures { IfOk result (λ text. text ≡ compared_picture name.now first.now other.now second.now) }
{
    let panels = panels_of(alloc, first)?;
    let others = panels_of(alloc, second)?;
    let first = Side {
        name,
        swept: first,
        panels: &panels,
    };
    let second = Side {
        name: other,
        swept: second,
        panels: &others,
    };
    drawn_both(alloc, first, second)
}
