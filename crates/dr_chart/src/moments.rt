//! The columns of a panel, and the phases above them.

ghost use Rattle.std.specs.Prelude.{◌≡◌, ◌++◌, ◌<◌, ◌^◌, OnOk};
ghost use Rattle.std.specs.List.{slice_get};
ghost use Rattle.dr_chart.specs.Picture.{body_text, bar_text, column_text, column_at, columns_text, is_same_phase, phase_of, phase_before, phase_text, phase_at, phases_text, numbered};

use crate::columns::{Column, Mark};
use crate::panels::Frame;
use crate::pieces::{paint, push_rect, push_text_end, push_turned};
use crate::places::{breadth, column_begin, rise};
use dr_ids::Text;
use dr_rows::{SessionPhase, push_phase};
use std::alloc::AllocError;

/// Adds what stands above: that high, and a little more.
#[tactic(auto, unfolding(crate::specs::Picture::body_text))]
fn push_body(
    text: &mut Text,
    x: u128,
    breadth: u128,
    high: u128,
    paint: &[u8],
) -> Result<(), AllocError>
    requires { high < 2 ^ 78 }
    ensures { OnOk result (text.new ≡ text.old ++ body_text x breadth high paint.now) }
{
    let y = 16_000_u128.saturating_sub(high);
    push_rect(text, x, y, breadth, high + 300, paint)
}

/// Adds a bar below a column.
#[tactic(auto, unfolding(crate::specs::Picture::bar_text))]
fn push_bar(
    text: &mut Text,
    x: u128,
    y: u128,
    breadth: u128,
    has: bool,
    mark: Mark,
) -> Result<(), AllocError>
    ensures { OnOk result (text.new ≡ text.old ++ bar_text x y breadth has mark) }
{
    if has {
        push_rect(text, x, y, breadth, 400, paint(mark))
    } else {
        Ok(())
    }
}

/// Adds a column in its colour, and the bars below it.
fn push_column(
    text: &mut Text,
    frame: Frame,
    x: u128,
    breadth: u128,
    column: Column,
) -> Result<(), AllocError>
    ensures { OnOk result (text.new ≡ text.old ++ column_text frame x breadth column) }
{
    let high = rise(frame, column.lost);
    push_body(text, x, breadth, high, paint(column.mark))?;
    push_bar(text, x, 16_500, breadth, column.broken, Mark::Broken)?;
    push_bar(text, x, 17_000, breadth, column.short, Mark::Short)
}

/// Adds the column of that number.
fn push_column_at(
    text: &mut Text,
    frame: Frame,
    columns: &[Column],
    i: usize,
    column: Column,
) -> Result<(), AllocError>
    ensures { OnOk result (text.new ≡ text.old ++ column_at frame columns.now i column) }
{
    let x = column_begin(frame, columns, i, column);
    push_column(text, frame, x, breadth(frame, columns, column), column)
}

/// Adds all columns by their numbers.
fn push_numbered(text: &mut Text, frame: Frame, columns: &[Column]) -> Result<(), AllocError>
    ensures { OnOk result (text.new ≡ text.old ++ numbered (column_at frame columns.now) 0 columns.now) }
{
    for (i, column) in columns.iter().enumerate() {
        push_column_at(text, frame, columns, i, *column)?;
    }
    Ok(())
}

/// Adds all columns, in hundredths of a unit.
pub(crate) fn push_columns(
    text: &mut Text,
    frame: Frame,
    columns: &[Column],
) -> Result<(), AllocError>
    ensures { OnOk result (text.new ≡ text.old ++ columns_text frame columns.now) }
{
    text.append(b"<g transform='translate(0 120) scale(.01)'>\n")?;
    push_numbered(text, frame, columns)?;
    text.append(b"</g>\n")
}

/// Both are the same phase of the same session.
fn is_same_phase(phase: Option<SessionPhase>, other: Option<SessionPhase>) -> bool
    ensures { result ≡ is_same_phase phase other }
{
    match (phase, other) {
        (Some(p), Some(q)) => p.session == q.session && p.phase == q.phase,
        (None, None) => true,
        _ => false,
    }
}

/// The phase of the column at a place.
fn phase_of(columns: &[Column], place: usize) -> Option<SessionPhase>
    ensures { result ≡ phase_of (slice_get columns.now place) }
{
    match columns.get(place) {
        None => None,
        Some(column) => column.phase,
    }
}

/// The phase of the column before that number.
fn phase_before(columns: &[Column], i: usize) -> Option<SessionPhase>
    ensures { result ≡ phase_before columns.now i }
{
    if i == 0 {
        return None;
    }
    phase_of(columns, i - 1)
}

/// Adds the name of a phase, above the columns.
#[tactic(auto, unfolding(crate::specs::Picture::phase_text))]
fn push_phase_text(text: &mut Text, x: u128, phase: SessionPhase) -> Result<(), AllocError>
    ensures { OnOk result (text.new ≡ text.old ++ phase_text x phase) }
{
    push_turned(text, x, 114)?;
    text.append(b" fill='#666666'>")?;
    push_phase(text, phase)?;
    push_text_end(text)
}

/// Adds the phase of the first session, if it isn't that of the column before.
fn push_phase_at(
    text: &mut Text,
    frame: Frame,
    columns: &[Column],
    i: usize,
    column: Column,
) -> Result<(), AllocError>
    ensures { OnOk result (text.new ≡ text.old ++ phase_at frame columns.now i column) }
{
    if is_same_phase(phase_before(columns, i), column.phase) {
        return Ok(());
    }
    match column.phase {
        None => Ok(()),
        Some(phase) => {
            let x = column_begin(frame, columns, i, column);
            push_phase_text(text, x / 100 + 8, phase)
        }
    }
}

/// Adds all changes of the phase.
pub(crate) fn push_phases(
    text: &mut Text,
    frame: Frame,
    columns: &[Column],
) -> Result<(), AllocError>
    ensures { OnOk result (text.new ≡ text.old ++ phases_text frame columns.now) }
{
    for (i, column) in columns.iter().enumerate() {
        push_phase_at(text, frame, columns, i, *column)?;
    }
    Ok(())
}
