//! The axes of a panel.

ghost use Rattle.std.specs.Prelude.{◌≡◌, ◌++◌, OnOk};
ghost use Rattle.dr_chart.specs.Picture.{line_text, grid_text, half_text, titles_text, axes_text};

use crate::panels::Frame;
use crate::places::{rise, width};
use dr_ids::Text;
use dr_rows::{push_number, push_total};
use std::alloc::AllocError;

/// Adds a line across the panel, with a number.
#[tactic(auto, unfolding(crate::specs::Picture::line_text))]
fn push_line(text: &mut Text, y: u128, right: u128, n: usize) -> Result<(), AllocError>
    ensures { OnOk result (text.new ≡ text.old ++ line_text y right n) }
{
    text.append(b"<g transform='translate(0 ")?;
    push_total(text, y)?;
    text.append(b")'><path d='M60 0H")?;
    push_total(text, right)?;
    text.append(b"' stroke='#dddddd'/><text x='54' y='4' text-anchor='end'>")?;
    push_number(text, n)?;
    text.append(b"</text></g>\n")
}

/// Adds the same at the height of so many lost writes.
fn push_grid(text: &mut Text, frame: Frame, n: usize) -> Result<(), AllocError>
    ensures { OnOk result (text.new ≡ text.old ++ grid_text frame n) }
{
    let y = 280_u128.saturating_sub(rise(frame, n) / 100);
    push_line(text, y, width(frame.stretches) - 20, n)
}

/// Adds a line at half the height, if that is a number of its own.
fn push_half(text: &mut Text, frame: Frame) -> Result<(), AllocError>
    ensures { OnOk result (text.new ≡ text.old ++ half_text frame) }
{
    if frame.most <= 1 {
        return Ok(());
    }
    push_grid(text, frame, frame.most / 2)
}

/// What the axes say.
#[tactic(auto, unfolding(crate::specs::Picture::titles_text))]
fn titles() -> &'static [u8]
    ensures { result.now ≡ titles_text }
{
    b"\
        <text transform='translate(20 200) rotate(-90)' text-anchor='middle'>writes lost</text>\n\
        <text transform='translate(20 306) rotate(-90)' text-anchor='end'>lines of the plan</text>\n"
}

/// Adds the axes.
pub(crate) fn push_axes(text: &mut Text, frame: Frame) -> Result<(), AllocError>
    ensures { OnOk result (text.new ≡ text.old ++ axes_text frame) }
{
    text.append(titles())?;
    push_grid(text, frame, 0)?;
    push_half(text, frame)?;
    push_grid(text, frame, frame.most.max(1))
}
