//! What stands below the columns: a label for each stretch, and dotted lines between them.

ghost use Rattle.std.specs.Prelude.{◌≡◌, ◌++◌, ◌+◌, ◌<◌, ◌^◌, OnOk};
ghost use Rattle.dr_chart.specs.Picture.{label_text, dots_text, stretch_marks, stretch_at, stretches_text};

use crate::columns::Column;
use crate::panels::{Frame, label};
use crate::pieces::{push_escaped, push_text_end, push_turned};
use crate::places::border;
use dr_ids::Text;
use dr_plan::SweepPlan;
use dr_rows::push_total;
use std::alloc::{AllocError, Global};

/// Adds a label that ends at that place.
#[tactic(auto, unfolding(crate::specs::Picture::label_text))]
fn push_label(text: &mut Text, x: u128, label: &[u8]) -> Result<(), AllocError>
    ensures { OnOk result (text.new ≡ text.old ++ label_text x label.now) }
{
    push_turned(text, x, 306)?;
    text.append(b" text-anchor='end'>")?;
    push_escaped(text, label)?;
    push_text_end(text)
}

/// Adds the dotted line at the end of a stretch.
fn push_dots(text: &mut Text, x: u128) -> Result<(), AllocError>
    ensures { OnOk result (text.new ≡ text.old ++ dots_text x) }
{
    text.append(b"<path d='M")?;
    push_total(text, x)?;
    text.append(b" 120V300' stroke='#999999' stroke-dasharray='2 2'/>\n")
}

/// Adds both, of the stretch between two places.
fn push_marks(
    alloc: Global,
    text: &mut Text,
    plan: &SweepPlan,
    stretch: usize,
    begin: u128,
    end: u128,
) -> Result<(), AllocError>
    requires { begin + end < 2 ^ 98 }
    ensures { OnOk result (text.new ≡ text.old ++ stretch_marks plan.now stretch begin end) }
{
    let label = label(alloc, plan, stretch)?;
    push_label(text, (begin + end) / 200 + 3, label.bytes())?;
    push_dots(text, end / 100)
}

/// Adds both, of the stretch of that number.
fn push_stretch(
    alloc: Global,
    text: &mut Text,
    plan: &SweepPlan,
    frame: Frame,
    columns: &[Column],
    stretch: usize,
) -> Result<(), AllocError>
    ensures { OnOk result (text.new ≡ text.old ++ stretch_at plan.now frame columns.now stretch) }
{
    let begin = border(frame, columns, stretch as u128);
    let end = border(frame, columns, stretch as u128 + 1);
    push_marks(alloc, text, plan, stretch, begin, end)
}

/// Adds the labels of all stretches, and the lines between them.
pub(crate) fn push_stretches(
    alloc: Global,
    text: &mut Text,
    plan: &SweepPlan,
    frame: Frame,
    columns: &[Column],
) -> Result<(), AllocError>
    ensures { OnOk result (text.new ≡ text.old ++ stretches_text plan.now frame columns.now) }
{
    for stretch in 0..frame.stretches {
        push_stretch(alloc, text, plan, frame, columns, stretch)?;
    }
    Ok(())
}
