//! The panels of a picture, and what they share.

ghost use Rattle.std.specs.Prelude.{◌≡◌, ◌++◌, max, IfOk, OnOk, length};
ghost use Rattle.dr_chart.specs.Panels.{panel_of, disaster_panels, panels, highest, cut_short, stretch_text, label, longest, framed, frame_of, shared_frame};

use crate::columns::{Column, columns, stretches};
use dr_ids::Text;
use dr_plan::SweepPlan;
use dr_rows::{Row, Swept, gap_place, most_lost, push_place_name, rows_of, step_text};
use std::alloc::{AllocError, Global};
use std::marker::Model;

/// What is shown of a disaster and a use.
#[derive(Drop)]
pub(crate) struct Panel {
    disaster: usize,
    which: usize,
    columns: Vec<Column>,
}

impl Model for Panel {
    ghost use Rattle.dr_chart.specs.Panels.{Panel as Shown};

    ghost Value = { Shown };

    ghost view = { λ p. record { disaster = p.disaster; which = p.which; columns = p.columns.items } };
}

impl Panel {
    /// The place of its disaster.
    pub(crate) fn disaster(&self) -> usize
        ensures { result ≡ self.now.disaster }
    {
        self.disaster
    }

    /// The place of its use.
    pub(crate) fn which(&self) -> usize
        ensures { result ≡ self.now.which }
    {
        self.which
    }

    /// Its columns, in order.
    pub(crate) fn columns(&self) -> &[Column]
        ensures { result.now ≡ self.now.columns }
    {
        &self.columns
    }
}

/// The panel of a disaster and a use.
fn panel_of(
    alloc: Global,
    plan: &SweepPlan,
    asks: bool,
    rows: &[Row],
    disaster: usize,
    which: usize,
) -> Result<Panel, AllocError>
    ensures { IfOk result (λ panel. panel ≡ panel_of plan.now asks rows.now disaster which) }
{
    let here = rows_of(alloc, rows, disaster)?;
    Ok(Panel {
        disaster,
        which,
        columns: columns(alloc, plan, asks, which, &here)?,
    })
}

/// Adds the panels of a disaster.
fn add_panels(
    alloc: Global,
    found: &mut Vec<Panel>,
    plan: &SweepPlan,
    asks: bool,
    rows: &[Row],
    disaster: usize,
) -> Result<(), AllocError>
    ensures { OnOk result (found.new.items ≡ found.old.items ++ disaster_panels plan.now asks rows.now disaster) }
{
    for which in 0..plan.uses().len() {
        found.push(panel_of(alloc, plan, asks, rows, disaster, which)?)?;
    }
    Ok(())
}

/// The panels of all disasters, in the plan's order.
pub(crate) fn panels(
    alloc: Global,
    plan: &SweepPlan,
    asks: bool,
    rows: &[Row],
) -> Result<Vec<Panel>, AllocError>
    ensures { IfOk result (λ found. found.items ≡ panels plan.now asks rows.now) }
{
    let mut found = Vec::new(alloc);
    for disaster in 0..plan.disasters().len() {
        add_panels(alloc, &mut found, plan, asks, rows, disaster)?;
    }
    Ok(found)
}

/// What all panels share.
#[derive(Clone, Copy)]
pub(crate) struct Frame {
    /// The most writes that are lost in any panel.
    pub(crate) most: usize,
    /// How many stretches the plan has.
    pub(crate) stretches: usize,
    /// How deep the labels go.
    pub(crate) depth: u32,
}

fn larger(n: usize, m: usize) -> usize
    ensures { result ≡ max n m }
{
    n.max(m)
}

/// The most writes that are lost to a use in any row.
fn highest(plan: &SweepPlan, rows: &[Row]) -> usize
    ensures { result ≡ highest plan.now rows.now }
{
    let mut most = 0;
    for which in 0..plan.uses().len() {
        most = larger(most, most_lost(which, rows));
    }
    most
}

/// Adds a text, cut after 40 bytes.
fn push_cut_short(text: &mut Text, said: &[u8]) -> Result<(), AllocError>
    ensures { OnOk result (text.new ≡ text.old ++ cut_short said.now) }
{
    if said.len() <= 40 {
        return text.append(said);
    }
    let (front, _) = said.split_at(40);
    text.append(front)?;
    text.append(b"..")
}

/// Adds what stands in a stretch.
fn push_stretch_text(text: &mut Text, plan: &SweepPlan, stretch: usize) -> Result<(), AllocError>
    ensures { OnOk result (text.new ≡ text.old ++ stretch_text plan.now stretch) }
{
    if stretch == 0 {
        return text.append(b"here");
    }
    push_cut_short(text, step_text(plan, stretch - 1))
}

/// The label of a stretch: its number in the plan, with the part, and its text.
pub(crate) fn label(alloc: Global, plan: &SweepPlan, stretch: usize) -> Result<Text, AllocError>
    ensures { IfOk result (λ text. text ≡ label plan.now stretch) }
{
    let mut text = Text::new(alloc);
    push_place_name(&mut text, gap_place(plan, stretch))?;
    text.append(b" ")?;
    push_stretch_text(&mut text, plan, stretch)?;
    Ok(text)
}

/// How long the label of a stretch is.
fn label_length(alloc: Global, plan: &SweepPlan, stretch: usize) -> Result<usize, AllocError>
    ensures { IfOk result (λ n. n ≡ length (label plan.now stretch)) }
{
    let text = label(alloc, plan, stretch)?;
    Ok(text.bytes().len())
}

/// How long the longest label is.
fn longest(alloc: Global, plan: &SweepPlan) -> Result<usize, AllocError>
    ensures { IfOk result (λ n. n ≡ longest plan.now) }
{
    let mut most = 0;
    for stretch in 0..stretches(plan) {
        most = larger(most, label_length(alloc, plan, stretch)?);
    }
    Ok(most)
}

/// The scale of a plan's panels, if that many writes are lost at most, and how deep their labels go, if the longest has so many bytes.
fn framed(plan: &SweepPlan, most: usize, longest: usize) -> Frame
    ensures { result ≡ framed plan.now most longest }
{
    let longest = longest.min(56).max(20);
    Frame {
        most,
        stretches: stretches(plan),
        depth: 6 * longest as u32,
    }
}

/// The same by what the plan's rows lose, and by its own labels.
pub(crate) fn frame_of(alloc: Global, plan: &SweepPlan, rows: &[Row]) -> Result<Frame, AllocError>
    ensures { IfOk result (λ f. f ≡ frame_of plan.now rows.now) }
{
    let longest = longest(alloc, plan)?;
    Ok(framed(plan, highest(plan, rows), longest))
}

/// The most writes that are lost in a row of a sweep.
fn highest_in(swept: &Swept) -> usize
    ensures { result ≡ highest swept.now.plan swept.now.rows }
{
    highest(swept.plan(), swept.rows())
}

/// How long the longest label of a sweep's plan is.
fn longest_in(alloc: Global, swept: &Swept) -> Result<usize, AllocError>
    ensures { IfOk result (λ n. n ≡ longest swept.now.plan) }
{
    longest(alloc, swept.plan())
}

/// The frame of one of two plans, at the scale of both.
pub(crate) fn shared_frame(
    alloc: Global,
    first: &Swept,
    second: &Swept,
    plan: &SweepPlan,
) -> Result<Frame, AllocError>
    ensures { IfOk result (λ f. f ≡ shared_frame first.now second.now plan.now) }
{
    let most = larger(highest_in(first), highest_in(second));
    let longest = larger(longest_in(alloc, first)?, longest_in(alloc, second)?);
    Ok(framed(plan, most, longest))
}
