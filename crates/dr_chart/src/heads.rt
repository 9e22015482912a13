//! The head of a panel.

ghost use Rattle.std.specs.Prelude.{◌≡◌, ◌++◌, map, OnOk};
ghost use Rattle.dr_chart.specs.Picture.{bold_text, servers_text, counts_text, counts_of, plain_text, worst_text, head_text};

use crate::pieces::{push_escaped, push_text_end};
use dr_ids::Text;
use dr_plan::SweepPlan;
use dr_rows::{
    Row, broken_count, no_group_count, push_lost_at_once, push_number, push_use_head, push_worst,
    row_count, servers_of, short_count,
};
use std::alloc::{AllocError, Global};

/// Adds two texts, in bold letters.
#[tactic(auto, unfolding(crate::specs::Picture::bold_text))]
fn push_bold(text: &mut Text, first: &[u8], second: &[u8]) -> Result<(), AllocError>
    ensures { OnOk result (text.new ≡ text.old ++ bold_text first.now second.now) }
{
    text.append(b"<text x='60' y='14' font-size='13' font-weight='bold'>")?;
    push_escaped(text, first)?;
    push_escaped(text, second)?;
    push_text_end(text)
}

/// Adds the disaster's servers after a name, and the use.
fn push_servers(
    alloc: Global,
    text: &mut Text,
    name: &[u8],
    plan: &SweepPlan,
    disaster: usize,
    which: usize,
) -> Result<(), AllocError>
    ensures { OnOk result (text.new ≡ text.old ++ servers_text name.now plan.now disaster which) }
{
    let mut servers = Text::new(alloc);
    servers.append(name)?;
    push_lost_at_once(&mut servers, servers_of(plan, disaster))?;
    let mut named = Text::new(alloc);
    push_use_head(&mut named, plan, which)?;
    push_bold(text, servers.bytes(), named.bytes())
}

/// Adds how many rows there are, and how many of them are broken, have no group, and have members that don't count.
#[tactic(auto, unfolding(crate::specs::Picture::counts_text))]
fn push_counts(
    text: &mut Text,
    points: usize,
    broken: usize,
    none: usize,
    short: usize,
) -> Result<(), AllocError>
    ensures { OnOk result (text.new ≡ text.old ++ counts_text points broken none short) }
{
    text.append(b"<text x='60' y='30'>")?;
    push_number(text, points)?;
    text.append(b" points, ")?;
    push_number(text, broken)?;
    text.append(b" broken, ")?;
    push_number(text, none)?;
    text.append(b" without a group, ")?;
    push_number(text, short)?;
    text.append(b" with members that don't count</text>\n")
}

/// Adds the same of some rows.
fn push_counts_of(
    text: &mut Text,
    asks: bool,
    which: usize,
    rows: &[&Row],
) -> Result<(), AllocError>
    ensures { OnOk result (text.new ≡ text.old ++ counts_of asks which (map (λ row. row.now) rows.now)) }
{
    push_counts(
        text,
        row_count(rows),
        broken_count(which, rows),
        no_group_count(asks, rows),
        short_count(rows),
    )
}

/// Adds a text below the counts.
#[tactic(auto, unfolding(crate::specs::Picture::plain_text))]
fn push_plain(text: &mut Text, said: &[u8]) -> Result<(), AllocError>
    ensures { OnOk result (text.new ≡ text.old ++ plain_text said.now) }
{
    text.append(b"<text x='60' y='46'>")?;
    push_escaped(text, said)?;
    push_text_end(text)
}

/// Adds the worst of some rows, with the words that show it.
fn push_worst_text(
    alloc: Global,
    text: &mut Text,
    plan: &SweepPlan,
    which: usize,
    rows: &[&Row],
) -> Result<(), AllocError>
    ensures { OnOk result (text.new ≡ text.old ++ worst_text plan.now which (map (λ row. row.now) rows.now)) }
{
    let mut worst = Text::new(alloc);
    push_worst(&mut worst, plan, which, rows)?;
    push_plain(text, worst.bytes())
}

/// Adds the head of a panel.
pub(crate) fn push_head(
    alloc: Global,
    text: &mut Text,
    name: &[u8],
    plan: &SweepPlan,
    asks: bool,
    disaster: usize,
    which: usize,
    rows: &[&Row],
) -> Result<(), AllocError>
    ensures { OnOk result (text.new ≡ text.old ++ head_text name.now plan.now asks disaster which (map (λ row. row.now) rows.now)) }
{
    push_servers(alloc, text, name, plan, disaster, which)?;
    push_counts_of(text, asks, which, rows)?;
    push_worst_text(alloc, text, plan, which, rows)
}
