//! What is printed of a sweep.

ghost use Rattle.std.specs.Prelude.{◌≡◌, ◌<◌, ◌+◌, ◌^◌, IfOk, IfSome, length};
ghost use Rattle.dr_sweep.specs.Printing.{rows_text, says, place_of, torn_of, is_at, tried_at, is_here, gap_at, cut_of, gap_of, asked_of};

use crate::reach::server_of;
use dr_chart::picture;
use dr_ids::Text;
use dr_plan::{SweepPlan, Torn, Tried};
use dr_rows::{Calm, Row, heading, json_text, push_row, report};
use dr_words::{PlanLine, SweepCommand, TornBytes};
use std::alloc::{AllocError, Global};

/// A heading, and a line for each loss of each row.
fn rows_text(alloc: Global, plan: &SweepPlan, rows: &[Row]) -> Result<Text, AllocError>
    ensures { IfOk result (λ text. text ≡ rows_text plan.now rows.now) }
{
    let mut text = Text::new(alloc);
    text.append(heading())?;
    for row in rows {
        push_row(alloc, &mut text, plan, row)?;
    }
    Ok(text)
}

/// What is printed of all rows of a plan.
#[derive(Clone, Copy)]
pub(crate) enum View {
    /// The report.
    Report,
    /// A table, with a line for each row.
    Table,
    /// A picture.
    Picture,
    /// Plan, calm run, table and rows, as JSON.
    Json,
}

/// A point by the words that name it. All places are counted from 0.
#[derive(Clone, Copy)]
pub(crate) enum NamedPoint {
    /// In a tried step, at the device write of a server that has that number.
    Cut {
        disaster: usize,
        place: usize,
        server: usize,
        write: u32,
        torn: Torn,
    },
    /// After that many tried steps.
    Gap {
        disaster: usize,
        place: usize,
    },
}

/// What is asked for.
#[derive(Clone, Copy)]
pub(crate) enum Asked {
    /// Something on all rows of the plan.
    Rows(View),
    /// The script of a point; none if the words name a line or a server that the plan doesn't have.
    Script(Option<NamedPoint>),
}

/// What is printed of a plan's calm run, and of the rows of the plan that is tried.
pub(crate) fn says(
    alloc: Global,
    view: View,
    plan: &SweepPlan,
    tried: &SweepPlan,
    calm: &Calm,
    rows: &[Row],
) -> Result<Text, AllocError>
    ensures { IfOk result (λ text. text ≡ says view plan.now tried.now calm.now rows.now) }
{
    match view {
        View::Report => report(alloc, plan, tried, calm, rows),
        View::Table => rows_text(alloc, tried, rows),
        View::Picture => picture(alloc, tried, rows),
        View::Json => json_text(alloc, plan, tried, calm, rows),
    }
}

/// The place of what is counted from 1.
fn place_of(number: u32) -> Option<usize>
    ensures { result ≡ place_of number }
{
    (number as usize).checked_sub(1)
}

fn torn_of(torn: TornBytes) -> Torn
    ensures { result ≡ torn_of torn }
{
    match torn {
        TornBytes::Unchanged => Torn::Unchanged,
        TornBytes::Zeros => Torn::Zeros,
        TornBytes::Ones => Torn::Ones,
    }
}

/// Whether a tried step is the line of the plan that was named, or the part of it.
fn is_at(step: &Tried, line: PlanLine) -> bool
    ensures { result ≡ is_at line step.now }
{
    step.line() as u128 == line.line as u128 && step.part() as u128 == line.part as u128
}

/// The place among the tried steps of the line that was named, or of the part.
fn tried_at(plan: &SweepPlan, line: PlanLine) -> Option<usize>
    ensures place { result ≡ tried_at plan.now line }
    ensures within { IfSome result (λ place. place < length plan.now.tried) }
    ensures few { IfSome result (λ place. place + 1 < 2 ^ 64) }
{
    plan.tried().iter().position(|step| is_at(step, line))
}

/// Whether the line is that from which on steps are tried.
fn is_here(plan: &SweepPlan, line: PlanLine) -> bool
    ensures { result ≡ is_here plan.now line }
{
    line.line as u128 == plan.setup().len() as u128 + 1 && line.part == 0
}

/// How many tried steps come before the gap that the line names.
fn gap_at(plan: &SweepPlan, line: PlanLine) -> Option<usize>
    ensures { result ≡ gap_at plan.now line }
{
    if is_here(plan, line) {
        return Some(0);
    }
    let place = tried_at(plan, line)?;
    Some(place + 1)
}

/// The point of the words `LINE SERVER WRITE TORN DISASTER`.
fn cut_of(
    plan: &SweepPlan,
    disaster: u32,
    line: PlanLine,
    server: &[u8],
    write: u32,
    torn: TornBytes,
) -> Option<NamedPoint>
    ensures { result ≡ cut_of plan.now disaster line server.now write torn }
{
    let disaster = place_of(disaster)?;
    let place = tried_at(plan, line)?;
    let server = server_of(plan.disasters().get(disaster)?.servers(), server)?;
    Some(NamedPoint::Cut {
        disaster,
        place,
        server,
        write,
        torn: torn_of(torn),
    })
}

/// The point of the words `LINE gap DISASTER`.
fn gap_of(plan: &SweepPlan, disaster: u32, line: PlanLine) -> Option<NamedPoint>
    ensures { result ≡ gap_of plan.now disaster line }
{
    let disaster = place_of(disaster)?;
    let place = gap_at(plan, line)?;
    Some(NamedPoint::Gap { disaster, place })
}

/// What a command asks for.
pub(crate) fn asked_of(plan: &SweepPlan, command: &SweepCommand) -> Asked
    ensures { result ≡ asked_of plan.now command.now }
{
    match command {
        SweepCommand::Report => Asked::Rows(View::Report),
        SweepCommand::Rows => Asked::Rows(View::Table),
        SweepCommand::Picture => Asked::Rows(View::Picture),
        SweepCommand::Json => Asked::Rows(View::Json),
        SweepCommand::CutScript {
            disaster,
            line,
            server,
            write,
            torn,
        } => Asked::Script(cut_of(plan, *disaster, *line, server.bytes(), *write, *torn)),
        SweepCommand::GapScript { disaster, line } => Asked::Script(gap_of(plan, *disaster, *line)),
    }
}
