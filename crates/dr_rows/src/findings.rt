//! Which rows are findings, and what else is one.

ghost use Rattle.std.specs.Prelude.{◌≡◌, ◌++◌, ◌<◌, length, count_by, nat_eq, IfOk, OnOk};
ghost use Rattle.std.specs.List.{list_any};
ghost use Rattle.dr_rows.specs.Findings.{is_recovery, recovers, asks_recovery, has_no_group, is_above, is_bad, is_announced_at, wants_group, wanted_at, wanted, is_of_one, is_ungrouped, lacks_group, is_finding, is_bad_at, is_finding_for, is_never_kept, has_never_kept, has_finding, never_kept_count, finding_count};
ghost use Rattle.dr_rows.specs.Refusals.{keeps_line};

use crate::calm::{Calm, calm_count, is_announced, is_calm_finding};
use crate::recovery::{is_answered, keeps_line};
use crate::row::{Answer, Loss, Row, gives_group};
use dr_ids::{Fault, Text};
use dr_model::Step;
use dr_plan::SweepPlan;
use dr_script::{Line, read_line};
use std::alloc::{AllocError, Global};

fn is_recovery(step: &Step) -> bool
    ensures { result ≡ is_recovery step.now }
{
    match step {
        Step::Recover { .. } => true,
        _ => false,
    }
}

/// An `@recover` is among the steps of a line.
fn has_recovery(steps: &Line) -> bool
    ensures { result ≡ list_any is_recovery steps.now }
{
    for i in 0..steps.len() {
        let step = steps.step(i).unwrap();
        if is_recovery(step) {
            return true;
        }
    }
    false
}

/// An `@recover` stands in a line.
fn recovers(alloc: Global, line: &[u8]) -> Result<bool, AllocError>
    ensures { IfOk result (λ found. found ≡ recovers line.now) }
{
    let mut steps = Line::new(alloc);
    match read_line(alloc, line, &mut steps) {
        Err(Fault::NoMemory) => Err(AllocError),
        Err(Fault::Refused(_)) => Ok(false),
        Ok(()) => Ok(has_recovery(&steps)),
    }
}

/// An `@recover` stands in one of some lines.
fn any_recovers(alloc: Global, lines: &[Text]) -> Result<bool, AllocError>
    ensures { IfOk result (λ found. found ≡ list_any recovers lines.now) }
{
    for line in lines {
        if recovers(alloc, line.bytes())? {
            return Ok(true);
        }
    }
    Ok(false)
}

/// Whether an `@recover` stands among the lines of the recovery.
pub fn asks_recovery(alloc: Global, plan: &SweepPlan) -> Result<bool, AllocError>
    ensures { IfOk result (λ asks. asks ≡ asks_recovery plan.now) }
{
    any_recovers(alloc, plan.recovery())
}

/// No group came back, though one was asked for.
pub(crate) fn has_no_group(asks: bool, row: &Row) -> bool
    ensures { result ≡ has_no_group asks row.now }
{
    asks && !row.has_group()
}

/// That many lost writes are more than the bound, where there is one.
pub(crate) fn is_above(bound: Option<u32>, n: usize) -> bool
    ensures { result ≡ is_above bound n }
{
    match bound {
        None => false,
        Some(bound) => (bound as usize) < n,
    }
}

/// Something is broken, or more is lost than the bound.
fn is_bad(bound: Option<u32>, loss: &Loss) -> bool
    ensures { result ≡ is_bad bound loss.now }
{
    loss.broken().is_some() || is_above(bound, loss.count())
}

fn any_bad(bound: Option<u32>, losses: &[Loss]) -> bool
    ensures { result ≡ list_any (is_bad bound) losses.now }
{
    losses.iter().any(|loss| is_bad(bound, loss))
}

/// A refusal is announced in the line of the recovery at a place.
fn is_announced_at(plan: &SweepPlan, place: usize) -> bool
    ensures { result ≡ is_announced_at plan.now place }
{
    is_announced(plan, plan.then_line() as u128 + place as u128 + 1)
}

/// An `@recover` stands in the line of the recovery at a place, and no refusal is announced there.
fn wants_group(alloc: Global, plan: &SweepPlan, place: usize) -> Result<bool, AllocError>
    requires { place < length plan.now.recovery }
    ensures { IfOk result (λ found. found ≡ wants_group plan.now place) }
{
    let found = recovers(alloc, plan.recovery()[place].bytes())?;
    Ok(found && !is_announced_at(plan, place))
}

/// Adds the number of that line in the recovery, if so.
fn add_wanted(
    alloc: Global,
    found: &mut Vec<u128>,
    plan: &SweepPlan,
    place: usize,
) -> Result<(), AllocError>
    requires { place < length plan.now.recovery }
    ensures { OnOk result (found.new.items ≡ found.old.items ++ wanted_at plan.now place) }
{
    if wants_group(alloc, plan, place)? {
        found.push(place as u128 + 1)?;
    }
    Ok(())
}

/// The lines of the recovery, counted from 1, whose `@recover` is to be answered with a group.
pub(crate) fn wanted(alloc: Global, plan: &SweepPlan) -> Result<Vec<u128>, AllocError>
    ensures { IfOk result (λ found. found.items ≡ wanted plan.now) }
{
    let mut found = Vec::new(alloc);
    for place in 0..plan.recovery().len() {
        add_wanted(alloc, &mut found, plan, place)?;
    }
    Ok(found)
}

/// The answer is of one of some lines.
fn is_of_one(numbers: &[u128], a: Answer) -> bool
    ensures { result ≡ is_of_one numbers.now a }
{
    numbers.iter().any(|n| a.line as u128 == *n)
}

/// It is, and has no group.
fn is_ungrouped(numbers: &[u128], a: Answer) -> bool
    ensures { result ≡ is_ungrouped numbers.now a }
{
    is_of_one(numbers, a) && !gives_group(a)
}

/// Some `@recover` of these lines wasn't answered with a group.
pub(crate) fn lacks_group(numbers: &[u128], row: &Row) -> bool
    ensures { result ≡ lacks_group numbers.now row.now }
{
    row.answers().iter().any(|a| is_ungrouped(numbers, *a))
}

/// One of the row's losses is bad, or it lacks a group in these lines, or fewer members count than a session has.
fn is_finding(plan: &SweepPlan, numbers: &[u128], row: &Row) -> bool
    ensures { result ≡ is_finding plan.now numbers.now row.now }
{
    any_bad(plan.bound(), row.losses()) || lacks_group(numbers, row) || row.lacks_members()
}

/// The loss of a row to the use at a place is bad.
fn is_bad_at(plan: &SweepPlan, which: usize, row: &Row) -> bool
    ensures { result ≡ is_bad_at plan.now which row.now }
{
    match row.losses().get(which) {
        None => false,
        Some(loss) => is_bad(plan.bound(), loss),
    }
}

/// The row is a finding for the use at a place.
pub(crate) fn is_finding_for(plan: &SweepPlan, numbers: &[u128], which: usize, row: &Row) -> bool
    ensures { result ≡ is_finding_for plan.now numbers.now which row.now }
{
    is_bad_at(plan, which, row) || lacks_group(numbers, row) || row.lacks_members()
}

fn any_finding(plan: &SweepPlan, numbers: &[u128], rows: &[Row]) -> bool
    ensures { result ≡ list_any (is_finding plan.now numbers.now) rows.now }
{
    rows.iter().any(|row| is_finding(plan, numbers, row))
}

/// Some row has the line of the recovery ok or held.
fn any_keeps(rows: &[Row], number: u128) -> bool
    ensures { result ≡ list_any (keeps_line number) rows.now }
{
    rows.iter().any(|row| keeps_line(row, number))
}

/// Some row has an answer of the line of the recovery at a place, in none it is ok or held, and no refusal is announced there.
fn is_never_kept(plan: &SweepPlan, rows: &[Row], place: usize) -> bool
    ensures { result ≡ is_never_kept plan.now rows.now place }
{
    let number = place as u128 + 1;
    is_answered(rows, number) && !any_keeps(rows, number) && !is_announced_at(plan, place)
}

/// There is such a line.
fn has_never_kept(plan: &SweepPlan, rows: &[Row]) -> bool
    ensures { result ≡ has_never_kept plan.now rows.now }
{
    (0..plan.recovery().len()).any(|place| is_never_kept(plan, rows, place))
}

/// Whether the calm run, a line of the recovery or a row is a finding. Fails where there is no memory.
pub fn has_finding(
    alloc: Global,
    plan: &SweepPlan,
    calm: &Calm,
    rows: &[Row],
) -> Result<bool, AllocError>
    ensures { IfOk result (λ found. found ≡ has_finding plan.now calm.now rows.now) }
{
    let numbers = wanted(alloc, plan)?;
    Ok(
        is_calm_finding(plan, calm)
            || has_never_kept(plan, rows)
            || any_finding(plan, &numbers, rows),
    )
}

/// How many lines of the recovery are ok or held at no point.
fn never_kept_count(plan: &SweepPlan, rows: &[Row]) -> usize
    ensures { result ≡ never_kept_count plan.now rows.now }
{
    (0..plan.recovery().len())
        .filter(|place| is_never_kept(plan, rows, *place))
        .count()
}

/// How many rows are findings.
fn finding_rows(plan: &SweepPlan, numbers: &[u128], rows: &[Row]) -> usize
    ensures { result ≡ count_by (is_finding plan.now numbers.now) rows.now }
{
    rows.iter()
        .filter(|row| is_finding(plan, numbers, row))
        .count()
}

/// How many findings there are: in the calm run, lines of the recovery and rows. Fails where there is no memory.
pub(crate) fn finding_count(
    alloc: Global,
    plan: &SweepPlan,
    calm: &Calm,
    rows: &[Row],
) -> Result<u128, AllocError>
    ensures { IfOk result (λ n. n ≡ finding_count plan.now calm.now rows.now) }
{
    let numbers = wanted(alloc, plan)?;
    Ok(
        calm_count(plan, calm)
            + never_kept_count(plan, rows) as u128
            + finding_rows(plan, &numbers, rows) as u128,
    )
}
