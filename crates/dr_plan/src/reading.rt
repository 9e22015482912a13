//! Reads a plan line by line.

ghost use Rattle.std.specs.Prelude.{◌≡◌, ◌+◌, ◌^◌, ◌<◌, OnOk, IfOk, IfErr, Some, Ok, All};
ghost use Rattle.std.specs.Str.Lines.{lines};
ghost use Rattle.dr_model.specs.Grammar.{line_of};
ghost use Rattle.dr_model.specs.LineText.{IsWritten};
ghost use Rattle.dr_model.specs.LineWords.{span_len, paired};
ghost use Rattle.dr_plan.specs.Above.{unless};
ghost use Rattle.dr_plan.specs.Marks.{mark_of};
ghost use Rattle.dr_plan.specs.Outcome.{ReadsAs, IsNoPlan, TellsFirst};
ghost use Rattle.dr_plan.specs.Parts.{IsPlan, IsSweep};
ghost use Rattle.dr_plan.specs.Reading.{begun, with_line, kept, lost_too, used_pairs, used_too, noted, marked, plain, read_on, missing, finished, sweep_of};

use crate::above::{read_steps, servers_in, volumes_in};
use crate::fault::PlanFault;
use crate::lines::{push_line, push_tried};
use crate::marks::{Mark, is_mark, read_mark};
use crate::names::{Disaster, servers_fault};
use crate::plan::{Draft, SweepPlan};
use crate::ranges::{paired, pairs_fault, span_len};
use crate::reason::Reason;
use crate::stages::{Stage, announces, lacking, stage_after};
use crate::uses::{add_pairs, has_use};
use dr_ids::MOST_SERVERS;
use dr_io::split_line;
use dr_model::{Name, Span};
use dr_script::Line;
use std::alloc::{AllocError, Global};

/// The most disasters of a plan.
const MOST_DISASTERS: usize = 8;

/// The most uses of a plan.
const MOST_USES: usize = 8;

/// What was read of a plan.
#[derive(Drop)]
pub(crate) struct Reading {
    stage: Stage,
    /// The last line announces a refusal in the next one.
    waits: bool,
    plan: Draft,
}

/// A reading before the first line.
fn begin(alloc: Global) -> Reading
    ensures { result ≡ begun }
{
    Reading {
        stage: Stage::Start,
        waits: false,
        plan: Draft::new(alloc),
    }
}

/// Keeps a line of the plan's own in the part in which it stands.
fn keep_mark(alloc: Global, stage: Stage, line: &[u8], plan: &mut Draft) -> Result<(), AllocError>
    ensures { OnOk result (plan.new ≡ with_line stage line.now plan.old) }
{
    match stage {
        Stage::Trying => Ok(()),
        Stage::Recovering => push_line(alloc, &mut plan.recovery, line),
        _ => push_line(alloc, &mut plan.setup, line),
    }
}

/// Keeps a line with these steps in the part in which it stands.
fn keep(
    alloc: Global,
    stage: Stage,
    number: usize,
    line: &[u8],
    steps: &Line,
    plan: &mut Draft,
) -> Result<(), AllocError>
    requires { All IsWritten steps.now }
    ensures { OnOk result (plan.new ≡ kept stage number line.now steps.now plan.old) }
{
    match stage {
        Stage::Trying => push_tried(alloc, &mut plan.tried, number, line, steps),
        _ => keep_mark(alloc, stage, line, plan),
    }
}

/// Adds a disaster; or says why it can't be.
fn lose(
    alloc: Global,
    servers: Disaster,
    line: &[u8],
    plan: &mut Draft,
) -> Result<Option<Reason>, AllocError>
    ensures { IfOk result (λ fault. lost_too servers line.now plan.old ≡ unless fault plan.new) }
{
    if MOST_DISASTERS <= plan.loses.len() {
        return Ok(Some(Reason::ManyDisasters));
    }
    if MOST_SERVERS < servers.servers().len() {
        return Ok(Some(Reason::ManyServers));
    }
    let known = servers_in(alloc, &plan.setup)?;
    if let Some(reason) = servers_fault(&known, servers.servers()) {
        return Ok(Some(reason));
    }
    plan.loses.push(servers)?;
    push_line(alloc, &mut plan.setup, line)?;
    Ok(None)
}

/// Adds the pairs of two ranges of equal length; or says why they can't be used.
fn use_pairs(
    alloc: Global,
    name: Option<Name>,
    first: Span,
    second: Span,
    line: &[u8],
    plan: &mut Draft,
) -> Result<Option<Reason>, AllocError>
    requires { span_len first ≡ span_len second }
    ensures { IfOk result (λ fault. used_pairs name (paired first second) line.now plan.old ≡ unless fault plan.new) }
{
    let pairs = paired(alloc, first, second)?;
    let sizes = volumes_in(alloc, &plan.setup)?;
    if let Some(reason) = pairs_fault(&sizes, &pairs) {
        return Ok(Some(reason));
    }
    add_pairs(&mut plan.uses, name, pairs)?;
    push_line(alloc, &mut plan.setup, line)?;
    Ok(None)
}

/// Adds two ranges to the use of that name; or says why they can't be used.
fn use_ranges(
    alloc: Global,
    name: Option<Name>,
    first: Span,
    second: Span,
    line: &[u8],
    plan: &mut Draft,
) -> Result<Option<Reason>, AllocError>
    ensures { IfOk result (λ fault. used_too name first second line.now plan.old ≡ unless fault plan.new) }
{
    if !has_use(&plan.uses, &name) && MOST_USES <= plan.uses.len() {
        Ok(Some(Reason::ManyUses))
    } else if span_len(first) != span_len(second) {
        Ok(Some(Reason::UnequalRanges))
    } else {
        use_pairs(alloc, name, first, second, line, plan)
    }
}

/// Adds what a line of the plan's own says; or says why it can't.
fn note(
    alloc: Global,
    number: usize,
    stage: Stage,
    mark: Mark,
    line: &[u8],
    plan: &mut Draft,
) -> Result<Option<Reason>, AllocError>
    requires { number + 1 < 2 ^ 64 }
    ensures { IfOk result (λ fault. noted number stage mark line.now plan.old ≡ unless fault plan.new) }
{
    match mark {
        Mark::Lose(servers) => return lose(alloc, servers, line, plan),
        Mark::Use(name, first, second) => {
            return use_ranges(alloc, name, first, second, line, plan);
        }
        Mark::AtMost(bound) => {
            plan.bound = Some(bound);
            push_line(alloc, &mut plan.setup, line)?;
        }
        Mark::Here => {}
        Mark::Then => plan.then_line = number,
        Mark::Refused => {
            keep_mark(alloc, stage, line, plan)?;
            plan.announced.push(number + 1)?;
        }
    }
    Ok(None)
}

/// Reads a line of the plan's own; or says why it can't stand here.
fn read_marked(
    alloc: Global,
    number: usize,
    reading: &mut Reading,
    line: &[u8],
) -> Result<Option<Reason>, AllocError>
    requires { number + 1 < 2 ^ 64 }
    ensures { IfOk result (λ fault. marked number reading.old line.now (mark_of line.now) ≡ unless fault reading.new) }
{
    let Some(mark) = read_mark(alloc, line)? else {
        return Ok(Some(Reason::HereMayStand(reading.stage)));
    };
    let Some(stage) = stage_after(&mark, reading.stage) else {
        return Ok(Some(Reason::HereMayStand(reading.stage)));
    };
    let waits = announces(&mark);
    let fault = note(alloc, number, reading.stage, mark, line, &mut reading.plan)?;
    reading.stage = stage;
    reading.waits = waits;
    Ok(fault)
}

/// Reads a line that isn't one of the plan's own; or says why it can't stand here.
fn read_plain(
    alloc: Global,
    number: usize,
    reading: &mut Reading,
    line: &[u8],
) -> Result<Option<Reason>, AllocError>
    ensures { IfOk result (λ fault. plain number reading.old line.now (line_of line.now) ≡ unless fault reading.new) }
{
    let mut steps = Line::new(alloc);
    if let Some(column) = read_steps(alloc, line, &mut steps)? {
        return Ok(Some(Reason::Syntax(column)));
    }
    if reading.waits && steps.len() == 0 {
        return Ok(Some(Reason::NoLineFollows));
    }
    keep(
        alloc,
        reading.stage,
        number,
        line,
        &steps,
        &mut reading.plan,
    )?;
    reading.waits = false;
    Ok(None)
}

/// Reads a line; or says why it can't stand here.
#[tactic(auto, unfolding(crate::specs::Reading::read_on))]
fn read_on(
    alloc: Global,
    number: usize,
    reading: &mut Reading,
    line: &[u8],
) -> Result<Option<Reason>, AllocError>
    requires { number + 1 < 2 ^ 64 }
    ensures { IfOk result (λ fault. read_on number reading.old line.now ≡ unless fault reading.new) }
{
    if !is_mark(line) {
        read_plain(alloc, number, reading, line)
    } else if reading.waits {
        Ok(Some(Reason::NoLineFollows))
    } else {
        read_marked(alloc, number, reading, line)
    }
}

/// What the end of the text lacks.
fn missing(reading: &Reading) -> Option<Reason>
    ensures { result ≡ missing reading.now }
{
    if reading.waits {
        Some(Reason::NoLineFollows)
    } else {
        lacking(reading.stage)
    }
}

/// The plan, where nothing is missing; `number` is the one after the last line.
fn finish(number: usize, reading: Reading) -> Result<Draft, PlanFault>
    ensures { ReadsAs (finished number reading) result }
{
    match missing(&reading) {
        None => Ok(reading.plan),
        Some(reason) => Err(PlanFault::BadLine {
            line: number,
            reason,
        }),
    }
}

/// Reads a plan: its lines end as those of a script do. Fails with the number of the first line that can't stand where it
/// stands, counted from 1, and the reason; where a line is missing, with the number after the last line. Fails too where
/// there is no memory.
pub fn read_plan(alloc: Global, text: &[u8]) -> Result<SweepPlan, PlanFault>
    ensures reads { ReadsAs (sweep_of (lines text.now)) result }
    ensures plan { IfOk result (λ plan. IsPlan (lines text.now) plan) }
    ensures sweep { IfOk result IsSweep }
    ensures bad { IfErr result (IsNoPlan (lines text.now)) }
    ensures first { IfErr result (TellsFirst (lines text.now)) }
{
    match read_whole(alloc, text) {
        Ok(draft) => Ok(SweepPlan::of(draft)),
        Err(fault) => Err(fault),
    }
}

/// Reads a plan from its first line on.
fn read_whole(alloc: Global, text: &[u8]) -> Result<Draft, PlanFault>
    ensures { ReadsAs (sweep_of (lines text.now)) result }
{
    let mut reading = begin(alloc);
    let mut number = 1;
    let mut rest = text;
    while !rest.is_empty() {
        let (line, after) = split_line(rest);
        match read_on(alloc, number, &mut reading, line) {
            Ok(None) => {}
            Ok(Some(reason)) => {
                return Err(PlanFault::BadLine {
                    line: number,
                    reason,
                });
            }
            Err(_) => return Err(PlanFault::NoMemory),
        }
        number += 1;
        rest = after;
    }
    finish(number, reading)
}
