//! The call that compares two plans.

ghost use Rattle.std.specs.Prelude.{◌≡◌, IfOk, IfErr};
ghost use Rattle.std.specs.Str.Lines.{lines};
ghost use Rattle.dr_sweep.specs.declared.ending.Ending.TheVariants.{BadPlan};
ghost use Rattle.dr_sweep.specs.Compare.{EndsBoth, EndsUnread, EndsWith, IsCompared, IsReplyTo, IsSwept, FailsSwept, PutsMade, ReadsLines, ReadsPlan, bad_plan_text, both_ending, has_found, says_both};

use crate::apart::take_apart;
use crate::call::{Reply, bad_line_text, calm_run, put_text};
use crate::ending::{Ending, ending_of, fault_ending, finding_ending};
use crate::fault::PointFault;
use crate::walk::all_rows;
use dr_chart::compared_picture;
use dr_ids::Text;
use dr_io::{Sink, Source};
use dr_plan::{PlanFault, Reason, SweepPlan, read_plan};
use dr_rows::{Swept, comparison, has_finding};
use dr_top::{NotRead, read_text};
use dr_words::{ComparedView, Comparison};
use std::alloc::{AllocError, Global};

/// Why a source has no plan.
#[derive(Clone, Copy)]
pub(crate) enum Unread {
    /// Its text couldn't be taken to its end.
    NotRead(NotRead),
    /// The first bad line, and why it is bad.
    BadLine { line: usize, reason: Reason },
}

/// The plan of a text.
fn plan_in(alloc: Global, text: &[u8]) -> Result<SweepPlan, Unread>
    ensures { ReadsLines (lines text.now) result }
{
    match read_plan(alloc, text) {
        Ok(plan) => Ok(plan),
        Err(PlanFault::BadLine { line, reason }) => Err(Unread::BadLine { line, reason }),
        Err(PlanFault::NoMemory) => Err(Unread::NotRead(NotRead::NoMemory)),
    }
}

/// The plan that a source has.
fn plan_of<S: Source>(alloc: Global, source: &mut S) -> Result<SweepPlan, Unread>
    ensures { ReadsPlan S.left source.old source.new S.faults result }
{
    match read_text(alloc, source) {
        Ok(text) => plan_in(alloc, text.bytes()),
        Err(fault) => Err(Unread::NotRead(fault)),
    }
}

/// What is put of a text that is no plan, after a letter that says which one it is.
fn bad_plan_text(
    alloc: Global,
    letter: &[u8],
    line: usize,
    reason: &Reason,
) -> Result<Text, AllocError>
    ensures { IfOk result (λ text. text ≡ bad_plan_text letter.now line reason.now) }
{
    let mut text = Text::new(alloc);
    text.append(letter)?;
    text.append(bad_line_text(alloc, line, reason)?.bytes())?;
    Ok(text)
}

/// Puts that.
fn put_bad_plan<K: Sink>(
    alloc: Global,
    sink: &mut K,
    letter: &[u8],
    line: usize,
    reason: &Reason,
) -> Ending
    ensures { PutsMade K.written sink.old sink.new K.faults (bad_plan_text letter.now line reason.now) BadPlan result }
{
    match bad_plan_text(alloc, letter, line, reason) {
        Ok(says) => put_text(sink, says.bytes(), Ending::BadPlan),
        Err(_) => Ending::NoMemory,
    }
}

/// Ends a call without one of its plans.
fn end_unread<K: Sink>(alloc: Global, sink: &mut K, letter: &[u8], fault: Unread) -> Ending
    ensures { EndsUnread K.written sink.old sink.new K.faults letter.now fault result }
{
    match fault {
        Unread::NotRead(fault) => ending_of(fault),
        Unread::BadLine { line, reason } => put_bad_plan(alloc, sink, letter, line, &reason),
    }
}

/// Sweeps over a plan: each `@run` that is tried is taken apart first.
fn swept<Q: Sink>(alloc: Global, plan: &SweepPlan, progress: &mut Q) -> Result<Swept, PointFault>
    ensures is { IfOk result (IsSwept plan.now) }
    ensures fails { IfErr result (FailsSwept plan.now) }
{
    let tried = match take_apart(alloc, plan) {
        Ok(tried) => tried,
        Err(fault) => return Err(fault),
    };
    let calm = match calm_run(alloc, plan) {
        Ok(calm) => calm,
        Err(fault) => return Err(fault),
    };
    match all_rows(alloc, &tried, progress) {
        Ok(rows) => Ok(Swept::new(tried, calm, rows)),
        Err(fault) => Err(fault),
    }
}

/// What is printed of two sweeps, by the names of their files.
fn says_both(
    alloc: Global,
    asked: &Comparison,
    first: &Swept,
    second: &Swept,
) -> Result<Text, AllocError>
    ensures { IfOk result (λ text. text ≡ says_both asked.now.view asked.now.first first.now asked.now.second second.now) }
{
    match asked.view() {
        ComparedView::Table => comparison(alloc, first, second),
        ComparedView::Picture => {
            let (name, other) = (asked.first().as_bytes(), asked.second().as_bytes());
            compared_picture(alloc, name, first, other, second)
        }
    }
}

fn has_found(alloc: Global, swept: &Swept) -> Result<bool, AllocError>
    ensures { IfOk result (λ found. found ≡ has_found swept.now) }
{
    has_finding(alloc, swept.plan(), swept.calm(), swept.rows())
}

/// How a call ends that has put what is asked for of two sweeps.
fn both_ending(alloc: Global, first: &Swept, second: &Swept) -> Result<Ending, AllocError>
    ensures { IfOk result (λ ending. ending ≡ both_ending first.now second.now) }
{
    let found = has_found(alloc, first)?;
    Ok(finding_ending(found || has_found(alloc, second)?))
}

/// A text to be put of two sweeps, and how a call ends that has put it.
fn reply_to(
    alloc: Global,
    asked: &Comparison,
    first: &Swept,
    second: &Swept,
) -> Result<Reply, AllocError>
    ensures { IfOk result (IsReplyTo asked.now first.now second.now) }
{
    let text = says_both(alloc, asked, first, second)?;
    let ending = both_ending(alloc, first, second)?;
    Ok(Reply { text, ending })
}

/// Puts what is asked for of two sweeps.
fn put_both<K: Sink>(
    alloc: Global,
    asked: &Comparison,
    first: &Swept,
    second: &Swept,
    sink: &mut K,
) -> Ending
    ensures { PutsMade K.written sink.old sink.new K.faults (says_both asked.now.view asked.now.first first.now asked.now.second second.now) (both_ending first.now second.now) result }
{
    match reply_to(alloc, asked, first, second) {
        Ok(reply) => put_text(sink, reply.text.bytes(), reply.ending),
        Err(_) => Ending::NoMemory,
    }
}

/// Sweeps over both plans, and puts what is asked for.
fn compare_plans<K: Sink, Q: Sink>(
    alloc: Global,
    asked: &Comparison,
    plan: &SweepPlan,
    other: &SweepPlan,
    sink: &mut K,
    progress: &mut Q,
) -> Ending
    ensures { EndsBoth K.written sink.old sink.new K.faults asked.now plan.now other.now result }
{
    let first = match swept(alloc, plan, progress) {
        Ok(first) => first,
        Err(fault) => return fault_ending(fault),
    };
    match swept(alloc, other, progress) {
        Ok(second) => put_both(alloc, asked, &first, &second, sink),
        Err(fault) => fault_ending(fault),
    }
}

/// Reads the second plan, and compares the first one with it.
fn compare_with<B: Source, K: Sink, Q: Sink>(
    alloc: Global,
    asked: &Comparison,
    plan: &SweepPlan,
    source: &mut B,
    sink: &mut K,
    progress: &mut Q,
) -> Ending
    ensures { EndsWith K.written sink.old sink.new K.faults B.left source.old source.new B.faults asked.now plan.now result }
{
    match plan_of(alloc, source) {
        Ok(other) => compare_plans(alloc, asked, plan, &other, sink, progress),
        Err(fault) => end_unread(alloc, sink, b"B: ", fault),
    }
}

/// Compares the plans that two sources have: reads both, tries the disasters of each as a sweep does, and prints to the sink a table of what each
/// loses at worst, or the charts of both. How far it is, it tells `progress`, and what fails there is passed over. If the first source has no plan,
/// the second one is left alone.
pub fn compare<A: Source, B: Source, K: Sink, Q: Sink>(
    alloc: Global,
    asked: &Comparison,
    first: &mut A,
    second: &mut B,
    sink: &mut K,
    progress: &mut Q,
) -> Ending
    ensures { IsCompared A.left B.left K.written first.old first.new second.old second.new sink.old sink.new A.faults B.faults K.faults asked.now result }
{
    match plan_of(alloc, first) {
        Ok(plan) => compare_with(alloc, asked, &plan, second, sink, progress),
        Err(fault) => end_unread(alloc, sink, b"A: ", fault),
    }
}
