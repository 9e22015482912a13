//! The call that the program `sweep` makes.

ghost use Rattle.std.specs.Prelude.{◌≡◌, Some, None, IfOk, IfErr, false};
ghost use Rattle.std.specs.Str.Lines.{lines};
ghost use Rattle.dr_sweep.specs.Calls.{bad_line_text, usage_line, IsCalm, IsReply, Puts, EndsApart, EndsOn, EndsBad, EndsText, IsSweep, EndsUsage};
ghost use Rattle.dr_sweep.specs.Ending.{is_write_fault};
ghost use Rattle.dr_plan.specs.Points.{calm_script};
ghost use Rattle.dr_sweep.specs.Comes.{FailsOn};
ghost use Rattle.dr_sweep.specs.Parts.{AreSwept, parts_of};
ghost use Rattle.dr_sweep.specs.Printing.{AsksOf};
ghost use Rattle.dr_sweep.specs.declared.ending.Ending.TheVariants.{Usage};
ghost use Rattle.dr_sweep.specs.declared.printing.Asked.TheVariants.{Rows, Script};
ghost use Rattle.dr_words.specs.Sweep.{sweep_command_of};
ghost use Rattle.dr_words.specs.declared.sweep.SweepCommand.{SweepCommand};

use crate::apart::take_apart;
use crate::calm::calm_of;
use crate::ending::{Ending, ending_of, fault_ending, finding_ending};
use crate::fault::PointFault;
use crate::find::script_of;
use crate::point::run_calm;
use crate::printing::{Asked, NamedPoint, View, asked_of, says};
use crate::walk::all_rows;
use dr_ids::Text;
use dr_io::{Sink, Source};
use dr_plan::{PlanFault, Reason, SweepPlan, push_reason, read_plan};
use dr_rows::{Calm, Row, has_finding};
use dr_top::{put_all, read_text};
use dr_words::{SweepCommand, sweep_command_of};
use std::alloc::{AllocError, Global};

const USAGE: &[u8] =
    b"usage: sweep [rows | picture | json | script LINE[.PART] SERVER WRITE TORN [DISASTER] | script LINE[.PART] gap [DISASTER] | compare [picture] A B]\n";

/// Puts a text, and ends so if the sink took all of it.
pub(crate) fn put_text<K: Sink>(sink: &mut K, text: &[u8], ending: Ending) -> Ending
    requires { is_write_fault ending ≡ false }
    ensures { Puts K.written sink.old sink.new K.faults text.now ending result }
{
    match put_all(sink, text) {
        Ok(()) => ending,
        Err(_) => Ending::WriteFault,
    }
}

/// A text to be put, and how a call ends that has put it.
#[derive(Drop)]
pub(crate) struct Reply {
    pub(crate) text: Text,
    pub(crate) ending: Ending,
}

/// What is put of the calm run of a plan, and of the rows of the one that is tried.
fn reply_of(
    alloc: Global,
    plan: &SweepPlan,
    tried: &SweepPlan,
    view: View,
    calm: &Calm,
    rows: &[Row],
) -> Result<Reply, AllocError>
    ensures { IfOk result (IsReply plan.now tried.now view calm.now rows.now) }
{
    let text = says(alloc, view, plan, tried, calm, rows)?;
    let found = has_finding(alloc, tried, calm, rows)?;
    Ok(Reply {
        text,
        ending: finding_ending(found),
    })
}

/// Puts what is asked for of the calm run of a plan, and of the rows of the one that is tried.
fn put_rows<K: Sink>(
    alloc: Global,
    plan: &SweepPlan,
    tried: &SweepPlan,
    view: View,
    calm: &Calm,
    rows: &[Row],
    sink: &mut K,
) -> Ending
    requires calm { IsCalm plan.now calm.now }
    requires swept { AreSwept tried.now (parts_of tried.now) rows.now }
    ensures { EndsOn K.written sink.old sink.new K.faults plan.now tried.now (Rows view) result }
{
    match reply_of(alloc, plan, tried, view, calm, rows) {
        Ok(reply) => put_text(sink, reply.text.bytes(), reply.ending),
        Err(_) => Ending::NoMemory,
    }
}

/// What the calm run of a plan comes to.
pub(crate) fn calm_run(alloc: Global, plan: &SweepPlan) -> Result<Calm, PointFault>
    ensures calm { IfOk result (IsCalm plan.now) }
    ensures fails { IfErr result (FailsOn (calm_script plan.now)) }
{
    let journal = run_calm(alloc, plan)?;
    match calm_of(alloc, plan, &journal) {
        Ok(calm) => Ok(calm),
        Err(_) => Err(PointFault::NoMemory),
    }
}

/// Sweeps over the plan that is tried of a plan, and puts what is asked for of the calm run and the rows.
fn show<K: Sink, Q: Sink>(
    alloc: Global,
    plan: &SweepPlan,
    tried: &SweepPlan,
    view: View,
    sink: &mut K,
    progress: &mut Q,
) -> Ending
    ensures { EndsOn K.written sink.old sink.new K.faults plan.now tried.now (Rows view) result }
{
    let calm = match calm_run(alloc, plan) {
        Ok(calm) => calm,
        Err(fault) => return fault_ending(fault),
    };
    match all_rows(alloc, tried, progress) {
        Ok(rows) => put_rows(alloc, plan, tried, view, &calm, &rows, sink),
        Err(fault) => fault_ending(fault),
    }
}

/// Puts the script of a point that is named, or the usage line if there is no such point.
fn put_script<K: Sink>(
    alloc: Global,
    plan: &SweepPlan,
    tried: &SweepPlan,
    named: Option<NamedPoint>,
    sink: &mut K,
) -> Ending
    requires { AsksOf tried.now (Script named) }
    ensures { EndsOn K.written sink.old sink.new K.faults plan.now tried.now (Script named) result }
{
    match script_of(alloc, tried, named) {
        Ok(Some(script)) => put_text(sink, script.bytes(), Ending::Done),
        Ok(None) => put_text(sink, USAGE, Ending::Usage),
        Err(fault) => fault_ending(fault),
    }
}

/// Puts what is asked for of a plan and of the one that is tried.
fn answer<K: Sink, Q: Sink>(
    alloc: Global,
    plan: &SweepPlan,
    tried: &SweepPlan,
    asked: Asked,
    sink: &mut K,
    progress: &mut Q,
) -> Ending
    requires { AsksOf tried.now asked }
    ensures { EndsOn K.written sink.old sink.new K.faults plan.now tried.now asked result }
{
    match asked {
        Asked::Rows(view) => show(alloc, plan, tried, view, sink, progress),
        Asked::Script(point) => put_script(alloc, plan, tried, point, sink),
    }
}

/// Answers a command on a plan: each `@run` that is tried is taken apart first.
fn answer_plan<K: Sink, Q: Sink>(
    alloc: Global,
    plan: &SweepPlan,
    command: &SweepCommand,
    sink: &mut K,
    progress: &mut Q,
) -> Ending
    ensures { EndsApart K.written sink.old sink.new K.faults plan.now command.now result }
{
    match take_apart(alloc, plan) {
        Ok(tried) => answer(
            alloc,
            plan,
            &tried,
            asked_of(&tried, command),
            sink,
            progress,
        ),
        Err(fault) => fault_ending(fault),
    }
}

/// What is put of a text that is no plan.
pub(crate) fn bad_line_text(alloc: Global, line: usize, reason: &Reason) -> Result<Text, AllocError>
    ensures { IfOk result (λ text. text ≡ bad_line_text line reason.now) }
{
    let mut text = Text::new(alloc);
    let says = format!(in alloc; "bad plan line {line}: ")?;
    text.append(says.as_bytes())?;
    push_reason(alloc, &mut text, reason)?;
    text.append(b"\n")?;
    Ok(text)
}

/// Puts the line that says which line of a text makes it no plan, and why.
fn put_bad_line<K: Sink>(alloc: Global, sink: &mut K, line: usize, reason: &Reason) -> Ending
    ensures { EndsBad K.written sink.old sink.new K.faults line reason.now result }
{
    match bad_line_text(alloc, line, reason) {
        Ok(says) => put_text(sink, says.bytes(), Ending::BadPlan),
        Err(_) => Ending::NoMemory,
    }
}

/// Answers a command on a plan that is a text.
fn answer_text<K: Sink, Q: Sink>(
    alloc: Global,
    text: &[u8],
    command: &SweepCommand,
    sink: &mut K,
    progress: &mut Q,
) -> Ending
    ensures { EndsText K.written sink.old sink.new K.faults (lines text.now) command.now result }
{
    match read_plan(alloc, text) {
        Ok(plan) => answer_plan(alloc, &plan, command, sink, progress),
        Err(PlanFault::BadLine { line, reason }) => put_bad_line(alloc, sink, line, &reason),
        Err(PlanFault::NoMemory) => Ending::NoMemory,
    }
}

/// Reads the plan that the source has, and answers a command on it.
fn carry_out<S: Source, K: Sink, Q: Sink>(
    alloc: Global,
    command: &SweepCommand,
    source: &mut S,
    sink: &mut K,
    progress: &mut Q,
) -> Ending
    ensures { IsSweep S.left K.written source.old source.new sink.old sink.new S.faults K.faults command.now result }
{
    match read_text(alloc, source) {
        Ok(text) => answer_text(alloc, text.bytes(), command, sink, progress),
        Err(fault) => ending_of(fault),
    }
}

/// Puts the usage line.
pub fn usage<K: Sink>(sink: &mut K) -> Ending
    ensures { Puts K.written sink.old sink.new K.faults usage_line Usage result }
{
    put_text(sink, USAGE, Ending::Usage)
}

/// Carries out the command that the words name: reads a plan from the source, tries its disasters at each device write of its tried lines, and
/// prints to the sink a report, a table, a picture, or all that tools read; or prints the script of one point. How far it is, it tells
/// `progress`, and what fails there is passed over. For any other words the usage line is printed, and the source is left alone.
pub fn sweep<S: Source, K: Sink, Q: Sink>(
    alloc: Global,
    words: &[String],
    source: &mut S,
    sink: &mut K,
    progress: &mut Q,
) -> Ending
    ensures sweep { (command : SweepCommand) → sweep_command_of words.now ≡ Some command → IsSweep S.left K.written source.old source.new sink.old sink.new S.faults K.faults command result }
    ensures usage { sweep_command_of words.now ≡ None → EndsUsage K.written sink.old sink.new K.faults result × (source.new ≡ source.old) }
{
    match sweep_command_of(alloc, words) {
        Ok(Some(command)) => carry_out(alloc, &command, source, sink, progress),
        Ok(None) => usage(sink),
        Err(_) => Ending::NoMemory,
    }
}
