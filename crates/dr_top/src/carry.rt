//! Carries out the steps of one line of a script, and of the lines of a text.

ghost use Rattle.std.specs.Str.Lines.{lines};
ghost use Rattle.std.specs.Prelude.{◌≡◌, ℕ, ◌+◌, ◌<◌, ◌≤◌, ◌++◌, ◌^◌, [], ◌∷◌, length, nat_le, Ok, Err, OnOk, OnErr, All};
ghost use Rattle.dr_logic.specs.Counts.{Counted};
ghost use Rattle.dr_model.specs.Answers.{answer};
ghost use Rattle.dr_model.specs.Control.{World};
ghost use Rattle.dr_model.specs.Layout.{Blocks};
ghost use Rattle.dr_model.specs.declared.said.Said.TheVariants.{Refused};
ghost use Rattle.dr_ids.specs.declared.refusal.Refusal.{Refusal};
ghost use Rattle.dr_model.specs.Laws.{Sound};
ghost use Rattle.dr_model.specs.Limits.{most_events};
ghost use Rattle.dr_model.specs.Lines.{tasks_of, tasks_read};
ghost use Rattle.dr_model.specs.LineText.{IsWritten};
ghost use Rattle.dr_model.specs.Runs.{after_task};
ghost use Rattle.dr_top.specs.Carried.{Reached, GoesTo, GoesThrough};
ghost use Rattle.dr_steps.specs.Faults.{told_stop};
ghost use Rattle.dr_steps.specs.declared.tables.Tables.{Tables};
ghost use Rattle.dr_steps.specs.Here.{here, IsTold, IsReady};

use dr_config::Config;
use dr_ids::{Fault, MOST_EVENTS, Refusal};
use dr_io::split_line;
use dr_model::Journal;
use dr_plant::Plant;
use dr_script::{Line, read_line};
use dr_steps::{Tables, carry_task, refuse_syntax};
use std::alloc::Global;

/// Why the steps of a line end before its last one.
#[derive(Clone, Copy)]
pub enum Bar {
    /// The next step found the journal full.
    Full,
    /// There is no memory.
    NoMemory,
}

/// Whether the journal has as many events as it may.
fn is_full(journal: &Journal) -> bool
    ensures { result ≡ nat_le most_events (length journal.now.events) }
{
    MOST_EVENTS <= journal.len()
}

/// Carries out the steps of a line in order.
fn carry_steps<P: Plant>(
    plant: &mut P,
    config: &mut Config,
    tables: &mut Tables,
    journal: &mut Journal,
    number: u32,
    line: &Line,
) -> Result<(), Bar>
    requires ready { IsReady (P.state plant.old) config.old tables.old journal.old.events }
    requires reached { Reached (here (P.state plant.old) config.old tables.old journal.old.events) }
    requires written { All IsWritten line.now }
    requires room { length journal.old.events ≤ most_events }
    ensures goes { GoesTo (here (P.state plant.old) config.old tables.old journal.old.events) (P.state plant.old).block (tasks_read number (Ok line.now))
        (here (P.state plant.new) config.new tables.new journal.new.events) (P.state plant.new).block result }
    ensures ready { IsReady (P.state plant.new) config.new tables.new journal.new.events }
    ensures faults { (f : ℕ) → Counted (told_stop journal.old.events) f (P.state plant.old).faults → Counted (told_stop journal.new.events) f (P.state plant.new).faults }
    ensures room { length journal.new.events ≤ most_events }
{
    for i in 0..line.len() {
        if is_full(journal) {
            return Err(Bar::Full);
        }
        let step = line.step(i).unwrap();
        let Ok(()) = carry_task(plant, config, tables, journal, number, step) else {
            return Err(Bar::NoMemory);
        };
    }
    Ok(())
}

/// Carries out the one step of a line outside the grammar: it is refused.
fn carry_fault(journal: &mut Journal, number: u32, column: u16) -> Result<(), Bar>
    requires room { length journal.old.events ≤ most_events }
    ensures goes { (w : World) (device : ℕ → Blocks) → w.events ≡ journal.old.events → GoesTo w device (tasks_read number (Err column)) (record w { events = journal.new.events }) device result }
    ensures stops { told_stop journal.new.events ≡ told_stop journal.old.events }
    ensures told { (h : Tables) → IsTold h journal.old.events → IsTold h journal.new.events }
    ensures room { length journal.new.events ≤ most_events }
{
    if is_full(journal) {
        return Err(Bar::Full);
    }
    let Ok(()) = refuse_syntax(journal, number, column) else {
        return Err(Bar::NoMemory);
    };
    Ok(())
}

/// Carries out the steps of a line in order; a line outside the grammar is one step, which is refused. The steps are read
/// into `steps`, and what it held is gone.
pub fn carry_line<P: Plant>(
    alloc: Global,
    plant: &mut P,
    config: &mut Config,
    tables: &mut Tables,
    journal: &mut Journal,
    number: u32,
    line: &[u8],
    steps: &mut Line,
) -> Result<(), Bar>
    requires ready { IsReady (P.state plant.old) config.old tables.old journal.old.events }
    requires reached { Reached (here (P.state plant.old) config.old tables.old journal.old.events) }
    requires room { length journal.old.events ≤ most_events }
    ensures goes { GoesTo (here (P.state plant.old) config.old tables.old journal.old.events) (P.state plant.old).block (tasks_of number line.now)
        (here (P.state plant.new) config.new tables.new journal.new.events) (P.state plant.new).block result }
    ensures ready { IsReady (P.state plant.new) config.new tables.new journal.new.events }
    ensures faults { (f : ℕ) → Counted (told_stop journal.old.events) f (P.state plant.old).faults → Counted (told_stop journal.new.events) f (P.state plant.new).faults }
    ensures room { length journal.new.events ≤ most_events }
{
    match read_line(alloc, line, steps) {
        Ok(()) => carry_steps(plant, config, tables, journal, number, steps),
        Err(Fault::Refused(Refusal::Syntax { column })) => carry_fault(journal, number, column),
        Err(_) => Err(Bar::NoMemory),
    }
}

/// Carries out the lines of a text in order, of which the first has this number. The end of the text ends a line, too.
pub fn carry_text<P: Plant>(
    alloc: Global,
    plant: &mut P,
    config: &mut Config,
    tables: &mut Tables,
    journal: &mut Journal,
    first: u32,
    text: &[u8],
) -> Result<(), Bar>
    requires ready { IsReady (P.state plant.old) config.old tables.old journal.old.events }
    requires reached { Reached (here (P.state plant.old) config.old tables.old journal.old.events) }
    requires room { length journal.old.events ≤ most_events }
    requires few { first + length (lines text.now) < 2 ^ 32 }
    ensures goes { GoesThrough (here (P.state plant.old) config.old tables.old journal.old.events) (P.state plant.old).block first (lines text.now)
        (here (P.state plant.new) config.new tables.new journal.new.events) (P.state plant.new).block result }
    ensures ready { IsReady (P.state plant.new) config.new tables.new journal.new.events }
    ensures faults { (f : ℕ) → Counted (told_stop journal.old.events) f (P.state plant.old).faults → Counted (told_stop journal.new.events) f (P.state plant.new).faults }
    ensures room { length journal.new.events ≤ most_events }
{
    let mut steps = Line::new(alloc);
    let mut number = first;
    let mut rest = text;
    while !rest.is_empty() {
        let (line, behind) = split_line(rest);
        carry_line(
            alloc, plant, config, tables, journal, number, line, &mut steps,
        )?;
        number += 1;
        rest = behind;
    }
    Ok(())
}
