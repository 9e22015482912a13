//! Runs a script: its lines in order, each with its answers printed before the next is taken.

ghost use Rattle.std.specs.Prelude.{◌≡◌, ℕ, ◌+◌, ◌<◌, ◌≤◌, ◌⊎◌, length, take, OnOk, OnErr, IfOk, IfErr};
ghost use Rattle.dr_model.specs.Control.{nothing};
ghost use Rattle.dr_model.specs.Limits.{most_events};
ghost use Rattle.dr_model.specs.Lines.{tasks_of};
ghost use Rattle.dr_model.specs.Text.{heard, untold};
ghost use Rattle.dr_list.specs.Seen.{heard_seen};
ghost use Rattle.std.specs.List.{fold};
ghost use Rattle.dr_logic.specs.Counts.{Counted};
ghost use Rattle.dr_top.specs.Carried.{Reached};
ghost use Rattle.dr_steps.specs.Faults.{told_stop};
ghost use Rattle.dr_top.specs.Followed.{text_since};
ghost use Rattle.dr_io.specs.Given.{Gave, GavePart};
ghost use Rattle.dr_steps.specs.Here.{here, IsReady};
ghost use Rattle.dr_top.specs.Reports.{RanBy};
ghost use Rattle.dr_top.specs.Ran.{is_on_sink, RanLine};
ghost use Rattle.dr_top.specs.Statuses.{halt_status};

use crate::carry::{Bar, carry_line};
use crate::put::put_all;
use crate::status::{Status, whole_status};
use dr_config::Config;
use dr_io::{LineReader, Sink, Source, Taken};
use dr_list::{Heard, text_on};
use dr_model::Journal;
use dr_plant::Plant;
use dr_script::Line;
use dr_steps::Tables;
use std::alloc::Global;

/// Why a run ends before its script.
#[derive(Clone, Copy)]
pub enum Halt {
    /// The sink failed.
    WriteFault,
    /// There is no memory.
    NoMemory,
    /// A step found the journal full.
    Full,
}

impl Halt {
    /// How the program ends then.
    pub fn status(self) -> Status
        ensures { result ≡ halt_status self }
    {
        match self {
            Halt::WriteFault => Status::WriteFault,
            Halt::NoMemory => Status::NoMemory,
            Halt::Full => Status::TooLong,
        }
    }
}

/// The steps and the text of the line at hand. The run keeps both, so that their memory is used again; each line begins
/// with both empty.
#[derive(Drop)]
struct Buffers {
    steps: Line,
    text: Vec<u8>,
}

/// Prints the answers that came since a place of the journal. Their text stands in `text`, and what it held is gone.
fn print_from<K: Sink>(
    told: &mut Heard,
    journal: &Journal,
    from: usize,
    text: &mut Vec<u8>,
    sink: &mut K,
) -> Result<(), Halt>
    requires within { from ≤ length journal.now.events }
    requires heard { heard_seen told.old ≡ fold heard untold (take from journal.now.events) }
    ensures heard { heard_seen told.new ≡ fold heard untold journal.now.events }
    ensures whole { OnOk result (Gave K.written sink.old sink.new (text_since journal.now.events from)) }
    ensures part { OnErr result (GavePart K.written sink.old sink.new (text_since journal.now.events from)) }
    ensures full { IfErr result (λ h. h ≡ Halt.Full → ⊥) }
    ensures none { IfErr result (λ h. h ≡ Halt.NoMemory → sink.new ≡ sink.old) }
    ensures faults { Counted (is_on_sink result) (K.faults sink.old) (K.faults sink.new) }
{
    let Ok(()) = text_on(told, journal, from, text) else {
        return Err(Halt::NoMemory);
    };
    let Ok(()) = put_all(sink, text) else {
        return Err(Halt::WriteFault);
    };
    Ok(())
}

/// Carries out a line, and prints what its steps answer.
fn run_line<P: Plant, K: Sink>(
    alloc: Global,
    plant: &mut P,
    config: &mut Config,
    tables: &mut Tables,
    journal: &mut Journal,
    told: &mut Heard,
    buffers: &mut Buffers,
    sink: &mut K,
    number: u32,
    line: &[u8],
) -> Result<(), Halt>
    requires ready { IsReady (P.state plant.old) config.old tables.old journal.old.events }
    requires reached { Reached (here (P.state plant.old) config.old tables.old journal.old.events) }
    requires room { length journal.old.events ≤ most_events }
    requires heard { heard_seen told.old ≡ fold heard untold journal.old.events }
    ensures heard { OnOk result (heard_seen told.new ≡ fold heard untold journal.new.events) }
    ensures ran { RanLine K.written sink.old sink.new (here (P.state plant.old) config.old tables.old journal.old.events) (P.state plant.old).block (tasks_of number line.now)
        (here (P.state plant.new) config.new tables.new journal.new.events) (P.state plant.new).block result }
    ensures faults { Counted (is_on_sink result) (K.faults sink.old) (K.faults sink.new) }
    ensures ready { IsReady (P.state plant.new) config.new tables.new journal.new.events }
    ensures stops { (f : ℕ) → Counted (told_stop journal.old.events) f (P.state plant.old).faults → Counted (told_stop journal.new.events) f (P.state plant.new).faults }
    ensures room { length journal.new.events ≤ most_events }
{
    let from = journal.len();
    let Buffers { steps, text } = buffers;
    match carry_line(alloc, plant, config, tables, journal, number, line, steps) {
        Ok(()) => print_from(told, journal, from, text, sink),
        Err(Bar::Full) => {
            print_from(told, journal, from, text, sink)?;
            Err(Halt::Full)
        }
        Err(Bar::NoMemory) => Err(Halt::NoMemory),
    }
}

/// Takes the lines of a script one after another and carries each out, until the script ends, its source fails, a limit
/// is passed, or the run is halted.
pub fn run_lines<P: Plant, S: Source, K: Sink>(
    alloc: Global,
    plant: &mut P,
    config: &mut Config,
    tables: &mut Tables,
    journal: &mut Journal,
    source: &mut S,
    sink: &mut K,
) -> Status
    requires ready { IsReady (P.state plant.old) config.old tables.old journal.old.events }
    requires begins { here (P.state plant.old) config.old tables.old journal.old.events ≡ nothing }
    ensures ran { RanBy S.left K.written source.old source.new sink.old sink.new S.faults K.faults result (here (P.state plant.new) config.new tables.new journal.new.events) (P.state plant.new).block }
    ensures ready { IsReady (P.state plant.new) config.new tables.new journal.new.events }
    ensures stops { Counted (told_stop journal.new.events) (P.state plant.old).faults (P.state plant.new).faults }
    ensures room { length journal.new.events ≤ most_events }
{
    let mut reader = LineReader::new();
    let mut told = Heard::new();
    let mut buffers = Buffers {
        steps: Line::new(alloc),
        text: Vec::new(alloc),
    };
    let mut number = 0;
    loop {
        match reader.next(source) {
            Ok(Taken::Line) => {
                number += 1;
                let line = reader.line();
                match run_line(
                    alloc,
                    plant,
                    config,
                    tables,
                    journal,
                    &mut told,
                    &mut buffers,
                    sink,
                    number,
                    line,
                ) {
                    Ok(()) => {}
                    Err(halt) => return halt.status(),
                }
            }
            Ok(Taken::End) => return whole_status(journal, 0),
            Ok(Taken::TooLong) => return Status::TooLong,
            Err(_) => return Status::ReadFault,
        }
    }
}
