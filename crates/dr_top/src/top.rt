//! The call that the program makes.

ghost use Rattle.std.specs.Prelude.{◌≡◌, ℕ, Some, None, []};
ghost use Rattle.dr_ids.specs.declared.names.SessionId.{SessionId};
ghost use Rattle.dr_plant.specs.State.{IsFresh};
ghost use Rattle.dr_top.specs.Offline.{IsOffline};
ghost use Rattle.dr_top.specs.Outcome.{IsRun, EndsUsage, IsUsage};
ghost use Rattle.dr_top.specs.Trials.{IsTrial};
ghost use Rattle.dr_words.specs.Words.{command_of};
ghost use Rattle.dr_words.specs.declared.words.Command.TheVariants.{Run, Recover, Trial};

use crate::offline::recover;
use crate::put::put_all;
use crate::run::run_lines;
use crate::status::Status;
use crate::trial::trial;
use dr_config::Config;
use dr_io::{Sink, Source};
use dr_model::Journal;
use dr_plant::Plant;
use dr_steps::Tables;
use dr_words::{Command, command_of};
use std::alloc::Global;

const USAGE: &[u8] = b"usage: drsim run | recover SS | trial N | convert\n";

/// Reads a script, and runs it.
fn run<P: Plant, S: Source, K: Sink>(
    alloc: Global,
    source: &mut S,
    plant: &mut P,
    sink: &mut K,
    journal: &mut Journal,
) -> Status
    requires fresh { IsFresh (P.state plant.old) }
    requires empty { journal.old.events ≡ [] }
    ensures { IsRun S.left K.written source.old source.new sink.old sink.new S.faults K.faults result journal.new.events (P.state plant.old) (P.state plant.new) }
{
    let mut config = Config::new(alloc);
    let mut tables = Tables::new(alloc);
    run_lines(
        alloc,
        plant,
        &mut config,
        &mut tables,
        journal,
        source,
        sink,
    )
}

fn usage<K: Sink>(sink: &mut K) -> Status
    ensures { EndsUsage K.written K.faults sink.old sink.new result }
{
    match put_all(sink, USAGE) {
        Ok(()) => Status::Usage,
        Err(_) => Status::WriteFault,
    }
}

/// Carries out the command that the words name. `run` reads a script from the source line by line, carries out its steps on
/// the plant, keeps what happens in the journal and prints the answers to the sink. `recover SS` reads a plant image from the
/// source, and prints what recovery of that session makes of it. `trial N` runs the script that the number decides on the plant, keeps
/// what happens in the journal, and prints three lines on it; the source is left alone. For any other words the usage line is printed.
/// Where there is no memory to read the words nothing is done.
pub fn drsim<P: Plant, S: Source, K: Sink>(
    alloc: Global,
    words: &[String],
    source: &mut S,
    plant: &mut P,
    sink: &mut K,
    journal: &mut Journal,
) -> Status
    requires fresh { IsFresh (P.state plant.old) }
    requires empty { journal.old.events ≡ [] }
    ensures run { command_of words.now ≡ Some Run → IsRun S.left K.written source.old source.new sink.old sink.new S.faults K.faults result journal.new.events (P.state plant.old) (P.state plant.new) }
    ensures recover { (s : SessionId) → command_of words.now ≡ Some (Recover s) → IsOffline S.left K.written source.old source.new sink.old sink.new S.faults K.faults s.0 result journal.old journal.new (P.state plant.old) (P.state plant.new) }
    ensures trial { (n : ℕ) → command_of words.now ≡ Some (Trial n) → IsTrial n K.written sink.old sink.new K.faults result journal.new.events (P.state plant.old) (P.state plant.new) × (source.new ≡ source.old) }
    ensures usage { command_of words.now ≡ None → IsUsage K.written K.faults source.old source.new sink.old sink.new result journal.old journal.new (P.state plant.old) (P.state plant.new) }
{
    match command_of(alloc, words) {
        Ok(Some(Command::Run)) => run(alloc, source, plant, sink, journal),
        Ok(Some(Command::Recover { session })) => recover(alloc, source, sink, session),
        Ok(Some(Command::Trial { number })) => trial(alloc, number, plant, sink, journal),
        Ok(None) => usage(sink),
        Err(_) => Status::NoMemory,
    }
}
