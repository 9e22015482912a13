//! The steps that stop a server, arm its fuse, and start it.

ghost use Rattle.std.specs.Prelude.{◌≡◌, ℕ, ◌+◌, ◌≤◌, length};
ghost use Rattle.dr_ctl.specs.Kept.{flight_in};
ghost use Rattle.dr_model.specs.Plans.{torn_bytes, says_acked};
ghost use Rattle.dr_model.specs.declared.said.Said.TheVariants.{Done};
ghost use Rattle.dr_model.specs.declared.step.Step.{Step};
ghost use Rattle.dr_volume.specs.View.{torn_seen};
ghost use Rattle.dr_admin.specs.Answering.{write_number};
ghost use Rattle.dr_steps.specs.Counts.{HasCounts};
ghost use Rattle.dr_steps.specs.Faults.{CountsStop};
ghost use Rattle.dr_steps.specs.Here.{said_of, StepLeads, here, IsReady};

use crate::locate::{bytes_of, unknown_server};
use crate::tables::Tables;
use dr_admin::start as turn_on;
use dr_config::Config;
use dr_ids::{Refusal, WriteId};
use dr_model::{Addition, Event, Journal, Name, TornWord};
use dr_plant::{Plant, Torn};

/// Turns a server off; where it is off, nothing happens. Its fuse stays.
pub fn stop<P: Plant>(
    plant: &mut P,
    config: &Config,
    tables: &Tables,
    journal: &mut Journal,
    name: &Name,
) -> Result<Addition, Refusal>
    requires ready { IsReady (P.state plant.old) config.now tables.now journal.old.events }
    requires short { name.now.len ≤ 24 }
    requires room { 2 ≤ journal.old.spare }
    ensures step { (line : ℕ) → StepLeads (here (P.state plant.old) config.now tables.now journal.old.events) line (Step.Stop name.now)
        (here (P.state plant.new) config.now tables.now journal.new.events) (said_of result) }
    ensures faults { CountsStop (said_of result) (P.state plant.old) (P.state plant.new) }
    ensures ready { IsReady (P.state plant.new) config.now tables.now journal.new.events }
    ensures room { 1 ≤ journal.new.spare }
{
    let Some(server) = config.server_named(bytes_of(name)) else {
        return Err(unknown_server());
    };
    if !plant.is_on(server.0) {
        return Ok(Addition::Alone);
    }
    plant.stop(server.0);
    journal.push(Event::Stopped {
        server: server.0,
        write: 0,
    });
    Ok(Addition::Alone)
}

/// What a write that is cut short leaves in its block.
fn torn(word: TornWord) -> Torn
    ensures { torn_seen result ≡ torn_bytes word }
{
    match word {
        TornWord::Same => Torn::Untouched,
        TornWord::Fill(b) => Torn::Bytes([b; 64]),
        TornWord::Bytes(bytes) => Torn::Bytes(bytes),
    }
}

/// Arms a server's fuse in place of an earlier one: so many writes pass, and the next one is cut short.
pub fn arm<P: Plant>(
    plant: &mut P,
    config: &Config,
    tables: &Tables,
    journal: &Journal,
    name: &Name,
    writes: u32,
    word: TornWord,
) -> Result<Addition, Refusal>
    requires ready { IsReady (P.state plant.old) config.now tables.now journal.now.events }
    requires short { name.now.len ≤ 24 }
    ensures step { (line : ℕ) → StepLeads (here (P.state plant.old) config.now tables.now journal.now.events) line (Step.StopAfter name.now writes word)
        (here (P.state plant.new) config.now tables.now journal.now.events) (said_of result) }
    ensures faults { CountsStop (said_of result) (P.state plant.old) (P.state plant.new) }
    ensures ready { IsReady (P.state plant.new) config.now tables.now journal.now.events }
{
    let Some(server) = config.server_named(bytes_of(name)) else {
        return Err(unknown_server());
    };
    plant.arm_writes(server.0, writes, torn(word));
    Ok(Addition::Alone)
}

/// What a start adds to its answer: the write that it acknowledged, if one.
fn added(acked: Option<WriteId>) -> Addition
    ensures { Done result ≡ says_acked (write_number acked) }
{
    match acked {
        Some(w) => Addition::Acked { w: w.0 },
        None => Addition::Alone,
    }
}

/// Turns a server on; where it is on, nothing happens. Its volumes write their staged tracks to their places and go on,
/// and at the end the write that had landed in a stop is acknowledged. However that ends, the server was started once more.
pub fn start<P: Plant>(
    plant: &mut P,
    config: &Config,
    tables: &mut Tables,
    journal: &mut Journal,
    name: &Name,
) -> Result<Addition, Refusal>
    requires ready { IsReady (P.state plant.old) config.now tables.old journal.old.events }
    requires short { name.now.len ≤ 24 }
    requires room { length config.now.volumes + length config.now.volumes + 3 ≤ journal.old.spare }
    requires counts { HasCounts (length config.now.names) (flight_in tables.old.flight) }
    ensures step { (line : ℕ) → StepLeads (here (P.state plant.old) config.now tables.old journal.old.events) line (Step.Start name.now)
        (here (P.state plant.new) config.now tables.new journal.new.events) (said_of result) }
    ensures faults { CountsStop (said_of result) (P.state plant.old) (P.state plant.new) }
    ensures ready { IsReady (P.state plant.new) config.now tables.new journal.new.events }
    ensures issued { tables.new.host.issued ≡ tables.old.host.issued }
    ensures room { 1 ≤ journal.new.spare }
{
    let Some(server) = config.server_named(bytes_of(name)) else {
        return Err(unknown_server());
    };
    if plant.is_on(server.0) {
        return Ok(Addition::Alone);
    }
    tables.flight.started(server);
    match turn_on(plant, config, journal, &mut tables.host, server) {
        Ok(acked) => Ok(added(acked)),
        Err(refusal) => Err(refusal),
    }
}
