//! The steps that define servers, volumes and links.

ghost use Rattle.std.specs.Prelude.{◌≡◌, ℕ, ◌≤◌, min};
ghost use Rattle.dr_ids.specs.declared.refusal.Refusal.{Refusal};
ghost use Rattle.dr_model.specs.declared.step.Step.{Step};
ghost use Rattle.dr_steps.specs.Faults.{CountsStop};
ghost use Rattle.dr_steps.specs.Here.{here, said_of, OnAnswer, OnNoMemory, StepLeads, IsReady};
ghost use Rattle.dr_steps.specs.Wants.{WantsRow};

use crate::locate::{bytes_of, unknown_server};
use crate::tables::Tables;
use dr_config::Config;
use dr_ids::{Fault, Refusal, VolumeId};
use dr_model::{Addition, Event, Journal, Name};
use dr_plant::Plant;

/// Defines a server, which is on. Refused where the name is taken or there are 8 servers. Where there is no memory
/// nothing has changed.
pub fn define_server<P: Plant>(
    plant: &P,
    config: &mut Config,
    tables: &Tables,
    journal: &mut Journal,
    name: &Name,
) -> Result<Addition, Fault>
    requires ready { IsReady (P.state plant.now) config.old tables.now journal.old.events }
    requires some { 1 ≤ name.now.len }
    requires short { name.now.len ≤ 24 }
    requires room { 2 ≤ journal.old.spare }
    ensures step { OnAnswer result (λ a. (line : ℕ) → StepLeads (here (P.state plant.now) config.old tables.now journal.old.events) line (Step.Server name.now)
        (here (P.state plant.now) config.new tables.now journal.new.events) a) }
    ensures faults { OnAnswer result (λ a. CountsStop a (P.state plant.now) (P.state plant.now)) }
    ensures wanted { OnNoMemory result (WantsRow (here (P.state plant.now) config.old tables.now journal.old.events) (Step.Server name.now)) }
    ensures same { OnNoMemory result (config.new ≡ config.old) }
    ensures untold { OnNoMemory result (journal.new.events ≡ journal.old.events) }
    ensures ready { IsReady (P.state plant.now) config.new tables.now journal.new.events }
    ensures room { 1 ≤ journal.new.spare }
{
    match config.add_server(bytes_of(name)) {
        Ok(server) => {
            journal.push(Event::Server {
                server: server.0,
                len: name.len,
                name: name.bytes,
            });
            Ok(Addition::Alone)
        }
        Err(fault) => Err(fault),
    }
}

/// So many tracks as a number that the configuration takes; of more it is one that it refuses too.
fn capped(tracks: u32) -> u16
    ensures { result ≡ min tracks 65535 }
{
    tracks.min(65_535) as u16
}

/// Defines a volume, of tracks of zeros, on a server, and adds its device. Refused where no server has the name, where the
/// identifier is taken, where its logical subsystem is another server's, where it has no track or more than 256, or where
/// there are 64 volumes. Where there is no memory nothing has changed.
pub fn define_volume<P: Plant>(
    plant: &mut P,
    config: &mut Config,
    tables: &Tables,
    journal: &mut Journal,
    volume: VolumeId,
    name: &Name,
    tracks: u32,
) -> Result<Addition, Fault>
    requires ready { IsReady (P.state plant.old) config.old tables.now journal.old.events }
    requires short { name.now.len ≤ 24 }
    requires room { 2 ≤ journal.old.spare }
    ensures step { OnAnswer result (λ a. (line : ℕ) → StepLeads (here (P.state plant.old) config.old tables.now journal.old.events) line (Step.Volume volume.0 name.now tracks)
        (here (P.state plant.new) config.new tables.now journal.new.events) a) }
    ensures faults { OnAnswer result (λ a. CountsStop a (P.state plant.old) (P.state plant.new)) }
    ensures wanted { OnNoMemory result (WantsRow (here (P.state plant.old) config.old tables.now journal.old.events) (Step.Volume volume.0 name.now tracks)) }
    ensures same { OnNoMemory result (config.new ≡ config.old) }
    ensures same_plant { OnNoMemory result (P.state plant.new ≡ P.state plant.old) }
    ensures untold { OnNoMemory result (journal.new.events ≡ journal.old.events) }
    ensures ready { IsReady (P.state plant.new) config.new tables.now journal.new.events }
    ensures room { 1 ≤ journal.new.spare }
{
    let Some(server) = config.server_named(bytes_of(name)) else {
        return Err(Fault::Refused(unknown_server()));
    };
    let size = capped(tracks);
    match config.add_volume(plant, volume, server, size) {
        Ok(_) => {
            journal.push(Event::Volume {
                volume: volume.0,
                server: server.0,
                tracks: size,
            });
            Ok(Addition::Alone)
        }
        Err(fault) => Err(fault),
    }
}

/// Puts the link between two servers up or down, in both directions. Refused where no server has one of the names, and
/// where both name one server.
pub fn set_link<P: Plant>(
    plant: &P,
    config: &mut Config,
    tables: &Tables,
    journal: &Journal,
    first: &Name,
    second: &Name,
    up: bool,
) -> Result<Addition, Refusal>
    requires ready { IsReady (P.state plant.now) config.old tables.now journal.now.events }
    requires first_short { first.now.len ≤ 24 }
    requires second_short { second.now.len ≤ 24 }
    ensures step { (line : ℕ) → StepLeads (here (P.state plant.now) config.old tables.now journal.now.events) line (Step.Link first.now second.now up)
        (here (P.state plant.now) config.new tables.now journal.now.events) (said_of result) }
    ensures faults { CountsStop (said_of result) (P.state plant.now) (P.state plant.now) }
    ensures ready { IsReady (P.state plant.now) config.new tables.now journal.now.events }
{
    let Some(a) = config.server_named(bytes_of(first)) else {
        return Err(unknown_server());
    };
    let Some(b) = config.server_named(bytes_of(second)) else {
        return Err(unknown_server());
    };
    match config.set_link(a, b, up) {
        Ok(()) => Ok(Addition::Alone),
        Err(refusal) => Err(refusal),
    }
}
