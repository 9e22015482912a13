//! How a host write lands in what a run holds beside the plant and the journal.

ghost use Rattle.std.specs.Prelude.{◌≡◌, ℕ, ◌+◌, ◌<◌, ◌≤◌, true, [], ◌∷◌, length, is_err, IsSome, Some, None, OnOk, OnErr, if◌then◌else◌, List};
ghost use Rattle.std.specs.List.{find};
ghost use Rattle.dr_logic.specs.Counts.{Counted};
ghost use Rattle.dr_config.specs.Table.{place_of};
ghost use Rattle.dr_host.specs.Writes.{has_number, with_marked};
ghost use Rattle.dr_model.specs.Entries.{land_on, land_alone};
ghost use Rattle.dr_model.specs.ReadStops.{Ends};
ghost use Rattle.dr_model.specs.Refusals.{stopped};
ghost use Rattle.dr_volume.specs.View.{Rest, volume_seen, ids_of};
ghost use Rattle.dr_volume.specs.Volume.{Shows};
ghost use Rattle.dr_moves.specs.Fit.{RelationsFit};
ghost use Rattle.dr_host.specs.Here.{here};
ghost use Rattle.dr_metro.specs.Here.{IsTold};
ghost use Rattle.dr_metro.specs.Landing.{landed_on};
ghost use Rattle.dr_moves.specs.Here.{refusal_of, armed_in, IsAtRest};
ghost use Rattle.dr_metro.specs.Waiting.{IsIssuedAs};

use crate::landing::land_by;
use dr_config::Config;
use dr_flash::copy_first;
use dr_host::Host;
use dr_ids::{Refusal, ServerId, VolumeId, WriteId};
use dr_model::Journal;
use dr_plant::Plant;
use dr_volume::peek_fields;

/// Where a host write goes.
#[derive(Clone, Copy)]
pub struct Target {
    pub volume: VolumeId,
    pub server: ServerId,
    pub track: u16,
    pub offset: u8,
}

/// Lands a pending write on its track of a volume whose server is on, after each target of the volume kept the track, and
/// acknowledges it. Fails where the server stops in a move or goes off at a read: then the write stays pending. The
/// journal needs room for an event for each volume and two more.
pub fn land_kept<P: Plant>(
    plant: &mut P,
    config: &Config,
    host: &mut Host,
    journal: &mut Journal,
    w: WriteId,
    target: Target,
    bytes: &[u8],
) -> Result<(), Refusal>
    requires rest { IsAtRest (P.state plant.old) config.now }
    requires fit { RelationsFit (P.state plant.old) config.now }
    requires told { IsTold host.old journal.old.events }
    requires defined { IsSome (place_of config.now target.volume.0) }
    requires server { (volume_seen (P.state plant.old) config.now target.volume.0).server ≡ target.server.0 }
    requires running { (P.state plant.old).on target.server.0 ≡ true }
    requires known { target.server.0 < 8 }
    requires within { target.track < (volume_seen (P.state plant.old) config.now target.volume.0).tracks }
    requires fits { target.offset + length bytes.now ≤ 64 }
    requires room { length config.now.volumes + 2 ≤ journal.old.spare }
    requires pending { IsIssuedAs host.old journal.old.events w.0 target bytes.now }
    ensures carried { (r : Rest) → Ends (armed_in (P.state plant.old)) (here (P.state plant.new) config.now r host.new journal.new.events) (refusal_of result)
        (here (P.state plant.old) config.now r host.old journal.old.events) (land_alone (ids_of config.now.volumes) w.0 target.volume.0 target.track) }
    ensures stopped { OnErr result (refusal_of result ≡ Some (stopped target.server.0)) }
    ensures left { OnOk result ((volume_seen (P.state plant.new) config.now target.volume.0).fields ≡ landed_on (volume_seen (P.state plant.old) config.now target.volume.0) target.track) }
    ensures rest { IsAtRest (P.state plant.new) config.now }
    ensures fit { RelationsFit (P.state plant.new) config.now }
    ensures told { IsTold host.new journal.new.events }
    ensures unarmed { (q : ℕ) → (P.state plant.old).read_fuse q ≡ None → (P.state plant.new).read_fuse q ≡ None }
    ensures faults { Counted (is_err result) (P.state plant.old).faults (P.state plant.new).faults }
    ensures issued { host.new.issued ≡ host.old.issued }
    ensures room { journal.old.spare ≤ journal.new.spare + (length config.now.volumes + 1) }
    ensures spare { length journal.new.events + journal.new.spare ≡ length journal.old.events + journal.old.spare }
{
    copy_first(plant, config, journal, target.volume, target.track)?;
    let fields = peek_fields(plant, config, target.volume);
    land_by(plant, config, host, journal, w, target, &fields, bytes)
}
