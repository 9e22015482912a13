//! Moves of a volume that is open, or whose fields are at hand: its record isn't decoded again.

ghost use Rattle.std.specs.Prelude.{◌≡◌, ◌≤◌, ◌+◌, ◌⊎◌, true, length, OnOk, is_err};
ghost use Rattle.dr_model.specs.Histories.{histories};
ghost use Rattle.dr_model.specs.Moves as machine;
ghost use Rattle.dr_volume.specs.Opened.{IsOpened, OthersOpened};
ghost use Rattle.dr_volume.specs.Update.{IsAsBefore, IsMoved, OthersStay};
ghost use Rattle.dr_volume.specs.View.{volume_seen, track_seen};
ghost use Rattle.dr_volume.specs.Volume.{Says};
ghost use Rattle.dr_moves.specs.Entered.{is_calm, Entered};
ghost use Rattle.dr_moves.specs.Made.{IsAt, May, room_for, Made, Kept};
ghost use Rattle.dr_moves.specs.Moves.{move_of};

use crate::acts::{Stop, change, change_by};
use crate::moves::{Move, target_of};
use dr_config::Config;
use dr_ids::Refusal;
use dr_model::Journal;
use dr_plant::{Block, Plant};
use dr_volume::{Fields, Opened};

/// Makes a move of a volume that was opened, as `make` does: nothing is read. What was opened becomes what the move leaves, so that
/// another may follow, and so may moves of other volumes that were opened before.
pub fn make_opened<P: Plant>(
    plant: &mut P,
    config: &Config,
    journal: &mut Journal,
    m: &Move,
    opened: &mut Opened,
    track: Option<(u16, Block)>,
) -> Result<(), Stop>
    requires at { IsAt (P.state plant.old) config.now }
    requires may { May (P.state plant.old) config.now (move_of m.now) }
    requires opened { IsOpened (P.state plant.old) config.now (machine.target (move_of m.now)) opened.old }
    requires carries { machine.carried (move_of m.now) (volume_seen (P.state plant.old) config.now) (track_seen (P.state plant.old) config.now) (histories journal.old.events).write ≡ track }
    requires room { room_for (move_of m.now) (volume_seen (P.state plant.old) config.now (machine.target (move_of m.now))) ≤ journal.old.spare }
    ensures made { Made (P.state plant.old) (P.state plant.new) config.now journal.old journal.new (move_of m.now) (machine.target (move_of m.now)) track result }
    ensures kept { Kept (P.state plant.old) (P.state plant.new) config.now journal.old journal.new (room_for (move_of m.now) (volume_seen (P.state plant.old) config.now (machine.target (move_of m.now)))) (is_err result) result }
    ensures room_left { OnOk result (journal.old.spare ≡ journal.new.spare + length (machine.told (move_of m.now) (volume_seen (P.state plant.old) config.now (machine.target (move_of m.now))))) }
    ensures opened { OnOk result (IsOpened (P.state plant.new) config.now (machine.target (move_of m.now)) opened.new) }
    ensures others_opened { OthersOpened (P.state plant.old) (P.state plant.new) config.now (machine.target (move_of m.now)) }
{
    change(
        plant,
        config,
        journal,
        target_of(m),
        m,
        &mut opened.gate,
        &mut opened.fields,
        track,
    )
}

/// Makes a move by the fields of its volume, which are at hand and become what the move leaves, as `make` does: of the record the
/// gate alone is read. Fails where the server stops in it or goes off at that read.
pub fn make_by<P: Plant>(
    plant: &mut P,
    config: &Config,
    journal: &mut Journal,
    m: &Move,
    fields: &mut Fields,
    track: Option<(u16, Block)>,
) -> Result<(), Stop>
    requires at { IsAt (P.state plant.old) config.now }
    requires may { May (P.state plant.old) config.now (move_of m.now) }
    requires says { Says (P.state plant.old) config.now (machine.target (move_of m.now)) fields.old }
    requires carries { machine.carried (move_of m.now) (volume_seen (P.state plant.old) config.now) (track_seen (P.state plant.old) config.now) (histories journal.old.events).write ≡ track }
    requires room { room_for (move_of m.now) (volume_seen (P.state plant.old) config.now (machine.target (move_of m.now))) ≤ journal.old.spare }
    ensures made { Made (P.state plant.old) (P.state plant.new) config.now journal.old journal.new (move_of m.now) (machine.target (move_of m.now)) track result }
    ensures kept { Kept (P.state plant.old) (P.state plant.new) config.now journal.old journal.new (room_for (move_of m.now) (volume_seen (P.state plant.old) config.now (machine.target (move_of m.now)))) (is_err result) result }
    ensures room_left { OnOk result (journal.old.spare ≡ journal.new.spare + length (machine.told (move_of m.now) (volume_seen (P.state plant.old) config.now (machine.target (move_of m.now))))) }
    ensures says { OnOk result (Says (P.state plant.new) config.now (machine.target (move_of m.now)) fields.new) }
{
    change_by(plant, config, journal, target_of(m), m, fields, track)
}

/// Makes a move that lands no host write by the fields of its volume, which are at hand and become what the move leaves, as an entry
/// of a plan. Fails with
/// `Refusal::Stopped` of its server, where `make_by` fails. The journal needs the same room.
pub fn make_move_by<P: Plant>(
    plant: &mut P,
    config: &Config,
    journal: &mut Journal,
    m: &Move,
    fields: &mut Fields,
    track: Option<(u16, Block)>,
) -> Result<(), Refusal>
    requires at { IsAt (P.state plant.old) config.now }
    requires may { May (P.state plant.old) config.now (move_of m.now) }
    requires calm { is_calm (move_of m.now) ≡ true }
    requires says { Says (P.state plant.old) config.now (machine.target (move_of m.now)) fields.old }
    requires carries { machine.carried (move_of m.now) (volume_seen (P.state plant.old) config.now) (track_seen (P.state plant.old) config.now) (histories journal.old.events).write ≡ track }
    requires room { room_for (move_of m.now) (volume_seen (P.state plant.old) config.now (machine.target (move_of m.now))) ≤ journal.old.spare }
    ensures entered { Entered (P.state plant.old) (P.state plant.new) config.now journal.old.events journal.new.events (move_of m.now) (machine.target (move_of m.now)) result }
    ensures moved { OnOk result (IsMoved (P.state plant.old) (P.state plant.new) config.now (machine.target (move_of m.now)) (machine.fields_left (move_of m.now) (volume_seen (P.state plant.old) config.now (machine.target (move_of m.now)))) track) }
    ensures others { OthersStay (P.state plant.old) (P.state plant.new) config.now (machine.target (move_of m.now)) }
    ensures kept { Kept (P.state plant.old) (P.state plant.new) config.now journal.old journal.new (room_for (move_of m.now) (volume_seen (P.state plant.old) config.now (machine.target (move_of m.now)))) (is_err result) result }
    ensures room_left { OnOk result (journal.old.spare ≡ journal.new.spare + length (machine.told (move_of m.now) (volume_seen (P.state plant.old) config.now (machine.target (move_of m.now))))) }
    ensures old_or_new { IsAsBefore (P.state plant.old) (P.state plant.new) config.now (machine.target (move_of m.now)) ⊎ IsMoved (P.state plant.old) (P.state plant.new) config.now (machine.target (move_of m.now)) (machine.fields_left (move_of m.now) (volume_seen (P.state plant.old) config.now (machine.target (move_of m.now)))) track }
    ensures says { OnOk result (Says (P.state plant.new) config.now (machine.target (move_of m.now)) fields.new) }
{
    match make_by(plant, config, journal, m, fields, track) {
        Ok(()) => Ok(()),
        Err(stop) => Err(Refusal::Stopped {
            server: stop.server,
        }),
    }
}
