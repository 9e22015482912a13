//! One function makes any move: the record of its volume and the track that it carries are changed, and the journal is told.

ghost use Rattle.std.specs.Prelude.{◌≡◌, ◌≤◌, ◌+◌, ◌⊎◌, true, length, OnOk, is_err};
ghost use Rattle.dr_model.specs.Histories.{histories};
ghost use Rattle.dr_model.specs.Moves as machine;
ghost use Rattle.dr_volume.specs.Opened.{IsGate, IsOpened, OthersOpened};
ghost use Rattle.dr_volume.specs.Update.{IsAsBefore, IsMoved, OthersStay};
ghost use Rattle.dr_volume.specs.View.{volume_seen, track_seen};
ghost use Rattle.dr_volume.specs.Volume.{Says};
ghost use Rattle.dr_moves.specs.Entered.{is_calm, Entered};
ghost use Rattle.dr_moves.specs.Made.{IsAt, May, room_for, Made, Kept};
ghost use Rattle.dr_moves.specs.Moves.{move_of};
ghost use Rattle.dr_moves.specs.Ready.{Ready, Stayed};

use crate::moves::{Move, next_fields, target_of, tell_done, tell_stop};
use crate::place::{server_of, tracks_of};
use crate::reads::open_told;
use crate::told::sight_of;
use dr_config::Config;
use dr_ids::{Refusal, ServerId, VolumeId};
use dr_model::Journal;
use dr_plant::{Block, Plant};
use dr_volume::{Fields, Gate, peek_fields, slot};

/// A move that wasn't done: its server stopped in it, or went off at a read before it.
#[derive(Clone, Copy)]
pub struct Stop {
    pub server: ServerId,
    /// Whether the move counts as done all the same, so that its fields hold from the next start on.
    pub counts: bool,
}

/// Makes a move of a volume whose gate was read, by its fields: they become what the move leaves, and so does the gate.
pub(crate) fn change<P: Plant>(
    plant: &mut P,
    config: &Config,
    journal: &mut Journal,
    v: VolumeId,
    m: &Move,
    gate: &mut Gate,
    fields: &mut Fields,
    track: Option<(u16, Block)>,
) -> Result<(), Stop>
    requires ready { Ready (P.state plant.old) config.now v.0 (move_of m.now) track }
    requires target { machine.target (move_of m.now) ≡ v.0 }
    requires gate { IsGate (P.state plant.old) config.now v.0 gate.old }
    requires says { Says (P.state plant.old) config.now v.0 fields.old }
    requires carries { machine.carried (move_of m.now) (volume_seen (P.state plant.old) config.now) (track_seen (P.state plant.old) config.now) (histories journal.old.events).write ≡ track }
    requires room { room_for (move_of m.now) (volume_seen (P.state plant.old) config.now v.0) ≤ journal.old.spare }
    ensures made { Made (P.state plant.old) (P.state plant.new) config.now journal.old journal.new (move_of m.now) v.0 track result }
    ensures either { IsAsBefore (P.state plant.old) (P.state plant.new) config.now v.0 ⊎ IsMoved (P.state plant.old) (P.state plant.new) config.now v.0 (machine.fields_left (move_of m.now) (volume_seen (P.state plant.old) config.now v.0)) track }
    ensures stayed { Stayed (P.state plant.old) (P.state plant.new) config.now journal.old journal.new (volume_seen (P.state plant.old) config.now v.0).server (room_for (move_of m.now) (volume_seen (P.state plant.old) config.now v.0)) result }
    ensures room_left { OnOk result (journal.old.spare ≡ journal.new.spare + length (machine.told (move_of m.now) (volume_seen (P.state plant.old) config.now v.0))) }
    ensures opened { OnOk result (IsOpened (P.state plant.new) config.now v.0 (record { gate = gate.new; fields = fields.new })) }
    ensures says { OnOk result (Says (P.state plant.new) config.now v.0 fields.new) }
    ensures others_opened { OthersOpened (P.state plant.old) (P.state plant.new) config.now v.0 }
{
    let size = tracks_of(config, v);
    let sight = sight_of(fields);
    next_fields(m, size, fields);
    let before = gate.slot();
    match gate.change(plant, config, v, fields, track) {
        Ok(()) => {
            tell_done(journal, m, size, &sight);
            Ok(())
        }
        Err(_) => {
            let server = server_of(config, v);
            let counts = slot(plant, config, v) != before;
            tell_stop(journal, m, size, &sight, server, counts);
            Err(Stop { server, counts })
        }
    }
}

/// Makes a move of a volume by its fields, which are at hand and become what the move leaves: of the record the gate alone is read.
pub(crate) fn change_by<P: Plant>(
    plant: &mut P,
    config: &Config,
    journal: &mut Journal,
    v: VolumeId,
    m: &Move,
    fields: &mut Fields,
    track: Option<(u16, Block)>,
) -> Result<(), Stop>
    requires ready { Ready (P.state plant.old) config.now v.0 (move_of m.now) track }
    requires target { machine.target (move_of m.now) ≡ v.0 }
    requires says { Says (P.state plant.old) config.now v.0 fields.old }
    requires carries { machine.carried (move_of m.now) (volume_seen (P.state plant.old) config.now) (track_seen (P.state plant.old) config.now) (histories journal.old.events).write ≡ track }
    requires room { room_for (move_of m.now) (volume_seen (P.state plant.old) config.now v.0) ≤ journal.old.spare }
    ensures made { Made (P.state plant.old) (P.state plant.new) config.now journal.old journal.new (move_of m.now) v.0 track result }
    ensures either { IsAsBefore (P.state plant.old) (P.state plant.new) config.now v.0 ⊎ IsMoved (P.state plant.old) (P.state plant.new) config.now v.0 (machine.fields_left (move_of m.now) (volume_seen (P.state plant.old) config.now v.0)) track }
    ensures stayed { Stayed (P.state plant.old) (P.state plant.new) config.now journal.old journal.new (volume_seen (P.state plant.old) config.now v.0).server (room_for (move_of m.now) (volume_seen (P.state plant.old) config.now v.0)) result }
    ensures room_left { OnOk result (journal.old.spare ≡ journal.new.spare + length (machine.told (move_of m.now) (volume_seen (P.state plant.old) config.now v.0))) }
    ensures says { OnOk result (Says (P.state plant.new) config.now v.0 fields.new) }
{
    match open_told(plant, config, journal, v) {
        Ok(mut gate) => change(plant, config, journal, v, m, &mut gate, fields, track),
        Err(_) => {
            let server = server_of(config, v);
            Err(Stop {
                server,
                counts: false,
            })
        }
    }
}

/// Makes a move of a volume that stands ready, whatever the others do, with the track that it carries: a number below the volume's
/// size and 64 bytes. Fails where the server stops in it or goes off at the read of the record, and says whether the move counts
/// as done. The journal needs room for what the move tells, done or stopped, and for the stop.
pub fn make_ready<P: Plant>(
    plant: &mut P,
    config: &Config,
    journal: &mut Journal,
    m: &Move,
    track: Option<(u16, Block)>,
) -> Result<(), Stop>
    requires ready { Ready (P.state plant.old) config.now (machine.target (move_of m.now)) (move_of m.now) track }
    requires carries { machine.carried (move_of m.now) (volume_seen (P.state plant.old) config.now) (track_seen (P.state plant.old) config.now) (histories journal.old.events).write ≡ track }
    requires room { room_for (move_of m.now) (volume_seen (P.state plant.old) config.now (machine.target (move_of m.now))) ≤ journal.old.spare }
    ensures made { Made (P.state plant.old) (P.state plant.new) config.now journal.old journal.new (move_of m.now) (machine.target (move_of m.now)) track result }
    ensures either { IsAsBefore (P.state plant.old) (P.state plant.new) config.now (machine.target (move_of m.now)) ⊎ IsMoved (P.state plant.old) (P.state plant.new) config.now (machine.target (move_of m.now)) (machine.fields_left (move_of m.now) (volume_seen (P.state plant.old) config.now (machine.target (move_of m.now)))) track }
    ensures stayed { Stayed (P.state plant.old) (P.state plant.new) config.now journal.old journal.new (volume_seen (P.state plant.old) config.now (machine.target (move_of m.now))).server (room_for (move_of m.now) (volume_seen (P.state plant.old) config.now (machine.target (move_of m.now)))) result }
    ensures room_left { OnOk result (journal.old.spare ≡ journal.new.spare + length (machine.told (move_of m.now) (volume_seen (P.state plant.old) config.now (machine.target (move_of m.now))))) }
{
    let v = target_of(m);
    let mut fields = peek_fields(plant, config, v);
    change_by(plant, config, journal, v, m, &mut fields, track)
}

/// Makes a move of a volume whose server is on, between two commands, as `make_ready` does.
pub fn make<P: Plant>(
    plant: &mut P,
    config: &Config,
    journal: &mut Journal,
    m: &Move,
    track: Option<(u16, Block)>,
) -> Result<(), Stop>
    requires at { IsAt (P.state plant.old) config.now }
    requires may { May (P.state plant.old) config.now (move_of m.now) }
    requires carries { machine.carried (move_of m.now) (volume_seen (P.state plant.old) config.now) (track_seen (P.state plant.old) config.now) (histories journal.old.events).write ≡ track }
    requires room { room_for (move_of m.now) (volume_seen (P.state plant.old) config.now (machine.target (move_of m.now))) ≤ journal.old.spare }
    ensures made { Made (P.state plant.old) (P.state plant.new) config.now journal.old journal.new (move_of m.now) (machine.target (move_of m.now)) track result }
    ensures kept { Kept (P.state plant.old) (P.state plant.new) config.now journal.old journal.new (room_for (move_of m.now) (volume_seen (P.state plant.old) config.now (machine.target (move_of m.now)))) (is_err result) result }
    ensures room_left { OnOk result (journal.old.spare ≡ journal.new.spare + length (machine.told (move_of m.now) (volume_seen (P.state plant.old) config.now (machine.target (move_of m.now))))) }
{
    make_ready(plant, config, journal, m, track)
}

/// Makes a move that lands no host write, as an entry of a plan. Fails with `Refusal::Stopped` of its server, where `make` fails.
/// The journal needs the same room.
pub fn make_move<P: Plant>(
    plant: &mut P,
    config: &Config,
    journal: &mut Journal,
    m: &Move,
    track: Option<(u16, Block)>,
) -> Result<(), Refusal>
    requires at { IsAt (P.state plant.old) config.now }
    requires may { May (P.state plant.old) config.now (move_of m.now) }
    requires calm { is_calm (move_of m.now) ≡ true }
    requires carries { machine.carried (move_of m.now) (volume_seen (P.state plant.old) config.now) (track_seen (P.state plant.old) config.now) (histories journal.old.events).write ≡ track }
    requires room { room_for (move_of m.now) (volume_seen (P.state plant.old) config.now (machine.target (move_of m.now))) ≤ journal.old.spare }
    ensures entered { Entered (P.state plant.old) (P.state plant.new) config.now journal.old.events journal.new.events (move_of m.now) (machine.target (move_of m.now)) result }
    ensures moved { OnOk result (IsMoved (P.state plant.old) (P.state plant.new) config.now (machine.target (move_of m.now)) (machine.fields_left (move_of m.now) (volume_seen (P.state plant.old) config.now (machine.target (move_of m.now)))) track) }
    ensures others { OthersStay (P.state plant.old) (P.state plant.new) config.now (machine.target (move_of m.now)) }
    ensures kept { Kept (P.state plant.old) (P.state plant.new) config.now journal.old journal.new (room_for (move_of m.now) (volume_seen (P.state plant.old) config.now (machine.target (move_of m.now)))) (is_err result) result }
    ensures room_left { OnOk result (journal.old.spare ≡ journal.new.spare + length (machine.told (move_of m.now) (volume_seen (P.state plant.old) config.now (machine.target (move_of m.now))))) }
    ensures old_or_new { IsAsBefore (P.state plant.old) (P.state plant.new) config.now (machine.target (move_of m.now)) ⊎ IsMoved (P.state plant.old) (P.state plant.new) config.now (machine.target (move_of m.now)) (machine.fields_left (move_of m.now) (volume_seen (P.state plant.old) config.now (machine.target (move_of m.now)))) track }
{
    match make(plant, config, journal, m, track) {
        Ok(()) => Ok(()),
        Err(stop) => Err(Refusal::Stopped {
            server: stop.server,
        }),
    }
}
