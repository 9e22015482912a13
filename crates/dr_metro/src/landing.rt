//! Landing a host write on a track of its volume alone, as one move.

ghost use Rattle.std.specs.Prelude.{◌≡◌, ◌+◌, ◌<◌, ◌≤◌, true, length, [], ◌∷◌, None, IsSome, Some, OnOk, OnErr};
ghost use Rattle.std.specs.List.{find};
ghost use Rattle.dr_host.specs.Writes.{has_number};
ghost use Rattle.dr_model.specs.Contents.{laid};
ghost use Rattle.dr_model.specs.Entries.{land_on};
ghost use Rattle.dr_model.specs.Refusals.{stopped};
ghost use Rattle.dr_plant.specs.State.{can_read};
ghost use Rattle.dr_volume.specs.Opened.{IsOpened};
ghost use Rattle.dr_volume.specs.View.{volume_seen, device_of};
ghost use Rattle.dr_volume.specs.Volume.{Shows};
ghost use Rattle.dr_moves.specs.Heard.{refused_by};
ghost use Rattle.dr_moves.specs.Here.{refusal_of};
ghost use Rattle.dr_moves.specs.Moves.{move_of};
ghost use Rattle.dr_metro.specs.Landing.{landing_move, landed_on, writes_after, CanLandAlone};
ghost use Rattle.dr_metro.specs.Writing.{Wrote};

use crate::machine::Target;
use dr_config::Config;
use dr_flash::view_of;
use dr_host::Host;
use dr_ids::{Refusal, WriteId};
use dr_model::{Event, Journal};
use dr_moves::{Beside, Move, News, Stop, make_opened, refused};
use dr_plant::{Block, Plant};
use dr_volume::{Fields, Opened, open_by};

/// A track after bytes were written from an offset on.
pub(crate) fn laid(old: &Block, offset: u8, bytes: &[u8]) -> Block
    requires { offset + length bytes.now ≤ 64 }
    ensures { result ≡ laid offset bytes.now old.now }
{
    let mut track = *old;
    for (i, b) in bytes.iter().enumerate() {
        track[offset as usize + i] = *b;
    }
    track
}

/// The move by which a host write lands on a volume, which is a target or isn't.
fn landing_of(w: WriteId, target: Target, related: bool) -> Move
    ensures { move_of result ≡ landing_move related w.0 target.volume.0 target.track }
{
    let v = target.volume;
    let t = target.track;
    if related {
        return Move::Overwrite { w, v, t };
    }
    Move::Land { w, v, t }
}

/// What becomes of pending write w by the move that lands it: where it was done, the write is pending no more; where its server
/// stopped in it and it counts as done, the write has landed.
pub(crate) fn settle_write(h: &mut Host, w: WriteId, done: Result<(), Stop>) -> Result<(), Refusal>
    requires { IsSome (find (has_number w.0) h.old.pending) }
    ensures writes { h.new ≡ writes_after h.old w.0 done }
    ensures says { result ≡ refused_by done }
{
    match &done {
        Ok(()) => h.hear(&News::Settled(w)),
        Err(stop) => {
            if stop.counts {
                h.hear(&News::Landed(w));
            }
        }
    }
    refused(done)
}

/// Lands a pending write on its track of a volume that was opened and whose device can still be read.
fn land_opened<P: Plant>(
    plant: &mut P,
    config: &Config,
    host: &mut Host,
    journal: &mut Journal,
    w: WriteId,
    target: Target,
    opened: &mut Opened,
    bytes: &[u8],
) -> Result<(), Refusal>
    requires can { CanLandAlone (P.state plant.old) config.now host.old journal.old.events w.0 target bytes.now }
    requires opened { IsOpened (P.state plant.old) config.now target.volume.0 opened.old }
    requires passes { can_read (P.state plant.old) (device_of config.now target.volume.0) ≡ true }
    requires room { 1 ≤ journal.old.spare }
    ensures wrote { Wrote (P.state plant.old) (P.state plant.new) config.now host.old host.new journal.old journal.new (λ k. land_on w.0 target.volume.0 target.track ∷ []) 1 result }
    ensures refused { OnErr result (refusal_of result ≡ Some (stopped (volume_seen (P.state plant.old) config.now target.volume.0).server)) }
    ensures left { OnOk result ((volume_seen (P.state plant.new) config.now target.volume.0).fields ≡ landed_on (volume_seen (P.state plant.old) config.now target.volume.0) target.track) }
{
    let old = view_of(plant, config, opened, target.volume, target.track);
    let track = laid(&old, target.offset, bytes);
    let m = landing_of(w, target, opened.fields().related);
    let done = make_opened(
        plant,
        config,
        journal,
        &m,
        opened,
        Some((target.track, track)),
    );
    settle_write(host, w, done)
}

/// Lands a pending write on its track of a volume whose server is on and whose fields are at hand: one move, which stores the whole
/// new track. Of a target that doesn't hold the track, the bytes around those of the write are those of its source. Fails where the
/// server stops in the move or goes off at a read: then the write stays pending, and it has landed where the move counts as done. The
/// journal needs room for an event.
pub(crate) fn land_by<P: Plant>(
    plant: &mut P,
    config: &Config,
    host: &mut Host,
    journal: &mut Journal,
    w: WriteId,
    target: Target,
    fields: &Fields,
    bytes: &[u8],
) -> Result<(), Refusal>
    requires can { CanLandAlone (P.state plant.old) config.now host.old journal.old.events w.0 target bytes.now }
    requires shows { Shows (P.state plant.old) config.now target.volume.0 fields.now }
    requires room { 1 ≤ journal.old.spare }
    ensures wrote { Wrote (P.state plant.old) (P.state plant.new) config.now host.old host.new journal.old journal.new (λ k. land_on w.0 target.volume.0 target.track ∷ []) 1 result }
    ensures refused { OnErr result (refusal_of result ≡ Some (stopped (volume_seen (P.state plant.old) config.now target.volume.0).server)) }
    ensures left { OnOk result ((volume_seen (P.state plant.new) config.now target.volume.0).fields ≡ landed_on (volume_seen (P.state plant.old) config.now target.volume.0) target.track) }
{
    match open_by(plant, config, target.volume, fields) {
        Ok(mut opened) => land_opened(plant, config, host, journal, w, target, &mut opened, bytes),
        Err(_) => {
            journal.push(Event::Stopped {
                server: target.server.0,
                write: 0,
            });
            Err(Refusal::Stopped {
                server: target.server,
            })
        }
    }
}
