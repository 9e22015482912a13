//! Moves that what lies beside hears of: one that may land a host write, and the first hold of an attempt.

ghost use Rattle.std.specs.Prelude.{◌≡◌, ◌≤◌, ◌+◌, true, length, Option, None, Some, OnOk, OnErr, is_err};
ghost use Rattle.dr_model.specs.Carry as plan;
ghost use Rattle.dr_model.specs.Carry.{Entry};
ghost use Rattle.dr_model.specs.Histories.{histories};
ghost use Rattle.dr_model.specs.Moves as machine;
ghost use Rattle.dr_volume.specs.View.{Rest, volume_seen, track_seen};
ghost use Rattle.dr_moves.specs.Beside.{heard, Takes};
ghost use Rattle.dr_moves.specs.Heard.{landed_by, settled_by, marked_by, if_counts, heard_of, refused_by};
ghost use Rattle.dr_moves.specs.Here.{world_seen, armed_in, refusal_of};
ghost use Rattle.dr_moves.specs.Made.{IsAt, May, room_for, Made, Kept};
ghost use Rattle.dr_moves.specs.Moves.{move_of};
ghost use Rattle.dr_moves.specs.Turns.{Advances, Halts};
ghost use Rattle.dr_moves.specs.declared.beside.News.TheVariants.{Begun};

use crate::acts::{Stop, make};
use crate::beside::{Beside, News, hear};
use crate::moves::Move;
use dr_config::Config;
use dr_ids::{SessionId, VolumeId, WriteId};
use dr_model::Journal;
use dr_plant::{Block, Plant};

/// The host write that a move lands, if it lands one.
fn landed_by(m: &Move) -> Option<WriteId>
    ensures { result ≡ landed_by m.now }
{
    match m {
        Move::Land { w, .. } => Some(*w),
        Move::Overwrite { w, .. } => Some(*w),
        Move::LandBoth { w, .. } => Some(*w),
        _ => None,
    }
}

/// What is heard of a move that is done.
fn settled_by(m: &Move) -> Option<News>
    ensures { result ≡ settled_by m.now }
{
    match landed_by(m) {
        Some(w) => Some(News::Settled(w)),
        None => None,
    }
}

/// And of one that counts as done in a stop.
fn marked_by(m: &Move) -> Option<News>
    ensures { result ≡ marked_by m.now }
{
    match landed_by(m) {
        Some(w) => Some(News::Landed(w)),
        None => None,
    }
}

/// News, where the move counts.
fn if_counts(counts: bool, news: Option<News>) -> Option<News>
    ensures { result ≡ if_counts counts news }
{
    if counts { news } else { None }
}

/// Makes a move, and what lies beside hears of it, also where it counts as done in a stop.
fn make_heard<P: Plant, B: Beside>(
    plant: &mut P,
    config: &Config,
    journal: &mut Journal,
    beside: &mut B,
    m: &Move,
    track: Option<(u16, Block)>,
    done: Option<News>,
    in_stop: Option<News>,
) -> Result<(), Stop>
    requires at { IsAt (P.state plant.old) config.now }
    requires may { May (P.state plant.old) config.now (move_of m.now) }
    requires carries { machine.carried (move_of m.now) (volume_seen (P.state plant.old) config.now) (track_seen (P.state plant.old) config.now) (histories journal.old.events).write ≡ track }
    requires room { room_for (move_of m.now) (volume_seen (P.state plant.old) config.now (machine.target (move_of m.now))) ≤ journal.old.spare }
    requires done { Takes (B.takes beside.old) done }
    requires in_stop { Takes (B.takes beside.old) in_stop }
    ensures made { Made (P.state plant.old) (P.state plant.new) config.now journal.old journal.new (move_of m.now) (machine.target (move_of m.now)) track result }
    ensures kept { Kept (P.state plant.old) (P.state plant.new) config.now journal.old journal.new (room_for (move_of m.now) (volume_seen (P.state plant.old) config.now (machine.target (move_of m.now)))) (is_err result) result }
    ensures room_left { OnOk result (journal.old.spare ≡ journal.new.spare + length (machine.told (move_of m.now) (volume_seen (P.state plant.old) config.now (machine.target (move_of m.now))))) }
    ensures heard { beside.new ≡ heard B.after (heard_of done in_stop result) beside.old }
{
    match make(plant, config, journal, m, track) {
        Ok(()) => {
            hear(beside, done);
            Ok(())
        }
        Err(stop) => {
            hear(beside, if_counts(stop.counts, in_stop));
            Err(stop)
        }
    }
}

/// Makes a move that may land a host write, as `make` does: what lies beside hears that the write is pending no more, or where the
/// move counts as done in a stop, that it has landed. The journal needs the same room.
pub(crate) fn make_beside<P: Plant, B: Beside>(
    plant: &mut P,
    config: &Config,
    journal: &mut Journal,
    beside: &mut B,
    m: &Move,
    track: Option<(u16, Block)>,
) -> Result<(), Stop>
    requires at { IsAt (P.state plant.old) config.now }
    requires may { May (P.state plant.old) config.now (move_of m.now) }
    requires carries { machine.carried (move_of m.now) (volume_seen (P.state plant.old) config.now) (track_seen (P.state plant.old) config.now) (histories journal.old.events).write ≡ track }
    requires room { room_for (move_of m.now) (volume_seen (P.state plant.old) config.now (machine.target (move_of m.now))) ≤ journal.old.spare }
    requires done { Takes (B.takes beside.old) (settled_by m.now) }
    requires in_stop { Takes (B.takes beside.old) (marked_by m.now) }
    ensures advances { OnOk result ((r : Rest) (d : Entry) → d (world_seen (P.state plant.old) config.now (B.rest beside.old r) journal.old.events).control ≡ plan.Do (plan.Make (move_of m.now)) → Advances (world_seen (P.state plant.old) config.now (B.rest beside.old r) journal.old.events) d (world_seen (P.state plant.new) config.now (B.rest beside.new r) journal.new.events)) }
    ensures halts { OnErr result ((r : Rest) (d : Entry) → d (world_seen (P.state plant.old) config.now (B.rest beside.old r) journal.old.events).control ≡ plan.Do (plan.Make (move_of m.now)) → Halts (armed_in (P.state plant.old)) (world_seen (P.state plant.old) config.now (B.rest beside.old r) journal.old.events) d (world_seen (P.state plant.new) config.now (B.rest beside.new r) journal.new.events) (refusal_of (refused_by result))) }
    ensures made { Made (P.state plant.old) (P.state plant.new) config.now journal.old journal.new (move_of m.now) (machine.target (move_of m.now)) track result }
    ensures kept { Kept (P.state plant.old) (P.state plant.new) config.now journal.old journal.new (room_for (move_of m.now) (volume_seen (P.state plant.old) config.now (machine.target (move_of m.now)))) (is_err result) result }
    ensures room_left { OnOk result (journal.old.spare ≡ journal.new.spare + length (machine.told (move_of m.now) (volume_seen (P.state plant.old) config.now (machine.target (move_of m.now))))) }
    ensures heard { beside.new ≡ heard B.after (heard_of (settled_by m.now) (marked_by m.now) result) beside.old }
{
    make_heard(
        plant,
        config,
        journal,
        beside,
        m,
        track,
        settled_by(m),
        marked_by(m),
    )
}

/// Opens attempt n of session s with the first hold, that of primary v: what lies beside hears that the attempt has begun where the
/// hold is done, or counts as done in a stop. Fails where `make` fails. The journal needs room for three events.
pub fn open_attempt<P: Plant, B: Beside>(
    plant: &mut P,
    config: &Config,
    journal: &mut Journal,
    beside: &mut B,
    v: VolumeId,
    s: SessionId,
    n: u32,
) -> Result<(), Stop>
    requires at { IsAt (P.state plant.old) config.now }
    requires may { May (P.state plant.old) config.now (machine.Hold v.0 s.0 n true) }
    requires room { 3 ≤ journal.old.spare }
    requires takes { B.takes beside.old (Begun s) }
    ensures advances { OnOk result ((r : Rest) (d : Entry) → d (world_seen (P.state plant.old) config.now (B.rest beside.old r) journal.old.events).control ≡ plan.Do (plan.OpenAttempt v.0 s.0 n) → Advances (world_seen (P.state plant.old) config.now (B.rest beside.old r) journal.old.events) d (world_seen (P.state plant.new) config.now (B.rest beside.new r) journal.new.events)) }
    ensures halts { OnErr result ((r : Rest) (d : Entry) → d (world_seen (P.state plant.old) config.now (B.rest beside.old r) journal.old.events).control ≡ plan.Do (plan.OpenAttempt v.0 s.0 n) → Halts (armed_in (P.state plant.old)) (world_seen (P.state plant.old) config.now (B.rest beside.old r) journal.old.events) d (world_seen (P.state plant.new) config.now (B.rest beside.new r) journal.new.events) (refusal_of (refused_by result))) }
    ensures made { Made (P.state plant.old) (P.state plant.new) config.now journal.old journal.new (machine.Hold v.0 s.0 n true) v.0 None result }
    ensures kept { Kept (P.state plant.old) (P.state plant.new) config.now journal.old journal.new 3 (is_err result) result }
    ensures room_left { OnOk result (journal.old.spare ≡ journal.new.spare + 2) }
    ensures heard { beside.new ≡ heard B.after (heard_of (Some (Begun s)) (Some (Begun s)) result) beside.old }
{
    let hold = Move::Hold {
        v,
        s,
        n,
        first: true,
    };
    let begun = Some(News::Begun(s));
    make_heard(plant, config, journal, beside, &hold, None, begun, begun)
}
