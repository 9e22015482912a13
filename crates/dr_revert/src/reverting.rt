//! The flash of a member's target is taken back.

ghost use Rattle.std.specs.Prelude.{◌≡◌, ℕ, ◌≤◌, ◌+◌, true, false, length, nat_eq, nat_lt, ◌&&◌, None, Some, IsSome, OnOk, OnErr, if◌then◌else◌};
ghost use Rattle.dr_logic.specs.Counts.{Counted};
ghost use Rattle.dr_config.specs.Table.{place_of};
ghost use Rattle.dr_model.specs.ReadStops.{Ends};
ghost use Rattle.dr_model.specs.Relations as relations;
ghost use Rattle.dr_model.specs.SessionEntries as entries;
ghost use Rattle.dr_volume.specs.Update.{IsMoved, OthersStay};
ghost use Rattle.dr_volume.specs.View.{Rest, volume_seen};
ghost use Rattle.dr_moves.specs.Checks.{is_stop};
ghost use Rattle.dr_moves.specs.Fit.{RelationsFit};
ghost use Rattle.dr_moves.specs.Here.{world_seen, refusal_of, armed_in, IsAtRest};
ghost use Rattle.dr_moves.specs.Turns.{Leads, Fails};
ghost use Rattle.dr_flash.specs.Views.{view_seen};
ghost use Rattle.dr_moves.specs.Aside.{AsideFits};
ghost use Rattle.dr_moves.specs.declared.carrying.Next.TheVariants.{Pass, Do};
ghost use Rattle.dr_moves.specs.declared.moves.Move.TheVariants as move;
ghost use Rattle.dr_revert.specs.Views.{previous_seen};

use crate::fields::is_flashed;
use crate::turning::turn_target;
use dr_config::Config;
use dr_gcopy::send_refusal;
use dr_ids::{Member, Refusal, SessionId};
use dr_model::Journal;
use dr_moves::{Move, Next};
use dr_plant::Plant;
use dr_volume::{Head, peek_head};

/// What becomes of a member's target whose flash is to be taken back: where it isn't flashed for the attempt, it is to be
/// flashed for none up to it any more.
fn revert_next(s: SessionId, m: &Member, n: u32, f: &Head) -> Next
    ensures { result ≡ (if f.now.revertible && nat_eq f.now.sequence n then Do (move.Revert m.now.c m.now.a s n) else if nat_lt f.now.floor n then Do (move.RaiseFloor m.now.c n) else Pass) }
{
    if is_flashed(n, f) {
        Next::Do(Move::Revert {
            v: m.c,
            a: m.a,
            s,
            n,
        })
    } else if f.floor < n {
        Next::Do(Move::RaiseFloor { v: m.c, n })
    } else {
        Next::Pass
    }
}

/// Takes the flash of attempt n of a session back on the target of a member, which is on the secondary's server: the target
/// shows what it showed before, and nothing of an attempt up to n is flashed on it any more. The journal is told of it. Where
/// it isn't flashed for the attempt, no attempt up to n is flashed on it any more, and nothing is told. Refused where there
/// is no path from the primary's logical subsystem to that of the secondary, or the secondary's server is off, or the link
/// between the servers is down, or the secondary isn't the primary's; then nothing has changed. Fails too where the server
/// stops in the move or goes off at a read. The journal needs room for two events.
pub fn revert<P: Plant>(
    plant: &mut P,
    config: &Config,
    journal: &mut Journal,
    s: SessionId,
    m: &Member,
    n: u32,
) -> Result<(), Refusal>
    requires rest { IsAtRest (P.state plant.old) config.now }
    requires fit { RelationsFit (P.state plant.old) config.now }
    requires aside { AsideFits (P.state plant.old) config.now }
    requires primary { IsSome (place_of config.now m.now.a.0) }
    requires secondary { IsSome (place_of config.now m.now.b.0) }
    requires target { IsSome (place_of config.now m.now.c.0) }
    requires together { (volume_seen (P.state plant.old) config.now m.now.c.0).server ≡ (volume_seen (P.state plant.old) config.now m.now.b.0).server }
    requires room { 2 ≤ journal.old.spare }
    ensures carried { (r : Rest) → Ends (armed_in (P.state plant.old)) (world_seen (P.state plant.new) config.now r journal.new.events) (refusal_of result) (world_seen (P.state plant.old) config.now r journal.old.events) (entries.revert_entries s.0 m.now n) }
    ensures leads { OnOk result ((r : Rest) → Leads (world_seen (P.state plant.old) config.now r journal.old.events) (entries.revert_entries s.0 m.now n) (world_seen (P.state plant.new) config.now r journal.new.events)) }
    ensures fails { OnErr result ((r : Rest) → Fails (armed_in (P.state plant.old)) (world_seen (P.state plant.old) config.now r journal.old.events) (entries.revert_entries s.0 m.now n) (world_seen (P.state plant.new) config.now r journal.new.events) (refusal_of result)) }
    ensures unchanged { is_stop (refusal_of result) ≡ false → OnErr result ((P.state plant.new ≡ P.state plant.old) × (journal.new ≡ journal.old)) }
    ensures moved { OnOk result (entries.is_flashed n (volume_seen (P.state plant.old) config.now m.now.c.0).fields ≡ true → IsMoved (P.state plant.old) (P.state plant.new) config.now m.now.c.0 (relations.reverted n (volume_seen (P.state plant.old) config.now m.now.c.0).fields) None) }
    ensures shows_aside { OnOk result (entries.is_flashed n (volume_seen (P.state plant.old) config.now m.now.c.0).fields ≡ true → (k : ℕ) → view_seen (P.state plant.new) config.now m.now.c.0 k ≡ previous_seen (P.state plant.old) config.now m.now.c.0 k) }
    ensures rest { IsAtRest (P.state plant.new) config.now }
    ensures fit { RelationsFit (P.state plant.new) config.now }
    ensures aside { AsideFits (P.state plant.new) config.now }
    ensures unarmed { (q : ℕ) → (P.state plant.old).read_fuse q ≡ None → (P.state plant.new).read_fuse q ≡ None }
    ensures faults { Counted (is_stop (refusal_of result)) (P.state plant.old).faults (P.state plant.new).faults }
    ensures others { OthersStay (P.state plant.old) (P.state plant.new) config.now m.now.c.0 }
    ensures on { OnOk result ((P.state plant.new).on ≡ (P.state plant.old).on) }
    ensures room { journal.old.spare ≤ journal.new.spare + 2 }
    ensures room_left { OnOk result (journal.old.spare ≤ journal.new.spare + 1) }
    ensures spare { length journal.new.events + journal.new.spare ≡ length journal.old.events + journal.old.spare }
{
    if let Some(why) = send_refusal(plant, config, m.a, m.b) {
        return Err(why);
    }
    let next = revert_next(s, m, n, &peek_head(plant, config, m.c));
    turn_target(plant, config, journal, m.c, &next)
}
