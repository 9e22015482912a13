//! The target of a member is flashed.

ghost use Rattle.std.specs.Prelude.{◌≡◌, ℕ, ◌≤◌, ◌+◌, false, length, None, Some, IsSome, OnOk, OnErr, if◌then◌else◌, ◌&&◌, nat_eq};
ghost use Rattle.dr_logic.specs.Counts.{Counted};
ghost use Rattle.dr_config.specs.Table.{place_of};
ghost use Rattle.dr_model.specs.ReadStops.{Ends};
ghost use Rattle.dr_model.specs.Relations as relations;
ghost use Rattle.dr_model.specs.SessionEntries as entries;
ghost use Rattle.dr_volume.specs.Update.{IsMoved, OthersStay};
ghost use Rattle.dr_volume.specs.View.{Rest, volume_seen, track_seen};
ghost use Rattle.dr_moves.specs.Checks.{is_stop};
ghost use Rattle.dr_moves.specs.Fit.{RelationsFit};
ghost use Rattle.dr_moves.specs.Here.{world_seen, refusal_of, armed_in, IsAtRest};
ghost use Rattle.dr_moves.specs.Turns.{Leads, Fails};
ghost use Rattle.dr_flash.specs.Views.{view_seen};
ghost use Rattle.dr_incr.specs.Copies.{HoldsUnchanged};
ghost use Rattle.dr_moves.specs.Aside.{AsideFits};
ghost use Rattle.dr_moves.specs.declared.carrying.Next.TheVariants.{Pass, Do};
ghost use Rattle.dr_moves.specs.declared.moves.Move.TheVariants as move;
ghost use Rattle.dr_revert.specs.Views.{previous_seen};

use crate::checks::flash_refusal;
use crate::fields::is_flashed;
use crate::turning::turn_target;
use dr_config::Config;
use dr_gcopy::send_refusal;
use dr_ids::{Member, Refusal, SessionId};
use dr_model::Journal;
use dr_moves::{Move, Next};
use dr_plant::Plant;
use dr_volume::{Head, peek_head};

/// What becomes of a member's target that is to be flashed: nothing, where it is flashed for the attempt.
fn flash_next(s: SessionId, m: &Member, n: u32, f: &Head) -> Next
    ensures { result ≡ (if f.now.revertible && nat_eq f.now.sequence n then Pass else Do (move.Flash m.now.c m.now.b m.now.a s n)) }
{
    if is_flashed(n, f) {
        return Next::Pass;
    }
    Next::Do(Move::Flash {
        v: m.c,
        u: m.b,
        a: m.a,
        s,
        n,
    })
}

/// Flashes the target of a member, which is on the secondary's server, from the secondary for attempt n of a session: then each
/// track of the target reads as the secondary's, where what the target held unchanged was the same, and what it showed is
/// kept aside until the flash is committed or reverted. The journal is told of it. Where the target is flashed for the attempt,
/// nothing happens. Refused where there is no path from the primary's logical subsystem to that of the secondary, or the
/// secondary's server is off, or the link between the servers is down, or the secondary isn't the primary's; or else where the
/// target is none of the secondary whose changes are recorded and on which the host may not write, or is restored or revertible
/// from another attempt; or else where it has gone on past the attempt; or else where the secondary isn't sealed for it; then
/// nothing has changed. Fails too where the server stops in the move or goes off at a read. The journal needs room for two
/// events.
pub fn flash<P: Plant>(
    plant: &mut P,
    config: &Config,
    journal: &mut Journal,
    s: SessionId,
    m: &Member,
    n: u32,
) -> Result<(), Refusal>
    requires rest { IsAtRest (P.state plant.old) config.now }
    requires fit { RelationsFit (P.state plant.old) config.now }
    requires aside { AsideFits (P.state plant.old) config.now }
    requires primary { IsSome (place_of config.now m.now.a.0) }
    requires secondary { IsSome (place_of config.now m.now.b.0) }
    requires target { IsSome (place_of config.now m.now.c.0) }
    requires together { (volume_seen (P.state plant.old) config.now m.now.c.0).server ≡ (volume_seen (P.state plant.old) config.now m.now.b.0).server }
    requires room { 2 ≤ journal.old.spare }
    ensures carried { (r : Rest) → Ends (armed_in (P.state plant.old)) (world_seen (P.state plant.new) config.now r journal.new.events) (refusal_of result) (world_seen (P.state plant.old) config.now r journal.old.events) (entries.flash_entries s.0 m.now n) }
    ensures leads { OnOk result ((r : Rest) → Leads (world_seen (P.state plant.old) config.now r journal.old.events) (entries.flash_entries s.0 m.now n) (world_seen (P.state plant.new) config.now r journal.new.events)) }
    ensures fails { OnErr result ((r : Rest) → Fails (armed_in (P.state plant.old)) (world_seen (P.state plant.old) config.now r journal.old.events) (entries.flash_entries s.0 m.now n) (world_seen (P.state plant.new) config.now r journal.new.events) (refusal_of result)) }
    ensures unchanged { is_stop (refusal_of result) ≡ false → OnErr result ((P.state plant.new ≡ P.state plant.old) × (journal.new ≡ journal.old)) }
    ensures moved { OnOk result (entries.is_flashed n (volume_seen (P.state plant.old) config.now m.now.c.0).fields ≡ false → IsMoved (P.state plant.old) (P.state plant.new) config.now m.now.c.0 (relations.flashed s.0 n (volume_seen (P.state plant.old) config.now m.now.c.0).fields) None) }
    ensures shows_source { OnOk result (entries.is_flashed n (volume_seen (P.state plant.old) config.now m.now.c.0).fields ≡ false → HoldsUnchanged (P.state plant.old) config.now m.now.c.0 → (k : ℕ) → view_seen (P.state plant.new) config.now m.now.c.0 k ≡ track_seen (P.state plant.new) config.now m.now.b.0 k) }
    ensures keeps_aside { OnOk result (entries.is_flashed n (volume_seen (P.state plant.old) config.now m.now.c.0).fields ≡ false → (k : ℕ) → previous_seen (P.state plant.new) config.now m.now.c.0 k ≡ view_seen (P.state plant.old) config.now m.now.c.0 k) }
    ensures rest { IsAtRest (P.state plant.new) config.now }
    ensures fit { RelationsFit (P.state plant.new) config.now }
    ensures aside { AsideFits (P.state plant.new) config.now }
    ensures unarmed { (q : ℕ) → (P.state plant.old).read_fuse q ≡ None → (P.state plant.new).read_fuse q ≡ None }
    ensures faults { Counted (is_stop (refusal_of result)) (P.state plant.old).faults (P.state plant.new).faults }
    ensures others { OthersStay (P.state plant.old) (P.state plant.new) config.now m.now.c.0 }
    ensures on { OnOk result ((P.state plant.new).on ≡ (P.state plant.old).on) }
    ensures room { journal.old.spare ≤ journal.new.spare + 2 }
    ensures room_left { OnOk result (journal.old.spare ≤ journal.new.spare + 1) }
    ensures spare { length journal.new.events + journal.new.spare ≡ length journal.old.events + journal.old.spare }
{
    if let Some(why) = send_refusal(plant, config, m.a, m.b) {
        return Err(why);
    }
    let head = peek_head(plant, config, m.c);
    if let Some(why) = flash_refusal(plant, config, m.b, m.c, n, &head) {
        return Err(why);
    }
    let next = flash_next(s, m, n, &head);
    turn_target(plant, config, journal, m.c, &next)
}
