//! The secondary of a member is sealed.

ghost use Rattle.std.specs.Prelude.{◌≡◌, ◌↔◌, ℕ, ◌≤◌, ◌+◌, true, false, [], ◌∷◌, length, Ok, None, Some, IsSome, IfOk, OnOk, OnErr, is_err};
ghost use Rattle.dr_logic.specs.Counts.{Counted};
ghost use Rattle.dr_config.specs.Table.{place_of};
ghost use Rattle.dr_model.specs.Pairs as pairs;
ghost use Rattle.dr_model.specs.ReadStops.{Ends};
ghost use Rattle.dr_model.specs.Relations.{is_bare};
ghost use Rattle.dr_model.specs.SessionEntries.{seal_refusal, seal_on, seal_entries};
ghost use Rattle.dr_model.specs.PairEntries.{refuse_if};
ghost use Rattle.dr_laws_cuts.specs.Sent.{CutsHold, SendsTo, SealedFor};
ghost use Rattle.dr_volume.specs.Plain.{plain};
ghost use Rattle.dr_volume.specs.Update.{OthersStay};
ghost use Rattle.dr_volume.specs.View.{Rest, volume_seen};
ghost use Rattle.dr_moves.specs.Checks.{is_stop};
ghost use Rattle.dr_moves.specs.Fit.{RelationsFit};
ghost use Rattle.dr_moves.specs.Here.{world_seen, refusal_of, armed_in, IsAtRest};
ghost use Rattle.dr_moves.specs.Made.{IsAt, Kept};
ghost use Rattle.dr_moves.specs.Turns.{Leads, Fails};
ghost use Rattle.dr_moves.specs.Aside.{AsideFits};
ghost use Rattle.dr_gmirror.specs.Orders.{sync_seen};

use dr_config::Config;
use dr_coord::void_refusal;
use dr_gcopy::send_refusal;
use dr_ids::{Member, Refusal, SessionId};
use dr_model::Journal;
use dr_moves::{Move, make_move};
use dr_plant::Plant;
use dr_volume::{Fields, peek_fields, peek_head};

/// Whether nothing is left to send to a primary's secondary.
fn is_drained(f: &Fields) -> bool
    ensures { result ≡ is_bare (plain f.now).out_of_sync }
{
    f.out_of_sync.len() == 0
}

/// Seals the secondary of a member whose primary has nothing to send, unless it is sealed so already.
fn seal_drained<P: Plant>(
    plant: &mut P,
    config: &Config,
    journal: &mut Journal,
    s: SessionId,
    m: &Member,
    n: u32,
) -> Result<(), Refusal>
    requires at { IsAt (P.state plant.old) config.now }
    requires primary { IsSome (place_of config.now m.now.a.0) }
    requires secondary { IsSome (place_of config.now m.now.b.0) }
    requires drained { is_bare (volume_seen (P.state plant.old) config.now m.now.a.0).fields.out_of_sync ≡ true }
    requires room { 2 ≤ journal.old.spare }
    ensures leads { OnOk result ((r : Rest) → Leads (world_seen (P.state plant.old) config.now r journal.old.events) (refuse_if (seal_refusal m.now.a.0 m.now.b.0) ∷ seal_on s.0 m.now.a.0 m.now.b.0 n ∷ []) (world_seen (P.state plant.new) config.now r journal.new.events)) }
    ensures fails { OnErr result ((r : Rest) → Fails (armed_in (P.state plant.old)) (world_seen (P.state plant.old) config.now r journal.old.events) (refuse_if (seal_refusal m.now.a.0 m.now.b.0) ∷ seal_on s.0 m.now.a.0 m.now.b.0 n ∷ []) (world_seen (P.state plant.new) config.now r journal.new.events) (refusal_of result)) }
    ensures unchanged { is_stop (refusal_of result) ≡ false → OnErr result ((P.state plant.new ≡ P.state plant.old) × (journal.new ≡ journal.old)) }
    ensures sync { OnOk result ((q : ℕ) → sync_seen (P.state plant.new) config.now q ≡ sync_seen (P.state plant.old) config.now q) }
    ensures others { OthersStay (P.state plant.old) (P.state plant.new) config.now m.now.b.0 }
    ensures kept { Kept (P.state plant.old) (P.state plant.new) config.now journal.old journal.new 2 (is_stop (refusal_of result)) result }
    ensures room_left { OnOk result (journal.old.spare ≤ journal.new.spare + 1) }
{
    if let Some(why) = send_refusal(plant, config, m.a, m.b) {
        return Err(why);
    }
    if peek_head(plant, config, m.b).seal == n {
        return Ok(());
    }
    let seal = Move::Seal {
        v: m.b,
        u: m.a,
        s,
        n,
    };
    make_move(plant, config, journal, &seal, None)
}

/// Seals the secondary of a member for attempt n of a session, where the primary has nothing left to send to it, and tells
/// whether it had nothing left: where tracks are still out of sync nothing happens, and the seal has to wait. The journal is
/// told of it, unless the secondary is sealed so already. Refused where the primary doesn't record the attempt, or else where
/// it has nothing left to send and there is no path from its logical subsystem to that of the secondary, or the secondary's
/// server is off, or the link between their servers is down, or the secondary isn't the primary's; then nothing has changed.
/// Fails too where the secondary's server stops in the move or goes off at a read. The journal needs room for two events.
///
/// Where it is done, each track of the secondary contains what the host writes make that the primary held at its cut for
/// attempt n, which stands once in the journal. That asks of the world before, as every run shows it, that the primary sends to
/// this secondary, and that secondaries contain the cuts of their primaries as far as these were sent; however the seal ends,
/// they still do.
pub fn seal<P: Plant>(
    plant: &mut P,
    config: &Config,
    journal: &mut Journal,
    s: SessionId,
    m: &Member,
    n: u32,
) -> Result<bool, Refusal>
    requires rest { IsAtRest (P.state plant.old) config.now }
    requires fit { RelationsFit (P.state plant.old) config.now }
    requires primary { IsSome (place_of config.now m.now.a.0) }
    requires secondary { IsSome (place_of config.now m.now.b.0) }
    requires room { 2 ≤ journal.old.spare }
    ensures carried { (r : Rest) → Ends (armed_in (P.state plant.old)) (world_seen (P.state plant.new) config.now r journal.new.events) (refusal_of result) (world_seen (P.state plant.old) config.now r journal.old.events) (seal_entries s.0 m.now.a.0 m.now.b.0 n) }
    ensures leads { OnOk result ((r : Rest) → Leads (world_seen (P.state plant.old) config.now r journal.old.events) (seal_entries s.0 m.now.a.0 m.now.b.0 n) (world_seen (P.state plant.new) config.now r journal.new.events)) }
    ensures fails { OnErr result ((r : Rest) → Fails (armed_in (P.state plant.old)) (world_seen (P.state plant.old) config.now r journal.old.events) (seal_entries s.0 m.now.a.0 m.now.b.0 n) (world_seen (P.state plant.new) config.now r journal.new.events) (refusal_of result)) }
    ensures holds_cut { IfOk result (λ done. done ≡ true → (r : Rest) → CutsHold (world_seen (P.state plant.old) config.now r journal.old.events) → SendsTo (world_seen (P.state plant.old) config.now r journal.old.events) m.now.a.0 m.now.b.0
        → SealedFor (world_seen (P.state plant.new) config.now r journal.new.events) m.now.b.0 m.now.a.0 n) }
    ensures cuts { (r : Rest) → CutsHold (world_seen (P.state plant.old) config.now r journal.old.events) → SendsTo (world_seen (P.state plant.old) config.now r journal.old.events) m.now.a.0 m.now.b.0 → CutsHold (world_seen (P.state plant.new) config.now r journal.new.events) }
    ensures waits { (result ≡ Ok false) ↔ ((pairs.records n (volume_seen (P.state plant.old) config.now m.now.a.0).fields ≡ true) × (is_bare (volume_seen (P.state plant.old) config.now m.now.a.0).fields.out_of_sync ≡ false)) }
    ensures drained { IfOk result (λ done. done ≡ is_bare (volume_seen (P.state plant.old) config.now m.now.a.0).fields.out_of_sync) }
    ensures unchanged { is_stop (refusal_of result) ≡ false → OnErr result ((P.state plant.new ≡ P.state plant.old) × (journal.new ≡ journal.old)) }
    ensures rest { IsAtRest (P.state plant.new) config.now }
    ensures fit { RelationsFit (P.state plant.new) config.now }
    ensures aside { AsideFits (P.state plant.old) config.now → AsideFits (P.state plant.new) config.now }
    ensures unarmed { (q : ℕ) → (P.state plant.old).read_fuse q ≡ None → (P.state plant.new).read_fuse q ≡ None }
    ensures faults { Counted (is_stop (refusal_of result)) (P.state plant.old).faults (P.state plant.new).faults }
    ensures kept { OnOk result ((q : ℕ) → sync_seen (P.state plant.new) config.now q ≡ sync_seen (P.state plant.old) config.now q) }
    ensures others { OthersStay (P.state plant.old) (P.state plant.new) config.now m.now.b.0 }
    ensures on { OnOk result ((P.state plant.new).on ≡ (P.state plant.old).on) }
    ensures room { journal.old.spare ≤ journal.new.spare + 2 }
    ensures room_left { OnOk result (journal.old.spare ≤ journal.new.spare + 1) }
    ensures spare { length journal.new.events + journal.new.spare ≡ length journal.old.events + journal.old.spare }
{
    if let Some(why) = void_refusal(plant, config, m.a, n) {
        return Err(why);
    }
    if !is_drained(&peek_fields(plant, config, m.a)) {
        return Ok(false);
    }
    match seal_drained(plant, config, journal, s, m, n) {
        Ok(()) => Ok(true),
        Err(why) => Err(why),
    }
}
