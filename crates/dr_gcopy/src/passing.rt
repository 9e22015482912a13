//! A track of a primary goes to its secondary: its targets keep theirs first, it stores the track, and the primary
//! strikes it off.

ghost use Rattle.std.specs.Prelude.{◌≡◌, ◌≢◌, ℕ, ◌<◌, ◌≤◌, ◌+◌, true, false, [], ◌∷◌, length, None, IsSome, OnOk, OnErr, is_err};
ghost use Rattle.dr_logic.specs.Counts.{Counted};
ghost use Rattle.dr_config.specs.Table.{place_of};
ghost use Rattle.dr_model.specs.Entries as entries;
ghost use Rattle.dr_model.specs.Entries.{copies_from};
ghost use Rattle.dr_model.specs.Layout.{is_part};
ghost use Rattle.dr_model.specs.Moves.{Strike};
ghost use Rattle.dr_model.specs.PairEntries.{strike_on};
ghost use Rattle.dr_model.specs.Pairs as pairs;
ghost use Rattle.dr_volume.specs.Update.{IsAsBefore, IsMoved};
ghost use Rattle.dr_volume.specs.View.{Rest, volume_seen, ids_of};
ghost use Rattle.dr_volume.specs.Volume.{Says};
ghost use Rattle.dr_moves.specs.Checks.{is_stop};
ghost use Rattle.dr_moves.specs.Fit.{RelationsFit};
ghost use Rattle.dr_moves.specs.Here.{world_seen, refusal_of, armed_in, IsAtRest};
ghost use Rattle.dr_moves.specs.Made.{IsAt, May};
ghost use Rattle.dr_moves.specs.Turns.{Leads, Fails};
ghost use Rattle.dr_gcopy.specs.Ran.{CanPass, Ran};
ghost use Rattle.dr_gcopy.specs.Sending.{exchange_entries, pass_entries};

use crate::parts::is_last;
use crate::storing::store;
use dr_config::Config;
use dr_flash::copy_first;
use dr_ids::{Refusal, VolumeId};
use dr_model::Journal;
use dr_moves::{Move, make_move_by, read_told};
use dr_plant::{Block, Plant};
use dr_volume::{Fields, peek_fields};

/// Primary a strikes off track t, which its secondary has stored, by its fields, which are at hand: of its record the gate alone
/// is read.
fn strike_by<P: Plant>(
    plant: &mut P,
    config: &Config,
    journal: &mut Journal,
    a: VolumeId,
    t: u16,
    last: bool,
    fields: &Fields,
) -> Result<(), Refusal>
    requires at { IsAt (P.state plant.old) config.now }
    requires may { May (P.state plant.old) config.now (Strike a.0 t last) }
    requires says { Says (P.state plant.old) config.now a.0 fields.now }
    requires last { last ≡ pairs.is_last (volume_seen (P.state plant.old) config.now a.0).fields t }
    requires room { 1 ≤ journal.old.spare }
    ensures ran { Ran (P.state plant.old) (P.state plant.new) config.now journal.old journal.new (strike_on a.0 t ∷ []) (λ q. q ≢ a.0) 1 0 result }
    ensures stops { OnErr result (is_stop (refusal_of result) ≡ true) }
    ensures moved { OnOk result (IsMoved (P.state plant.old) (P.state plant.new) config.now a.0 (pairs.struck last (volume_seen (P.state plant.old) config.now a.0).fields t) None) }
{
    let strike = Move::Strike { v: a, t, last };
    let mut next = *fields;
    make_move_by(plant, config, journal, &strike, &mut next, None)
}

/// Secondary b stores these bytes of track t of its primary a, which then strikes the track off.
fn pass_track<P: Plant>(
    plant: &mut P,
    config: &Config,
    journal: &mut Journal,
    a: VolumeId,
    b: VolumeId,
    t: u16,
    bytes: &Block,
    last: bool,
    fields: &Fields,
) -> Result<(), Refusal>
    requires at { IsAt (P.state plant.old) config.now }
    requires can { CanPass (P.state plant.old) config.now a.0 b.0 t fields.now bytes.now last }
    requires room { 2 ≤ journal.old.spare }
    ensures ran { Ran (P.state plant.old) (P.state plant.new) config.now journal.old journal.new (exchange_entries a.0 b.0 t) (λ q. (q ≢ a.0) × (q ≢ b.0)) 2 1 result }
    ensures stops { OnErr result (is_stop (refusal_of result) ≡ true) }
    ensures struck { OnOk result ((volume_seen (P.state plant.new) config.now a.0).fields ≡ pairs.struck (pairs.is_last (volume_seen (P.state plant.old) config.now a.0).fields t) (volume_seen (P.state plant.old) config.now a.0).fields t) }
    ensures stored { OnOk result ((volume_seen (P.state plant.new) config.now b.0).fields ≡ pairs.received (pairs.is_last (volume_seen (P.state plant.old) config.now a.0).fields t) (volume_seen (P.state plant.old) config.now b.0).fields t) }
{
    store(plant, config, journal, b, t, a, last, bytes)?;
    strike_by(plant, config, journal, a, t, last, fields)
}

/// The targets of b, whose server is on, keep track t.
fn keep_first<P: Plant>(
    plant: &mut P,
    config: &Config,
    journal: &mut Journal,
    b: VolumeId,
    t: u16,
) -> Result<(), Refusal>
    requires at { IsAt (P.state plant.old) config.now }
    requires defined { IsSome (place_of config.now b.0) }
    requires running { (P.state plant.old).on (volume_seen (P.state plant.old) config.now b.0).server ≡ true }
    requires within { t < (volume_seen (P.state plant.old) config.now b.0).tracks }
    requires room { length config.now.volumes + 1 ≤ journal.old.spare }
    ensures ran { Ran (P.state plant.old) (P.state plant.new) config.now journal.old journal.new (entries.copy_first (ids_of config.now.volumes) b.0 t) (λ q. copies_from b.0 (volume_seen (P.state plant.old) config.now q).fields ≡ false) (length config.now.volumes + 1) (length config.now.volumes) result }
    ensures stops { OnErr result (is_stop (refusal_of result) ≡ true) }
{
    copy_first(plant, config, journal, b, t)
}

/// The targets of b keep track t, b stores these bytes of it, and a strikes it off.
fn hand_over<P: Plant>(
    plant: &mut P,
    config: &Config,
    journal: &mut Journal,
    a: VolumeId,
    b: VolumeId,
    t: u16,
    bytes: &Block,
    last: bool,
    fields: &Fields,
) -> Result<(), Refusal>
    requires at { IsAt (P.state plant.old) config.now }
    requires can { CanPass (P.state plant.old) config.now a.0 b.0 t fields.now bytes.now last }
    requires room { length config.now.volumes + 2 ≤ journal.old.spare }
    ensures ran { Ran (P.state plant.old) (P.state plant.new) config.now journal.old journal.new (pass_entries (ids_of config.now.volumes) a.0 b.0 t) (λ q. (q ≢ a.0) × ((q ≢ b.0) × (copies_from b.0 (volume_seen (P.state plant.old) config.now q).fields ≡ false))) (length config.now.volumes + 2) (length config.now.volumes + 1) result }
    ensures stops { OnErr result (is_stop (refusal_of result) ≡ true) }
    ensures struck { OnOk result ((volume_seen (P.state plant.new) config.now a.0).fields ≡ pairs.struck (pairs.is_last (volume_seen (P.state plant.old) config.now a.0).fields t) (volume_seen (P.state plant.old) config.now a.0).fields t) }
    ensures stored { OnOk result ((volume_seen (P.state plant.new) config.now b.0).fields ≡ pairs.received (pairs.is_last (volume_seen (P.state plant.old) config.now a.0).fields t) (volume_seen (P.state plant.old) config.now b.0).fields t) }
{
    keep_first(plant, config, journal, b, t)?;
    pass_track(plant, config, journal, a, b, t, bytes, last, fields)
}

/// Primary a sends track t to its secondary b, where both servers are on: the track is read, the targets of b keep theirs
/// first, b stores it, and a strikes it off. Fails where a server stops in a move or goes off at a read; what was done by
/// then stays. The journal needs room for an event for each volume and two more.
pub fn pass_on<P: Plant>(
    plant: &mut P,
    config: &Config,
    journal: &mut Journal,
    a: VolumeId,
    b: VolumeId,
    t: u16,
) -> Result<(), Refusal>
    requires rest { IsAtRest (P.state plant.old) config.now }
    requires fit { RelationsFit (P.state plant.old) config.now }
    requires from { IsSome (place_of config.now a.0) }
    requires to { IsSome (place_of config.now b.0) }
    requires running { (P.state plant.old).on (volume_seen (P.state plant.old) config.now a.0).server ≡ true }
    requires reached { (P.state plant.old).on (volume_seen (P.state plant.old) config.now b.0).server ≡ true }
    requires primary { is_part (volume_seen (P.state plant.old) config.now a.0).fields.primary ≡ true }
    requires secondary { is_part (volume_seen (P.state plant.old) config.now b.0).fields.secondary ≡ true }
    requires two_servers { (volume_seen (P.state plant.old) config.now a.0).server ≢ (volume_seen (P.state plant.old) config.now b.0).server }
    requires within { t < (volume_seen (P.state plant.old) config.now a.0).tracks }
    requires size { (volume_seen (P.state plant.old) config.now b.0).tracks ≡ (volume_seen (P.state plant.old) config.now a.0).tracks }
    requires room { length config.now.volumes + 2 ≤ journal.old.spare }
    ensures leads { OnOk result ((r : Rest) → Leads (world_seen (P.state plant.old) config.now r journal.old.events) (pass_entries (ids_of config.now.volumes) a.0 b.0 t) (world_seen (P.state plant.new) config.now r journal.new.events)) }
    ensures fails { OnErr result ((r : Rest) → Fails (armed_in (P.state plant.old)) (world_seen (P.state plant.old) config.now r journal.old.events) (pass_entries (ids_of config.now.volumes) a.0 b.0 t) (world_seen (P.state plant.new) config.now r journal.new.events) (refusal_of result)) }
    ensures struck { OnOk result ((volume_seen (P.state plant.new) config.now a.0).fields ≡ pairs.struck (pairs.is_last (volume_seen (P.state plant.old) config.now a.0).fields t) (volume_seen (P.state plant.old) config.now a.0).fields t) }
    ensures stored { OnOk result ((volume_seen (P.state plant.new) config.now b.0).fields ≡ pairs.received (pairs.is_last (volume_seen (P.state plant.old) config.now a.0).fields t) (volume_seen (P.state plant.old) config.now b.0).fields t) }
    ensures stops { OnErr result (is_stop (refusal_of result) ≡ true) }
    ensures rest { IsAtRest (P.state plant.new) config.now }
    ensures fit { RelationsFit (P.state plant.new) config.now }
    ensures unarmed { (q : ℕ) → (P.state plant.old).read_fuse q ≡ None → (P.state plant.new).read_fuse q ≡ None }
    ensures faults { Counted (is_err result) (P.state plant.old).faults (P.state plant.new).faults }
    ensures others { (q : ℕ) → q ≢ a.0 → q ≢ b.0 → copies_from b.0 (volume_seen (P.state plant.old) config.now q).fields ≡ false → IsAsBefore (P.state plant.old) (P.state plant.new) config.now q }
    ensures on { OnOk result ((P.state plant.new).on ≡ (P.state plant.old).on) }
    ensures room { journal.old.spare ≤ journal.new.spare + (length config.now.volumes + 2) }
    ensures room_left { OnOk result (journal.old.spare ≤ journal.new.spare + (length config.now.volumes + 1)) }
    ensures spare { length journal.new.events + journal.new.spare ≡ length journal.old.events + journal.old.spare }
{
    let fields = peek_fields(plant, config, a);
    let last = is_last(&fields, t);
    let mut bytes = [0; 64];
    read_told(plant, config, journal, a, t, &mut bytes)?;
    hand_over(plant, config, journal, a, b, t, &bytes, last, &fields)
}
