//! In which relationships a volume stands.

ghost use Rattle.std.specs.Prelude.{◌≡◌, ◌+◌, ◌<◌, not, ◌&&◌, ◌||◌, false, Some, List, length, IsSome, IfOk, if◌then◌else◌};
ghost use Rattle.dr_config.specs.Table.{StandsFor, place_of};
ghost use Rattle.dr_model.specs.Entries as entries;
ghost use Rattle.dr_model.specs.Entries.{is_revertible, is_reversing};
ghost use Rattle.dr_model.specs.declared.event.Event.{Event};
ghost use Rattle.dr_volume.specs.Head.{head_of};
ghost use Rattle.dr_volume.specs.View.{Rest, volume_seen};
ghost use Rattle.dr_moves.specs.Checks.{is_stop};
ghost use Rattle.dr_flash.specs.Heads.{copies_by, relation_at};
ghost use Rattle.dr_moves.specs.Here.{world_seen, refusal_of};
ghost use Rattle.dr_flash.specs.Standing.{targets_in, any_of, relation_of, counted_by, HasNoTarget};
ghost use Rattle.dr_flash.specs.HostWrites.{write_refusal};

use dr_config::Config;
use dr_ids::{Refusal, RelSeen, SessionId, VolumeId};
use dr_plant::Plant;
use dr_volume::{Head, Relation, is_target_at, peek_head, peek_relation_at};

/// The targets of a volume: how many there are, and whether one of them is revertible or reversing.
#[derive(Clone, Copy)]
pub(crate) struct Targets {
    pub(crate) count: usize,
    revertible: bool,
    reversing: bool,
}

/// With one volume more, which counts where it is a target of v.
fn one_more(so_far: Targets, v: VolumeId, f: &Relation) -> Targets
    requires { so_far.count < 64 }
    ensures count { result.count ≡ so_far.count + (if copies_by v.0 f.now then 1 else 0) }
    ensures revertible { result.revertible ≡ (so_far.revertible || (copies_by v.0 f.now && f.now.revertible)) }
    ensures reversing { result.reversing ≡ (so_far.reversing || (copies_by v.0 f.now && f.now.reversing)) }
{
    if f.related && f.source.0 == v.0 {
        Targets {
            count: so_far.count + 1,
            revertible: so_far.revertible || f.revertible,
            reversing: so_far.reversing || f.reversing,
        }
    } else {
        so_far
    }
}

/// With the volume more that was defined after so many others. If it is no target of v, no more of it is looked at.
#[inline]
fn with_place<P: Plant>(
    plant: &P,
    config: &Config,
    place: usize,
    v: VolumeId,
    so_far: Targets,
) -> Targets
    requires few { so_far.count < 64 }
    requires there { place < length config.now.volumes }
    requires stands { StandsFor config.now (P.state plant.now) }
    ensures count { result.count ≡ so_far.count + (if copies_by v.0 (relation_at (P.state plant.now) config.now place) then 1 else 0) }
    ensures revertible { result.revertible ≡ (so_far.revertible || (copies_by v.0 (relation_at (P.state plant.now) config.now place) && (relation_at (P.state plant.now) config.now place).revertible)) }
    ensures reversing { result.reversing ≡ (so_far.reversing || (copies_by v.0 (relation_at (P.state plant.now) config.now place) && (relation_at (P.state plant.now) config.now place).reversing)) }
{
    if !is_target_at(plant, config, place, v) {
        return so_far;
    }
    one_more(so_far, v, &peek_relation_at(plant, config, place))
}

/// The targets of v, looked at whether or not its server is on, by what the heads of all volumes say.
pub(crate) fn look_at_targets<P: Plant>(plant: &P, config: &Config, v: VolumeId) -> Targets
    requires stands { StandsFor config.now (P.state plant.now) }
    ensures count { result.count ≡ length (targets_in (P.state plant.now) config.now v.0) }
    ensures revertible { result.revertible ≡ any_of is_revertible (P.state plant.now) config.now v.0 }
    ensures reversing { result.reversing ≡ any_of is_reversing (P.state plant.now) config.now v.0 }
{
    let mut all = Targets {
        count: 0,
        revertible: false,
        reversing: false,
    };
    for place in 0..config.volumes() {
        all = with_place(plant, config, place, v, all);
    }
    all
}

/// How a volume with this head and these targets is seen.
fn relation_by(f: &Head, all: Targets) -> RelSeen
    ensures { result ≡ relation_of f.now all }
{
    if (f.related && f.revertible) || all.revertible {
        RelSeen::Revertible
    } else if (f.related && f.reversing) || all.reversing {
        RelSeen::Reversing
    } else if f.related {
        RelSeen::Target
    } else if all.count > 0 {
        RelSeen::Source
    } else {
        RelSeen::None
    }
}

/// The refusal that says in which relationships a volume stands.
pub fn relation_state<P: Plant>(plant: &P, config: &Config, v: VolumeId) -> Refusal
    requires stands { StandsFor config.now (P.state plant.now) }
    requires defined { IsSome (place_of config.now v.0) }
    ensures refusal { (r : Rest) (events : List Event) → result ≡ entries.relation_state (world_seen (P.state plant.now) config.now r events).control v.0 }
    ensures calm { is_stop (Some result) ≡ false }
{
    let head = peek_head(plant, config, v);
    Refusal::RelationState {
        volume: v,
        found: relation_by(&head, look_at_targets(plant, config, v)),
    }
}

/// Whether a volume stands in a revertible relationship, as target or source; it is looked at whether or not its server is
/// on.
pub fn is_revertible<P: Plant>(plant: &P, config: &Config, v: VolumeId) -> bool
    requires stands { StandsFor config.now (P.state plant.now) }
    requires defined { IsSome (place_of config.now v.0) }
    ensures { (r : Rest) (events : List Event) → result ≡ entries.stands_in is_revertible (world_seen (P.state plant.now) config.now r events).control v.0 }
{
    let f = peek_head(plant, config, v);
    let all = look_at_targets(plant, config, v);
    is_revertible_by(&f, all)
}

fn is_revertible_by(f: &Head, all: Targets) -> bool
    ensures { result ≡ ((f.now.related && f.now.revertible) || all.revertible) }
{
    (f.related && f.revertible) || all.revertible
}

/// Whether a volume stands in no revertible and no reversing relationship; it is looked at whether or not its server is on.
pub fn is_settled<P: Plant>(plant: &P, config: &Config, v: VolumeId) -> bool
    requires stands { StandsFor config.now (P.state plant.now) }
    requires defined { IsSome (place_of config.now v.0) }
    ensures { (r : Rest) (events : List Event) → result ≡ entries.is_settled v.0 (world_seen (P.state plant.now) config.now r events).control }
{
    let f = peek_head(plant, config, v);
    let all = look_at_targets(plant, config, v);
    is_settled_by(&f, all)
}

fn is_settled_by(f: &Head, all: Targets) -> bool
    ensures { result ≡ (not ((f.now.related && f.now.revertible) || all.revertible) && not ((f.now.related && f.now.reversing) || all.reversing)) }
{
    !((f.related && f.revertible) || all.revertible)
        && !((f.related && f.reversing) || all.reversing)
}

/// Why a target with this head can't be withdrawn or made a copy anew, however it is related: it is a member's, whose session is named.
pub fn counted_refusal(f: &Head) -> Option<Refusal>
    ensures refusal { result ≡ counted_by f.now }
    ensures calm { is_stop result ≡ false }
{
    if f.member {
        return Some(Refusal::InSession {
            session: SessionId(f.session),
        });
    }
    None
}

/// Why a host write on a volume is refused for good, if it is: the volume is a secondary, an inhibited target, or target or source of a
/// revertible or reversing relationship. It is looked at whether or not the volume's server is on.
pub fn write_refusal<P: Plant>(plant: &P, config: &Config, v: VolumeId) -> Option<Refusal>
    requires stands { StandsFor config.now (P.state plant.now) }
    requires defined { IsSome (place_of config.now v.0) }
    ensures refusal { (r : Rest) (events : List Event) → result ≡ write_refusal (world_seen (P.state plant.now) config.now r events).control v.0 }
    ensures calm { is_stop result ≡ false }
{
    match write_refusal_by(plant, config, v, &peek_head(plant, config, v)) {
        Ok(_) => None,
        Err(why) => Some(why),
    }
}

/// The same by the volume's head, which is at hand. Where nothing is refused, tells whether the volume has a target.
pub fn write_refusal_by<P: Plant>(
    plant: &P,
    config: &Config,
    v: VolumeId,
    head: &Head,
) -> Result<bool, Refusal>
    requires stands { StandsFor config.now (P.state plant.now) }
    requires head { head.now ≡ head_of (volume_seen (P.state plant.now) config.now v.0).fields }
    ensures refusal { (r : Rest) (events : List Event) → refusal_of result ≡ write_refusal (world_seen (P.state plant.now) config.now r events).control v.0 }
    ensures calm { is_stop (refusal_of result) ≡ false }
    ensures alone { IfOk result (λ found. found ≡ false → HasNoTarget (P.state plant.now) config.now v.0) }
{
    if head.secondary.is_part() {
        return Err(Refusal::NotPrimary { volume: v });
    }
    if head.related && head.inhibited {
        return Err(Refusal::Inhibited { volume: v });
    }
    let all = look_at_targets(plant, config, v);
    if is_settled_by(head, all) {
        return Ok(all.count > 0);
    }
    Err(Refusal::RelationState {
        volume: v,
        found: relation_by(head, all),
    })
}
