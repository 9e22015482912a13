//! The member that a primary, its secondary and the target of that make.

ghost use Rattle.std.specs.Prelude.{◌≡◌, true, false, Some, List, IsSome, IfOk};
ghost use Rattle.std.specs.Result.{result_err};
ghost use Rattle.dr_config.specs.Table.{place_of};
ghost use Rattle.dr_model.specs.declared.event.Event.{Event};
ghost use Rattle.dr_model.specs.Layout.{is_part};
ghost use Rattle.dr_model.specs.SessionPlans as plans;
ghost use Rattle.dr_volume.specs.View.{Rest, volume_seen};
ghost use Rattle.dr_moves.specs.Checks.{OnNone, is_stop};
ghost use Rattle.dr_moves.specs.Fit.{RelationsFit};
ghost use Rattle.dr_moves.specs.Here.{world_seen, refusal_of, IsAtRest};
ghost use Rattle.dr_admin.specs.Adding.{member_planned, pair_refusal};
ghost use Rattle.dr_admin.specs.Targets.{IsTargetReady};

use crate::targets::member_target;
use dr_config::Config;
use dr_flash::relation_state;
use dr_gcopy::send_refusal;
use dr_ids::{Member, Refusal, VolumeId};
use dr_moves::{pair_state, server_of};
use dr_plant::Plant;
use dr_volume::peek_head;

/// Why b can't be the secondary of a member: it is a primary.
fn lead_refusal<P: Plant>(plant: &P, config: &Config, b: VolumeId) -> Option<Refusal>
    requires rest { IsAtRest (P.state plant.now) config.now }
    requires defined { IsSome (place_of config.now b.0) }
    ensures refusal { (r : Rest) (events : List Event) → result ≡ plans.lead_refusal b.0 (world_seen (P.state plant.now) config.now r events).control }
    ensures calm { is_stop result ≡ false }
{
    if peek_head(plant, config, b).primary.is_part() {
        return Some(pair_state(plant, config, b));
    }
    None
}

/// Why no member can be made of a and its secondary, as far as their pair says: the server of a is off, a is no Global Copy
/// primary, its secondary can't be reached from it, or hasn't the part for it, or is a primary itself.
fn copy_refusal<P: Plant>(plant: &P, config: &Config, a: VolumeId) -> Option<Refusal>
    requires rest { IsAtRest (P.state plant.now) config.now }
    requires defined { IsSome (place_of config.now a.0) }
    requires partner { is_part (volume_seen (P.state plant.now) config.now a.0).fields.primary ≡ true → IsSome (place_of config.now (volume_seen (P.state plant.now) config.now a.0).fields.primary_partner) }
    ensures refusal { (r : Rest) (events : List Event) → result ≡ plans.copy_refusal (world_seen (P.state plant.now) config.now r events).control a.0 }
    ensures running { OnNone result ((P.state plant.now).on (volume_seen (P.state plant.now) config.now a.0).server ≡ true) }
    ensures partner { OnNone result (IsSome (place_of config.now (volume_seen (P.state plant.now) config.now a.0).fields.primary_partner)) }
    ensures reached { OnNone result ((P.state plant.now).on (volume_seen (P.state plant.now) config.now (volume_seen (P.state plant.now) config.now a.0).fields.primary_partner).server ≡ true) }
    ensures calm { is_stop result ≡ false }
{
    let server = server_of(config, a);
    if !plant.is_on(server.0) {
        return Some(Refusal::ServerOff { server });
    }
    let f = peek_head(plant, config, a);
    if !f.primary.is_global() {
        return Some(pair_state(plant, config, a));
    }
    if let Some(why) = send_refusal(plant, config, a, f.primary_partner) {
        return Some(why);
    }
    lead_refusal(plant, config, f.primary_partner)
}

/// The member that primary a makes with its secondary and the target of that. Refused where the server of a is off, where a is
/// no Global Copy primary, where its secondary can't be reached from it or hasn't the part for it, and where not just one
/// relationship of the secondary is recorded and inhibited, or that one is revertible or reversing.
pub(crate) fn pair_member<P: Plant>(
    plant: &P,
    config: &Config,
    a: VolumeId,
) -> Result<Member, Refusal>
    requires rest { IsAtRest (P.state plant.now) config.now }
    requires fit { RelationsFit (P.state plant.now) config.now }
    requires defined { IsSome (place_of config.now a.0) }
    requires partner { is_part (volume_seen (P.state plant.now) config.now a.0).fields.primary ≡ true → IsSome (place_of config.now (volume_seen (P.state plant.now) config.now a.0).fields.primary_partner) }
    ensures refused { (r : Rest) (events : List Event) → result_err result ≡ pair_refusal (world_seen (P.state plant.now) config.now r events).control a.0 }
    ensures member { IfOk result (λ m. (r : Rest) (events : List Event) → member_planned (world_seen (P.state plant.now) config.now r events).control a.0 ≡ Some m) }
    ensures ready { IfOk result (λ m. IsTargetReady (P.state plant.now) config.now m) }
    ensures primary { IfOk result (λ m. m.a ≡ a) }
    ensures calm { is_stop (refusal_of result) ≡ false }
{
    if let Some(why) = copy_refusal(plant, config, a) {
        return Err(why);
    }
    let b = peek_head(plant, config, a).primary_partner;
    let Some(target) = member_target(plant, config, b) else {
        return Err(relation_state(plant, config, b));
    };
    let server = server_of(config, a);
    Ok(Member {
        a,
        b,
        c: target,
        server,
    })
}
