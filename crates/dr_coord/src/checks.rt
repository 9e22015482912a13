//! What an attempt asks of a primary.

ghost use Rattle.std.specs.Prelude.{◌≡◌, ◌&&◌, nat_eq, nat_lt, true, false, Some, None, List, IsSome, if◌then◌else◌};
ghost use Rattle.std.specs.Option.{option_or};
ghost use Rattle.dr_config.specs.Table.{StandsFor, place_of};
ghost use Rattle.dr_ids.specs.declared.refusal.Refusal.TheVariants.{Stale, Void};
ghost use Rattle.dr_model.specs.declared.event.Event.{Event};
ghost use Rattle.dr_model.specs.Layout as layout;
ghost use Rattle.dr_model.specs.SessionEntries as entries;
ghost use Rattle.dr_volume.specs.Head.{head_of};
ghost use Rattle.dr_volume.specs.View.{Rest, volume_seen};
ghost use Rattle.dr_moves.specs.Checks.{OnNone, is_stop};
ghost use Rattle.dr_moves.specs.Here.{world_seen};

use crate::fields::{may_hold, records};
use dr_config::Config;
use dr_ids::{Refusal, VolumeId};
use dr_moves::pair_state;
use dr_plant::Plant;
use dr_volume::{Head, peek_head};

/// Why a volume isn't to be held, as far as its pair says: it is no Global Copy primary of b in Copy Pending.
fn pair_refusal<P: Plant>(
    plant: &P,
    config: &Config,
    a: VolumeId,
    b: VolumeId,
    f: &Head,
) -> Option<Refusal>
    requires stands { StandsFor config.now (P.state plant.now) }
    requires defined { IsSome (place_of config.now a.0) }
    requires head { f.now ≡ head_of (volume_seen (P.state plant.now) config.now a.0).fields }
    ensures refusal { (r : Rest) (events : List Event) → result ≡ entries.hold_refusal a.0 b.0 (world_seen (P.state plant.now) config.now r events).control }
    ensures part { OnNone result (layout.is_part (volume_seen (P.state plant.now) config.now a.0).fields.primary ≡ true) }
    ensures calm { is_stop result ≡ false }
{
    if !may_hold(f, b) {
        return Some(pair_state(plant, config, a));
    }
    None
}

/// Why attempt n is stale for a primary that doesn't record it: the primary's own isn't older.
fn stale_if(n: u32, f: &Head) -> Option<Refusal>
    ensures refusal { result ≡ (if f.now.recording && nat_eq f.now.attempt n then None else if nat_lt f.now.attempt n then None else Some (Stale n f.now.attempt)) }
    ensures calm { is_stop result ≡ false }
{
    if records(n, f) || f.attempt < n {
        return None;
    }
    Some(Refusal::Stale {
        n,
        floor: f.attempt,
    })
}

/// Why primary a with this head can't be held for attempt n: it is no Global Copy primary of b in Copy Pending, or else the attempt
/// is stale.
pub(crate) fn hold_refusal<P: Plant>(
    plant: &P,
    config: &Config,
    a: VolumeId,
    b: VolumeId,
    n: u32,
    f: &Head,
) -> Option<Refusal>
    requires stands { StandsFor config.now (P.state plant.now) }
    requires defined { IsSome (place_of config.now a.0) }
    requires head { f.now ≡ head_of (volume_seen (P.state plant.now) config.now a.0).fields }
    ensures refusal { (r : Rest) (events : List Event) → result ≡ option_or (entries.hold_refusal a.0 b.0 (world_seen (P.state plant.now) config.now r events).control) (entries.stale_refusal a.0 n (world_seen (P.state plant.now) config.now r events).control) }
    ensures part { OnNone result (layout.is_part (volume_seen (P.state plant.now) config.now a.0).fields.primary ≡ true) }
    ensures calm { is_stop result ≡ false }
{
    if let Some(why) = pair_refusal(plant, config, a, b, f) {
        return Some(why);
    }
    stale_if(n, f)
}

/// Why nothing is to be done for attempt n with a primary of this head: it doesn't record it.
pub(crate) fn void_by(n: u32, f: &Head) -> Option<Refusal>
    ensures refusal { result ≡ (if f.now.recording && nat_eq f.now.attempt n then None else Some (Void n)) }
    ensures calm { is_stop result ≡ false }
{
    if !records(n, f) {
        return Some(Refusal::Void { n });
    }
    None
}

/// Why nothing is to be done for attempt n with a primary: it doesn't record it.
pub fn void_refusal<P: Plant>(plant: &P, config: &Config, a: VolumeId, n: u32) -> Option<Refusal>
    requires stands { StandsFor config.now (P.state plant.now) }
    requires defined { IsSome (place_of config.now a.0) }
    ensures refusal { (r : Rest) (events : List Event) → result ≡ entries.void_refusal a.0 n (world_seen (P.state plant.now) config.now r events).control }
    ensures calm { is_stop result ≡ false }
{
    void_by(n, &peek_head(plant, config, a))
}
