//! What an attempt asks of a target.

ghost use Rattle.std.specs.Prelude.{◌≡◌, not, nat_eq, nat_lt, ◌||◌, true, false, Some, None, List, IsSome, if◌then◌else◌};
ghost use Rattle.dr_config.specs.Table.{StandsFor, place_of};
ghost use Rattle.dr_ids.specs.declared.refusal.Refusal.TheVariants.{Stale, Unsealed};
ghost use Rattle.dr_model.specs.declared.event.Event.{Event};
ghost use Rattle.dr_model.specs.SessionEntries as entries;
ghost use Rattle.dr_volume.specs.Head.{head_of};
ghost use Rattle.dr_volume.specs.View.{Rest, volume_seen};
ghost use Rattle.dr_moves.specs.Checks.{OnNone, is_stop};
ghost use Rattle.dr_moves.specs.Here.{world_seen};

use crate::fields::{is_committed, is_flashed, may_flash};
use dr_config::Config;
use dr_flash::relation_state;
use dr_ids::{Refusal, VolumeId};
use dr_plant::Plant;
use dr_volume::{Head, peek_head};

/// Why attempt n isn't one for a target with this floor of a source with this seal: the target has gone on past it, or else
/// the source is sealed for another one.
fn number_refusal(n: u32, floor: u32, b: VolumeId, seal: u32) -> Option<Refusal>
    ensures refusal { result ≡ (if not (nat_lt floor n) then Some (Stale n floor) else if not (nat_eq seal n) then Some (Unsealed (record { 0 = b.0 }) seal) else None) }
    ensures calm { is_stop result ≡ false }
{
    if n <= floor {
        return Some(Refusal::Stale { n, floor });
    }
    if seal != n {
        return Some(Refusal::Unsealed { volume: b, seal });
    }
    None
}

/// Why volume t with this head can't be flashed from b for attempt n, unless it is so already: it is no target of b whose
/// changes are recorded and on which the host may not write, or is restored or revertible from another attempt; or else it
/// has gone on past the attempt; or else b isn't sealed for it.
pub(crate) fn flash_refusal<P: Plant>(
    plant: &P,
    config: &Config,
    b: VolumeId,
    t: VolumeId,
    n: u32,
    f: &Head,
) -> Option<Refusal>
    requires stands { StandsFor config.now (P.state plant.now) }
    requires source { IsSome (place_of config.now b.0) }
    requires target { IsSome (place_of config.now t.0) }
    requires head { f.now ≡ head_of (volume_seen (P.state plant.now) config.now t.0).fields }
    ensures refusal { (r : Rest) (events : List Event) → result ≡ entries.flash_refusal b.0 t.0 n (world_seen (P.state plant.now) config.now r events).control }
    ensures may { OnNone result (entries.is_flashed n (volume_seen (P.state plant.now) config.now t.0).fields ≡ false → entries.may_flash b.0 (volume_seen (P.state plant.now) config.now t.0).fields ≡ true) }
    ensures calm { is_stop result ≡ false }
{
    if is_flashed(n, f) {
        return None;
    }
    if !may_flash(b, f) {
        return Some(relation_state(plant, config, t));
    }
    number_refusal(n, f.floor, b, peek_head(plant, config, b).seal)
}

/// Why the flash of attempt n can't be committed on volume t with this head: it is neither revertible from it nor a member's
/// with its number.
pub(crate) fn commit_refusal<P: Plant>(
    plant: &P,
    config: &Config,
    t: VolumeId,
    n: u32,
    f: &Head,
) -> Option<Refusal>
    requires stands { StandsFor config.now (P.state plant.now) }
    requires target { IsSome (place_of config.now t.0) }
    requires head { f.now ≡ head_of (volume_seen (P.state plant.now) config.now t.0).fields }
    ensures refusal { (r : Rest) (events : List Event) → result ≡ entries.commit_refusal t.0 n (world_seen (P.state plant.now) config.now r events).control }
    ensures may { OnNone result ((entries.is_committed n (volume_seen (P.state plant.now) config.now t.0).fields || entries.is_flashed n (volume_seen (P.state plant.now) config.now t.0).fields) ≡ true) }
    ensures calm { is_stop result ≡ false }
{
    if is_committed(n, f) || is_flashed(n, f) {
        return None;
    }
    Some(relation_state(plant, config, t))
}
