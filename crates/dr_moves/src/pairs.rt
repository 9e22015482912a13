//! What a volume's head says of its pair.

ghost use Rattle.std.specs.Prelude.{◌≡◌, ◌&&◌, ◌||◌, not, false, Some, List, IsSome, if◌then◌else◌};
ghost use Rattle.dr_ids.specs.declared.refusal.PairSeen.TheVariants as seen;
ghost use Rattle.dr_config.specs.Table.{StandsFor, place_of};
ghost use Rattle.dr_model.specs.declared.event.Event.{Event};
ghost use Rattle.dr_model.specs.Entries as entries;
ghost use Rattle.dr_model.specs.Layout.{is_part};
ghost use Rattle.dr_model.specs.Pairs as pairs;
ghost use Rattle.dr_volume.specs.View.{Rest};
ghost use Rattle.dr_moves.specs.Checks.{is_stop};
ghost use Rattle.dr_moves.specs.Here.{world_seen};

use dr_config::Config;
use dr_ids::{PairSeen, Refusal, VolumeId};
use dr_model::PairState;
use dr_plant::Plant;
use dr_volume::{Head, peek_head};

/// Whether a volume has no part in a pair, by its head.
pub fn is_unpaired(f: &Head) -> bool
    ensures { result ≡ (not (is_part f.now.primary) && not (is_part f.now.secondary)) }
{
    !f.primary.is_part() && !f.secondary.is_part()
}

/// Whether a volume is no primary, or a Suspended one, by its head.
pub fn is_quiet(f: &Head) -> bool
    ensures { result ≡ (not (is_part f.now.primary) || pairs.is_suspended f.now.primary_state) }
{
    !f.primary.is_part() || f.primary_state.is_suspended()
}

/// How the state of a primary is seen.
fn state_seen(state: PairState) -> PairSeen
    ensures { result ≡ pairs.state_seen state }
{
    match state {
        PairState::CopyPending => PairSeen::CopyPending,
        PairState::FullDuplex => PairSeen::FullDuplex,
        PairState::Suspended => PairSeen::Suspended,
    }
}

/// How the state of a secondary is seen.
fn target_seen(state: PairState) -> PairSeen
    ensures { result ≡ pairs.target_seen state }
{
    match state {
        PairState::CopyPending => PairSeen::TargetCopyPending,
        PairState::FullDuplex => PairSeen::TargetFullDuplex,
        PairState::Suspended => PairSeen::TargetSuspended,
    }
}

/// How a volume's pair is seen: the state of the part that it has.
fn pair_seen(f: &Head) -> PairSeen
    ensures { result ≡ (if is_part f.now.primary then pairs.state_seen f.now.primary_state else if is_part f.now.secondary then pairs.target_seen f.now.secondary_state else seen.None) }
{
    if f.primary.is_part() {
        state_seen(f.primary_state)
    } else if f.secondary.is_part() {
        target_seen(f.secondary_state)
    } else {
        PairSeen::None
    }
}

/// How a volume's pair is seen where it is asked for as a secondary: the state of that part, if it has one.
fn secondary_seen(f: &Head) -> PairSeen
    ensures { result ≡ (if is_part f.now.secondary then pairs.target_seen f.now.secondary_state else if is_part f.now.primary then pairs.state_seen f.now.primary_state else seen.None) }
{
    if f.secondary.is_part() {
        target_seen(f.secondary_state)
    } else if f.primary.is_part() {
        state_seen(f.primary_state)
    } else {
        PairSeen::None
    }
}

/// Whether a volume has both parts, by its head.
pub fn is_cascaded(f: &Head) -> bool
    ensures { result ≡ (is_part f.now.primary && is_part f.now.secondary) }
{
    f.primary.is_part() && f.secondary.is_part()
}

/// The refusal that says how a volume's pair is seen, whether or not its server is on.
pub fn pair_state<P: Plant>(plant: &P, config: &Config, v: VolumeId) -> Refusal
    requires stands { StandsFor config.now (P.state plant.now) }
    requires defined { IsSome (place_of config.now v.0) }
    ensures refusal { (r : Rest) (events : List Event) → result ≡ entries.pair_state (world_seen (P.state plant.now) config.now r events).control v.0 }
    ensures calm { is_stop (Some result) ≡ false }
{
    let head = peek_head(plant, config, v);
    Refusal::PairState {
        volume: v,
        found: pair_seen(&head),
    }
}

/// The same where the volume is asked for as a secondary.
pub fn secondary_state<P: Plant>(plant: &P, config: &Config, v: VolumeId) -> Refusal
    requires stands { StandsFor config.now (P.state plant.now) }
    requires defined { IsSome (place_of config.now v.0) }
    ensures refusal { (r : Rest) (events : List Event) → result ≡ entries.secondary_state (world_seen (P.state plant.now) config.now r events).control v.0 }
    ensures calm { is_stop (Some result) ≡ false }
{
    let head = peek_head(plant, config, v);
    Refusal::PairState {
        volume: v,
        found: secondary_seen(&head),
    }
}
