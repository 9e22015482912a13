//! A member's target is committed or reverted as was decided.

ghost use Rattle.std.specs.Prelude.{◌≡◌, true, List, IsSome, if◌then◌else◌};
ghost use Rattle.dr_config.specs.Table.{StandsFor, place_of};
ghost use Rattle.dr_model.specs.declared.event.Event.{Event};
ghost use Rattle.dr_model.specs.RecoveryPlans.{settle_on};
ghost use Rattle.dr_model.specs.SessionEntries as entries;
ghost use Rattle.dr_volume.specs.View.{Rest, volume_seen};
ghost use Rattle.dr_moves.specs.Aside.{AsideFits};
ghost use Rattle.dr_moves.specs.Coming.{next_of};
ghost use Rattle.dr_moves.specs.Here.{world_seen};
ghost use Rattle.dr_moves.specs.Made.{IsAt};
ghost use Rattle.dr_moves.specs.declared.carrying.Next.TheVariants.{Pass, Do};
ghost use Rattle.dr_moves.specs.declared.moves.Move.TheVariants as move;
ghost use Rattle.dr_revert.specs.Turns.{Turns};
ghost use Rattle.dr_recover.specs.Settled.{settled_by};

use dr_config::Config;
use dr_ids::{Decision, Member, SessionId};
use dr_moves::{Move, Next};
use dr_plant::Plant;
use dr_revert::is_flashed;
use dr_volume::peek_head;

/// A target that is revertible from attempt n is committed.
fn commit_if<P: Plant>(plant: &P, config: &Config, s: SessionId, m: &Member, n: u32) -> Next
    requires stands { StandsFor config.now (P.state plant.now) }
    requires target { IsSome (place_of config.now m.now.c.0) }
    ensures { result ≡ (if entries.is_flashed n (volume_seen (P.state plant.now) config.now m.now.c.0).fields then Do (move.Commit m.now.c m.now.a s n) else Pass) }
{
    if !is_flashed(n, &peek_head(plant, config, m.c)) {
        return Next::Pass;
    }
    Next::Do(Move::Commit {
        v: m.c,
        a: m.a,
        s,
        n,
    })
}

/// A target that is revertible from attempt n is reverted.
fn revert_if<P: Plant>(plant: &P, config: &Config, s: SessionId, m: &Member, n: u32) -> Next
    requires stands { StandsFor config.now (P.state plant.now) }
    requires target { IsSome (place_of config.now m.now.c.0) }
    ensures { result ≡ (if entries.is_flashed n (volume_seen (P.state plant.now) config.now m.now.c.0).fields then Do (move.Revert m.now.c m.now.a s n) else Pass) }
{
    if !is_flashed(n, &peek_head(plant, config, m.c)) {
        return Next::Pass;
    }
    Next::Do(Move::Revert {
        v: m.c,
        a: m.a,
        s,
        n,
    })
}

/// What becomes of a member's target, as was decided. It is looked at only where something may become of it.
fn settled_by<P: Plant>(
    plant: &P,
    config: &Config,
    s: SessionId,
    decided: Decision,
    m: &Member,
) -> Next
    requires stands { StandsFor config.now (P.state plant.now) }
    requires target { IsSome (place_of config.now m.now.c.0) }
    ensures { result ≡ settled_by s decided m.now (volume_seen (P.state plant.now) config.now m.now.c.0).fields }
{
    match decided {
        Decision::CommitRest(n) => commit_if(plant, config, s, m, n),
        Decision::RevertAll(n) => revert_if(plant, config, s, m, n),
        Decision::RevertSome(_, n) => revert_if(plant, config, s, m, n),
        Decision::NoMember => Next::Pass,
        Decision::Nothing(_) => Next::Pass,
        Decision::Impossible(_, _) => Next::Pass,
    }
}

/// The target of a member, whose server is on, is committed or reverted as was decided; one that isn't revertible from the
/// attempt that the decision speaks of stays.
pub(crate) fn settle_next<P: Plant>(
    plant: &P,
    config: &Config,
    s: SessionId,
    decided: Decision,
    m: &Member,
) -> Next
    requires at { IsAt (P.state plant.now) config.now }
    requires aside { AsideFits (P.state plant.now) config.now }
    requires target { IsSome (place_of config.now m.now.c.0) }
    requires running { (P.state plant.now).on (volume_seen (P.state plant.now) config.now m.now.c.0).server ≡ true }
    ensures comes { (r : Rest) (events : List Event) → settle_on s.0 decided m.now (world_seen (P.state plant.now) config.now r events).control ≡ next_of result }
    ensures turns { Turns (P.state plant.now) config.now m.now.c.0 result }
{
    settled_by(plant, config, s, decided, m)
}
