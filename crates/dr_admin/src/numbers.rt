//! The number from which attempts with a new member count.

ghost use Rattle.std.specs.Prelude.{◌≡◌, max, Some, List, IsSome, option_map, if◌then◌else◌};
ghost use Rattle.dr_config.specs.Table.{StandsFor, place_of};
ghost use Rattle.dr_model.specs.declared.event.Event.{Event};
ghost use Rattle.dr_model.specs.Sessions as model;
ghost use Rattle.dr_model.specs.SessionEntries as entries;
ghost use Rattle.dr_volume.specs.View.{Rest};
ghost use Rattle.dr_moves.specs.Here.{world_seen};

use dr_config::Config;
use dr_ids::{Member, SessionId};
use dr_plant::Plant;
use dr_session::Sessions;
use dr_volume::{Head, peek_head};

/// The number that is committed on a target with these fields, 0 where it is no member's.
fn committed(f: &Head) -> u32
    ensures { result ≡ (if f.now.member then f.now.sequence else 0) }
{
    if f.member { f.sequence } else { 0 }
}

/// The greatest number of those that a session and the volumes of a member have seen.
fn greatest(last: u32, a: &Head, b: &Head, c: &Head) -> u32
    ensures { result ≡ max last (max a.now.attempt (max b.now.seal (max c.now.floor (if c.now.member then c.now.sequence else 0)))) }
{
    last.max(a.attempt.max(b.seal.max(c.floor.max(committed(c)))))
}

/// The number from which attempts with member m of the session count: neither the session nor one of the three volumes has
/// seen a greater one.
pub(crate) fn first_number<P: Plant>(
    plant: &P,
    config: &Config,
    ss: &Sessions,
    s: SessionId,
    m: &Member,
) -> u32
    requires stands { StandsFor config.now (P.state plant.now) }
    requires primary { IsSome (place_of config.now m.now.a.0) }
    requires secondary { IsSome (place_of config.now m.now.b.0) }
    requires target { IsSome (place_of config.now m.now.c.0) }
    requires session { IsSome (model.session_in ss.now.sessions s.0) }
    ensures { (r : Rest) (events : List Event) → Some result ≡ option_map (λ x. entries.first_number (world_seen (P.state plant.now) config.now r events).control x.last m.now) (model.session_in ss.now.sessions s.0) }
{
    let last = ss.last(s).unwrap();
    let a = peek_head(plant, config, m.a);
    let b = peek_head(plant, config, m.b);
    let target = peek_head(plant, config, m.c);
    greatest(last, &a, &b, &target)
}
