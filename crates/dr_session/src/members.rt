//! What the members of a session come to, and what its master is told of them.

ghost use Rattle.std.specs.Prelude.{◌≡◌, ◌==◌, None, IsTrue, not, filter, option_map};
ghost use Rattle.dr_master.specs.Seen.{servers_in};
ghost use Rattle.dr_model.specs.Sessions as model;
ghost use Rattle.dr_session.specs.Seen.{mirror_of};

use crate::session::Mirror;
use dr_ids::{Lss, Member, VolumeId};
use dr_master::ServerSet;

// Whether the volume is the primary, the secondary or the target of the member.
pub(crate) fn has_place(m: &Member, v: VolumeId) -> bool
    ensures { result ≡ model.has_place v.0 m.now }
{
    m.a.0 == v.0 || m.b.0 == v.0 || m.c.0 == v.0
}

// Takes a logical subsystem out.
pub(crate) fn take_subsystem_out(subsystems: &mut Vec<Lss>, l: Lss)
    ensures { subsystems.new.items ≡ filter (λ k. not (k.0 == l.0)) subsystems.old.items }
{
    subsystems.retain(|k| k.0 != l.0);
}

// Takes the members with that primary volume out.
pub(crate) fn take_member_out(members: &mut Vec<Member>, a: VolumeId)
    ensures items { members.new.items ≡ filter (λ m. not (m.a.0 == a.0)) members.old.items }
    ensures low { IsTrue (model.all_low members.old.items) → IsTrue (model.all_low members.new.items) }
{
    members.retain(|m| m.a.0 != a.0);
}

// A master has the servers of these members from now on.
pub(crate) fn tell_servers(mirror: &mut Option<Mirror>, members: &[Member])
    requires low { IsTrue (model.all_low members.now) }
    requires idle { model.busy (option_map mirror_of mirror.old) ≡ None }
    ensures { option_map mirror_of mirror.new ≡ option_map (model.mirror_with (model.servers_of members.now)) (option_map mirror_of mirror.old) }
{
    let servers = servers_of(members);
    if let Some(mirror) = mirror {
        mirror.master.set_servers(servers);
    }
}

// The servers of the members' primary volumes.
pub(crate) fn servers_of(members: &[Member]) -> ServerSet
    requires { IsTrue (model.all_low members.now) }
    ensures { servers_in result.0 ≡ model.servers_of members.now }
{
    let mut servers = ServerSet::EMPTY;
    for m in members {
        servers = servers.with(m.server);
    }
    servers
}
