//! A member of a session, by its primary; and the list of members with one more.

ghost use Rattle.std.specs.Prelude.{◌≡◌, ◌<◌, None, IsSome, IsTrue, IfSome};
ghost use Rattle.dr_model.specs.Sessions as model;
ghost use Rattle.dr_admin.specs.Removing.{member_in};

use dr_ids::{Member, SessionId, VolumeId};
use dr_session::Sessions;

/// The member of the session whose primary is a, if there is one.
pub(crate) fn member_of(ss: &Sessions, s: SessionId, a: VolumeId) -> Option<Member>
    ensures { result ≡ member_in a.0 (model.session_in ss.now.sessions s.0) }
{
    for place in 0..ss.member_count(s) {
        let Some(m) = ss.member_at(s, place) else {
            return None;
        };
        if m.a.0 == a.0 {
            return Some(m);
        }
    }
    None
}

/// The session's last number is at least n from now on, and it has one more member, which it can take: none of the member's
/// volumes has a place, and room was made for it.
pub(crate) fn take_in(ss: &mut Sessions, s: SessionId, m: Member, n: u32)
    requires defined { IsSome (model.session_in ss.old.sessions s.0) }
    requires low { m.server.0 < 8 }
    requires free { model.add_refusal (model.session_in ss.old.sessions s.0) m ss.old.sessions ≡ None }
    requires room { IsTrue ss.old.room }
    ensures { ss.new.sessions ≡ model.changed s.0 (model.with_member m) (model.changed s.0 (model.raised n) ss.old.sessions) }
{
    ss.raise_last(s, n);
    match ss.add_member(s, m) {
        Ok(()) | Err(_) => (),
    }
}
