//! Look-ups in the map of sessions.

ghost use Rattle.std.specs.Prelude.{◌≡◌, ◌==◌, ◌<◌, length, true, None, IfSome, IfNone, OnOk, OnErr, option_map, nat_eq, ◌++◌, ◌∷◌, [], remove};
ghost use Rattle.std.specs.List.{find};
ghost use Rattle.indexmap.specs.IndexMap.{get};
ghost use Rattle.dr_model.specs.Sessions as model;
ghost use Rattle.dr_session.specs.Places.{sessions_in, is_keyed, StandsAt};

use crate::session::Session;
use dr_ids::{Member, SessionId, VolumeId};
use indexmap::IndexMap;
use std::alloc::AllocError;

// The place of a session, if it is defined.
pub(crate) fn place_of(table: &IndexMap<u8, Session>, s: SessionId) -> Option<usize>
    requires { is_keyed table.now.entries ≡ true }
    ensures place { IfSome result (λ i. StandsAt s.0 i table.now.entries) }
    ensures within { IfSome result (λ i. i < length table.now.entries) }
    ensures none { IfNone result (model.session_in (sessions_in table.now.entries) s.0 ≡ None) }
{
    table.get_index_of(&s.0)
}

// Whether a session has that number.
fn has_number(session: &Session, s: SessionId) -> bool
    ensures { result ≡ (session.now.session.number == s.0) }
{
    session.number().0 == s.0
}

// The session of that number. There are four at most, so a look at each costs less than the hash of a number.
pub(crate) fn session_numbered(table: &IndexMap<u8, Session>, s: SessionId) -> Option<&Session>
    ensures { option_map (λ x. x.now.session) result ≡ model.session_in (sessions_in table.now.entries) s.0 }
{
    for i in 0..table.len() {
        let session = &table[i];
        if has_number(session, s) {
            return Some(session);
        }
    }
    None
}

// The first session of which the volume is the primary of a member.
pub(crate) fn first_with_member(table: &IndexMap<u8, Session>, a: VolumeId) -> Option<SessionId>
    ensures { option_map (λ k. k.0) result ≡ option_map (λ x. x.number) (find (model.is_member a.0) (sessions_in table.now.entries)) }
{
    for i in 0..table.len() {
        let session = &table[i];
        if session.is_member(a) {
            return Some(session.number());
        }
    }
    None
}

// The first session of which the volume is the secondary or the target of a member.
pub(crate) fn first_with_copy(table: &IndexMap<u8, Session>, v: VolumeId) -> Option<SessionId>
    ensures { option_map (λ k. k.0) result ≡ option_map (λ x. x.number) (find (model.is_copy v.0) (sessions_in table.now.entries)) }
{
    for i in 0..table.len() {
        let session = &table[i];
        if session.is_copy(v) {
            return Some(session.number());
        }
    }
    None
}

// The first session in which one of the member's volumes has a place.
pub(crate) fn first_with_place(table: &IndexMap<u8, Session>, m: &Member) -> Option<SessionId>
    ensures { option_map (λ k. k.0) result ≡ option_map (λ x. x.number) (find (model.has_place_of m.now) (sessions_in table.now.entries)) }
{
    for i in 0..table.len() {
        let session = &table[i];
        if session.has_place_of(m) {
            return Some(session.number());
        }
    }
    None
}

// Adds a session, the last in order. Where there is no memory, nothing has changed.
pub(crate) fn define(
    table: &mut IndexMap<u8, Session>,
    s: SessionId,
    session: Session,
) -> Result<(), AllocError>
    requires { get nat_eq table.old s.0 ≡ None }
    ensures added { OnOk result (table.new.entries ≡ table.old.entries ++ (s.0, session) ∷ []) }
    ensures same { OnErr result (table.new.entries ≡ table.old.entries) }
{
    table.insert(s.0, session)?;
    Ok(())
}

// The session at a place is gone.
pub(crate) fn remove_at(table: &mut IndexMap<u8, Session>, i: usize)
    ensures { table.new.entries ≡ remove table.old.entries i }
{
    table.shift_remove_index(i);
}
