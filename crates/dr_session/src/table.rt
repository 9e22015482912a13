ghost use Rattle.std.specs.Prelude.{◌≡◌, ◌≢◌, ◌↔◌, ◌<◌, ◌≤◌, ◌+◌, ◌^◌, ◌==◌, ◌++◌, ◌∷◌, [], map, take, slice_get, length, true, false, None, Some, Err, IsTrue, IsOk, IsSome, IsSomeAnd, IfSome, IfOk, OnOk, OnErr, option_map, is_some};
ghost use Rattle.std.specs.List.{find, list_any};
ghost use Rattle.std.specs.Result.{result_err};
ghost use Rattle.dr_ids.specs.declared.refusal.PhaseName.TheVariants as phase;
ghost use Rattle.dr_ids.specs.declared.refusal.Fault.TheVariants as fault;
ghost use Rattle.dr_model.specs.Messages.{loses_master};
ghost use Rattle.dr_model.specs.Phases as phases;
ghost use Rattle.dr_model.specs.Sessions as model;
ghost use Rattle.dr_master.specs.Seen.{reply_of};
ghost use Rattle.dr_session.specs.Kept.{refusal_of};

use crate::places::{
    define, first_with_copy, first_with_member, first_with_place, place_of, remove_at,
    session_numbered,
};
use crate::session::{NO_MASTER, Session};
use dr_ids::{Fault, Kind, Lss, Member, Refusal, ServerId, SessionId, VolumeId, Which};
use dr_master::{Master, Reply};
use indexmap::IndexMap;
use std::alloc::{AllocError, Global};
use std::marker::Model;

/// How many sessions there are at most.
const MOST_SESSIONS: usize = 4;

/// The sessions, in order of definition: their logical subsystems, members, last numbers and masters.
/// A master's servers are always those of its session's members, and its number is the session's last.
#[derive(Drop)]
pub struct Sessions {
    alloc: Global,
    table: IndexMap<u8, Session>,
}

impl Model for Sessions {
    ghost use Rattle.std.specs.Prelude.{◌≡◌, true};
    ghost use Rattle.dr_session.specs.Kept.{SessionTable};
    ghost use Rattle.dr_session.specs.Places.{table_of, is_keyed};

    ghost Value = { SessionTable };

    ghost view = { λ t. table_of t.table.entries };

    ghost invariant = { λ t. is_keyed t.table.entries ≡ true };
}

impl Sessions {
    ghost use Rattle.dr_session.specs.Seen.{expects};

    /// No sessions.
    pub fn new(alloc: Global) -> Sessions
        ensures { result ≡ record { sessions = []; room = true } }
    {
        Sessions {
            alloc,
            table: IndexMap::new(alloc),
        }
    }

    /// A logical subsystem joins the session, which is made where it is new. Refused where it is one of
    /// the session's already, or where there are four sessions and this is a new one; fails too where
    /// there is no memory. Then no session has changed.
    pub fn join_lss(&mut self, s: SessionId, l: Lss) -> Result<(), Fault>
        ensures refused { refusal_of result ≡ model.join_refusal (model.session_in self.old.sessions s.0) l.0 self.old.sessions }
        ensures joined { OnOk result (self.new.sessions ≡ model.joined s.0 l.0 self.old.sessions) }
        ensures same { OnErr result (self.new.sessions ≡ self.old.sessions) }
    {
        if let Some(why) = self.join_refusal(s, l) {
            return Err(Fault::Refused(why));
        }
        match self.join(s, l) {
            Ok(()) => Ok(()),
            Err(AllocError) => Err(Fault::NoMemory),
        }
    }

    /// A logical subsystem leaves the session, which is gone where it was its only one; says whether it
    /// is. Refused where it isn't one of the session's, else where a member lies in it, else where it is
    /// the last one and the session has a master; then nothing has changed.
    pub fn leave_lss(&mut self, s: SessionId, l: Lss) -> Result<bool, Refusal>
        ensures refused { result_err result ≡ model.leave_refusal (model.session_in self.old.sessions s.0) s.0 l.0 }
        ensures left { OnOk result (self.new.sessions ≡ model.left s.0 l.0 self.old.sessions) }
        ensures gone { IfOk result (λ gone. (x : model.Session) → model.session_in self.old.sessions s.0 ≡ Some x → gone ≡ model.is_only l.0 x) }
        ensures same { OnErr result (self.new ≡ self.old) }
    {
        match self.leave_refusal(s, l) {
            Some(why) => Err(why),
            None => Ok(self.leave(s, l)),
        }
    }

    /// Makes room for one more member of any session: the next `add_member` takes no memory then.
    pub fn reserve(&mut self) -> Result<(), AllocError>
        ensures same { self.new.sessions ≡ self.old.sessions }
        ensures room { OnOk result (IsTrue self.new.room) }
    {
        for i in 0..self.table.len() {
            self.table[i].reserve()?;
        }
        Ok(())
    }

    /// Adds a member to the session, the last in its order. Refused where its primary volume is one of
    /// the session's, else where it is one of another session's, else where a master isn't Idle, else
    /// where one of the three volumes has a place in a member of any session, of which the first is
    /// named; fails too where there is no memory, which can't be where room was made. Then no session has
    /// changed.
    pub fn add_member(&mut self, s: SessionId, m: Member) -> Result<(), Fault>
        requires defined { IsSome (model.session_in self.old.sessions s.0) }
        requires server { m.server.0 < 8 }
        ensures refused { refusal_of result ≡ model.add_refusal (model.session_in self.old.sessions s.0) m self.old.sessions }
        ensures added { OnOk result (self.new.sessions ≡ model.changed s.0 (model.with_member m) self.old.sessions) }
        ensures same { OnErr result (self.new.sessions ≡ self.old.sessions) }
        ensures room { IsTrue self.old.room → result ≢ Err fault.NoMemory }
    {
        if let Some(why) = self.add_refusal(s, &m) {
            return Err(Fault::Refused(why));
        }
        match self.add(s, m) {
            Ok(()) => Ok(()),
            Err(AllocError) => Err(Fault::NoMemory),
        }
    }

    /// Takes a member out of the session. Refused where the volume is no primary of it, else where a
    /// master isn't Idle; then nothing has changed.
    pub fn remove_member(&mut self, s: SessionId, a: VolumeId) -> Result<(), Refusal>
        ensures refused { result_err result ≡ model.remove_refusal (model.session_in self.old.sessions s.0) s.0 a.0 }
        ensures removed { OnOk result (self.new.sessions ≡ model.changed s.0 (model.without_member a.0) self.old.sessions) }
        ensures same { OnErr result (self.new ≡ self.old) }
    {
        match self.remove_refusal(s, a) {
            Some(why) => Err(why),
            None => {
                self.remove(s, a);
                Ok(())
            }
        }
    }

    /// The last number of a session, and its master's, are at least `n` from now on.
    pub fn raise_last(&mut self, s: SessionId, n: u32)
        requires defined { IsSome (model.session_in self.old.sessions s.0) }
        requires idle { model.busy (model.mirror_in (model.session_in self.old.sessions s.0)) ≡ None }
        ensures { self.new ≡ record self.old { sessions = model.changed s.0 (model.raised n) self.old.sessions } }
    {
        if let Some(i) = place_of(&self.table, s) {
            self.table[i].raise(n);
        }
    }

    /// A server appoints an Idle master of the session. Refused where it has one; then nothing has
    /// changed.
    pub fn make_master(&mut self, s: SessionId, server: ServerId) -> Result<(), Refusal>
        requires defined { IsSome (model.session_in self.old.sessions s.0) }
        ensures refused { result_err result ≡ model.make_refusal (model.mirror_in (model.session_in self.old.sessions s.0)) }
        ensures made { OnOk result (self.new ≡ record self.old { sessions = model.changed s.0 (model.mirrored_by server.0) self.old.sessions }) }
        ensures same { OnErr result (self.new ≡ self.old) }
    {
        if self.has_master(s) {
            return Err(Refusal::Duplicate { kind: Kind::Master });
        }
        if let Some(i) = place_of(&self.table, s) {
            self.table[i].make_master(server);
        }
        Ok(())
    }

    /// The session's master is gone. Refused where it has none, else where it isn't Idle; then nothing
    /// has changed.
    pub fn drop_master(&mut self, s: SessionId) -> Result<(), Refusal>
        ensures refused { result_err result ≡ model.drop_refusal (model.mirror_in (model.session_in self.old.sessions s.0)) }
        ensures dropped { OnOk result (self.new ≡ record self.old { sessions = model.changed s.0 model.unmirrored self.old.sessions }) }
        ensures same { OnErr result (self.new ≡ self.old) }
    {
        if let Some(why) = self.drop_refusal(s) {
            return Err(why);
        }
        if let Some(i) = place_of(&self.table, s) {
            self.table[i].drop_master();
        }
        Ok(())
    }

    /// The session's master is paused, or runs again. Refused where it has none; then nothing has
    /// changed.
    pub fn set_paused(&mut self, s: SessionId, on: bool) -> Result<(), Refusal>
        ensures refused { result_err result ≡ model.pause_refusal (model.mirror_in (model.session_in self.old.sessions s.0)) }
        ensures paused { OnOk result (self.new ≡ record self.old { sessions = model.changed s.0 (model.paused on) self.old.sessions }) }
        ensures same { OnErr result (self.new ≡ self.old) }
    {
        if !self.has_master(s) {
            return Err(NO_MASTER);
        }
        if let Some(i) = place_of(&self.table, s) {
            self.table[i].set_paused(on);
        }
        Ok(())
    }

    /// A server has stopped: each master that it runs is lost.
    pub fn lose_server(&mut self, server: ServerId)
        ensures { self.new ≡ record self.old { sessions = map (model.lost_with server.0) self.old.sessions } }
    {
        for i in 0..self.table.len() {
            self.table[i].lose(server);
        }
    }

    /// An attempt of the session begins: its number, one more than the last, which is the session's last
    /// number from now on. Refused where the session has no master, where it isn't Idle, or else where
    /// the last number is the greatest of 32 bits; then nothing has changed.
    pub fn begin(&mut self, s: SessionId) -> Result<u32, Refusal>
        ensures refused { result_err result ≡ model.begin_refusal (model.mirror_in (model.session_in self.old.sessions s.0)) }
        ensures number { IfOk result (λ n. option_map (λ x. x.last + 1) (model.session_in self.old.sessions s.0) ≡ Some n) }
        ensures begun { OnOk result (self.new ≡ record self.old { sessions = model.changed s.0 model.begun self.old.sessions }) }
        ensures same { OnErr result (self.new ≡ self.old) }
    {
        let Some(i) = place_of(&self.table, s) else {
            return Err(NO_MASTER);
        };
        self.table[i].begin()
    }

    /// A server replies to the order that the session's master owes it.
    pub fn reply(&mut self, s: SessionId, server: ServerId, r: Reply)
        requires server { server.0 < 8 }
        requires expected { IsTrue (expects (model.mirror_in (model.session_in self.old.sessions s.0)) server.0 r) }
        ensures { self.new ≡ record self.old { sessions = model.changed s.0 (model.with_master (λ m. phases.replied m server.0 (reply_of r))) self.old.sessions } }
    {
        if let Some(i) = place_of(&self.table, s) {
            self.table[i].reply(server, r);
        }
    }

    /// The session's attempt is given up. Refused where the session has no master, and in a phase that
    /// can't be aborted; then nothing has changed.
    pub fn abort(&mut self, s: SessionId) -> Result<(), Refusal>
        ensures refused { result_err result ≡ model.abort_refusal (model.mirror_in (model.session_in self.old.sessions s.0)) }
        ensures aborted { OnOk result (self.new ≡ record self.old { sessions = model.changed s.0 (model.with_master phases.aborted) self.old.sessions }) }
        ensures same { OnErr result (self.new ≡ self.old) }
    {
        let Some(i) = place_of(&self.table, s) else {
            return Err(NO_MASTER);
        };
        self.table[i].abort()
    }

    /// All servers of a lost master have reported: it goes on by what they show.
    pub fn settle_start(&mut self, s: SessionId)
        requires { IsSomeAnd (model.mirror_in (model.session_in self.old.sessions s.0)) (λ r. (r.master.phase ≡ phase.Lost) × (r.master.owed ≡ [])) }
        ensures { self.new ≡ record self.old { sessions = model.changed s.0 (model.with_master phases.settled) self.old.sessions } }
    {
        if let Some(i) = place_of(&self.table, s) {
            self.table[i].settle_start();
        }
    }

    /// Whether the session is defined.
    pub fn is_defined(&self, s: SessionId) -> bool
        ensures { IsTrue result ↔ IsSome (model.session_in self.now.sessions s.0) }
    {
        self.session(s).is_some()
    }

    /// What a change of the session's members is refused with while its master isn't Idle.
    pub fn busy(&self, s: SessionId) -> Option<Refusal>
        ensures { result ≡ model.busy (model.mirror_in (model.session_in self.now.sessions s.0)) }
    {
        self.session(s)?.busy()
    }

    /// The first session in which one of the member's three volumes has a place, if there is one.
    pub fn session_with_place(&self, m: &Member) -> Option<SessionId>
        ensures { option_map (λ k. k.0) result ≡ option_map (λ x. x.number) (find (model.has_place_of m.now) self.now.sessions) }
    {
        first_with_place(&self.table, m)
    }

    /// Whether the session's master owes the server an order to which this is a reply, and all reports
    /// together speak of at most 64 members.
    pub fn expects(&self, s: SessionId, server: ServerId, r: &Reply) -> bool
        requires { server.0 < 8 }
        ensures { result ≡ expects (model.mirror_in (model.session_in self.now.sessions s.0)) server.0 r.now }
    {
        match self.session(s) {
            Some(session) => session.expects(server, r),
            None => false,
        }
    }

    /// Whether the session's master is Lost and all servers have reported.
    pub fn can_settle(&self, s: SessionId) -> bool
        ensures { IsTrue result ↔ IsSomeAnd (model.mirror_in (model.session_in self.now.sessions s.0)) (λ r. (r.master.phase ≡ phase.Lost) × (r.master.owed ≡ [])) }
    {
        match self.session(s) {
            Some(session) => session.can_settle(),
            None => false,
        }
    }

    /// The member that was added to the session after `i` others of today's, if there are so many.
    pub fn member_at(&self, s: SessionId, i: usize) -> Option<Member>
        ensures value { result ≡ slice_get (model.members_in (model.session_in self.now.sessions s.0)) i }
        ensures low { IfSome result (λ m. m.server.0 < 8) }
    {
        self.session(s)?.member_at(i)
    }

    /// How many members the session has, none where it isn't defined.
    pub fn member_count(&self, s: SessionId) -> usize
        ensures { result ≡ length (model.members_in (model.session_in self.now.sessions s.0)) }
    {
        match self.session(s) {
            Some(session) => session.member_count(),
            None => 0,
        }
    }

    /// The session of which the volume is the primary of a member, if there is one.
    pub fn session_of(&self, a: VolumeId) -> Option<SessionId>
        ensures { option_map (λ k. k.0) result ≡ option_map (λ x. x.number) (find (model.is_member a.0) self.now.sessions) }
    {
        first_with_member(&self.table, a)
    }

    /// The session of which the volume is the secondary or the target of a member, if there is one.
    pub fn session_with_copy(&self, v: VolumeId) -> Option<SessionId>
        ensures { option_map (λ k. k.0) result ≡ option_map (λ x. x.number) (find (model.is_copy v.0) self.now.sessions) }
    {
        first_with_copy(&self.table, v)
    }

    /// The number of the session's last attempt, if it is defined.
    pub fn last(&self, s: SessionId) -> Option<u32>
        ensures { result ≡ option_map (λ x. x.last) (model.session_in self.now.sessions s.0) }
    {
        Some(self.session(s)?.last())
    }

    /// The session's master, if it has one.
    pub fn master(&self, s: SessionId) -> Option<&Master>
        ensures value { option_map (λ m. m.now) result ≡ option_map (λ r. r.master) (model.mirror_in (model.session_in self.now.sessions s.0)) }
        ensures servers { IfSome result (λ m. m.now.servers ≡ model.servers_of (model.members_in (model.session_in self.now.sessions s.0))) }
        ensures number { IfSome result (λ m. option_map (λ x. x.last) (model.session_in self.now.sessions s.0) ≡ Some m.now.number) }
        ensures reports { IfSome result (λ m. length m.now.reports ≤ 64) }
    {
        self.session(s)?.master()
    }

    /// The server that runs the session's master, if it has one.
    pub fn master_server(&self, s: SessionId) -> Option<ServerId>
        ensures { option_map (λ k. k.0) result ≡ option_map (λ r. r.server) (model.mirror_in (model.session_in self.now.sessions s.0)) }
    {
        Some(self.session(s)?.mirror()?.server)
    }

    /// Whether the session has a master that is paused.
    pub fn is_paused(&self, s: SessionId) -> bool
        ensures { result ≡ model.is_paused (model.mirror_in (model.session_in self.now.sessions s.0)) }
    {
        match self.session(s) {
            Some(session) => session.is_paused(),
            None => false,
        }
    }

    /// Whether the session's master is Lost where its server stops: without members it stays Idle.
    pub fn can_lose_master(&self, s: SessionId) -> bool
        ensures { result ≡ loses_master (λ k. true) (λ k. false) (model.mirror_in (model.session_in self.now.sessions s.0)) }
    {
        match self.master(s) {
            Some(master) => master.can_be_lost(),
            None => false,
        }
    }

    /// The session that was defined after `i` others of today's, if there are so many. No other one has its number. A place
    /// is no last number of its type.
    pub fn session_at(&self, i: usize) -> Option<SessionId>
        ensures value { option_map (λ k. k.0) result ≡ option_map (λ x. x.number) (slice_get self.now.sessions i) }
        ensures found { IfSome result (λ k. model.session_in self.now.sessions k.0 ≡ slice_get self.now.sessions i) }
        ensures first { IfSome result (λ k. list_any (λ x. x.number == k.0) (take i self.now.sessions) ≡ false) }
        ensures next { IfSome result (λ k. i + 1 < 2 ^ 64) }
    {
        if self.table.len() <= i {
            return None;
        }
        Some(self.table[i].number())
    }

    /// Whether the logical subsystem is one of the session's.
    pub fn has_lss(&self, s: SessionId, l: Lss) -> bool
        ensures { result ≡ model.has_lss (model.session_in self.now.sessions s.0) l.0 }
    {
        match self.session(s) {
            Some(session) => session.has_subsystem(l),
            None => false,
        }
    }

    // The session of that number.
    fn session(&self, s: SessionId) -> Option<&Session>
        ensures { option_map (λ x. x.now.session) result ≡ model.session_in self.now.sessions s.0 }
    {
        session_numbered(&self.table, s)
    }

    // Whether the session has a master.
    fn has_master(&self, s: SessionId) -> bool
        ensures { result ≡ is_some (model.mirror_in (model.session_in self.now.sessions s.0)) }
    {
        match self.session(s) {
            Some(session) => session.has_master(),
            None => false,
        }
    }

    // Why the session's master can't go.
    fn drop_refusal(&self, s: SessionId) -> Option<Refusal>
        ensures { result ≡ model.drop_refusal (model.mirror_in (model.session_in self.now.sessions s.0)) }
    {
        match self.session(s) {
            Some(session) => session.drop_refusal(),
            None => Some(NO_MASTER),
        }
    }

    // Why a member can't go.
    fn remove_refusal(&self, s: SessionId, a: VolumeId) -> Option<Refusal>
        ensures { result ≡ model.remove_refusal (model.session_in self.now.sessions s.0) s.0 a.0 }
    {
        match self.session(s) {
            Some(session) => session.remove_refusal(s, a),
            None => Some(Refusal::NotInSession { session: s }),
        }
    }

    // Takes a member out.
    fn remove(&mut self, s: SessionId, a: VolumeId)
        requires { model.busy (model.mirror_in (model.session_in self.old.sessions s.0)) ≡ None }
        ensures { self.new.sessions ≡ model.changed s.0 (model.without_member a.0) self.old.sessions }
    {
        if let Some(i) = place_of(&self.table, s) {
            self.table[i].remove(a);
        }
    }

    // Why a logical subsystem can't join.
    fn join_refusal(&self, s: SessionId, l: Lss) -> Option<Refusal>
        ensures { result ≡ model.join_refusal (model.session_in self.now.sessions s.0) l.0 self.now.sessions }
    {
        match self.session(s) {
            Some(session) if session.has_subsystem(l) => Some(Refusal::Duplicate {
                kind: Kind::Session,
            }),
            None if MOST_SESSIONS <= self.table.len() => Some(Refusal::Limit {
                which: Which::Sessions,
            }),
            _ => None,
        }
    }

    // A logical subsystem joins a session, or makes it.
    fn join(&mut self, s: SessionId, l: Lss) -> Result<(), AllocError>
        ensures joined { OnOk result (self.new.sessions ≡ model.joined s.0 l.0 self.old.sessions) }
        ensures same { OnErr result (self.new.sessions ≡ self.old.sessions) }
    {
        match place_of(&self.table, s) {
            Some(i) => self.table[i].join(l),
            None => {
                let session = Session::new(self.alloc, s, l)?;
                self.define(s, session)
            }
        }
    }

    // Adds a session, the last in order.
    fn define(&mut self, s: SessionId, session: Session) -> Result<(), AllocError>
        requires absent { model.session_in self.old.sessions s.0 ≡ None }
        requires named { session.session.number ≡ s.0 }
        ensures defined { OnOk result (self.new.sessions ≡ self.old.sessions ++ session.session ∷ []) }
        ensures same { OnErr result (self.new.sessions ≡ self.old.sessions) }
    {
        define(&mut self.table, s, session)
    }

    // Why a logical subsystem can't leave.
    fn leave_refusal(&self, s: SessionId, l: Lss) -> Option<Refusal>
        ensures { result ≡ model.leave_refusal (model.session_in self.now.sessions s.0) s.0 l.0 }
    {
        match self.session(s) {
            Some(session) => session.leave_refusal(s, l),
            None => Some(Refusal::NotInSession { session: s }),
        }
    }

    // A logical subsystem leaves a session, which is gone where it was its only one; says whether it is.
    fn leave(&mut self, s: SessionId, l: Lss) -> bool
        ensures left { self.new.sessions ≡ model.left s.0 l.0 self.old.sessions }
        ensures gone { (x : model.Session) → model.session_in self.old.sessions s.0 ≡ Some x → result ≡ model.is_only l.0 x }
    {
        let Some(i) = place_of(&self.table, s) else {
            return false;
        };
        if self.table[i].is_only(l) {
            remove_at(&mut self.table, i);
            true
        } else {
            self.table[i].leave(l);
            false
        }
    }

    // Why a member can't be added.
    fn add_refusal(&self, s: SessionId, m: &Member) -> Option<Refusal>
        requires { IsSome (model.session_in self.now.sessions s.0) }
        ensures { result ≡ model.add_refusal (model.session_in self.now.sessions s.0) m.now self.now.sessions }
    {
        let session = self.session(s)?;
        if session.is_member(m.a) {
            return Some(Refusal::Duplicate { kind: Kind::Volume });
        }
        if let Some(session) = first_with_member(&self.table, m.a) {
            return Some(Refusal::InSession { session });
        }
        if let Some(why) = session.busy() {
            return Some(why);
        }
        let session = first_with_place(&self.table, m)?;
        Some(Refusal::InSession { session })
    }

    // Adds a member to a session that is defined.
    fn add(&mut self, s: SessionId, m: Member) -> Result<(), AllocError>
        requires defined { IsSome (model.session_in self.old.sessions s.0) }
        requires server { m.server.0 < 8 }
        requires idle { model.busy (model.mirror_in (model.session_in self.old.sessions s.0)) ≡ None }
        ensures added { OnOk result (self.new.sessions ≡ model.changed s.0 (model.with_member m) self.old.sessions) }
        ensures same { OnErr result (self.new.sessions ≡ self.old.sessions) }
        ensures room { IsTrue self.old.room → IsOk result }
    {
        match place_of(&self.table, s) {
            Some(i) => self.table[i].add(m),
            None => Ok(()),
        }
    }
}
