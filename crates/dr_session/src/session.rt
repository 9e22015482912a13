ghost use Rattle.std.specs.Prelude.{◌≡◌, ◌↔◌, ◌<◌, ◌≤◌, ◌+◌, ◌++◌, ◌==◌, ◌∷◌, [], not, filter, slice_get, length, Some, None, IsTrue, IsOk, IsSomeAnd, IfSome, IfOk, OnOk, OnErr, option_map, is_some};
ghost use Rattle.std.specs.Result.{result_err};
ghost use Rattle.dr_ids.specs.declared.refusal.PhaseName.TheVariants as phase;
ghost use Rattle.dr_master.specs.Seen.{reply_of};
ghost use Rattle.dr_model.specs.Sessions as model;
ghost use Rattle.dr_model.specs.Phases as phases;

use crate::members::{has_place, servers_of, take_member_out, take_subsystem_out, tell_servers};
use dr_ids::{Lss, Member, PhaseName, Refusal, ServerId, SessionId, VolumeId};
use dr_master::{Master, Reply};
use std::alloc::{AllocError, Global};
use std::marker::Model;

/// What a call on a master is refused with where there is none.
pub(crate) const NO_MASTER: Refusal = Refusal::OutOfOrder {
    phase: PhaseName::None,
};

/// Who keeps a session going: the server that runs its master, and whether it is paused.
#[derive(Drop)]
pub(crate) struct Mirror {
    pub(crate) server: ServerId,
    pub(crate) paused: bool,
    pub(crate) master: Master,
}

/// A session with its members and, where it has one, its master.
#[derive(Drop)]
pub(crate) struct Session {
    number: SessionId,
    subsystems: Vec<Lss>,
    members: Vec<Member>,
    last: u32,
    mirror: Option<Mirror>,
}

impl Model for Session {
    ghost use Rattle.dr_session.specs.Kept.{KeptSession};

    ghost Value = { KeptSession };

    ghost use Rattle.dr_session.specs.Seen.{kept_of, session_of};
    ghost use Rattle.dr_model.specs.Sessions.{IsSoundSession};

    ghost view = { kept_of };

    ghost invariant = { λ x. IsSoundSession (session_of x) };
}

impl Session {
    ghost use Rattle.dr_session.specs.Seen.{mirror_of, expects};

    /// A session of that number with one logical subsystem.
    pub(crate) fn new(alloc: Global, number: SessionId, l: Lss) -> Result<Session, AllocError>
        ensures { IfOk result (λ x. x.session ≡ model.new_session number.0 l.0) }
    {
        let mut subsystems = Vec::new(alloc);
        subsystems.push(l)?;
        Ok(Session {
            number,
            subsystems,
            members: Vec::new(alloc),
            last: 0,
            mirror: None,
        })
    }

    /// Its number.
    pub(crate) fn number(&self) -> SessionId
        ensures { result.0 ≡ self.now.session.number }
    {
        self.number
    }

    /// The number of its last attempt.
    pub(crate) fn last(&self) -> u32
        ensures { result ≡ self.now.session.last }
    {
        self.last
    }

    /// Its mirror, if it has a master.
    pub(crate) fn mirror(&self) -> Option<&Mirror>
        ensures { option_map (λ r. mirror_of r.now) result ≡ self.now.session.mirror }
    {
        self.mirror.as_ref()
    }

    /// Its master, which has its members' servers and its last number.
    pub(crate) fn master(&self) -> Option<&Master>
        ensures value { option_map (λ m. m.now) result ≡ option_map (λ r. r.master) self.now.session.mirror }
        ensures servers { IfSome result (λ m. m.now.servers ≡ model.servers_of self.now.session.members) }
        ensures number { IfSome result (λ m. self.now.session.last ≡ m.now.number) }
        ensures reports { IfSome result (λ m. length m.now.reports ≤ 64) }
    {
        match &self.mirror {
            Some(mirror) => {
                mirror.master.tell_few();
                Some(&mirror.master)
            }
            None => None,
        }
    }

    /// Whether it has a master.
    pub(crate) fn has_master(&self) -> bool
        ensures { result ≡ is_some self.now.session.mirror }
    {
        self.mirror.is_some()
    }

    /// Whether it has a master that is paused.
    pub(crate) fn is_paused(&self) -> bool
        ensures { result ≡ model.is_paused self.now.session.mirror }
    {
        match &self.mirror {
            Some(mirror) => mirror.paused,
            None => false,
        }
    }

    /// The member that was added after `i` others of today's.
    pub(crate) fn member_at(&self, i: usize) -> Option<Member>
        ensures value { result ≡ slice_get self.now.session.members i }
        ensures low { IfSome result (λ m. m.server.0 < 8) }
    {
        self.members.get(i).copied()
    }

    /// How many members it has.
    pub(crate) fn member_count(&self) -> usize
        ensures { result ≡ length self.now.session.members }
    {
        self.members.len()
    }

    /// Whether the logical subsystem is one of its own.
    pub(crate) fn has_subsystem(&self, l: Lss) -> bool
        ensures { result ≡ model.has_subsystem l.0 self.now.session }
    {
        self.subsystems.iter().any(|k| k.0 == l.0)
    }

    /// Whether it has no other logical subsystem.
    pub(crate) fn is_only(&self, l: Lss) -> bool
        ensures { result ≡ model.is_only l.0 self.now.session }
    {
        self.subsystems.iter().all(|k| k.0 == l.0)
    }

    /// Whether the volume is the primary of a member.
    pub(crate) fn is_member(&self, a: VolumeId) -> bool
        ensures { result ≡ model.is_member a.0 self.now.session }
    {
        self.members.iter().any(|m| m.a.0 == a.0)
    }

    /// Whether the volume is the secondary or the target of a member.
    pub(crate) fn is_copy(&self, v: VolumeId) -> bool
        ensures { result ≡ model.is_copy v.0 self.now.session }
    {
        self.members.iter().any(|m| m.b.0 == v.0 || m.c.0 == v.0)
    }

    /// Whether the primary volume of a member lies in the logical subsystem.
    pub(crate) fn has_member_in(&self, l: Lss) -> bool
        ensures { result ≡ model.has_member_in l.0 self.now.session }
    {
        self.members.iter().any(|m| m.a.lss().0 == l.0)
    }

    /// Whether one of the member's volumes has a place in a member of this session.
    pub(crate) fn has_place_of(&self, m: &Member) -> bool
        ensures { result ≡ model.has_place_of m.now self.now.session }
    {
        self.members.iter().any(|q| has_place(q, m.a) || has_place(q, m.b) || has_place(q, m.c))
    }

    /// Adds a logical subsystem. Where there is no memory, nothing has changed.
    pub(crate) fn join(&mut self, l: Lss) -> Result<(), AllocError>
        ensures named { self.new.session.number ≡ self.old.session.number }
        ensures joined { OnOk result (self.new ≡ record self.old { session = model.joined_by l.0 self.old.session }) }
        ensures same { OnErr result (self.new ≡ self.old) }
    {
        self.subsystems.push(l)?;
        Ok(())
    }

    /// Takes a logical subsystem out.
    pub(crate) fn leave(&mut self, l: Lss)
        ensures { self.new ≡ record self.old { session = model.left_by l.0 self.old.session } }
    {
        take_subsystem_out(&mut self.subsystems, l);
    }

    /// Makes room for one more member.
    pub(crate) fn reserve(&mut self) -> Result<(), AllocError>
        ensures same { self.new.session ≡ self.old.session }
        ensures room { OnOk result (IsTrue self.new.room) }
    {
        self.members.reserve(1)
    }

    /// Adds a member. Where there is no memory, no member is added; where room was made, there is.
    pub(crate) fn add(&mut self, m: Member) -> Result<(), AllocError>
        requires low { m.server.0 < 8 }
        requires idle { model.busy self.old.session.mirror ≡ None }
        ensures named { self.new.session.number ≡ self.old.session.number }
        ensures added { OnOk result (self.new.session ≡ model.with_member m self.old.session) }
        ensures same { OnErr result (self.new.session ≡ self.old.session) }
        ensures room { IsTrue self.old.room → IsOk result }
    {
        self.members.push(m)?;
        tell_servers(&mut self.mirror, &self.members);
        Ok(())
    }

    /// Takes the member with that primary volume out.
    pub(crate) fn remove(&mut self, a: VolumeId)
        requires { model.busy self.old.session.mirror ≡ None }
        ensures { self.new.session ≡ model.without_member a.0 self.old.session }
    {
        take_member_out(&mut self.members, a);
        tell_servers(&mut self.mirror, &self.members);
    }

    /// The last number, and the master's, are at least `n` from now on.
    pub(crate) fn raise(&mut self, n: u32)
        requires { model.busy self.old.session.mirror ≡ None }
        ensures { self.new ≡ record self.old { session = model.raised n self.old.session } }
    {
        self.last = self.last.max(n);
        if let Some(mirror) = &mut self.mirror {
            mirror.master.raise(n);
        }
    }

    /// A server appoints an Idle master.
    pub(crate) fn make_master(&mut self, server: ServerId)
        ensures { self.new ≡ record self.old { session = model.mirrored_by server.0 self.old.session } }
    {
        let servers = servers_of(&self.members);
        self.mirror = Some(Mirror {
            server,
            paused: false,
            master: Master::new(servers, self.last),
        });
    }

    /// The master is gone.
    pub(crate) fn drop_master(&mut self)
        ensures { self.new ≡ record self.old { session = model.unmirrored self.old.session } }
    {
        self.mirror = None;
    }

    /// A master that there is is paused, or runs again.
    pub(crate) fn set_paused(&mut self, on: bool)
        ensures { self.new ≡ record self.old { session = model.paused on self.old.session } }
    {
        if let Some(mirror) = &mut self.mirror {
            mirror.paused = on;
        }
    }

    /// A server has stopped: a master that it runs is lost.
    pub(crate) fn lose(&mut self, server: ServerId)
        ensures { self.new ≡ record self.old { session = model.lost_with server.0 self.old.session } }
    {
        if let Some(mirror) = &mut self.mirror {
            mirror.lose(server);
        }
    }

    /// An attempt begins: its number, which is the session's last one from now on.
    pub(crate) fn begin(&mut self) -> Result<u32, Refusal>
        ensures named { self.new.session.number ≡ self.old.session.number }
        ensures refused { result_err result ≡ model.begin_refusal self.old.session.mirror }
        ensures number { IfOk result (λ n. n ≡ self.old.session.last + 1) }
        ensures begun { OnOk result (self.new ≡ record self.old { session = model.begun self.old.session }) }
        ensures same { OnErr result (self.new ≡ self.old) }
    {
        match &mut self.mirror {
            Some(mirror) => {
                let n = mirror.master.begin()?;
                self.last = n;
                Ok(n)
            }
            None => Err(NO_MASTER),
        }
    }

    /// A server replies to the order that it is owed.
    pub(crate) fn reply(&mut self, server: ServerId, r: Reply)
        requires server { server.0 < 8 }
        requires expected { IsTrue (expects self.old.session.mirror server.0 r) }
        ensures { self.new ≡ record self.old { session = model.with_master (λ m. phases.replied m server.0 (reply_of r)) self.old.session } }
    {
        if let Some(mirror) = &mut self.mirror {
            mirror.master.reply(server, r);
        }
    }

    /// The attempt is given up.
    pub(crate) fn abort(&mut self) -> Result<(), Refusal>
        ensures named { self.new.session.number ≡ self.old.session.number }
        ensures refused { result_err result ≡ model.abort_refusal self.old.session.mirror }
        ensures aborted { OnOk result (self.new ≡ record self.old { session = model.with_master phases.aborted self.old.session }) }
        ensures same { OnErr result (self.new ≡ self.old) }
    {
        match &mut self.mirror {
            Some(mirror) => mirror.master.abort(),
            None => Err(NO_MASTER),
        }
    }

    /// Whether its master owes the server an order to which this is a reply.
    pub(crate) fn expects(&self, server: ServerId, r: &Reply) -> bool
        requires { server.0 < 8 }
        ensures { result ≡ expects self.now.session.mirror server.0 r.now }
    {
        match &self.mirror {
            Some(mirror) => mirror.master.expects(server, r),
            None => false,
        }
    }

    /// Whether its master is Lost and all servers have reported.
    pub(crate) fn can_settle(&self) -> bool
        ensures { IsTrue result ↔ IsSomeAnd self.now.session.mirror (λ r. (r.master.phase ≡ phase.Lost) × (r.master.owed ≡ [])) }
    {
        match &self.mirror {
            Some(mirror) => mirror.has_all_reports(),
            None => false,
        }
    }

    /// All have reported.
    pub(crate) fn settle_start(&mut self)
        requires { IsSomeAnd self.old.session.mirror (λ r. (r.master.phase ≡ phase.Lost) × (r.master.owed ≡ [])) }
        ensures { self.new ≡ record self.old { session = model.with_master phases.settled self.old.session } }
    {
        if let Some(mirror) = &mut self.mirror {
            mirror.master.settle_start();
        }
    }

    /// Why the member with that primary volume can't go: there is none, or the master isn't Idle.
    pub(crate) fn remove_refusal(&self, s: SessionId, a: VolumeId) -> Option<Refusal>
        ensures { result ≡ model.remove_refusal (Some self.now.session) s.0 a.0 }
    {
        if self.is_member(a) {
            self.busy()
        } else {
            Some(Refusal::NotInSession { session: s })
        }
    }

    /// Why a logical subsystem can't leave: it isn't here, a member lies in it, or it is the last one and
    /// there is a master.
    pub(crate) fn leave_refusal(&self, s: SessionId, l: Lss) -> Option<Refusal>
        ensures { result ≡ model.leave_refusal (Some self.now.session) s.0 l.0 }
    {
        if !self.has_subsystem(l) {
            Some(Refusal::NotInSession { session: s })
        } else if self.has_member_in(l) {
            Some(Refusal::InSession {
                session: self.number,
            })
        } else if self.is_only(l) {
            self.mirror.as_ref().map(Mirror::formation)
        } else {
            None
        }
    }

    /// Why the master can't go: there is none, or it isn't Idle.
    pub(crate) fn drop_refusal(&self) -> Option<Refusal>
        ensures { result ≡ model.drop_refusal self.now.session.mirror }
    {
        match &self.mirror {
            Some(mirror) => mirror.busy(),
            None => Some(NO_MASTER),
        }
    }

    /// Why a member can't come or go now: the master isn't Idle.
    pub(crate) fn busy(&self) -> Option<Refusal>
        ensures { result ≡ model.busy self.now.session.mirror }
    {
        self.mirror.as_ref().and_then(Mirror::busy)
    }
}

impl Mirror {
    ghost use Rattle.dr_session.specs.Seen.{mirror_of, expects};

    /// A server has stopped: the master is lost where that server runs it.
    fn lose(&mut self, server: ServerId)
        ensures { mirror_of self.new ≡ model.mirror_lost server.0 (mirror_of self.old) }
    {
        if self.server.0 == server.0 {
            self.master.lose();
        }
    }

    /// Whether its master is Lost and all servers have reported.
    fn has_all_reports(&self) -> bool
        ensures { IsTrue result ↔ (self.now.master.phase ≡ phase.Lost) × (self.now.master.owed ≡ []) }
    {
        matches!(self.master.phase(), PhaseName::Lost) && self.master.is_answered()
    }

    /// Its phase and number, as a refusal says them.
    pub(crate) fn formation(&self) -> Refusal
        ensures { Some result ≡ model.formation (mirror_of self.now) }
    {
        Refusal::InFormation {
            phase: self.master.phase(),
            n: self.master.number(),
        }
    }

    /// Its phase and number as a refusal, unless it is Idle.
    pub(crate) fn busy(&self) -> Option<Refusal>
        ensures { result ≡ model.busy (Some (mirror_of self.now)) }
    {
        match self.master.phase() {
            PhaseName::Idle => None,
            _ => Some(self.formation()),
        }
    }
}
