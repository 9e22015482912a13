ghost use Rattle.std.specs.Prelude.{◌≡◌, ◌+◌, ◌<◌, ◌≤◌, ◌^◌, ◌↔◌, [], length, Some, option_map, IsTrue, OnOk, OnErr, IfOk, IfSome};
ghost use Rattle.std.specs.Result.{result_err};
ghost use Rattle.dr_ids.specs.declared.refusal.PhaseName.TheVariants as phase;
ghost use Rattle.dr_model.specs.Messages.{is_lost};
ghost use Rattle.dr_model.specs.Phases as model;
ghost use Rattle.dr_master.specs.Seen.{servers_in, shown_in, reply_of, is_expected, order_of};

use crate::orders::{Order, OrderKind};
use crate::phases::{aborted_phase, next_phase, phase_by};
use crate::reports::{Reply, Report};
use crate::servers::ServerSet;
use dr_ids::{PhaseName, Refusal, ServerId};
use std::marker::Model;

/// The master of a session: its phase, the number of the last attempt, which servers are still owed
/// the phase's order, and what was reported since it was lost.
#[derive(Drop)]
pub struct Master {
    phase: PhaseName,
    number: u32,
    servers: ServerSet,
    owed: ServerSet,
    reports: Report,
}

impl Model for Master {
    ghost use Rattle.std.specs.Prelude.{◌≤◌};
    ghost use Rattle.dr_model.specs.Phases as model;
    ghost use Rattle.dr_master.specs.Seen.{servers_in, shown_in};

    ghost Value = { model.Master };

    ghost view = { λ m. record { phase = m.phase; number = m.number; servers = servers_in m.servers.0; owed = servers_in m.owed.0; reports = shown_in m.reports } };

    ghost invariant = { λ m. m.reports.count ≤ 64 };
}

impl Master {
    /// The Idle master of a session whose members' primary volumes have these servers, after the
    /// attempt of that number.
    pub fn new(servers: ServerSet, last: u32) -> Master
        ensures { result ≡ model.idle (servers_in servers.0) last }
    {
        Master {
            phase: PhaseName::Idle,
            number: last,
            servers,
            owed: ServerSet::EMPTY,
            reports: Report::empty(),
        }
    }

    /// The phase.
    pub fn phase(&self) -> PhaseName
        ensures { result ≡ self.now.phase }
    {
        self.phase
    }

    /// The number of the attempt that goes on, or of the last one.
    pub fn number(&self) -> u32
        ensures { result ≡ self.now.number }
    {
        self.number
    }

    /// The order that a server is owed, if it is owed one.
    pub fn next_order(&self, s: ServerId) -> Option<Order>
        requires { s.0 < 8 }
        ensures { option_map order_of result ≡ model.order_for self.now s.0 }
    {
        let kind = OrderKind::of_phase(self.phase)?;
        if self.owed.contains(s) {
            Some(kind.numbered(self.number))
        } else {
            None
        }
    }

    /// The first server of which something is asked: in Idle the first of all, with which the next
    /// attempt may begin, else the first that is owed its order. Servers come in order of definition.
    pub fn first_asked(&self) -> Option<ServerId>
        ensures first { option_map (λ s. s.0) result ≡ model.first_asked self.now }
        ensures low { IfSome result (λ s. s.0 < 8) }
    {
        match self.phase {
            PhaseName::Idle => self.servers.first(),
            _ => self.owed.first(),
        }
    }

    /// An attempt begins: its number, which is one more than the last. Refused where the phase isn't
    /// Idle, or else where the last number is the greatest of 32 bits; then nothing has changed.
    pub fn begin(&mut self) -> Result<u32, Refusal>
        ensures refused { result_err result ≡ model.begin_refusal self.old.phase self.old.number }
        ensures number { IfOk result (λ n. n ≡ self.old.number + 1) }
        ensures begun { OnOk result (self.new ≡ model.begun self.old) }
        ensures same { OnErr result (self.new ≡ self.old) }
    {
        self.may_begin()?;
        self.number += 1;
        self.enter(PhaseName::Coordinating);
        Ok(self.number)
    }

    /// Whether the server is owed an order to which this is a reply, and all reports together speak of
    /// at most 64 members.
    pub fn expects(&self, s: ServerId, r: &Reply) -> bool
        requires { s.0 < 8 }
        ensures { result ≡ is_expected self.now s.0 r.now }
    {
        self.awaits(s, r) && self.reports.has_room_for(r)
    }

    /// A server replies to the order that it is owed. Where it is done and was the last, the next phase
    /// begins. What is reported is kept until all have reported.
    pub fn reply(&mut self, s: ServerId, r: Reply)
        requires server { s.0 < 8 }
        requires expected { IsTrue (is_expected self.old s.0 r) }
        ensures { self.new ≡ model.replied self.old s.0 (reply_of r) }
    {
        match r {
            Reply::Done => self.note_done(s),
            Reply::NotYet => {}
            Reply::Report(report) => self.note_report(s, &report),
        }
    }

    /// All reports together speak of at most 64 members. Does nothing but state it.
    pub fn tell_few(&self)
        ensures { length self.now.reports ≤ 64 }
    {
        self.reports.tell_few();
    }

    /// Whether no server is owed an order, as in Idle and where all have reported.
    pub fn is_answered(&self) -> bool
        ensures { IsTrue result ↔ (self.now.owed ≡ []) }
    {
        self.owed.is_empty()
    }

    /// The attempt is given up: up to Draining the holds are finished, from Flashing on what was
    /// flashed is reverted, and from Committing on the members are asked what they show. Refused in
    /// every other phase; then nothing has changed.
    pub fn abort(&mut self) -> Result<(), Refusal>
        ensures refused { result_err result ≡ model.abort_refusal self.old.phase }
        ensures aborted { OnOk result (self.new ≡ model.aborted self.old) }
        ensures same { OnErr result (self.new ≡ self.old) }
    {
        match aborted_phase(self.phase) {
            Some(next) => {
                self.enter(next);
                Ok(())
            }
            None => Err(Refusal::OutOfOrder { phase: self.phase }),
        }
    }

    /// The master's server has stopped: the master is Lost, whatever it was, and knows nothing of what
    /// was answered or reported. Without members it is Idle.
    pub fn lose(&mut self)
        ensures { self.new ≡ model.lost self.old }
    {
        if self.servers.is_empty() {
            self.enter(PhaseName::Idle);
        } else {
            self.enter(PhaseName::Lost);
        }
    }

    /// Whether it is Lost where its server stops: without members it stays Idle.
    pub fn can_be_lost(&self) -> bool
        ensures { result ≡ is_lost (Some (model.phase_lost self.now.servers)) }
    {
        !self.servers.is_empty()
    }

    /// All have reported: the rest of the group is committed where that is the decision over what they
    /// show, else what is revertible is reverted.
    pub fn settle_start(&mut self)
        requires lost { self.old.phase ≡ phase.Lost }
        requires all { self.old.owed ≡ [] }
        ensures { self.new ≡ model.settled self.old }
    {
        let decision = self.reports.decision();
        self.enter(phase_by(decision));
    }

    /// The last number is at least `n` from now on.
    pub fn raise(&mut self, n: u32)
        requires { self.old.phase ≡ phase.Idle }
        ensures { self.new ≡ model.raised self.old n }
    {
        self.number = self.number.max(n);
    }

    /// The session's members have other servers.
    pub fn set_servers(&mut self, servers: ServerSet)
        requires { self.old.phase ≡ phase.Idle }
        ensures { self.new ≡ model.with_servers self.old (servers_in servers.0) }
    {
        self.servers = servers;
    }

    // Whether the server is owed an order to which this is a reply.
    fn awaits(&self, s: ServerId, r: &Reply) -> bool
        requires { s.0 < 8 }
        ensures { result ≡ model.awaits self.now s.0 (reply_of r.now) }
    {
        match OrderKind::of_phase(self.phase) {
            Some(kind) => self.owed.contains(s) && kind.is_answered_by(r),
            None => false,
        }
    }

    // Whether an attempt may begin.
    fn may_begin(&self) -> Result<(), Refusal>
        ensures refused { result_err result ≡ model.begin_refusal self.now.phase self.now.number }
        ensures fits { OnOk result (self.now.number + 1 < 2 ^ 32) }
    {
        match self.phase {
            PhaseName::Idle if self.number == u32::MAX => Err(Refusal::NumbersSpent),
            PhaseName::Idle => Ok(()),
            phase => Err(Refusal::OutOfOrder { phase }),
        }
    }

    // A phase begins, in which each server is owed its order.
    fn enter(&mut self, phase: PhaseName)
        ensures { self.new ≡ model.enters phase self.old }
    {
        self.phase = phase;
        self.owed = owed_first(phase, self.servers);
        self.reports = Report::empty();
    }

    // A server has done its work.
    fn note_done(&mut self, s: ServerId)
        requires { s.0 < 8 }
        ensures { self.new ≡ model.left_with self.old (model.without s.0 self.old.owed) }
    {
        let owed = self.owed.without(s);
        if owed.is_empty() {
            self.enter(next_phase(self.phase));
        } else {
            self.owed = owed;
        }
    }

    // A server has said what its members show.
    fn note_report(&mut self, s: ServerId, report: &Report)
        requires server { s.0 < 8 }
        requires few { length self.old.reports + report.now.count ≤ 64 }
        ensures { self.new ≡ model.replied self.old s.0 (model.Reported (shown_in report.now)) }
    {
        self.owed = self.owed.without(s);
        self.reports.append(report);
    }
}

// The servers that are owed a phase's order as it begins.
fn owed_first(phase: PhaseName, servers: ServerSet) -> ServerSet
    ensures { servers_in result.0 ≡ model.owed_first phase (servers_in servers.0) }
{
    match phase {
        PhaseName::Idle => ServerSet::EMPTY,
        _ => servers,
    }
}
