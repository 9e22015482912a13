//! A run that goes on: one text after another is carried out, and nobody hears the answers.

ghost use Rattle.std.specs.Prelude.{◌≡◌, ◌≤◌, ◌+◌, ◌<◌, ◌&&◌, ◌||◌, [], IfSome, List, Some, drop, length, nat_eq, nat_lt, slice_get, option_map};
ghost use Rattle.dr_io.specs.Lines.{most_bytes, most_lines};
ghost use Rattle.dr_plant.specs.State.{PlantState, IsFresh};
ghost use Rattle.dr_config.specs.Table.{IsSoundConfig};
ghost use Rattle.dr_model.specs.declared.event.Event.{Event};
ghost use Rattle.dr_model.specs.Forming.{master_in, next_asked, phase_in};
ghost use Rattle.dr_model.specs.PairEntries.{is_copying};
ghost use Rattle.dr_model.specs.PlanParts.{server_named};
ghost use Rattle.dr_model.specs.Runs.{Task};
ghost use Rattle.dr_model.specs.SessionEntries.{counts_at};
ghost use Rattle.dr_model.specs.Sessions as model;
ghost use Rattle.dr_top.specs.Outcome.{has_refusal};
ghost use Rattle.dr_top.specs.Statuses.{text_status};
ghost use Rattle.dr_top.specs.OpenRuns.{GoesOn, HasRun, IsAnyRun, IsOfRun, IsPlantOf, runs_named, shown};

use crate::carry::{Bar, carry_text};
use crate::status::{Status, whole_status};
use dr_config::Config;
use dr_ids::{Member, PhaseName, ServerId, SessionId, VolumeId};
use dr_io::{SCRIPT_LIMITS, line_count};
use dr_model::Journal;
use dr_plant::Plant;
use dr_steps::{Tables, is_copying, next_asked};
use dr_volume::{Head, peek_head};
use std::alloc::Global;
use std::marker::Model;

/// A run between two texts. Its plant and its journal are the caller's, who lends them to each call: always the same ones, and as the call
/// before left them.
#[derive(Drop)]
pub struct OpenRun {
    config: Config,
    tables: Tables,
    lines: u32,
    bytes: u32,
}

impl Model for OpenRun {
    ghost use Rattle.std.specs.Prelude.{◌≤◌};
    ghost use Rattle.dr_io.specs.Lines.{most_bytes, most_lines};
    ghost use Rattle.dr_top.specs.OpenRuns.{RunProgress};

    ghost Value = { RunProgress };

    ghost view = { λ r. record { config = r.config; tables = r.tables; lines = r.lines; bytes = r.bytes } };

    ghost invariant = { λ r. (r.lines ≤ most_lines) × (r.bytes ≤ most_bytes) };
}

impl OpenRun {
    /// A run that carried out nothing yet.
    pub fn new(alloc: Global) -> OpenRun
        ensures begins { (s : PlantState) → IsFresh s → HasRun s s result [] [] }
        ensures lines { result.lines ≡ 0 }
        ensures bytes { result.bytes ≡ 0 }
    {
        OpenRun {
            config: Config::new(alloc),
            tables: Tables::new(alloc),
            lines: 0,
            bytes: 0,
        }
    }

    /// Carries out the steps of one more text. Its lines are numbered on, and its end ends a line, too. Ends with `Done` or `DoneRefused`
    /// where all of them were carried out, with the second where one of them was refused; with `NoMemory`; or with `TooLong`, where a step
    /// found the journal full, or where all texts together are past a script's limits: then nothing is done.
    pub fn carry_out<P: Plant>(
        &mut self,
        alloc: Global,
        text: &[u8],
        plant: &mut P,
        journal: &mut Journal,
    ) -> Status
        requires { IsOfRun (P.state plant.old) self.old journal.old.events }
        ensures { (s0 : PlantState) (steps : List Task) → HasRun s0 (P.state plant.old) self.old journal.old.events steps
            → GoesOn text.now self.old self.new s0 (P.state plant.old) (P.state plant.new) journal.old.events journal.new.events steps result }
    {
        let lines = line_count(text);
        if self.is_past(text.len(), lines) {
            return Status::TooLong;
        }
        let first = self.lines + 1;
        self.lines += lines as u32;
        self.bytes += text.len() as u32;
        let from = journal.len();
        let carried = carry_text(
            alloc,
            plant,
            &mut self.config,
            &mut self.tables,
            journal,
            first,
            text,
        );
        tell_sound(&self.config);
        status_of(carried, journal, from)
    }

    /// Whether with a text of so many bytes and lines more all texts are past a script's limits.
    fn is_past(&self, bytes: usize, lines: usize) -> bool
        ensures { result ≡ (nat_lt most_bytes (self.now.bytes + bytes) || nat_lt most_lines (self.now.lines + lines)) }
    {
        self.bytes as u128 + bytes as u128 > SCRIPT_LIMITS.bytes as u128
            || self.lines as u128 + lines as u128 > SCRIPT_LIMITS.lines as u128
    }

    /// The session that was defined after `i` others of today's, if there are so many.
    pub fn session_at(&self, i: usize) -> Option<SessionId>
        ensures { (x : PlantState) (events : List Event) → option_map (λ k. k.0) result ≡ option_map (λ y. y.number) (slice_get (shown x self.now events).control.sessions i) }
    {
        self.tables.sessions.session_at(i)
    }

    /// The phase that the session's master is in; none without a master.
    pub fn phase_in(&self, s: SessionId) -> PhaseName
        ensures { (x : PlantState) (events : List Event) → result ≡ phase_in (shown x self.now events).control s.0 }
    {
        match self.tables.sessions.master(s) {
            Some(master) => master.phase(),
            None => PhaseName::None,
        }
    }

    /// How many members the session has, none where it isn't defined.
    pub fn member_count(&self, s: SessionId) -> usize
        ensures { (x : PlantState) (events : List Event) → result ≡ length (model.members_in (model.session_in (shown x self.now events).control.sessions s.0)) }
    {
        self.tables.sessions.member_count(s)
    }

    /// The member that was added to the session after `i` others of today's, if there are so many.
    pub fn member_at(&self, s: SessionId, i: usize) -> Option<Member>
        ensures { (x : PlantState) (events : List Event) → result ≡ slice_get (model.members_in (model.session_in (shown x self.now events).control.sessions s.0)) i }
    {
        self.tables.sessions.member_at(s, i)
    }

    /// Whether the target of that member counts in the session, if there is that member: whether it is a member's there, or revertible. It is
    /// looked at whether or not its server is on.
    pub fn counts<P: Plant>(&self, plant: &P, s: SessionId, i: usize) -> Option<bool>
        requires { IsPlantOf self.now (P.state plant.now) }
        ensures { (events : List Event) → result ≡ option_map (counts_at s.0 (shown (P.state plant.now) self.now events).control)
            (slice_get (model.members_in (model.session_in (shown (P.state plant.now) self.now events).control.sessions s.0)) i) }
    {
        let m = self.tables.sessions.member_at(s, i)?;
        Some(counts_in(s, &peek_head(plant, &self.config, m.c)))
    }

    /// Whether the server of that name runs; not so if there is none.
    pub fn runs<P: Plant>(&self, plant: &P, name: &[u8]) -> bool
        ensures { (events : List Event) → result ≡ runs_named (shown (P.state plant.now) self.now events).control name.now }
    {
        match self.config.server_named(name) {
            Some(server) => plant.is_on(server.0),
            None => false,
        }
    }

    /// The server that an `@run` of the session asks next: none without a master, or where a paused master is Idle.
    pub fn asked_next(&self, s: SessionId) -> Option<ServerId>
        requires { IsAnyRun self.now }
        ensures next { (x : PlantState) (events : List Event) → option_map (λ a. a.0) result ≡ next_asked (master_in (shown x self.now events).control s.0) }
        ensures known { IfSome result (λ a. a.0 < length self.now.config.names) }
    {
        next_asked(&self.tables.sessions, s)
    }

    /// The name of a server that is defined.
    pub fn server_name(&self, server: ServerId) -> &[u8]
        requires { server.0 < length self.now.config.names }
        ensures { (x : PlantState) (events : List Event) → server_named (shown x self.now events).control result.now ≡ Some server.0 }
    {
        tell_sound(&self.config);
        self.config.name(server)
    }

    /// Whether the volume is a primary in Copy Pending; not so if it isn't defined. It is looked at whether or not its server is on.
    pub fn is_copying<P: Plant>(&self, plant: &P, v: VolumeId) -> bool
        requires { IsPlantOf self.now (P.state plant.now) }
        ensures { (events : List Event) → result ≡ is_copying v.0 (shown (P.state plant.now) self.now events).control }
    {
        match self.config.device_of(v) {
            Some(_) => is_copying(&peek_head(plant, &self.config, v)),
            None => false,
        }
    }
}

/// How a text ends that was carried out so, by the events from a place on.
fn status_of(carried: Result<(), Bar>, journal: &Journal, from: usize) -> Status
    requires { from ≤ length journal.now.events }
    ensures { result ≡ text_status carried (has_refusal (drop from journal.now.events)) }
{
    match carried {
        Ok(()) => whole_status(journal, from),
        Err(Bar::Full) => Status::TooLong,
        Err(Bar::NoMemory) => Status::NoMemory,
    }
}

/// Whether a target with this head counts in the session.
fn counts_in(s: SessionId, head: &Head) -> bool
    ensures { result ≡ (nat_eq head.now.session s.0 && (head.now.member || head.now.revertible)) }
{
    head.session == s.0 && (head.member || head.revertible)
}

/// Says that a configuration is sound. Does nothing.
fn tell_sound(config: &Config)
    ensures { IsSoundConfig config.now }
{
    let _count = config.volumes();
}
