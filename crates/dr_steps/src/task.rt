//! One step of a line: whether it may be carried out, what it comes to, and its answer.

ghost use Rattle.std.specs.Prelude.{◌≡◌, ℕ, ◌+◌, ◌<◌, ◌≤◌, ◌^◌, true, false, [], length, Some, None, Ok, OnOk, OnErr};
ghost use Rattle.dr_logic.specs.Counts.{Counted};
ghost use Rattle.dr_ids.specs.declared.refusal.Refusal.{Refusal};
ghost use Rattle.dr_ctl.specs.Kept.{flight_in};
ghost use Rattle.dr_model.specs.Laws.{FlightCounted, Sound};
ghost use Rattle.dr_model.specs.Limits.{most_events, step_events};
ghost use Rattle.dr_model.specs.LineText.{IsWritten};
ghost use Rattle.dr_model.specs.Plans.{has_room, plan_of};
ghost use Rattle.dr_model.specs.Listed.{Lists, task_on};
ghost use Rattle.dr_model.specs.Runs.{Devices, own_course, after_plan, after_task};
ghost use Rattle.dr_model.specs.declared.step.Step.{Step};
ghost use Rattle.dr_steps.specs.Counts.{HasCounts};
ghost use Rattle.dr_steps.specs.Faults.{CountsStop, told_stop};
ghost use Rattle.dr_steps.specs.Forms.{is_defining, is_hosted};
ghost use Rattle.dr_steps.specs.Here.{here, OnSaid, OnNoMemory, StepLeads, IsReady};
ghost use Rattle.dr_steps.specs.Wants.{WantsRow, WantsMemory};
ghost use Rattle.dr_steps.specs.WellFormed.{IsWellFormed};

use crate::answers::{STEP_EVENTS, all_done, answer_widened, has_room, refuse, say, widened};
use crate::comparing::carry_compare;
use crate::define::{define_server, define_volume, set_link};
use crate::expiry::expire;
use crate::forming::carry_run;
use crate::forms::carry_session;
use crate::freezing::{freeze, unfreeze};
use crate::imaging::carry_image;
use crate::listing::{list_flashes, list_pairs, list_session, show_mirror};
use crate::masters::{lose_masters, servers_on};
use crate::paths::{make_path, remove_path};
use crate::steps::{HostWrite, apply, issue, show, write};
use crate::stops::{arm, start, stop};
use crate::tables::Tables;
use dr_config::Config;
use dr_ids::{Fault, Lss, Refusal, SessionId, VolumeId};
use dr_model::{Journal, Said, Step};
use dr_plant::Plant;
use std::alloc::AllocError;

/// Carries out a listing. Where there is no memory nothing has changed.
fn carry_listing<P: Plant>(
    plant: &mut P,
    config: &Config,
    tables: &mut Tables,
    journal: &mut Journal,
    line: u32,
    step: &Step,
) -> Result<Said, Fault>
    requires ready { IsReady (P.state plant.old) config.now tables.old journal.old.events }
    requires sound { Sound (here (P.state plant.old) config.now tables.old journal.old.events) }
    requires counts { HasCounts (length config.now.names) (flight_in tables.old.flight) }
    requires fits { IsWellFormed step.now }
    requires few { length config.now.volumes ≤ 64 }
    requires room { step_events ≤ journal.old.spare }
    requires other { is_defining step.now ≡ false }
    requires unhosted { is_hosted step.now ≡ false }
    ensures step { OnSaid result (λ a. StepLeads (here (P.state plant.old) config.now tables.old journal.old.events) line step.now
        (here (P.state plant.new) config.now tables.new journal.new.events) a) }
    ensures faults { OnSaid result (λ a. CountsStop a (P.state plant.old) (P.state plant.new)) }
    ensures wanted { OnNoMemory result (WantsRow (here (P.state plant.old) config.now tables.old journal.old.events) step.now) }
    ensures same { OnNoMemory result (here (P.state plant.new) config.now tables.new journal.new.events ≡ here (P.state plant.old) config.now tables.old journal.old.events) }
    ensures same_plant { OnNoMemory result (P.state plant.new ≡ P.state plant.old) }
    ensures ready { IsReady (P.state plant.new) config.now tables.new journal.new.events }
    ensures host { tables.new.host ≡ tables.old.host }
    ensures room { 1 ≤ journal.new.spare }
{
    match *step {
        Step::ListPairs { devs, volume } => widened(list_pairs(
            plant,
            config,
            tables,
            journal,
            line,
            &devs.dev,
            VolumeId(volume),
        )),
        Step::ListFlashes { devs, volume } => widened(list_flashes(
            plant,
            config,
            tables,
            journal,
            line,
            &devs.dev,
            VolumeId(volume),
        )),
        Step::ListSession { devs, lss } => widened(list_session(
            plant,
            config,
            tables,
            journal,
            line,
            &devs.dev,
            Lss(lss),
        )),
        Step::ShowMirror { devs, lss } => widened(show_mirror(
            plant,
            config,
            tables,
            journal,
            line,
            &devs.dev,
            Lss(lss),
        )),
        _ => all_done(carry_session(plant, config, tables, journal, step)),
    }
}

/// Carries out a host write, a step that shows a track, or one that stops or starts a server, arms its fuse or ends its holds. Where
/// there is no memory nothing has changed.
fn carry_host<P: Plant>(
    plant: &mut P,
    config: &Config,
    tables: &mut Tables,
    journal: &mut Journal,
    line: u32,
    step: &Step,
) -> Result<Said, Fault>
    requires ready { IsReady (P.state plant.old) config.now tables.old journal.old.events }
    requires sound { Sound (here (P.state plant.old) config.now tables.old journal.old.events) }
    requires counts { HasCounts (length config.now.names) (flight_in tables.old.flight) }
    requires fits { IsWellFormed step.now }
    requires few { length config.now.volumes ≤ 64 }
    requires room { step_events ≤ journal.old.spare }
    requires count { tables.old.host.issued + 1 < 2 ^ 32 }
    requires other { is_defining step.now ≡ false }
    ensures step { OnSaid result (λ a. StepLeads (here (P.state plant.old) config.now tables.old journal.old.events) line step.now
        (here (P.state plant.new) config.now tables.new journal.new.events) a) }
    ensures faults { OnSaid result (λ a. CountsStop a (P.state plant.old) (P.state plant.new)) }
    ensures wanted { OnNoMemory result (WantsRow (here (P.state plant.old) config.now tables.old journal.old.events) step.now) }
    ensures same { OnNoMemory result (here (P.state plant.new) config.now tables.new journal.new.events ≡ here (P.state plant.old) config.now tables.old journal.old.events) }
    ensures same_plant { OnNoMemory result (P.state plant.new ≡ P.state plant.old) }
    ensures ready { IsReady (P.state plant.new) config.now tables.new journal.new.events }
    ensures issued { tables.new.host.issued ≤ tables.old.host.issued + 1 }
    ensures room { 1 ≤ journal.new.spare }
{
    match *step {
        Step::Issue {
            volume,
            track,
            offset,
            len,
            bytes,
        } => {
            let asked = asked(volume, track, offset, len, bytes);
            all_done(issue(plant, config, tables, journal, &asked))
        }
        Step::Write {
            volume,
            track,
            offset,
            len,
            bytes,
        } => {
            let asked = asked(volume, track, offset, len, bytes);
            write(plant, config, tables, journal, &asked)
        }
        Step::Apply { w } => answer_widened(apply(plant, config, tables, journal, w)),
        Step::Show { volume, track } => widened(show(
            plant,
            config,
            tables,
            journal,
            line,
            VolumeId(volume),
            track,
        )),
        Step::Stop { server } => widened(stop(plant, config, tables, journal, &server)),
        Step::StopAfter {
            server,
            writes,
            torn,
        } => widened(arm(plant, config, tables, journal, &server, writes, torn)),
        Step::Start { server } => widened(start(plant, config, tables, journal, &server)),
        Step::Expire { server } => widened(expire(plant, config, tables, journal, &server)),
        _ => carry_listing(plant, config, tables, journal, line, step),
    }
}

/// Carries out a step that is one plan. Where there is no memory nothing has changed.
fn carry_out<P: Plant>(
    plant: &mut P,
    config: &mut Config,
    tables: &mut Tables,
    journal: &mut Journal,
    line: u32,
    step: &Step,
) -> Result<Said, Fault>
    requires ready { IsReady (P.state plant.old) config.old tables.old journal.old.events }
    requires sound { Sound (here (P.state plant.old) config.old tables.old journal.old.events) }
    requires counts { HasCounts (length config.old.names) (flight_in tables.old.flight) }
    requires fits { IsWellFormed step.now }
    requires few { length config.old.volumes ≤ 64 }
    requires room { step_events ≤ journal.old.spare }
    requires count { tables.old.host.issued + 1 < 2 ^ 32 }
    ensures step { OnSaid result (λ a. StepLeads (here (P.state plant.old) config.old tables.old journal.old.events) line step.now
        (here (P.state plant.new) config.new tables.new journal.new.events) a) }
    ensures faults { OnSaid result (λ a. CountsStop a (P.state plant.old) (P.state plant.new)) }
    ensures wanted { OnNoMemory result (WantsRow (here (P.state plant.old) config.old tables.old journal.old.events) step.now) }
    ensures same { OnNoMemory result (here (P.state plant.new) config.new tables.new journal.new.events ≡ here (P.state plant.old) config.old tables.old journal.old.events) }
    ensures same_plant { OnNoMemory result (P.state plant.new ≡ P.state plant.old) }
    ensures ready { IsReady (P.state plant.new) config.new tables.new journal.new.events }
    ensures issued { tables.new.host.issued ≤ tables.old.host.issued + 1 }
    ensures room { 1 ≤ journal.new.spare }
{
    match *step {
        Step::Server { name } => all_done(define_server(plant, config, tables, journal, &name)),
        Step::Volume {
            volume,
            server,
            tracks,
        } => all_done(define_volume(
            plant,
            config,
            tables,
            journal,
            VolumeId(volume),
            &server,
            tracks,
        )),
        Step::Link { a, b, up } => widened(set_link(plant, config, tables, journal, &a, &b, up)),
        Step::MakePath {
            devs,
            src,
            tgt,
            group,
        } => all_done(make_path(
            plant,
            config,
            tables,
            journal,
            &devs,
            Lss(src),
            Lss(tgt),
            group,
        )),
        Step::RemovePath {
            devs,
            src,
            tgt,
            force,
        } => widened(remove_path(
            plant,
            config,
            tables,
            journal,
            &devs,
            Lss(src),
            Lss(tgt),
            force,
        )),
        Step::Freeze { devs, l, m } => widened(freeze(
            plant,
            config,
            tables,
            journal,
            &devs,
            Lss(l),
            Lss(m),
        )),
        Step::Unfreeze { devs, l, m } => widened(unfreeze(
            plant,
            config,
            tables,
            journal,
            &devs,
            Lss(l),
            Lss(m),
        )),
        _ => carry_host(plant, config, tables, journal, line, step),
    }
}

/// A host write as a step asks for it.
fn asked(volume: u16, track: u32, offset: u8, len: u8, bytes: [u8; 64]) -> HostWrite
    ensures { result ≡ record { volume = record { 0 = volume }; track = track; offset = offset; len = len; bytes = bytes } }
{
    HostWrite {
        volume: VolumeId(volume),
        track,
        offset,
        len,
        bytes,
    }
}

/// Carries out a step that is one plan, for which the journal has room, and answers it. What its end makes of the
/// masters is still to come. Where there is no memory nothing has changed.
fn carry_answered<P: Plant>(
    plant: &mut P,
    config: &mut Config,
    tables: &mut Tables,
    journal: &mut Journal,
    number: u32,
    step: &Step,
) -> Result<(), AllocError>
    requires ready { IsReady (P.state plant.old) config.old tables.old journal.old.events }
    requires sound { Sound (here (P.state plant.old) config.old tables.old journal.old.events) }
    requires counts { HasCounts (length config.old.names) (flight_in tables.old.flight) }
    requires fits { IsWellFormed step.now }
    requires few { length config.old.volumes ≤ 64 }
    requires room { step_events ≤ journal.old.spare }
    requires count { tables.old.host.issued + 1 < 2 ^ 32 }
    requires alone { own_course (Ok step.now) ≡ None }
    requires has_room { has_room journal.old.events ≡ true }
    ensures plan { OnOk result (after_plan (here (P.state plant.old) config.old tables.old journal.old.events) number
        (plan_of (here (P.state plant.old) config.old tables.old journal.old.events).control journal.old.events number step.now)
        ≡ here (P.state plant.new) config.new tables.new journal.new.events) }
    ensures wanted { OnErr result (WantsRow (here (P.state plant.old) config.old tables.old journal.old.events) step.now) }
    ensures same { OnErr result (here (P.state plant.new) config.new tables.new journal.new.events ≡ here (P.state plant.old) config.old tables.old journal.old.events) }
    ensures same_plant { OnErr result (P.state plant.new ≡ P.state plant.old) }
    ensures ready { IsReady (P.state plant.new) config.new tables.new journal.new.events }
    ensures faults { (f : ℕ) → Counted (told_stop journal.old.events) f (P.state plant.old).faults → Counted (told_stop journal.new.events) f (P.state plant.new).faults }
    ensures issued { tables.new.host.issued ≤ tables.old.host.issued + 1 }
{
    match carry_out(plant, config, tables, journal, number, step) {
        Ok(answer) => {
            say(journal, number, answer);
            Ok(())
        }
        Err(Fault::Refused(refusal)) => {
            say(journal, number, Said::Refused(refusal));
            Ok(())
        }
        Err(Fault::NoMemory) => Err(AllocError),
    }
}

/// Carries out a step that is one plan, for which the journal has room, and answers it: each master whose
/// server stopped in it is lost as it ends. Where there is no memory nothing has changed.
fn carry_planned<P: Plant>(
    plant: &mut P,
    config: &mut Config,
    tables: &mut Tables,
    journal: &mut Journal,
    number: u32,
    step: &Step,
) -> Result<(), AllocError>
    requires ready { IsReady (P.state plant.old) config.old tables.old journal.old.events }
    requires sound { Sound (here (P.state plant.old) config.old tables.old journal.old.events) }
    requires counted { FlightCounted (here (P.state plant.old) config.old tables.old journal.old.events) }
    requires fits { IsWellFormed step.now }
    requires few { length config.old.volumes ≤ 64 }
    requires room { step_events ≤ journal.old.spare }
    requires count { tables.old.host.issued + 1 < 2 ^ 32 }
    requires alone { own_course (Ok step.now) ≡ None }
    requires has_room { has_room journal.old.events ≡ true }
    ensures task { OnOk result (after_task (here (P.state plant.old) config.old tables.old journal.old.events) (record { line = number; asked = Ok step.now; listed = [] })
        ≡ here (P.state plant.new) config.new tables.new journal.new.events) }
    ensures wanted { OnErr result (WantsRow (here (P.state plant.old) config.old tables.old journal.old.events) step.now) }
    ensures same { OnErr result (here (P.state plant.new) config.new tables.new journal.new.events ≡ here (P.state plant.old) config.old tables.old journal.old.events) }
    ensures same_plant { OnErr result (P.state plant.new ≡ P.state plant.old) }
    ensures ready { IsReady (P.state plant.new) config.new tables.new journal.new.events }
    ensures faults { (f : ℕ) → Counted (told_stop journal.old.events) f (P.state plant.old).faults → Counted (told_stop journal.new.events) f (P.state plant.new).faults }
    ensures issued { tables.new.host.issued ≤ tables.old.host.issued + 1 }
{
    let before = servers_on(plant);
    match carry_answered(plant, config, tables, journal, number, step) {
        Ok(()) => {
            lose_masters(plant, &before, &mut tables.sessions, &mut tables.flight);
            Ok(())
        }
        Err(AllocError) => Err(AllocError),
    }
}

/// Carries out a step that is one plan, and answers it; refused where the journal has no room. Without memory nothing has changed.
fn carry_alone<P: Plant>(
    plant: &mut P,
    config: &mut Config,
    tables: &mut Tables,
    journal: &mut Journal,
    number: u32,
    step: &Step,
) -> Result<(), AllocError>
    requires ready { IsReady (P.state plant.old) config.old tables.old journal.old.events }
    requires sound { Sound (here (P.state plant.old) config.old tables.old journal.old.events) }
    requires counted { FlightCounted (here (P.state plant.old) config.old tables.old journal.old.events) }
    requires written { IsWritten step.now }
    requires few { length config.old.volumes ≤ 64 }
    requires count { tables.old.host.issued + 1 < 2 ^ 32 }
    requires below { length journal.old.events < most_events }
    requires alone { own_course (Ok step.now) ≡ None }
    ensures task { OnOk result (after_task (here (P.state plant.old) config.old tables.old journal.old.events) (record { line = number; asked = Ok step.now; listed = [] })
        ≡ here (P.state plant.new) config.new tables.new journal.new.events) }
    ensures wanted { OnErr result (WantsMemory (here (P.state plant.old) config.old tables.old journal.old.events) (Ok step.now) (length journal.old.events + journal.old.spare)) }
    ensures same { OnErr result (here (P.state plant.new) config.new tables.new journal.new.events ≡ here (P.state plant.old) config.old tables.old journal.old.events) }
    ensures same_plant { OnErr result (P.state plant.new ≡ P.state plant.old) }
    ensures ready { IsReady (P.state plant.new) config.new tables.new journal.new.events }
    ensures faults { (f : ℕ) → Counted (told_stop journal.old.events) f (P.state plant.old).faults → Counted (told_stop journal.new.events) f (P.state plant.new).faults }
    ensures issued { tables.new.host.issued ≤ tables.old.host.issued + 1 }
{
    if !has_room(journal) {
        return refuse(journal, number, Refusal::JournalFull);
    }
    journal.reserve(STEP_EVENTS)?;
    carry_planned(plant, config, tables, journal, number, step)
}

/// Carries out a step, and answers it. It is refused where the journal has no room for what it may tell. An image lists the plant's
/// own devices (`lists`), and leaves the plant as it is (`still`). Where there is no memory nothing has changed.
pub fn carry_task<P: Plant>(
    plant: &mut P,
    config: &mut Config,
    tables: &mut Tables,
    journal: &mut Journal,
    number: u32,
    step: &Step,
) -> Result<(), AllocError>
    requires ready { IsReady (P.state plant.old) config.old tables.old journal.old.events }
    requires sound { Sound (here (P.state plant.old) config.old tables.old journal.old.events) }
    requires counted { FlightCounted (here (P.state plant.old) config.old tables.old journal.old.events) }
    requires written { IsWritten step.now }
    requires few { length config.old.volumes ≤ 64 }
    requires count { tables.old.host.issued + 1 < 2 ^ 32 }
    requires below { length journal.old.events < most_events }
    ensures task { OnOk result (after_task (here (P.state plant.old) config.old tables.old journal.old.events) (task_on (here (P.state plant.old) config.old tables.old journal.old.events) (P.state plant.old).block number (Ok step.now))
        ≡ here (P.state plant.new) config.new tables.new journal.new.events) }
    ensures lists { OnOk result (Lists (here (P.state plant.old) config.old tables.old journal.old.events) (task_on (here (P.state plant.old) config.old tables.old journal.old.events) (P.state plant.old).block number (Ok step.now))) }
    ensures still { OnOk result (own_course (Ok step.now) ≡ Some Devices → P.state plant.new ≡ P.state plant.old) }
    ensures wanted { OnErr result (WantsMemory (here (P.state plant.old) config.old tables.old journal.old.events) (Ok step.now) (length journal.old.events + journal.old.spare)) }
    ensures same { OnErr result (here (P.state plant.new) config.new tables.new journal.new.events ≡ here (P.state plant.old) config.old tables.old journal.old.events) }
    ensures same_plant { OnErr result (P.state plant.new ≡ P.state plant.old) }
    ensures ready { IsReady (P.state plant.new) config.new tables.new journal.new.events }
    ensures faults { (f : ℕ) → Counted (told_stop journal.old.events) f (P.state plant.old).faults → Counted (told_stop journal.new.events) f (P.state plant.new).faults }
    ensures issued { tables.new.host.issued ≤ tables.old.host.issued + 1 }
{
    match *step {
        Step::Run { session, groups } => carry_run(
            plant,
            config,
            tables,
            journal,
            number,
            SessionId(session),
            groups,
        ),
        Step::Compare { v, w } => carry_compare(
            plant,
            config,
            tables,
            journal,
            number,
            VolumeId(v),
            VolumeId(w),
        ),
        Step::Image => carry_image(plant, config, tables, journal, number),
        _ => carry_alone(plant, config, tables, journal, number, step),
    }
}
