//! Steps by their form: each is handed to its function, and what is of another form goes on to the next.

ghost use Rattle.std.specs.Prelude.{◌≡◌, ℕ, ◌<◌, ◌≤◌, true, false, length};
ghost use Rattle.dr_ids.specs.declared.refusal.Refusal.{Refusal};
ghost use Rattle.dr_ctl.specs.Kept.{flight_in};
ghost use Rattle.dr_model.specs.Laws.{Sound};
ghost use Rattle.dr_model.specs.Limits.{step_events};
ghost use Rattle.dr_model.specs.declared.step.Step.{Step};
ghost use Rattle.dr_steps.specs.Counts.{HasCounts};
ghost use Rattle.dr_steps.specs.Faults.{CountsStop};
ghost use Rattle.dr_steps.specs.Forms.{is_plain, is_relation, is_session, is_recovery};
ghost use Rattle.dr_steps.specs.Here.{here, said_of, OnAnswer, OnNoMemory, StepLeads, IsReady};
ghost use Rattle.dr_steps.specs.Wants.{WantsRow};
ghost use Rattle.dr_steps.specs.WellFormed.{IsWellFormed};

use crate::answers::refused;
use crate::background::{copy, destage_volume};
use crate::delivering::deliver;
use crate::exchanges::exchange;
use crate::flash::{make_flash, remove_flash, resync_flash, reverse_flash, unfreeze_flash};
use crate::members::{add_member, remove_member};
use crate::messages::lose;
use crate::pairs::{drain, make_pair, pause_pair, remove_pair, resume_pair};
use crate::recovering::{commit_flash, recover_session, revert_flash};
use crate::returning::carry_return;
use crate::sending::send;
use crate::sessions::{
    abort_attempt, make_mirror, make_session, pause_mirror, remove_mirror, remove_session,
};
use crate::tables::Tables;
use dr_config::Config;
use dr_ids::{Fault, Lss, Refusal, SessionId, VolumeId};
use dr_model::{Addition, Journal, Step};
use dr_moves::FlashOptions;
use dr_plant::Plant;

/// Carries out a step on a FlashCopy relationship, the end of flash holds, or a step that puts a staged track in its place.
fn carry_relation<P: Plant>(
    plant: &mut P,
    config: &Config,
    tables: &Tables,
    journal: &mut Journal,
    step: &Step,
) -> Result<Addition, Refusal>
    requires ready { IsReady (P.state plant.old) config.now tables.now journal.old.events }
    requires sound { Sound (here (P.state plant.old) config.now tables.now journal.old.events) }
    requires fits { IsWellFormed step.now }
    requires few { length config.now.volumes ≤ 64 }
    requires room { step_events ≤ journal.old.spare }
    requires form { is_plain step.now ≡ false }
    requires session { is_session step.now ≡ false }
    requires recovery { is_recovery step.now ≡ false }
    ensures step { (line : ℕ) → StepLeads (here (P.state plant.old) config.now tables.now journal.old.events) line step.now
        (here (P.state plant.new) config.now tables.now journal.new.events) (said_of result) }
    ensures faults { CountsStop (said_of result) (P.state plant.old) (P.state plant.new) }
    ensures ready { IsReady (P.state plant.new) config.now tables.now journal.new.events }
    ensures room { 1 ≤ journal.new.spare }
{
    match *step {
        Step::MakeFlash {
            devs,
            s,
            t,
            nocopy,
            persistent,
            recorded,
            inhibited,
            freeze,
            sequence,
        } => {
            let options = FlashOptions {
                nocopy,
                persistent,
                recorded,
                inhibited,
                sequence: sequence.unwrap_or(0),
            };
            make_flash(
                plant,
                config,
                tables,
                journal,
                &devs.dev,
                VolumeId(s),
                VolumeId(t),
                freeze,
                &options,
            )
        }
        Step::RemoveFlash { devs, s, t, .. } => {
            remove_flash(
                plant,
                config,
                tables,
                journal,
                &devs.dev,
                VolumeId(s),
                VolumeId(t),
            )
        }
        Step::ResyncFlash {
            devs,
            s,
            t,
            sequence,
            ..
        } => {
            resync_flash(
                plant,
                config,
                tables,
                journal,
                &devs.dev,
                VolumeId(s),
                VolumeId(t),
                sequence,
            )
        }
        Step::ReverseFlash { devs, s, t, .. } => {
            reverse_flash(
                plant,
                config,
                tables,
                journal,
                &devs.dev,
                VolumeId(s),
                VolumeId(t),
            )
        }
        Step::UnfreezeFlash { devs, lss } => {
            unfreeze_flash(plant, config, tables, journal, &devs.dev, Lss(lss))
        }
        Step::Copy { volume, most } => {
            copy(plant, config, tables, journal, VolumeId(volume), most)
        }
        Step::Destage { volume } => {
            destage_volume(plant, config, tables, journal, VolumeId(volume))
        }
        _ => carry_pair(plant, config, tables, journal, step),
    }
}

/// Carries out a step on a pair.
fn carry_pair<P: Plant>(
    plant: &mut P,
    config: &Config,
    tables: &Tables,
    journal: &mut Journal,
    step: &Step,
) -> Result<Addition, Refusal>
    requires ready { IsReady (P.state plant.old) config.now tables.now journal.old.events }
    requires sound { Sound (here (P.state plant.old) config.now tables.now journal.old.events) }
    requires fits { IsWellFormed step.now }
    requires few { length config.now.volumes ≤ 64 }
    requires room { step_events ≤ journal.old.spare }
    requires form { is_plain step.now ≡ false }
    requires session { is_session step.now ≡ false }
    requires recovery { is_recovery step.now ≡ false }
    requires other { is_relation step.now ≡ false }
    ensures step { (line : ℕ) → StepLeads (here (P.state plant.old) config.now tables.now journal.old.events) line step.now
        (here (P.state plant.new) config.now tables.now journal.new.events) (said_of result) }
    ensures faults { CountsStop (said_of result) (P.state plant.old) (P.state plant.new) }
    ensures ready { IsReady (P.state plant.new) config.now tables.now journal.new.events }
    ensures room { 1 ≤ journal.new.spare }
{
    match *step {
        Step::MakePair {
            devs,
            a,
            b,
            kind,
            choices,
        } => make_pair(
            plant,
            config,
            tables,
            journal,
            &devs,
            VolumeId(a),
            VolumeId(b),
            kind,
            choices,
        ),
        Step::RemovePair {
            devs,
            a,
            b,
            source_only,
        } => remove_pair(
            plant,
            config,
            tables,
            journal,
            &devs,
            VolumeId(a),
            VolumeId(b),
            source_only,
        ),
        Step::PausePair { devs, a, b } => pause_pair(
            plant,
            config,
            tables,
            journal,
            &devs,
            VolumeId(a),
            VolumeId(b),
        ),
        Step::ResumePair { devs, a, b, kind } => resume_pair(
            plant,
            config,
            tables,
            journal,
            &devs,
            VolumeId(a),
            VolumeId(b),
            kind,
        ),
        Step::Drain { volume, most } => {
            drain(plant, config, tables, journal, VolumeId(volume), most)
        }
        _ => carry_return(plant, config, tables, journal, step),
    }
}

/// Carries out a recovery, or a commit or a revert by hand.
fn carry_recovery<P: Plant>(
    plant: &mut P,
    config: &Config,
    tables: &Tables,
    journal: &mut Journal,
    step: &Step,
) -> Result<Addition, Refusal>
    requires ready { IsReady (P.state plant.old) config.now tables.now journal.old.events }
    requires sound { Sound (here (P.state plant.old) config.now tables.now journal.old.events) }
    requires fits { IsWellFormed step.now }
    requires few { length config.now.volumes ≤ 64 }
    requires room { step_events ≤ journal.old.spare }
    requires form { is_plain step.now ≡ false }
    requires session { is_session step.now ≡ false }
    ensures step { (line : ℕ) → StepLeads (here (P.state plant.old) config.now tables.now journal.old.events) line step.now
        (here (P.state plant.new) config.now tables.now journal.new.events) (said_of result) }
    ensures faults { CountsStop (said_of result) (P.state plant.old) (P.state plant.new) }
    ensures ready { IsReady (P.state plant.new) config.now tables.now journal.new.events }
    ensures room { 1 ≤ journal.new.spare }
{
    match *step {
        Step::Recover { session } => {
            recover_session(plant, config, tables, journal, SessionId(session))
        }
        Step::CommitFlash { devs, source, .. } => commit_flash(
            plant,
            config,
            tables,
            journal,
            &devs.dev,
            VolumeId(source),
        ),
        Step::RevertFlash { devs, source, .. } => revert_flash(
            plant,
            config,
            tables,
            journal,
            &devs.dev,
            VolumeId(source),
        ),
        _ => carry_relation(plant, config, tables, journal, step),
    }
}

/// Carries out a step on a session, its members, its master or its messages. Where there is no memory nothing has changed.
pub fn carry_session<P: Plant>(
    plant: &mut P,
    config: &Config,
    tables: &mut Tables,
    journal: &mut Journal,
    step: &Step,
) -> Result<Addition, Fault>
    requires ready { IsReady (P.state plant.old) config.now tables.old journal.old.events }
    requires sound { Sound (here (P.state plant.old) config.now tables.old journal.old.events) }
    requires counts { HasCounts (length config.now.names) (flight_in tables.old.flight) }
    requires fits { IsWellFormed step.now }
    requires few { length config.now.volumes ≤ 64 }
    requires room { step_events ≤ journal.old.spare }
    requires form { is_plain step.now ≡ false }
    ensures step { OnAnswer result (λ a. (line : ℕ) → StepLeads (here (P.state plant.old) config.now tables.old journal.old.events) line step.now
        (here (P.state plant.new) config.now tables.new journal.new.events) a) }
    ensures faults { OnAnswer result (λ a. CountsStop a (P.state plant.old) (P.state plant.new)) }
    ensures wanted { OnNoMemory result (WantsRow (here (P.state plant.old) config.now tables.old journal.old.events) step.now) }
    ensures same { OnNoMemory result (here (P.state plant.new) config.now tables.new journal.new.events ≡ here (P.state plant.old) config.now tables.old journal.old.events) }
    ensures same_plant { OnNoMemory result (P.state plant.new ≡ P.state plant.old) }
    ensures ready { IsReady (P.state plant.new) config.now tables.new journal.new.events }
    ensures host { tables.new.host ≡ tables.old.host }
    ensures room { 1 ≤ journal.new.spare }
{
    match *step {
        Step::MakeSession { devs, lss, session } => make_session(
            plant,
            config,
            tables,
            journal,
            &devs,
            Lss(lss),
            SessionId(session),
        ),
        Step::RemoveSession { devs, lss, session } => refused(remove_session(
            plant,
            config,
            tables,
            journal,
            &devs,
            Lss(lss),
            SessionId(session),
        )),
        Step::AddMember {
            devs,
            lss,
            volume,
            session,
        } => add_member(
            plant,
            config,
            tables,
            journal,
            &devs,
            Lss(lss),
            VolumeId(volume),
            SessionId(session),
        ),
        Step::RemoveMember {
            devs,
            lss,
            volume,
            session,
        } => refused(remove_member(
            plant,
            config,
            tables,
            journal,
            &devs,
            Lss(lss),
            VolumeId(volume),
            SessionId(session),
        )),
        Step::MakeMirror {
            devs,
            lss,
            session,
            ..
        } => refused(make_mirror(
            plant,
            config,
            tables,
            journal,
            &devs,
            Lss(lss),
            SessionId(session),
        )),
        Step::PauseMirror { devs, lss, session } => refused(pause_mirror(
            plant,
            config,
            tables,
            journal,
            &devs,
            Lss(lss),
            SessionId(session),
            true,
        )),
        Step::ResumeMirror {
            devs,
            lss,
            session,
            ..
        } => refused(pause_mirror(
            plant,
            config,
            tables,
            journal,
            &devs,
            Lss(lss),
            SessionId(session),
            false,
        )),
        Step::RemoveMirror { devs, lss, session } => refused(remove_mirror(
            plant,
            config,
            tables,
            journal,
            &devs,
            Lss(lss),
            SessionId(session),
        )),
        Step::Abort { session } => refused(abort_attempt(
            plant,
            config,
            tables,
            journal,
            SessionId(session),
        )),
        Step::Exchange {
            session,
            server,
            reply,
        } => refused(exchange(
            plant,
            config,
            tables,
            journal,
            SessionId(session),
            &server,
            reply,
        )),
        Step::Send { session, server } => send(
            plant,
            config,
            tables,
            journal,
            SessionId(session),
            &server,
        ),
        Step::Deliver { message } => deliver(plant, config, tables, journal, message),
        Step::Lose { message } => refused(lose(plant, config, tables, journal, message)),
        _ => refused(carry_recovery(plant, config, tables, journal, step)),
    }
}
