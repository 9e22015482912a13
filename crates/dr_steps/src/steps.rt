//! The steps on a track of a volume: it is shown, and host writes are issued and carried out.

ghost use Rattle.std.specs.Prelude.{◌≡◌, ℕ, ◌+◌, ◌<◌, ◌≤◌, ◌^◌, true, ◌&&◌, length, take, is_some, IsSome, IfOk, OnErr, Some, None};
ghost use Rattle.std.specs.List.{find};
ghost use Rattle.dr_ids.specs.declared.refusal.Refusal.{Refusal};
ghost use Rattle.dr_plant.specs.State.{PlantState};
ghost use Rattle.dr_config.specs.Table.{place_of, StandsFor};
ghost use Rattle.dr_host.specs.Here as seen;
ghost use Rattle.dr_host.specs.declared.pending.Pending.{Pending};
ghost use Rattle.dr_host.specs.Writes.{has_number};
ghost use Rattle.dr_model.specs.declared.step.Step.{Step};
ghost use Rattle.dr_model.specs.Laws.{Sound};
ghost use Rattle.dr_model.specs.Plans.{track_refusal, issue_refusal};
ghost use Rattle.dr_model.specs.Pairs as pairs;
ghost use Rattle.dr_model.specs.WriteEntries.{says_written, waits, write_stretches};
ghost use Rattle.dr_volume.specs.Plain.{plain};
ghost use Rattle.dr_volume.specs.View.{Rest, volume_seen};
ghost use Rattle.dr_moves.specs.Fit.{RelationsFit};
ghost use Rattle.dr_moves.specs.Here.{refusal_of, armed_in};
ghost use Rattle.dr_flash.specs.Views.{view_seen};
ghost use Rattle.dr_moves.specs.Followed.{EndsIn};
ghost use Rattle.dr_metro.specs.Syncing.{end_of};
ghost use Rattle.dr_metro.specs.Writing.{IsDue, WroteIn};
ghost use Rattle.dr_steps.specs.Faults.{CountsStop};
ghost use Rattle.dr_steps.specs.Here.{here, said_of, answered_by, OnAnswer, OnSaid, OnNoMemory, OnRefused, StepLeads, IsReady, IsTold};
ghost use Rattle.dr_steps.specs.Wants.{WantsRow};
ghost use Rattle.dr_steps.specs.Waiting.{IsIssued, PartnersFit, written_as};

use crate::locate::locate;
use crate::tables::Tables;
use dr_cascade::cascade_write_by;
use dr_config::Config;
use dr_flash::read_target;
use dr_host::{Host, Pending};
use dr_ids::{Fault, Kind, Refusal, VolumeId, WriteId};
use dr_metro::{WriteEnd, goes_over, sync_write_by};
use dr_model::{Addition, Event, Journal, Said};
use dr_moves::is_cascaded;
use dr_plant::{Block, Plant};
use dr_volume::{Fields, peek_fields, peek_head};

/// What a track of a volume whose server is on reads as, where reads pass.
fn read_running<P: Plant>(
    plant: &mut P,
    config: &Config,
    tables: &Tables,
    journal: &Journal,
    v: VolumeId,
    t: u16,
) -> Block
    requires ready { IsReady (P.state plant.old) config.now tables.now journal.now.events }
    requires defined { IsSome (place_of config.now v.0) }
    requires running { (P.state plant.old).on (volume_seen (P.state plant.old) config.now v.0).server ≡ true }
    requires known { (volume_seen (P.state plant.old) config.now v.0).server < 8 }
    requires fit { RelationsFit (P.state plant.old) config.now }
    requires within { t < (volume_seen (P.state plant.old) config.now v.0).tracks }
    ensures same { P.state plant.new ≡ P.state plant.old }
    ensures bytes { result ≡ view_seen (P.state plant.old) config.now v.0 t }
{
    let mut bytes = [0; 64];
    match read_target(plant, config, v, t, &mut bytes) {
        Ok(()) => bytes,
        Err(_) => unreachable!(),
    }
}

/// Shows a track of a volume whose server is on: the bytes of its device, or of a target's source, which are those that the
/// host writes of the journal give.
pub fn show<P: Plant>(
    plant: &mut P,
    config: &Config,
    tables: &Tables,
    journal: &mut Journal,
    line: u32,
    volume: VolumeId,
    track: u32,
) -> Result<Addition, Refusal>
    requires ready { IsReady (P.state plant.old) config.now tables.now journal.old.events }
    requires sound { Sound (here (P.state plant.old) config.now tables.now journal.old.events) }
    requires room { 2 ≤ journal.old.spare }
    ensures same { P.state plant.new ≡ P.state plant.old }
    ensures step { StepLeads (here (P.state plant.old) config.now tables.now journal.old.events) line (Step.Show volume.0 track)
        (here (P.state plant.new) config.now tables.now journal.new.events) (said_of result) }
    ensures ready { IsReady (P.state plant.new) config.now tables.now journal.new.events }
    ensures faults { CountsStop (said_of result) (P.state plant.old) (P.state plant.new) }
    ensures room { 1 ≤ journal.new.spare }
{
    let place = match locate(config, volume, track) {
        Ok(place) => place,
        Err(refusal) => return Err(refusal),
    };
    if !plant.is_on(place.server.0) {
        return Err(Refusal::ServerOff {
            server: place.server,
        });
    }
    let bytes = read_running(plant, config, tables, journal, volume, place.track);
    journal.push(Event::Shown {
        line,
        volume: volume.0,
        track: place.track,
        bytes,
    });
    Ok(Addition::Showed)
}

/// A host write as a line gives it: where it goes, and its bytes, the first `len` of them.
#[derive(Clone, Copy)]
pub struct HostWrite {
    pub volume: VolumeId,
    pub track: u32,
    pub offset: u8,
    pub len: u8,
    pub bytes: Block,
}

/// The first `len` bytes of a block.
fn front(bytes: &Block, len: u8) -> &[u8]
    requires { len ≤ 64 }
    ensures { result.now ≡ take len bytes.now }
{
    &bytes[..len as usize]
}

/// Issues a host write on a track that is there, which is pending from then on, and gives its number. Where it is
/// refused or there is no memory, nothing has changed.
fn issue_write(
    config: &Config,
    tables: &mut Tables,
    journal: &mut Journal,
    write: &HostWrite,
) -> Result<WriteId, Fault>
    requires some { 1 ≤ write.now.len }
    requires fits { write.now.offset + write.now.len ≤ 64 }
    requires count { tables.old.host.issued + 1 < 2 ^ 32 }
    requires room { 0 < journal.old.spare }
    ensures refused { OnRefused result (λ r. (s : PlantState) → issue_refusal (here s config.now tables.old journal.old.events).control write.now.volume.0 write.now.track ≡ Some r) }
    ensures wanted { OnNoMemory result ((s : PlantState) → issue_refusal (here s config.now tables.old journal.old.events).control write.now.volume.0 write.now.track ≡ None) }
    ensures done { IfOk result (λ w. IsIssued config.now tables.old journal.old.events tables.new journal.new.events write.now w.0) }
    ensures same { OnErr result (tables.new ≡ tables.old) }
    ensures untold { OnErr result (journal.new.events ≡ journal.old.events) }
    ensures told { IsTold tables.old journal.old.events → IsTold tables.new journal.new.events }
    ensures issued { tables.new.host.issued ≤ tables.old.host.issued + 1 }
    ensures room { journal.old.spare ≤ journal.new.spare + 1 }
{
    let place = match locate(config, write.volume, write.track) {
        Ok(place) => place,
        Err(refusal) => return Err(Fault::Refused(refusal)),
    };
    let bytes = write.bytes;
    let _issued = tables.host.issued();
    match tables.host.issue(
        write.volume,
        place.track,
        write.offset,
        front(&bytes, write.len),
    ) {
        Ok(w) => {
            journal.push(Event::Issue {
                w: w.0,
                volume: write.volume.0,
                track: place.track,
                offset: write.offset,
                len: write.len,
                bytes,
            });
            Ok(w)
        }
        Err(fault) => Err(fault),
    }
}

/// Issues a host write, which stays pending. Where there is no memory nothing has changed.
pub fn issue<P: Plant>(
    plant: &P,
    config: &Config,
    tables: &mut Tables,
    journal: &mut Journal,
    write: &HostWrite,
) -> Result<Addition, Fault>
    requires ready { IsReady (P.state plant.now) config.now tables.old journal.old.events }
    requires some { 1 ≤ write.now.len }
    requires fits { write.now.offset + write.now.len ≤ 64 }
    requires count { tables.old.host.issued + 1 < 2 ^ 32 }
    requires room { 2 ≤ journal.old.spare }
    ensures step { OnAnswer result (λ a. (line : ℕ) → StepLeads (here (P.state plant.now) config.now tables.old journal.old.events) line
        (Step.Issue write.now.volume.0 write.now.track write.now.offset write.now.len write.now.bytes)
        (here (P.state plant.now) config.now tables.new journal.new.events) a) }
    ensures wanted { OnNoMemory result (WantsRow (here (P.state plant.now) config.now tables.old journal.old.events)
        (Step.Issue write.now.volume.0 write.now.track write.now.offset write.now.len write.now.bytes)) }
    ensures same { OnNoMemory result (tables.new ≡ tables.old) }
    ensures untold { OnNoMemory result (journal.new.events ≡ journal.old.events) }
    ensures ready { IsReady (P.state plant.now) config.now tables.new journal.new.events }
    ensures faults { OnAnswer result (λ a. CountsStop a (P.state plant.now) (P.state plant.now)) }
    ensures issued { tables.new.host.issued ≤ tables.old.host.issued + 1 }
    ensures room { 1 ≤ journal.new.spare }
{
    match issue_write(config, tables, journal, write) {
        Ok(w) => Ok(Addition::Wrote { w: w.0 }),
        Err(fault) => Err(fault),
    }
}

/// Issues a host write and carries it out, where its volume's server is on; else it stays pending. Where there is no memory
/// nothing has changed.
pub fn write<P: Plant>(
    plant: &mut P,
    config: &Config,
    tables: &mut Tables,
    journal: &mut Journal,
    write: &HostWrite,
) -> Result<Said, Fault>
    requires ready { IsReady (P.state plant.old) config.now tables.old journal.old.events }
    requires sound { Sound (here (P.state plant.old) config.now tables.old journal.old.events) }
    requires some { 1 ≤ write.now.len }
    requires fits { write.now.offset + write.now.len ≤ 64 }
    requires count { tables.old.host.issued + 1 < 2 ^ 32 }
    requires room { length config.now.volumes + (length config.now.volumes + (length config.now.volumes + 11)) ≤ journal.old.spare }
    ensures step { OnSaid result (λ a. (line : ℕ) → StepLeads (here (P.state plant.old) config.now tables.old journal.old.events) line
        (Step.Write write.now.volume.0 write.now.track write.now.offset write.now.len write.now.bytes)
        (here (P.state plant.new) config.now tables.new journal.new.events) a) }
    ensures wanted { OnNoMemory result (WantsRow (here (P.state plant.old) config.now tables.old journal.old.events)
        (Step.Write write.now.volume.0 write.now.track write.now.offset write.now.len write.now.bytes)) }
    ensures same { OnNoMemory result (tables.new ≡ tables.old) }
    ensures same_plant { OnNoMemory result (P.state plant.new ≡ P.state plant.old) }
    ensures untold { OnNoMemory result (journal.new.events ≡ journal.old.events) }
    ensures ready { IsReady (P.state plant.new) config.now tables.new journal.new.events }
    ensures faults { OnSaid result (λ a. CountsStop a (P.state plant.old) (P.state plant.new)) }
    ensures issued { tables.new.host.issued ≤ tables.old.host.issued + 1 }
    ensures room { 1 ≤ journal.new.spare }
{
    match issue_write(config, tables, journal, write) {
        Ok(w) => {
            let issued = pending_write(&tables.host, w);
            match carry_write(plant, config, tables, journal, &issued) {
                Ok(answer) => Ok(answer),
                Err(refusal) => Err(Fault::Refused(refusal)),
            }
        }
        Err(fault) => Err(fault),
    }
}

/// Carries out a pending write, where its volume's server is on; else it stays pending.
pub fn apply<P: Plant>(
    plant: &mut P,
    config: &Config,
    tables: &mut Tables,
    journal: &mut Journal,
    w: u32,
) -> Result<Said, Refusal>
    requires ready { IsReady (P.state plant.old) config.now tables.old journal.old.events }
    requires sound { Sound (here (P.state plant.old) config.now tables.old journal.old.events) }
    requires room { length config.now.volumes + (length config.now.volumes + (length config.now.volumes + 10)) ≤ journal.old.spare }
    ensures step { (line : ℕ) → StepLeads (here (P.state plant.old) config.now tables.old journal.old.events) line (Step.Apply w)
        (here (P.state plant.new) config.now tables.new journal.new.events) (answered_by result) }
    ensures ready { IsReady (P.state plant.new) config.now tables.new journal.new.events }
    ensures faults { CountsStop (answered_by result) (P.state plant.old) (P.state plant.new) }
    ensures issued { tables.new.host.issued ≡ tables.old.host.issued }
    ensures room { 1 ≤ journal.new.spare }
{
    if !is_pending(&tables.host, WriteId(w)) {
        return Err(Refusal::Unknown { kind: Kind::Write });
    }
    let write = pending_write(&tables.host, WriteId(w));
    carry_write(plant, config, tables, journal, &write)
}

/// Whether the write of that number is pending.
fn is_pending(host: &Host, w: WriteId) -> bool
    ensures { result ≡ is_some (find (has_number w.0) host.now.pending) }
{
    host.pending(w).is_some()
}

/// The pending write of that number.
fn pending_write(host: &Host, w: WriteId) -> Pending
    requires waits { IsSome (find (has_number w.0) host.now.pending) }
    ensures found { find (has_number w.0) host.now.pending ≡ Some result }
    ensures named { result.w.0 ≡ w.0 }
    ensures fits { result.offset + result.len ≤ 64 }
{
    match host.pending(w) {
        Some(write) => *write,
        None => unreachable!(),
    }
}

/// Whether a host write on track t of a volume with these fields goes to its secondary first, and that is cascaded.
fn is_fed<P: Plant>(plant: &P, config: &Config, fields: &Fields, t: u16) -> bool
    requires stands { StandsFor config.now (P.state plant.now) }
    requires to { pairs.goes_over (plain fields.now) t ≡ true → IsSome (place_of config.now fields.now.primary_partner.0) }
    ensures { result ≡ (pairs.goes_over (plain fields.now) t && pairs.is_cascaded (volume_seen (P.state plant.now) config.now fields.now.primary_partner.0).fields) }
{
    if !goes_over(fields, t) {
        return false;
    }
    is_cascaded(&peek_head(plant, config, fields.primary_partner))
}

/// Carries out a pending write on a track that is there, by the call for its volume.
fn place_write<P: Plant>(
    plant: &mut P,
    config: &Config,
    journal: &mut Journal,
    host: &mut Host,
    write: &Pending,
) -> Result<WriteEnd, Refusal>
    requires due { IsDue (P.state plant.old) config.now host.old journal.old.events write.now }
    requires partners { PartnersFit (P.state plant.old) config.now }
    requires room { length config.now.volumes + (length config.now.volumes + (length config.now.volumes + 9)) ≤ journal.old.spare }
    ensures wrote { WroteIn (P.state plant.old) (P.state plant.new) config.now host.old host.new journal.old journal.new (λ k. write_stretches k write.now.w.0 write.now.volume.0 write.now.track) (length config.now.volumes + (length config.now.volumes + (length config.now.volumes + 9))) result }
    ensures end { (r : Rest) → IfOk result (λ e. e ≡ end_of (waits (seen.here (P.state plant.old) config.now r host.old journal.old.events).control write.now.volume.0 write.now.track)) }
{
    let fields = peek_fields(plant, config, write.volume);
    if is_fed(plant, config, &fields, write.track) {
        return cascade_write_by(plant, config, journal, host, write, &fields);
    }
    sync_write_by(plant, config, journal, host, write, &fields)
}

/// The answer where write w was carried out.
fn answer(w: WriteId, end: WriteEnd) -> Said
    ensures { result ≡ written_as w.0 end }
{
    match end {
        WriteEnd::Landed => Said::Done(Addition::Wrote { w: w.0 }),
        WriteEnd::Held => Said::Held { w: w.0 },
    }
}

/// Carries out a pending write on its track, which is there, where its volume's server is on; else it stays pending. Where
/// the host may not write on the volume, the write is dropped.
fn carry_write<P: Plant>(
    plant: &mut P,
    config: &Config,
    tables: &mut Tables,
    journal: &mut Journal,
    write: &Pending,
) -> Result<Said, Refusal>
    requires ready { IsReady (P.state plant.old) config.now tables.old journal.old.events }
    requires found { find (has_number write.now.w.0) tables.old.host.pending ≡ Some write.now }
    requires fits { write.now.offset + write.now.len ≤ 64 }
    requires there { track_refusal (here (P.state plant.old) config.now tables.old journal.old.events).control write.now.volume.0 write.now.track ≡ None }
    requires fit { RelationsFit (P.state plant.old) config.now }
    requires partners { PartnersFit (P.state plant.old) config.now }
    requires room { length config.now.volumes + (length config.now.volumes + (length config.now.volumes + 10)) ≤ journal.old.spare }
    ensures carried { EndsIn (armed_in (P.state plant.old)) (here (P.state plant.old) config.now tables.old journal.old.events)
        (write_stretches (here (P.state plant.old) config.now tables.old journal.old.events).control write.now.w.0 write.now.volume.0 write.now.track) (here (P.state plant.new) config.now tables.new journal.new.events) (refusal_of result) }
    ensures says { IfOk result (λ a. a ≡ says_written (here (P.state plant.old) config.now tables.old journal.old.events).control write.now.w.0 write.now.volume.0 write.now.track) }
    ensures ready { IsReady (P.state plant.new) config.now tables.new journal.new.events }
    ensures faults { CountsStop (answered_by result) (P.state plant.old) (P.state plant.new) }
    ensures issued { tables.new.host.issued ≡ tables.old.host.issued }
    ensures room { 1 ≤ journal.new.spare }
{
    match place_write(plant, config, journal, &mut tables.host, write) {
        Ok(end) => Ok(answer(write.w, end)),
        Err(refusal) => Err(refusal),
    }
}
