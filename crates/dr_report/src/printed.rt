//! The text of what recovery makes of volumes.

ghost use Rattle.std.specs.Prelude.{◌≡◌, ◌++◌, ◌∷◌, [], codes, OnOk, if◌then◌else◌};
ghost use Rattle.std.specs.Fmt.{decimal};
ghost use Rattle.std.specs.Option.{option_copied, option_map};
ghost use Rattle.dr_model.specs.Offline.{bytes_line, decision_words, group_words};
ghost use Rattle.dr_model.specs.PlantImage.{ended};
ghost use Rattle.dr_model.specs.Text.{one_number, two_numbers, trimmed};
ghost use Rattle.dr_model.specs.Recovery.{remains_in};
ghost use Rattle.dr_volume.specs.Plain.{plain};
ghost use Rattle.dr_report.specs.Known.{known, all_known};
ghost use Rattle.dr_report.specs.Report.{known_lines, lines_among, lines_left};

use crate::decided::remains;
use crate::device::Device;
use crate::tracks::{find_device, shown_track};
use dr_ids::{Decision, SessionId, Text, VolumeId};
use dr_image::{push_decimal, push_id, push_kept, push_number, trimmed};
use dr_plant::Block;
use std::alloc::{AllocError, Global};

/// Adds a number in brackets.
fn push_one(alloc: Global, text: &mut Text, a: u32) -> Result<(), AllocError>
    ensures { OnOk result (text.new ≡ text.old ++ one_number a) }
{
    text.append(b"(")?;
    push_decimal(alloc, text, a)?;
    text.append(b")")
}

/// Adds two numbers in brackets.
fn push_two(alloc: Global, text: &mut Text, a: u32, b: u32) -> Result<(), AllocError>
    ensures { OnOk result (text.new ≡ text.old ++ two_numbers a b) }
{
    text.append(b"(")?;
    push_decimal(alloc, text, a)?;
    text.append(b",")?;
    push_decimal(alloc, text, b)?;
    text.append(b")")
}

/// Adds a decision with its numbers.
fn push_decision(alloc: Global, text: &mut Text, decision: Decision) -> Result<(), AllocError>
    ensures { OnOk result (text.new ≡ text.old ++ decision_words decision) }
{
    match decision {
        Decision::NoMember => text.append(b"NoMember"),
        Decision::Nothing(n) => {
            text.append(b"Nothing")?;
            push_one(alloc, text, n)
        }
        Decision::RevertAll(n) => {
            text.append(b"RevertAll")?;
            push_one(alloc, text, n)
        }
        Decision::CommitRest(n) => {
            text.append(b"CommitRest")?;
            push_one(alloc, text, n)
        }
        Decision::RevertSome(m, n) => {
            text.append(b"RevertSome")?;
            push_two(alloc, text, m, n)
        }
        Decision::Impossible(a, b) => {
            text.append(b"Impossible")?;
            push_two(alloc, text, a, b)
        }
    }
}

/// Adds a group's number, where there is a group.
fn push_group(alloc: Global, text: &mut Text, group: Option<u32>) -> Result<(), AllocError>
    ensures { OnOk result (text.new ≡ text.old ++ group_words group) }
{
    match group {
        Some(n) => push_decimal(alloc, text, n),
        None => text.append(b"none"),
    }
}

/// Adds the line of a track, unless it is all zero.
fn push_track(
    alloc: Global,
    text: &mut Text,
    volume: VolumeId,
    t: u16,
    bytes: &Block,
) -> Result<(), AllocError>
    ensures { OnOk result (text.new ≡ text.old ++ ended (bytes_line volume.0 t (trimmed bytes.now))) }
{
    if trimmed(bytes).is_empty() {
        return Ok(());
    }
    text.append(b"track")?;
    push_id(text, volume.0)?;
    push_number(alloc, text, u32::from(t))?;
    push_kept(text, bytes)?;
    text.append(b"\n")
}

/// Adds the lines of a volume's tracks.
fn push_tracks(
    alloc: Global,
    text: &mut Text,
    device: &Device,
    source: Option<&Device>,
    reverts: bool,
) -> Result<(), AllocError>
    ensures { OnOk result (text.new ≡ text.old ++ ended (known_lines reverts (option_map known (option_copied source.entry)) (known device.now))) }
{
    for t in 0..device.volume.tracks {
        let bytes = shown_track(device, source, reverts, t);
        push_track(alloc, text, device.volume.volume, t, &bytes)?;
    }
    Ok(())
}

/// Adds the lines of a volume's tracks, where the volume remains.
fn push_volume(
    alloc: Global,
    text: &mut Text,
    devices: &[Device],
    device: &Device,
    session: SessionId,
    reverts: bool,
) -> Result<(), AllocError>
    ensures { OnOk result (text.new ≡ text.old ++ ended (if remains_in session.0 reverts (plain device.now.fields) then lines_among reverts (all_known devices.now) (known device.now) else [])) }
{
    if !remains(session, reverts, &device.fields) {
        return Ok(());
    }
    let source = find_device(devices, device.fields.source);
    push_tracks(alloc, text, device, source, reverts)
}

/// Adds the lines of the volumes that remain.
pub fn push_volumes(
    alloc: Global,
    text: &mut Text,
    devices: &[Device],
    session: SessionId,
    reverts: bool,
) -> Result<(), AllocError>
    ensures { OnOk result (text.new ≡ text.old ++ ended (lines_left session.0 reverts (all_known devices.now))) }
{
    for device in devices {
        push_volume(alloc, text, devices, device, session, reverts)?;
    }
    Ok(())
}

/// Adds how many volumes count, what is decided, and the group.
pub fn push_head(
    alloc: Global,
    text: &mut Text,
    members: u32,
    decision: Decision,
    group: Option<u32>,
) -> Result<(), AllocError>
    ensures { OnOk result (text.new ≡ text.old ++ ended ((codes "members " ++ decimal members) ∷ (codes "decision " ++ decision_words decision) ∷ (codes "group " ++ group_words group) ∷ [])) }
{
    text.append(b"members")?;
    push_number(alloc, text, members)?;
    text.append(b"\ndecision ")?;
    push_decision(alloc, text, decision)?;
    text.append(b"\ngroup ")?;
    push_group(alloc, text, group)?;
    text.append(b"\n")
}
