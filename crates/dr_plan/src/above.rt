//! What lines define: the servers and the volumes that their steps name.

ghost use Rattle.std.specs.Prelude.{◌≡◌, ◌++◌, ◌∷◌, [], IfOk, OnOk, find};
ghost use Rattle.std.specs.List.{filter_map};
ghost use Rattle.std.specs.Option.{option_copied};
ghost use Rattle.dr_model.specs.Grammar.{line_of};
ghost use Rattle.dr_plan.specs.Above.{unless, line_steps, server_in, volume_in, servers_in, volumes_in, is_size_of, tracks_of};

use dr_ids::{Fault, Refusal, Text};
use dr_model::{Name, Step};
use dr_script::{Line, read_line};
use std::alloc::{AllocError, Global};

/// A volume, and how many tracks it has.
#[derive(Clone, Copy)]
pub(crate) struct VolumeSize {
    pub(crate) volume: u16,
    pub(crate) tracks: u32,
}

/// Reads the steps of a line into `steps`; or gives the column of the line's fault, counted from 1.
pub(crate) fn read_steps(
    alloc: Global,
    line: &[u8],
    steps: &mut Line,
) -> Result<Option<u16>, AllocError>
    ensures { IfOk result (λ fault. line_of line.now ≡ unless fault steps.new) }
{
    match read_line(alloc, line, steps) {
        Ok(()) => Ok(None),
        Err(Fault::Refused(Refusal::Syntax { column })) => Ok(Some(column)),
        Err(_) => Err(AllocError),
    }
}

/// The server that a step defines.
fn server_in(step: &Step) -> Option<Name>
    ensures { result ≡ server_in step.now }
{
    match step {
        Step::Server { name } => Some(*name),
        _ => None,
    }
}

/// The volume that a step defines, and its size.
fn volume_in(step: &Step) -> Option<VolumeSize>
    ensures { result ≡ volume_in step.now }
{
    match step {
        Step::Volume { volume, tracks, .. } => Some(VolumeSize {
            volume: *volume,
            tracks: *tracks,
        }),
        _ => None,
    }
}

/// Adds the server that a step defines.
fn push_server(found: &mut Vec<Name>, step: &Step) -> Result<(), AllocError>
    ensures { OnOk result (found.new.items ≡ found.old.items ++ filter_map server_in (step.now ∷ [])) }
{
    if let Some(name) = server_in(step) {
        found.push(name)?;
    }
    Ok(())
}

/// Adds the volume that a step defines.
fn push_size(found: &mut Vec<VolumeSize>, step: &Step) -> Result<(), AllocError>
    ensures { OnOk result (found.new.items ≡ found.old.items ++ filter_map volume_in (step.now ∷ [])) }
{
    if let Some(size) = volume_in(step) {
        found.push(size)?;
    }
    Ok(())
}

/// Adds the servers that steps define.
fn push_servers(found: &mut Vec<Name>, steps: &Line) -> Result<(), AllocError>
    ensures { OnOk result (found.new.items ≡ found.old.items ++ filter_map server_in steps.now) }
{
    for i in 0..steps.len() {
        push_server(found, steps.step(i).unwrap())?;
    }
    Ok(())
}

/// Adds the volumes that steps define.
fn push_sizes(found: &mut Vec<VolumeSize>, steps: &Line) -> Result<(), AllocError>
    ensures { OnOk result (found.new.items ≡ found.old.items ++ filter_map volume_in steps.now) }
{
    for i in 0..steps.len() {
        push_size(found, steps.step(i).unwrap())?;
    }
    Ok(())
}

/// Adds the servers that a line defines; a line with a fault defines none.
fn push_servers_of(alloc: Global, found: &mut Vec<Name>, line: &[u8]) -> Result<(), AllocError>
    ensures { OnOk result (found.new.items ≡ found.old.items ++ filter_map server_in (line_steps line.now)) }
{
    let mut steps = Line::new(alloc);
    match read_steps(alloc, line, &mut steps)? {
        None => push_servers(found, &steps),
        Some(_) => Ok(()),
    }
}

/// Adds the volumes that a line defines; a line with a fault defines none.
fn push_sizes_of(alloc: Global, found: &mut Vec<VolumeSize>, line: &[u8]) -> Result<(), AllocError>
    ensures { OnOk result (found.new.items ≡ found.old.items ++ filter_map volume_in (line_steps line.now)) }
{
    let mut steps = Line::new(alloc);
    match read_steps(alloc, line, &mut steps)? {
        None => push_sizes(found, &steps),
        Some(_) => Ok(()),
    }
}

/// The servers that lines define.
pub(crate) fn servers_in(alloc: Global, lines: &[Text]) -> Result<Vec<Name>, AllocError>
    ensures { IfOk result (λ found. found.items ≡ servers_in lines.now) }
{
    let mut found = Vec::new(alloc);
    for line in lines {
        push_servers_of(alloc, &mut found, line.bytes())?;
    }
    Ok(found)
}

/// The volumes that lines define.
pub(crate) fn volumes_in(alloc: Global, lines: &[Text]) -> Result<Vec<VolumeSize>, AllocError>
    ensures { IfOk result (λ found. found.items ≡ volumes_in lines.now) }
{
    let mut found = Vec::new(alloc);
    for line in lines {
        push_sizes_of(alloc, &mut found, line.bytes())?;
    }
    Ok(found)
}

/// The first size that is given for a volume.
fn find_size(sizes: &[VolumeSize], volume: u16) -> Option<&VolumeSize>
    ensures { option_copied result ≡ find (is_size_of volume) sizes.now }
{
    sizes.iter().find(|size| size.volume == volume)
}

/// How many tracks the first of these sizes gives a volume.
pub(crate) fn tracks_of(sizes: &[VolumeSize], volume: u16) -> Option<u32>
    ensures { result ≡ tracks_of sizes.now volume }
{
    let size = find_size(sizes, volume)?;
    Some(size.tracks)
}
