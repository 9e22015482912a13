//! How many device writes each server of a disaster makes in a tried step before the disaster.

ghost use Rattle.std.specs.Prelude.{◌≡◌, ◌<◌, ◌-◌, ◌^◌, IfOk, IfErr, Ok, length, if◌then◌else◌};
ghost use Rattle.std.specs.Str.{bytes_eq};
ghost use Rattle.dr_model.specs.LineText.{name_text};
ghost use Rattle.dr_plan.specs.Parts.{IsSweep};
ghost use Rattle.dr_plan.specs.Points.{count_at};
ghost use Rattle.dr_sweep.specs.Counts.{first_by, first_in, first_write, first_counts, one_more, raised};

use crate::point::name_at;
use crate::reach::FirstStop;
use dr_ids::{Fault, MOST_SERVERS};
use dr_model::{Name, Step};
use dr_plan::{SweepPlan, WriteCounts, is_same_name};
use dr_script::{Line, read_line};
use std::alloc::{AllocError, Global};

/// In a start of a server, the count of the first device write of the one of that name that a fuse can cut short.
fn first_in_start(server: &Name, name: &Name) -> u32
    ensures { result ≡ (if bytes_eq (name_text server.now) (name_text name.now) then 1 else 2 ^ 32 - 1) }
{
    if is_same_name(server, name) {
        1
    } else {
        u32::MAX
    }
}

/// By the steps of a line: the count of the first device write of that server that a fuse can cut short; where there is none, the greatest
/// that a fuse has.
fn first_by(steps: &Line, name: &Name) -> u32
    ensures { result ≡ first_by name.now (Ok steps.now) }
{
    if steps.len() != 1 {
        return 0;
    }
    match steps.step(0) {
        Some(Step::Start { server }) => first_in_start(server, name),
        Some(Step::Stop { .. }) => u32::MAX,
        _ => 0,
    }
}

/// The same by the line.
fn first_in(alloc: Global, line: &[u8], name: &Name) -> Result<u32, AllocError>
    ensures { IfOk result (λ first. first ≡ first_in name.now line.now) }
{
    let mut steps = Line::new(alloc);
    match read_line(alloc, line, &mut steps) {
        Ok(()) => Ok(first_by(&steps, name)),
        Err(Fault::NoMemory) => Err(AllocError),
        Err(Fault::Refused(_)) => Ok(0),
    }
}

/// The count of the first device write of a server in a tried step that a fuse can cut short.
pub(crate) fn first_write(
    alloc: Global,
    plan: &SweepPlan,
    disaster: usize,
    place: usize,
    server: usize,
) -> Result<u32, AllocError>
    ensures first { IfOk result (λ first. first ≡ first_write plan.now disaster place server) }
    ensures sweep { IsSweep plan.now }
{
    let Some(name) = name_at(plan, disaster, server) else {
        return Ok(0);
    };
    match plan.tried().get(place) {
        Some(tried) => first_in(alloc, tried.text(), name),
        None => Ok(0),
    }
}

/// The counts of that server's device write of that number, if the other servers make none before it.
pub(crate) fn first_counts(server: usize, write: u32) -> WriteCounts
    requires { server < 8 }
    ensures { result ≡ first_counts server write }
{
    let mut writes = [0; MOST_SERVERS];
    writes[server] = write;
    writes
}

/// One device write more of the server at a place.
pub(crate) fn raise(writes: &mut WriteCounts, place: usize)
    requires place { place < length writes.old }
    requires few { count_at writes.old place < 2 ^ 32 - 1 }
    ensures { writes.new ≡ one_more place writes.old }
{
    writes[place] += 1;
}

/// By a first stop in a tried step, the server whose count is one too few; none if no server stops.
pub(crate) fn raised(server: usize, stop: FirstStop) -> Option<usize>
    ensures { result ≡ raised server stop }
{
    match stop {
        FirstStop::Own => Some(server),
        FirstStop::Nobody => None,
        FirstStop::Other(other) => Some(other),
    }
}
