//! The points of a sweep, and the lines of their scripts.

ghost use Rattle.std.specs.Prelude.{◌≡◌, ◌++◌, ◌≤◌, ◌<◌, ◌+◌, map, take, length, OnOk, IfOk, Some, None, true, All};
ghost use Rattle.std.specs.List.{slice_get};
ghost use Rattle.std.specs.Option.{option_copied};
ghost use Rattle.std.specs.Str.Lines.{lines};
ghost use Rattle.dr_model.specs.declared.step.Step.TheVariants.{StopAfter};
ghost use Rattle.dr_model.specs.LineText.{name_fits, step_text};
ghost use Rattle.dr_plan.specs.Pieces.{IsTextOf};
ghost use Rattle.dr_plan.specs.Points.{count_at, torn_at, torn_word, stop_line, fuses, fuse_lines, others, lines_before, calm_lines, with_end, text_of, calm_script};
ghost use Rattle.dr_plan.specs.Sweep.{texts};

use crate::names::Disaster;
use crate::plan::{Draft, SweepPlan, Tried};
use dr_ids::{MOST_SERVERS, Text};
use dr_model::{Name, Step, TornWord};
use dr_script::print_step;
use std::alloc::{AllocError, Global};

/// What a stop leaves in the block whose write it cuts short.
#[derive(Clone, Copy)]
pub enum Torn {
    /// What was there.
    Unchanged,
    /// Bytes of 00.
    Zeros,
    /// Bytes of 01.
    Ones,
}

/// For each server of a disaster, by its place in it, how many device writes it makes in a tried step before the disaster.
pub type WriteCounts = [u32; MOST_SERVERS];

/// A place of a plan at which a disaster comes. All places are counted from 0, those of tried steps in all that are tried.
#[derive(Clone, Copy)]
pub enum Point {
    /// In a tried step: a device write of a server of the disaster is cut short, and the disaster's other servers are lost
    /// at that moment.
    Cut {
        disaster: usize,
        place: usize,
        server: usize,
        torn: Torn,
        writes: WriteCounts,
    },
    /// After that many tried steps all servers of the disaster are lost.
    Gap {
        disaster: usize,
        place: usize,
    },
}

/// A line of a plan, or a part of one.
#[derive(Clone, Copy)]
pub struct PlanPlace {
    /// The number of the line, counted from 1.
    pub line: usize,
    /// The place among the steps of the line, counted from 1; 0 where it is the whole line.
    pub part: usize,
}

/// How many device writes the server at a place makes in the step before the disaster.
pub fn count_at(writes: &[u32], place: usize) -> u32
    ensures { result ≡ count_at writes.now place }
{
    match writes.get(place) {
        Some(count) => *count,
        None => 0,
    }
}

/// What a stop leaves in the block of the server at a place: only that of the server that is cut short is torn.
fn torn_at(server: usize, torn: Torn, place: usize) -> Torn
    ensures { result ≡ torn_at server torn place }
{
    if place == server {
        torn
    } else {
        Torn::Unchanged
    }
}

fn torn_word(torn: Torn) -> TornWord
    ensures { result ≡ torn_word torn }
{
    match torn {
        Torn::Unchanged => TornWord::Same,
        Torn::Zeros => TornWord::Fill(0),
        Torn::Ones => TornWord::Fill(1),
    }
}

/// Adds a line, which ends so that it reads as it is.
pub(crate) fn push_end(text: &mut Text, line: &[u8]) -> Result<(), AllocError>
    ensures { OnOk result (text.new ≡ text.old ++ with_end line.now) }
{
    text.append(line)?;
    match line {
        [.., b'\r'] => text.append(b"\r\n"),
        _ => text.append(b"\n"),
    }
}

/// Adds lines.
pub(crate) fn push_lines(text: &mut Text, lines: &[Text]) -> Result<(), AllocError>
    ensures { OnOk result (text.new ≡ text.old ++ text_of lines.now) }
{
    for line in lines {
        push_end(text, line.bytes())?;
    }
    Ok(())
}

/// Adds the line that stops a server at once.
fn push_stop(alloc: Global, text: &mut Text, server: &Name) -> Result<(), AllocError>
    requires { name_fits server.now ≡ true }
    ensures { OnOk result (text.new ≡ text.old ++ with_end (stop_line server.now)) }
{
    let line = print_step(alloc, &Step::Stop { server: *server })?;
    push_end(text, line.bytes())
}

/// Adds the lines that stop servers at once.
pub(crate) fn push_stops(alloc: Global, text: &mut Text, servers: &[Name]) -> Result<(), AllocError>
    requires { All (λ name. name_fits name ≡ true) servers.now }
    ensures { OnOk result (text.new ≡ text.old ++ text_of (map stop_line servers.now)) }
{
    for server in servers {
        push_stop(alloc, text, server)?;
    }
    Ok(())
}

/// Adds the line that arms a server's fuse.
fn push_fuse(
    alloc: Global,
    text: &mut Text,
    server: &Name,
    write: u32,
    torn: Torn,
) -> Result<(), AllocError>
    requires { name_fits server.now ≡ true }
    ensures { OnOk result (text.new ≡ text.old ++ with_end (step_text (StopAfter server.now write (torn_word torn)))) }
{
    let fuse = Step::StopAfter {
        server: *server,
        writes: write,
        torn: torn_word(torn),
    };
    let line = print_step(alloc, &fuse)?;
    push_end(text, line.bytes())
}

/// Adds the lines that arm the fuses of a disaster's servers, of which one is cut short.
pub(crate) fn push_fuses(
    alloc: Global,
    text: &mut Text,
    servers: &[Name],
    server: usize,
    torn: Torn,
    writes: &[u32],
) -> Result<(), AllocError>
    requires { All (λ name. name_fits name ≡ true) servers.now }
    ensures { OnOk result (text.new ≡ text.old ++ text_of (fuse_lines servers.now server torn writes.now)) }
{
    for place in 0..servers.len() {
        let count = count_at(writes, place);
        push_fuse(
            alloc,
            text,
            &servers[place],
            count,
            torn_at(server, torn, place),
        )?;
    }
    Ok(())
}

/// Adds the lines of steps that are tried.
fn push_texts(text: &mut Text, tried: &[Tried]) -> Result<(), AllocError>
    ensures { OnOk result (text.new ≡ text.old ++ text_of (texts tried.now)) }
{
    for step in tried {
        push_end(text, step.text())?;
    }
    Ok(())
}

/// Adds the lines that stop all servers at once except the one at that place.
pub(crate) fn push_others(
    alloc: Global,
    text: &mut Text,
    servers: &[Name],
    server: usize,
) -> Result<(), AllocError>
    requires fit { All (λ name. name_fits name ≡ true) servers.now }
    requires within { server < length servers.now }
    ensures { OnOk result (text.new ≡ text.old ++ text_of (map stop_line (others server servers.now))) }
{
    push_stops(alloc, text, &servers[..server])?;
    push_stops(alloc, text, &servers[server + 1..])
}

/// The lines of the set-up, and the first tried steps, that many.
pub(crate) fn front(alloc: Global, plan: &Draft, place: usize) -> Result<Text, AllocError>
    requires { place ≤ length plan.now.tried }
    ensures { IfOk result (λ text. text ≡ text_of (lines_before plan.now place)) }
{
    let mut text = Text::new(alloc);
    push_lines(&mut text, &plan.setup)?;
    push_texts(&mut text, &plan.tried[..place])?;
    Ok(text)
}

/// The disaster at a place.
pub(crate) fn lost_at(plan: &Draft, disaster: usize) -> Option<&Disaster>
    ensures { option_copied result ≡ slice_get plan.now.loses disaster }
{
    plan.loses.get(disaster)
}

/// The server at a place.
pub(crate) fn server_at(servers: &[Name], server: usize) -> Option<&Name>
    ensures { option_copied result ≡ slice_get servers.now server }
{
    servers.get(server)
}

/// The tried step at a place.
pub(crate) fn tried_at(plan: &Draft, place: usize) -> Option<&Tried>
    ensures { option_copied result ≡ slice_get plan.now.tried place }
{
    plan.tried.get(place)
}

/// The lines of the set-up, and all tried steps.
fn calm_text(alloc: Global, plan: &Draft) -> Result<Text, AllocError>
    ensures { IfOk result (λ text. text ≡ text_of (calm_lines plan.now)) }
{
    let mut text = Text::new(alloc);
    push_lines(&mut text, &plan.setup)?;
    push_texts(&mut text, &plan.tried)?;
    Ok(text)
}

/// The script of the calm run: the set-up and all tried steps, without a disaster. Fails where there is no memory.
pub fn calm_script(alloc: Global, plan: &SweepPlan) -> Result<Text, AllocError>
    ensures text { IfOk result (λ script. script ≡ calm_script plan.now) }
    ensures lines { IfOk result (λ script. lines script ≡ calm_lines plan.now) }
{
    calm_text(alloc, plan.draft())
}

/// The lines of the set-up.
fn setup_of(alloc: Global, plan: &Draft) -> Result<Text, AllocError>
    ensures { IfOk result (λ text. text ≡ text_of plan.now.setup) }
{
    let mut text = Text::new(alloc);
    push_lines(&mut text, &plan.setup)?;
    Ok(text)
}

/// The lines of the set-up as a text, which reads as them. Fails where there is no memory.
pub fn setup_text(alloc: Global, plan: &SweepPlan) -> Result<Text, AllocError>
    ensures { IfOk result (IsTextOf plan.now.setup) }
{
    setup_of(alloc, plan.draft())
}
