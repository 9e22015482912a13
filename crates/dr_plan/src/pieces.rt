//! The script of a point in pieces, each a text, and whole; and the set-up step by step.

ghost use Rattle.std.specs.Prelude.{◌≡◌, ◌∷◌, ◌++◌, [], OnOk, IfOk, true, All};
ghost use Rattle.std.specs.Option.{option_map};
ghost use Rattle.std.specs.Str.Lines.{lines};
ghost use Rattle.dr_model.specs.LineText.{name_fits};
ghost use Rattle.dr_model.specs.Lines.{tasks};
ghost use Rattle.dr_plan.specs.Above.{line_steps};
ghost use Rattle.dr_plan.specs.Parts.{IsSweep, tried_from};
ghost use Rattle.dr_plan.specs.Pieces.{cut_pieces, gap_pieces, AreCutUp, IsCutUp, joined};
ghost use Rattle.dr_plan.specs.Points.{cut_lines, gap_lines, lines_at, cut_steps, gap_steps, steps_at, with_end, text_of, script_of};
ghost use Rattle.dr_plan.specs.Reading.{tried_steps};
ghost use Rattle.dr_plan.specs.Sweep.{is_unbroken};

use crate::above::read_steps;
use crate::lines::push_tried;
use crate::plan::{Draft, SweepPlan, Tried};
use crate::points::{
    Point, Torn, front, lost_at, push_end, push_fuses, push_lines, push_others, push_stops,
    server_at, tried_at,
};
use dr_ids::Text;
use dr_model::Name;
use dr_script::Line;
use std::alloc::{AllocError, Global};
use std::marker::Model;

/// The texts of the pieces of a point's script. The recovery comes after them.
#[derive(Drop)]
pub struct PieceTexts {
    front: Text,
    strike: Text,
    stops: Text,
}

impl Model for PieceTexts {
    ghost use Rattle.dr_plan.specs.Pieces.{PieceTexts as Texts};

    ghost Value = { Texts };

    ghost view = { λ t. record { front = t.front; strike = t.strike; stops = t.stops } };
}

impl PieceTexts {
    /// The set-up, the tried steps before, and for a stop within a step the lines that arm the servers' fuses.
    pub fn front(&self) -> &[u8]
        ensures { result.now ≡ self.now.front }
    {
        self.front.bytes()
    }

    /// The tried step that is cut short; empty for a stop between steps.
    pub fn strike(&self) -> &[u8]
        ensures { result.now ≡ self.now.strike }
    {
        self.strike.bytes()
    }

    /// The stops of the servers that are lost then.
    pub fn stops(&self) -> &[u8]
        ensures { result.now ≡ self.now.stops }
    {
        self.stops.bytes()
    }
}

/// The pieces of the script in which a tried step is cut short.
fn cut_pieces(
    alloc: Global,
    plan: &Draft,
    servers: &[Name],
    place: usize,
    server: usize,
    torn: Torn,
    writes: &[u32],
) -> Result<Option<PieceTexts>, AllocError>
    requires fit { All (λ name. name_fits name ≡ true) servers.now }
    requires sweep { IsSweep plan.now }
    ensures { IfOk result (AreCutUp (cut_pieces plan.now servers.now place server torn writes.now)) }
{
    let Some(_) = server_at(servers, server) else {
        return Ok(None);
    };
    let Some(tried) = tried_at(plan, place) else {
        return Ok(None);
    };
    let mut front = front(alloc, plan, place)?;
    push_fuses(alloc, &mut front, servers, server, torn, writes)?;
    let strike = script_line(alloc, tried.text())?;
    let mut stops = Text::new(alloc);
    push_others(alloc, &mut stops, servers, server)?;
    Ok(Some(PieceTexts {
        front,
        strike,
        stops,
    }))
}

/// The pieces of the script in which all servers are lost after that many tried steps.
fn gap_pieces(
    alloc: Global,
    plan: &Draft,
    servers: &[Name],
    place: usize,
) -> Result<Option<PieceTexts>, AllocError>
    requires fit { All (λ name. name_fits name ≡ true) servers.now }
    requires sweep { IsSweep plan.now }
    ensures { IfOk result (AreCutUp (gap_pieces plan.now servers.now place)) }
{
    if plan.tried.len() < place {
        return Ok(None);
    }
    let front = front(alloc, plan, place)?;
    let mut stops = Text::new(alloc);
    push_stops(alloc, &mut stops, servers)?;
    Ok(Some(PieceTexts {
        front,
        strike: Text::new(alloc),
        stops,
    }))
}

/// The script of a point in pieces; none where the plan has no such point. Fails where there is no memory.
#[tactic(auto, unfolding(crate::specs::Pieces::pieces_of))]
pub fn pieces_at(
    alloc: Global,
    plan: &SweepPlan,
    point: Point,
) -> Result<Option<PieceTexts>, AllocError>
    ensures { IfOk result (IsCutUp plan.now point) }
{
    let plan = plan.draft();
    match point {
        Point::Cut {
            disaster,
            place,
            server,
            torn,
            writes,
        } => match lost_at(plan, disaster) {
            Some(lost) => cut_pieces(alloc, plan, lost.servers(), place, server, torn, &writes),
            None => Ok(None),
        },
        Point::Gap { disaster, place } => match lost_at(plan, disaster) {
            Some(lost) => gap_pieces(alloc, plan, lost.servers(), place),
            None => Ok(None),
        },
    }
}

/// The script of pieces: their texts, and after them the recovery.
fn join(pieces: Option<PieceTexts>, recovery: &[Text]) -> Result<Option<Text>, AllocError>
    ensures { IfOk result (λ script. script ≡ option_map (joined recovery.now) pieces) }
{
    let Some(pieces) = pieces else {
        return Ok(None);
    };
    let mut text = pieces.front;
    text.append(pieces.strike.bytes())?;
    text.append(pieces.stops.bytes())?;
    push_lines(&mut text, recovery)?;
    Ok(Some(text))
}

/// The script in which a tried step is cut short.
fn cut_script(
    alloc: Global,
    plan: &Draft,
    servers: &[Name],
    place: usize,
    server: usize,
    torn: Torn,
    writes: &[u32],
) -> Result<Option<Text>, AllocError>
    requires fit { All (λ name. name_fits name ≡ true) servers.now }
    requires sweep { IsSweep plan.now }
    ensures text { IfOk result (λ script. script ≡ option_map text_of (cut_lines plan.now servers.now place server torn writes.now)) }
    ensures lines { IfOk result (λ script. option_map lines script ≡ cut_lines plan.now servers.now place server torn writes.now) }
    ensures steps { IfOk result (λ script. option_map tasks script ≡ cut_steps plan.now servers.now place server torn writes.now) }
{
    let pieces = cut_pieces(alloc, plan, servers, place, server, torn, writes)?;
    join(pieces, &plan.recovery)
}

/// The script in which all servers are lost after that many tried steps.
fn gap_script(
    alloc: Global,
    plan: &Draft,
    servers: &[Name],
    place: usize,
) -> Result<Option<Text>, AllocError>
    requires fit { All (λ name. name_fits name ≡ true) servers.now }
    requires sweep { IsSweep plan.now }
    ensures text { IfOk result (λ script. script ≡ option_map text_of (gap_lines plan.now servers.now place)) }
    ensures lines { IfOk result (λ script. option_map lines script ≡ gap_lines plan.now servers.now place) }
    ensures steps { IfOk result (λ script. option_map tasks script ≡ gap_steps plan.now servers.now place) }
{
    let pieces = gap_pieces(alloc, plan, servers, place)?;
    join(pieces, &plan.recovery)
}

/// The script of a point; none where the plan has no such point. Fails where there is no memory.
#[tactic(auto, unfolding(crate::specs::Points::lines_at, crate::specs::Points::steps_at))]
pub fn script_at(alloc: Global, plan: &SweepPlan, point: Point) -> Result<Option<Text>, AllocError>
    ensures text { IfOk result (λ script. script ≡ script_of plan.now point) }
    ensures lines { IfOk result (λ script. option_map lines script ≡ lines_at plan.now point) }
    ensures steps { IfOk result (λ script. option_map tasks script ≡ steps_at plan.now point) }
{
    let plan = plan.draft();
    match point {
        Point::Cut {
            disaster,
            place,
            server,
            torn,
            writes,
        } => match lost_at(plan, disaster) {
            Some(lost) => cut_script(alloc, plan, lost.servers(), place, server, torn, &writes),
            None => Ok(None),
        },
        Point::Gap { disaster, place } => match lost_at(plan, disaster) {
            Some(lost) => gap_script(alloc, plan, lost.servers(), place),
            None => Ok(None),
        },
    }
}

/// A line as a text: with its line feed, and before it a second carriage return where it ends with one, so that it reads as
/// it is. Fails where there is no memory.
pub fn script_line(alloc: Global, line: &[u8]) -> Result<Text, AllocError>
    ensures text { IfOk result (λ text. text ≡ with_end line.now) }
    ensures lines { is_unbroken line.now ≡ true → IfOk result (λ text. lines text ≡ line.now ∷ []) }
{
    let mut text = Text::new(alloc);
    push_end(&mut text, line)?;
    Ok(text)
}

/// Adds the steps of a line with that number; a line with a fault has none.
fn push_read(
    alloc: Global,
    all: &mut Vec<Tried>,
    number: usize,
    line: &[u8],
) -> Result<(), AllocError>
    ensures { OnOk result (all.new.items ≡ all.old.items ++ tried_steps number line.now (line_steps line.now)) }
{
    let mut steps = Line::new(alloc);
    match read_steps(alloc, line, &mut steps)? {
        None => push_tried(alloc, all, number, line, &steps),
        Some(_) => Ok(()),
    }
}

/// The steps of the set-up, each with its place in the plan. Fails where there is no memory.
pub fn setup_steps(alloc: Global, plan: &SweepPlan) -> Result<Vec<Tried>, AllocError>
    ensures { IfOk result (λ steps. steps.items ≡ tried_from 1 plan.now.setup) }
{
    let setup = plan.setup();
    let mut steps = Vec::new(alloc);
    for i in 0..setup.len() {
        push_read(alloc, &mut steps, i + 1, setup[i].bytes())?;
    }
    Ok(steps)
}
