//! The strip: a character for each place of a sweep.

ghost use Rattle.std.specs.Prelude.{◌≡◌, ◌++◌, ◌+◌, ◌<◌, ◌^◌, IfOk, OnOk};
ghost use Rattle.dr_rows.specs.Strip.{is_cut_at, is_gap_at, is_in_disaster, is_in_line, lost_if, gap_lost, line_lost, disaster_lost, cut_signs, gap_signs, wide, wide_number, lost_said, lost_column, gap_column, server_column, server_columns, step_text, line_strip, line_strips, signs_told, use_strip, use_strips, disaster_strip, disaster_strips, strip_head, characters_told, legend, strip_told};
ghost use Rattle.dr_rows.specs.Words.{place_name};

use crate::cells::{no_group, push_use_head, server_name};
use crate::disasters::{push_lost_at_once, servers_of};
use crate::line::disaster_of;
use crate::row::Row;
use crate::signs::{Sign, signs};
use crate::table::push_blanks;
use crate::words::{gap_place, push_place_name};
use dr_ids::Text;
use dr_plan::{PlanPlace, Point, SweepPlan};
use itoa::Buffer;
use std::alloc::{AllocError, Global};

/// The place is in that tried step, at that server.
fn is_cut_at(point: Point, disaster: usize, place: usize, server: usize) -> bool
    ensures { result ≡ is_cut_at disaster place server point }
{
    match point {
        Point::Cut {
            disaster: d,
            place: p,
            server: s,
            ..
        } => d == disaster && p == place && s == server,
        _ => false,
    }
}

/// The place is after that many tried steps.
fn is_gap_at(point: Point, disaster: usize, place: usize) -> bool
    ensures { result ≡ is_gap_at disaster place point }
{
    match point {
        Point::Gap {
            disaster: d,
            place: p,
        } => d == disaster && p == place,
        _ => false,
    }
}

/// The place is of the disaster.
fn is_in_disaster(point: Point, disaster: usize) -> bool
    ensures { result ≡ is_in_disaster disaster point }
{
    disaster_of(point) == disaster
}

/// The place is in the tried step with that number, counted from 1, or in the gap after it.
fn is_in_line(point: Point, disaster: usize, number: usize) -> bool
    ensures { result ≡ is_in_line disaster number point }
{
    match point {
        Point::Cut {
            disaster: d,
            place: p,
            ..
        } => d == disaster && p as u128 + 1 == number as u128,
        Point::Gap {
            disaster: d,
            place: p,
        } => d == disaster && p == number,
    }
}

/// The writes that are lost at a place, if it is one of those that are asked for.
fn lost_if(asked: bool, lost: usize) -> usize
    ensures { result ≡ lost_if asked lost }
{
    if asked { lost } else { 0 }
}

/// The most writes that are lost in the gap after that many tried steps.
fn gap_lost(signs: &[Sign], disaster: usize, place: usize) -> usize
    ensures { result ≡ gap_lost signs.now disaster place }
{
    let mut most = 0;
    for sign in signs {
        most = most.max(lost_if(is_gap_at(sign.point, disaster, place), sign.lost));
    }
    most
}

/// The most writes that are lost in the tried step before it or in the gap.
fn line_lost(signs: &[Sign], disaster: usize, place: usize) -> usize
    ensures { result ≡ line_lost signs.now disaster place }
{
    let mut most = 0;
    for sign in signs {
        most = most.max(lost_if(is_in_line(sign.point, disaster, place), sign.lost));
    }
    most
}

/// The most writes that are lost in the disaster.
fn disaster_lost(signs: &[Sign], disaster: usize) -> usize
    ensures { result ≡ disaster_lost signs.now disaster }
{
    let mut most = 0;
    for sign in signs {
        most = most.max(lost_if(is_in_disaster(sign.point, disaster), sign.lost));
    }
    most
}

/// Adds the characters of a server in a tried step.
fn push_cut_signs(
    text: &mut Text,
    signs: &[Sign],
    disaster: usize,
    place: usize,
    server: usize,
) -> Result<(), AllocError>
    ensures { OnOk result (text.new ≡ text.old ++ cut_signs signs.now disaster place server) }
{
    for sign in signs {
        if is_cut_at(sign.point, disaster, place, server) {
            text.append(&[sign.shown])?;
        }
    }
    Ok(())
}

/// Adds the character of a gap.
fn push_gap_signs(
    text: &mut Text,
    signs: &[Sign],
    disaster: usize,
    place: usize,
) -> Result<(), AllocError>
    ensures { OnOk result (text.new ≡ text.old ++ gap_signs signs.now disaster place) }
{
    for sign in signs {
        if is_gap_at(sign.point, disaster, place) {
            text.append(&[sign.shown])?;
        }
    }
    Ok(())
}

/// The name of a line or part.
fn name_of(alloc: Global, p: PlanPlace) -> Result<Text, AllocError>
    ensures { IfOk result (λ text. text ≡ place_name p) }
{
    let mut text = Text::new(alloc);
    push_place_name(&mut text, p)?;
    Ok(text)
}

/// Adds a name in six columns.
fn push_wide(text: &mut Text, name: &[u8]) -> Result<(), AllocError>
    ensures { OnOk result (text.new ≡ text.old ++ wide name.now) }
{
    text.append(&b"      "[name.len().min(6)..])?;
    text.append(name)
}

/// Adds a number, as wide as the greatest of its column.
fn push_wide_number(text: &mut Text, greatest: usize, n: usize) -> Result<(), AllocError>
    ensures { OnOk result (text.new ≡ text.old ++ wide_number greatest n) }
{
    let mut widest = Buffer::new();
    let mut digits = Buffer::new();
    let said = digits.format(n).as_bytes();
    push_blanks(text, widest.format(greatest).as_bytes().len(), said)?;
    text.append(said)
}

/// Adds how many writes are lost in a gap, and at most in its line.
fn push_lost_said(
    text: &mut Text,
    greatest: usize,
    gap: usize,
    most: usize,
) -> Result<(), AllocError>
    ensures { OnOk result (text.new ≡ text.old ++ lost_said greatest gap most) }
{
    text.append(b" | ")?;
    push_wide_number(text, greatest, gap)?;
    text.append(b" lost, worst ")?;
    push_wide_number(text, greatest, most)?;
    text.append(b" |")
}

/// Adds the same of the gap after that many tried steps.
fn push_lost_column(
    text: &mut Text,
    signs: &[Sign],
    disaster: usize,
    place: usize,
) -> Result<(), AllocError>
    ensures { OnOk result (text.new ≡ text.old ++ lost_column signs.now disaster place) }
{
    push_lost_said(
        text,
        disaster_lost(signs, disaster),
        gap_lost(signs, disaster, place),
        line_lost(signs, disaster, place),
    )
}

/// Adds the name of a gap, how many writes are lost there and in its line, and its character.
fn push_gap_column(
    alloc: Global,
    text: &mut Text,
    plan: &SweepPlan,
    signs: &[Sign],
    disaster: usize,
    place: usize,
) -> Result<(), AllocError>
    ensures { OnOk result (text.new ≡ text.old ++ gap_column plan.now signs.now disaster place) }
{
    push_wide(text, name_of(alloc, gap_place(plan, place))?.bytes())?;
    push_lost_column(text, signs, disaster, place)?;
    push_gap_signs(text, signs, disaster, place)?;
    text.append(b"|")
}

/// Adds a server's name and its characters.
fn push_server_column(
    text: &mut Text,
    plan: &SweepPlan,
    signs: &[Sign],
    disaster: usize,
    place: usize,
    server: usize,
) -> Result<(), AllocError>
    ensures { OnOk result (text.new ≡ text.old ++ server_column plan.now signs.now disaster place server) }
{
    text.append(b" ")?;
    text.append(server_name(plan, disaster, server))?;
    text.append(b" ")?;
    push_cut_signs(text, signs, disaster, place, server)
}

/// Adds those of all servers of the disaster.
fn push_server_columns(
    text: &mut Text,
    plan: &SweepPlan,
    signs: &[Sign],
    disaster: usize,
    place: usize,
) -> Result<(), AllocError>
    ensures { OnOk result (text.new ≡ text.old ++ server_columns plan.now signs.now disaster place) }
{
    for server in 0..servers_of(plan, disaster).len() {
        push_server_column(text, plan, signs, disaster, place, server)?;
    }
    Ok(())
}

/// The tried step at a place.
pub fn step_text(plan: &SweepPlan, place: usize) -> &[u8]
    ensures { result.now ≡ step_text plan.now place }
{
    match plan.tried().get(place) {
        None => b"",
        Some(tried) => tried.text(),
    }
}

/// Adds the strip of a tried step.
#[tactic(auto, unfolding(crate::specs::Strip::line_strip))]
fn push_line_strip(
    alloc: Global,
    text: &mut Text,
    plan: &SweepPlan,
    signs: &[Sign],
    disaster: usize,
    place: usize,
) -> Result<(), AllocError>
    requires { place + 1 < 2 ^ 64 }
    ensures { OnOk result (text.new ≡ text.old ++ line_strip plan.now signs.now disaster place) }
{
    push_gap_column(alloc, text, plan, signs, disaster, place + 1)?;
    push_server_columns(text, plan, signs, disaster, place)?;
    text.append(b"  ")?;
    text.append(step_text(plan, place))?;
    text.append(b"\n")
}

/// Adds the strips of all tried steps.
fn push_line_strips(
    alloc: Global,
    text: &mut Text,
    plan: &SweepPlan,
    signs: &[Sign],
    disaster: usize,
) -> Result<(), AllocError>
    ensures { OnOk result (text.new ≡ text.old ++ line_strips plan.now signs.now disaster) }
{
    for place in 0..plan.tried().len() {
        push_line_strip(alloc, text, plan, signs, disaster, place)?;
    }
    Ok(())
}

/// Adds the strips of a disaster and a use.
#[tactic(auto, unfolding(crate::specs::Strip::signs_told))]
fn push_signs_told(
    alloc: Global,
    text: &mut Text,
    plan: &SweepPlan,
    signs: &[Sign],
    disaster: usize,
) -> Result<(), AllocError>
    ensures { OnOk result (text.new ≡ text.old ++ signs_told plan.now signs.now disaster) }
{
    push_gap_column(alloc, text, plan, signs, disaster, 0)?;
    text.append(b"\n")?;
    push_line_strips(alloc, text, plan, signs, disaster)
}

/// Adds the same with the name of the use at a place.
fn push_use_strip(
    alloc: Global,
    text: &mut Text,
    plan: &SweepPlan,
    asks: bool,
    rows: &[Row],
    disaster: usize,
    which: usize,
) -> Result<(), AllocError>
    ensures { OnOk result (text.new ≡ text.old ++ use_strip plan.now asks rows.now disaster which) }
{
    push_use_head(text, plan, which)?;
    let found = signs(alloc, asks, which, rows)?;
    push_signs_told(alloc, text, plan, &found, disaster)
}

/// Adds the strips of all uses.
fn push_use_strips(
    alloc: Global,
    text: &mut Text,
    plan: &SweepPlan,
    asks: bool,
    rows: &[Row],
    disaster: usize,
) -> Result<(), AllocError>
    ensures { OnOk result (text.new ≡ text.old ++ use_strips plan.now asks rows.now disaster) }
{
    for which in 0..plan.uses().len() {
        push_use_strip(alloc, text, plan, asks, rows, disaster, which)?;
    }
    Ok(())
}

/// Adds the strips of a disaster.
#[tactic(auto, unfolding(crate::specs::Strip::disaster_strip))]
fn push_disaster_strip(
    alloc: Global,
    text: &mut Text,
    plan: &SweepPlan,
    asks: bool,
    rows: &[Row],
    disaster: usize,
) -> Result<(), AllocError>
    ensures { OnOk result (text.new ≡ text.old ++ disaster_strip plan.now asks rows.now disaster) }
{
    push_lost_at_once(text, servers_of(plan, disaster))?;
    push_use_strips(alloc, text, plan, asks, rows, disaster)
}

/// What the strip is.
#[tactic(auto, unfolding(crate::specs::Strip::strip_head))]
fn strip_head() -> &'static [u8]
    ensures { result.now ≡ strip_head }
{
    b"strip: of each line the writes lost in the gap after it, and the most lost at one of its points; then the gap's character, and one for each device write\n"
}

/// What the characters say.
#[tactic(auto, unfolding(crate::specs::Strip::characters_told))]
fn characters_told() -> &'static [u8]
    ensures { result.now ≡ characters_told }
{
    b"! a kept write depends on a lost one; * torn bytes decide; m fewer members count; . nothing is lost; o writes are lost; - "
}

/// Adds both.
fn push_legend(text: &mut Text, asks: bool) -> Result<(), AllocError>
    ensures { OnOk result (text.new ≡ text.old ++ legend asks) }
{
    text.append(strip_head())?;
    text.append(characters_told())?;
    text.append(no_group(asks))?;
    text.append(b"\n")
}

/// Adds the strips of all disasters.
fn push_disaster_strips(
    alloc: Global,
    text: &mut Text,
    plan: &SweepPlan,
    asks: bool,
    rows: &[Row],
) -> Result<(), AllocError>
    ensures { OnOk result (text.new ≡ text.old ++ disaster_strips plan.now asks rows.now) }
{
    for disaster in 0..plan.disasters().len() {
        push_disaster_strip(alloc, text, plan, asks, rows, disaster)?;
    }
    Ok(())
}

/// Adds all strips, after what their characters say.
#[tactic(auto, unfolding(crate::specs::Strip::strip_told))]
pub(crate) fn push_strip_told(
    alloc: Global,
    text: &mut Text,
    plan: &SweepPlan,
    asks: bool,
    rows: &[Row],
) -> Result<(), AllocError>
    ensures { OnOk result (text.new ≡ text.old ++ strip_told plan.now asks rows.now) }
{
    push_legend(text, asks)?;
    push_disaster_strips(alloc, text, plan, asks, rows)
}
