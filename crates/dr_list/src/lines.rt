ghost use Rattle.std.specs.Prelude.{◌≡◌, ◌-◌, ◌<◌, ◌≤◌, ◌++◌, false, length, take, drop, slice_get, OnOk, IfOk, codes};
ghost use Rattle.std.specs.Fmt.{decimal};
ghost use Rattle.std.specs.List.{fold};
ghost use Rattle.dr_model.specs.Text.{untold, heard, told_name, pair_text, flash_text, member_text, mirror_text, said_text, numbered, line_text, text_from};
ghost use Rattle.dr_list.specs.At.{line_told, heard_at};
ghost use Rattle.dr_list.specs.Numbered.{is_answer, is_of_volumes, is_silent};
ghost use Rattle.dr_list.specs.Seen.{heard_seen};

use crate::images::push_image_line;
use crate::listings::{
    FlashNumbers, MemberNumbers, MirrorNumbers, PairNumbers, put_flash, put_member, put_mirror,
    put_pair,
};
use crate::said::put_said;
use crate::tail::Tail;
use crate::told::Heard;
use dr_model::{AnswerNumbers, Event, Journal};
use std::alloc::{AllocError, Global};

/// Adds a line whose end is put together, with its number.
fn push_line(out: &mut Vec<u8>, line: u32, tail: &mut Tail) -> Result<(), AllocError>
    requires { length tail.old ≤ 181 }
    ensures { OnOk result (out.new.items ≡ out.old.items ++ (decimal line ++ codes " " ++ tail.old)) }
{
    tail.word(b" ");
    tail.number(line);
    out.extend_from_slice(tail.bytes())
}

/// Adds the line of a pair.
fn push_pair_line(out: &mut Vec<u8>, line: u32, of: PairNumbers) -> Result<(), AllocError>
    ensures { OnOk result (out.new.items ≡ out.old.items ++ numbered line (pair_text of.volume of.partner of.state of.kind of.unsent)) }
{
    let mut tail = Tail::end_of_line();
    put_pair(&mut tail, of);
    push_line(out, line, &mut tail)
}

/// Adds the line of a FlashCopy relationship.
fn push_flash_line(out: &mut Vec<u8>, line: u32, of: FlashNumbers) -> Result<(), AllocError>
    ensures { OnOk result (out.new.items ≡ out.old.items ++ numbered line (flash_text of.source of.target of.sequence of.previous of.state of.flags of.own)) }
{
    let mut tail = Tail::end_of_line();
    put_flash(&mut tail, of);
    push_line(out, line, &mut tail)
}

/// Adds the line of a session's member.
fn push_member_line(out: &mut Vec<u8>, line: u32, of: MemberNumbers) -> Result<(), AllocError>
    ensures { OnOk result (out.new.items ≡ out.old.items ++ numbered line (member_text of.session of.primary of.secondary of.target of.state)) }
{
    let mut tail = Tail::end_of_line();
    put_member(&mut tail, of);
    push_line(out, line, &mut tail)
}

/// Adds the line of a session's master.
fn push_mirror_line(
    out: &mut Vec<u8>,
    told: &Heard,
    line: u32,
    of: MirrorNumbers,
) -> Result<(), AllocError>
    ensures { OnOk result (out.new.items ≡ out.old.items ++ numbered line (mirror_text (told_name (heard_seen told.now) of.server) of.session of.phase of.n of.paused)) }
{
    let mut tail = Tail::end_of_line();
    put_mirror(&mut tail, told.name_bytes(u32::from(of.server)), of);
    push_line(out, line, &mut tail)
}

/// Adds the line of an answer.
fn push_answer(
    out: &mut Vec<u8>,
    told: &Heard,
    line: u32,
    says: AnswerNumbers,
) -> Result<(), AllocError>
    ensures { OnOk result (out.new.items ≡ out.old.items ++ numbered line (said_text (heard_seen told.now) says.code says.a says.b says.c)) }
{
    let mut tail = Tail::end_of_line();
    put_said(&mut tail, told, says);
    push_line(out, line, &mut tail)
}

/// Adds the line of a session's member or master, or of an image.
fn push_session_line(out: &mut Vec<u8>, told: &Heard, event: &Event) -> Result<(), AllocError>
    requires { is_of_volumes event.now ≡ false }
    ensures { OnOk result (out.new.items ≡ out.old.items ++ line_text (heard_seen told.now) event.now) }
{
    match *event {
        Event::SessionLine {
            line,
            session,
            a,
            b,
            c,
            state,
        } => {
            let of = MemberNumbers {
                session,
                primary: a,
                secondary: b,
                target: c,
                state,
            };
            push_member_line(out, line, of)
        }
        Event::MirrorLine {
            line,
            session,
            server,
            phase,
            n,
            paused,
        } => {
            let of = MirrorNumbers {
                session,
                server,
                phase,
                n,
                paused,
            };
            push_mirror_line(out, told, line, of)
        }
        _ => push_image_line(out, event),
    }
}

/// Adds the line that an event prints, unless it is an answer. Such lines are rare, so they stay out of the loop over
/// events.
#[inline(never)]
fn push_listed(out: &mut Vec<u8>, told: &Heard, event: &Event) -> Result<(), AllocError>
    requires { is_answer event.now ≡ false }
    ensures { OnOk result (out.new.items ≡ out.old.items ++ line_text (heard_seen told.now) event.now) }
{
    match *event {
        Event::PairLine {
            line,
            volume,
            partner,
            state,
            kind,
            k,
        } => {
            let of = PairNumbers {
                volume,
                partner,
                state,
                kind,
                unsent: k,
            };
            push_pair_line(out, line, of)
        }
        Event::FlashLine {
            line,
            source,
            target,
            sequence,
            previous,
            state,
            flags,
            own,
        } => {
            let of = FlashNumbers {
                source,
                target,
                sequence,
                previous,
                state,
                flags,
                own,
            };
            push_flash_line(out, line, of)
        }
        _ => push_session_line(out, told, event),
    }
}

/// Adds the line that an event prints; most print none.
fn push_event(out: &mut Vec<u8>, told: &Heard, event: &Event) -> Result<(), AllocError>
    ensures { OnOk result (out.new.items ≡ out.old.items ++ line_text (heard_seen told.now) event.now) }
{
    match *event {
        Event::Answer {
            line,
            code,
            a,
            b,
            c,
        } => push_answer(out, told, line, AnswerNumbers { code, a, b, c }),
        _ => push_listed(out, told, event),
    }
}

/// The event prints no line and tells nothing that lines refer to, as most do.
fn is_silent(event: &Event) -> bool
    ensures { result ≡ is_silent event.now }
{
    match event {
        Event::Server { .. }
        | Event::Shown { .. }
        | Event::PairLine { .. }
        | Event::FlashLine { .. }
        | Event::SessionLine { .. }
        | Event::MirrorLine { .. }
        | Event::ImageStart
        | Event::ImageVolume { .. }
        | Event::ImageBlock { .. }
        | Event::ImageEnd
        | Event::Answer { .. } => false,
        _ => true,
    }
}

/// Adds the line that an event prints, and hears the event.
fn print_event(out: &mut Vec<u8>, told: &mut Heard, event: &Event) -> Result<(), AllocError>
    ensures line { OnOk result (out.new.items ≡ out.old.items ++ line_text (heard_seen told.old) event.now) }
    ensures told { heard_seen told.new ≡ heard (heard_seen told.old) event.now }
{
    if is_silent(event) {
        return Ok(());
    }
    let pushed = push_event(out, told, event);
    told.hear(event);
    pushed
}

/// Adds the line that the event at a place prints, and hears the event.
fn print_at(
    out: &mut Vec<u8>,
    told: &mut Heard,
    journal: &Journal,
    place: usize,
) -> Result<(), AllocError>
    ensures line { OnOk result (out.new.items ≡ out.old.items ++ line_told (heard_seen told.old) (slice_get journal.now.events place)) }
    ensures told { heard_seen told.new ≡ heard_at (heard_seen told.old) (slice_get journal.now.events place) }
{
    match journal.event(place) {
        Some(event) => print_event(out, told, event),
        None => Ok(()),
    }
}

fn hear_at(told: &mut Heard, journal: &Journal, place: usize)
    ensures { heard_seen told.new ≡ heard_at (heard_seen told.old) (slice_get journal.now.events place) }
{
    if let Some(event) = journal.event(place) {
        told.hear(event);
    }
}

/// Hears the events of a journal from one place up to another.
fn hear_between(told: &mut Heard, journal: &Journal, from: usize, to: usize)
    ensures { heard_seen told.new ≡ fold heard (heard_seen told.old) (take (to - from) (drop from journal.now.events)) }
{
    for i in from..to {
        hear_at(told, journal, i);
    }
}

/// Writes the text of the events of a journal from a place on into `out`, where `told` is what those before
/// them told; it looks at none of those. What `out` held is gone. Fails where there is no memory. In either
/// case `told` has heard all events then.
///
/// Each answer and each line of a listing (pairs, FlashCopy relationships, members, masters) gives one line:
/// the decimal number of its script line, a space, what it says, and a line feed. An image's first line, its
/// volumes, its blocks and its end give one each without a number. No other event gives one.
pub fn text_on(
    told: &mut Heard,
    journal: &Journal,
    from: usize,
    out: &mut Vec<u8>,
) -> Result<(), AllocError>
    requires { from ≤ length journal.now.events }
    ensures text { OnOk result (out.new.items ≡ text_from (heard_seen told.old) (drop from journal.now.events)) }
    ensures told { heard_seen told.new ≡ fold heard (heard_seen told.old) (drop from journal.now.events) }
{
    out.clear();
    for i in from..journal.len() {
        let Ok(()) = print_at(out, told, journal, i) else {
            hear_between(told, journal, i + 1, journal.len());
            return Err(AllocError);
        };
    }
    Ok(())
}

/// The text of the events of a journal from a place on, with the names and the shown track that the
/// events before it told. Fails where there is no memory. `text_on` gives it without hearing these
/// events again.
pub fn text(alloc: Global, journal: &Journal, from: usize) -> Result<Vec<u8>, AllocError>
    requires { from ≤ length journal.now.events }
    ensures { IfOk result (λ out. out.items ≡ text_from (fold heard untold (take from journal.now.events)) (drop from journal.now.events)) }
{
    let mut told = Heard::new();
    let mut out = Vec::new(alloc);
    hear_between(&mut told, journal, 0, from);
    text_on(&mut told, journal, from, &mut out)?;
    Ok(out)
}
