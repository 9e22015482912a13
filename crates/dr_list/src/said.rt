//! What an answer says. It is put together from its end, so what stands last is put first.

ghost use Rattle.std.specs.Prelude.{◌≡◌, ◌/◌, ◌+◌, ◌≤◌, ◌++◌, OnOk, codes, length};
ghost use Rattle.std.specs.Fmt.{decimal};
ghost use Rattle.dr_model.specs.Text.{track_text, volume_digits, session_digits, one_number, two_numbers, decision_text, group_decision, addition, link_text, refusal_words, refusal_values, said_text};
ghost use Rattle.dr_list.specs.Seen.{heard_seen};

use crate::pieces::{put_count, put_word, trimmed_len};
use crate::tail::Tail;
use crate::told::Heard;
use crate::values::{kind_word, limit_word, pair_words, phase_word, refusal_words, relation_word};
use dr_model::AnswerNumbers;
use std::alloc::AllocError;

/// Adds a volume in front, with a space before it: four hexadecimal digits.
fn put_volume(tail: &mut Tail, n: u32)
    requires { length tail.old ≤ 128 }
    ensures text { tail.new ≡ codes " " ++ volume_digits n ++ tail.old }
    ensures short { length tail.new ≤ length tail.old + 5 }
{
    tail.hex4((n % 65536) as u16);
    tail.word(b" ");
}

/// Adds a session in front, with a space before it: two hexadecimal digits.
fn put_session(tail: &mut Tail, n: u32)
    requires { length tail.old ≤ 128 }
    ensures text { tail.new ≡ codes " " ++ session_digits n ++ tail.old }
    ensures short { length tail.new ≤ length tail.old + 3 }
{
    tail.hex2((n % 256) as u8);
    tail.word(b" ");
}

/// Adds a track in front as it is shown: hexadecimal without the zero bytes at its end, or a dash.
fn put_track(tail: &mut Tail, bytes: &[u8])
    requires { (length bytes.now ≤ 64) × (length tail.old ≤ 40) }
    ensures text { tail.new ≡ track_text bytes.now ++ tail.old }
    ensures short { length tail.new ≤ length tail.old + 128 }
{
    let len = trimmed_len(bytes);
    if len == 0 {
        tail.word(b"-");
    } else {
        tail.hex(&bytes[..len]);
    }
}

fn put_one(tail: &mut Tail, a: u32)
    requires { length tail.old ≤ 128 }
    ensures text { tail.new ≡ one_number a ++ tail.old }
    ensures short { length tail.new ≤ length tail.old + 12 }
{
    tail.word(b")");
    tail.number(a);
    tail.word(b"(");
}

fn put_two(tail: &mut Tail, a: u32, b: u32)
    requires { length tail.old ≤ 128 }
    ensures text { tail.new ≡ two_numbers a b ++ tail.old }
    ensures short { length tail.new ≤ length tail.old + 23 }
{
    tail.word(b")");
    tail.number(b);
    tail.word(b",");
    tail.number(a);
    tail.word(b"(");
}

/// Adds a decision in front by its place, with its numbers.
fn put_decision(tail: &mut Tail, place: u32, a: u32, b: u32)
    requires { length tail.old ≤ 40 }
    ensures text { tail.new ≡ decision_text place a b ++ tail.old }
    ensures short { length tail.new ≤ length tail.old + 33 }
{
    match place {
        0 => tail.word(b"NoMember"),
        1 => {
            put_one(tail, a);
            tail.word(b"Nothing");
        }
        2 => {
            put_one(tail, a);
            tail.word(b"RevertAll");
        }
        3 => {
            put_one(tail, a);
            tail.word(b"CommitRest");
        }
        4 => {
            put_two(tail, a, b);
            tail.word(b"RevertSome");
        }
        5 => {
            put_two(tail, a, b);
            tail.word(b"Impossible");
        }
        _ => {}
    }
}

/// Adds the decision of a group that is given.
fn put_group_decision(tail: &mut Tail, place: u32, group: u32, n: u32)
    requires { length tail.old ≤ 40 }
    ensures text { tail.new ≡ group_decision place group n ++ tail.old }
    ensures short { length tail.new ≤ length tail.old + 33 }
{
    if place == 4 {
        put_decision(tail, place, group, n);
    } else {
        put_decision(tail, place, n, 0);
    }
}

fn put_group(tail: &mut Tail, place: u32, group: u32, n: u32)
    requires { length tail.old ≤ 40 }
    ensures text { tail.new ≡ codes " group " ++ decimal group ++ codes " " ++ group_decision place group n ++ tail.old }
    ensures short { length tail.new ≤ length tail.old + 51 }
{
    put_group_decision(tail, place, group, n);
    tail.word(b" ");
    tail.number(group);
    tail.word(b" group ");
}

/// Adds what an ok adds, by its kind and its numbers.
fn put_addition(tail: &mut Tail, told: &Heard, kind: u32, a: u32, b: u32)
    requires { length tail.old ≤ 40 }
    ensures text { tail.new ≡ addition (heard_seen told.now) kind a b ++ tail.old }
    ensures short { length tail.new ≤ length tail.old + 129 }
{
    match kind {
        1 => {
            tail.number(a);
            tail.word(b" w");
        }
        2 => {
            tail.number(a);
            tail.word(b" acked w");
        }
        3 => put_count(tail, a),
        4 => {
            put_count(tail, b);
            put_word(tail, phase_word(a));
        }
        6 => {
            put_track(tail, told.shown());
            tail.word(b" ");
        }
        7 => {
            tail.number(a);
            tail.word(b" m");
        }
        _ if kind % 256 == 5 => put_group(tail, kind / 256, a, b),
        _ => {}
    }
}

/// Adds the names of two servers, the lower numbered first.
fn put_link(tail: &mut Tail, told: &Heard, a: u32, b: u32)
    requires { length tail.old ≤ 40 }
    ensures text { tail.new ≡ link_text (heard_seen told.now) a b ++ tail.old }
    ensures short { length tail.new ≤ length tail.old + 50 }
{
    put_word(tail, told.name_bytes(a.max(b)));
    put_word(tail, told.name_bytes(a.min(b)));
}

/// Adds what a refusal says of its numbers.
fn put_values(tail: &mut Tail, told: &Heard, of: AnswerNumbers)
    requires { length tail.old ≤ 40 }
    ensures text { tail.new ≡ refusal_values (heard_seen told.now) of.code of.a of.b of.c ++ tail.old }
    ensures short { length tail.new ≤ length tail.old + 50 }
{
    match of.code {
        1 | 7 | 19 | 25 => put_count(tail, of.a),
        2 | 3 => put_word(tail, kind_word(of.a)),
        4 => put_word(tail, limit_word(of.a)),
        5 | 21 => put_word(tail, told.name_bytes(of.a)),
        6 => put_link(tail, told, of.a, of.b),
        8 | 9 | 26 => put_volume(tail, of.a),
        10 => {
            put_word(tail, pair_words(of.b));
            put_volume(tail, of.a);
        }
        11 => {
            put_word(tail, relation_word(of.b));
            put_volume(tail, of.a);
        }
        12 | 13 => put_session(tail, of.a),
        14 => {
            put_count(tail, of.b);
            put_word(tail, phase_word(of.a));
        }
        15 => put_word(tail, phase_word(of.a)),
        16 => {
            put_count(tail, of.b);
            put_volume(tail, of.a);
        }
        17 => {
            put_count(tail, of.b);
            put_count(tail, of.a);
        }
        18 | 22 => {
            put_decision(tail, of.a, of.b, of.c);
            tail.word(b" ");
        }
        _ => {}
    }
}

/// Adds what an answer says in front.
pub(crate) fn put_said(tail: &mut Tail, told: &Heard, of: AnswerNumbers)
    requires { length tail.old ≤ 40 }
    ensures text { tail.new ≡ said_text (heard_seen told.now) of.code of.a of.b of.c ++ tail.old }
    ensures short { length tail.new ≤ length tail.old + 131 }
{
    match of.code {
        0 => {
            put_addition(tail, told, of.a, of.b, of.c);
            tail.word(b"ok");
        }
        100 => {
            tail.number(of.a);
            tail.word(b"held w");
        }
        code => {
            put_values(tail, told, of);
            tail.word(refusal_words(code));
        }
    }
}

/// Adds what an answer says.
pub fn push_said(out: &mut Vec<u8>, told: &Heard, of: AnswerNumbers) -> Result<(), AllocError>
    ensures { OnOk result (out.new.items ≡ out.old.items ++ said_text (heard_seen told.now) of.code of.a of.b of.c) }
{
    let mut tail = Tail::new();
    put_said(&mut tail, told, of);
    out.extend_from_slice(tail.bytes())
}
