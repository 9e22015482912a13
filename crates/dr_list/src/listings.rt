//! What the lines of listings say after their numbers. It is put together from its end, so what stands last is put first.

ghost use Rattle.std.specs.Prelude.{◌≡◌, ◌+◌, ◌<◌, ◌≤◌, ◌++◌, codes, length, if◌then◌else◌};
ghost use Rattle.std.specs.Fmt.{decimal};
ghost use Rattle.dr_ids.specs.Spelling.{hex4};
ghost use Rattle.dr_model.specs.Text.{pair_words, type_words, is_target_state, pair_text, flash_word, flash_text, letter_if, flag_letters, member_text, mirror_text};

use crate::pieces::{put_count, put_word};
use crate::tail::Tail;
use crate::values::{flash_word, pair_words, phase_word, type_words};

/// A pair as an event tells it: a volume and its partner, the places of its state and kind, and how many
/// tracks are unsent.
#[derive(Clone, Copy)]
pub(crate) struct PairNumbers {
    pub(crate) volume: u16,
    pub(crate) partner: u16,
    pub(crate) state: u8,
    pub(crate) kind: u8,
    pub(crate) unsent: u16,
}

/// A FlashCopy relationship as an event tells it: its volumes, its sequence number and the one before, the
/// place of its state, its flags, and how many tracks the target holds.
#[derive(Clone, Copy)]
pub(crate) struct FlashNumbers {
    pub(crate) source: u16,
    pub(crate) target: u16,
    pub(crate) sequence: u32,
    pub(crate) previous: u32,
    pub(crate) state: u8,
    pub(crate) flags: u8,
    pub(crate) own: u16,
}

/// A session's member as an event tells it: its primary, its secondary, its target, and the place of the
/// primary's state.
#[derive(Clone, Copy)]
pub(crate) struct MemberNumbers {
    pub(crate) session: u8,
    pub(crate) primary: u16,
    pub(crate) secondary: u16,
    pub(crate) target: u16,
    pub(crate) state: u8,
}

/// A session's master as an event tells it: its server, the place of its phase, its number, and whether it
/// is paused.
#[derive(Clone, Copy)]
pub(crate) struct MirrorNumbers {
    pub(crate) session: u8,
    pub(crate) server: u8,
    pub(crate) phase: u8,
    pub(crate) n: u32,
    pub(crate) paused: bool,
}

/// Adds in front two volumes with a colon between them.
fn put_volumes(tail: &mut Tail, first: u16, second: u16)
    requires { length tail.old ≤ 128 }
    ensures text { tail.new ≡ hex4 first ++ codes ":" ++ hex4 second ++ tail.old }
    ensures short { length tail.new ≤ length tail.old + 9 }
{
    tail.hex4(second);
    tail.word(b":");
    tail.hex4(first);
}

/// Adds in front the volumes of a pair, its state and its kind.
fn put_pair_state(tail: &mut Tail, primary: u16, secondary: u16, of: PairNumbers)
    requires { length tail.old ≤ 20 }
    ensures text { tail.new ≡ hex4 primary ++ codes ":" ++ hex4 secondary ++ codes " " ++ pair_words of.state ++ codes " " ++ type_words of.kind ++ tail.old }
    ensures short { length tail.new ≤ length tail.old + 59 }
{
    put_word(tail, type_words(u32::from(of.kind)));
    put_word(tail, pair_words(u32::from(of.state)));
    put_volumes(tail, primary, secondary);
}

/// The state is that of a secondary.
fn is_target_state(state: u8) -> bool
    ensures { result ≡ is_target_state state }
{
    (3..=5).contains(&state)
}

/// Adds a pair in front, its primary first. A secondary doesn't know what is unsent, so a dash stands for it.
pub(crate) fn put_pair(tail: &mut Tail, of: PairNumbers)
    requires { length tail.old ≤ 1 }
    ensures text { tail.new ≡ pair_text of.volume of.partner of.state of.kind of.unsent ++ tail.old }
    ensures short { length tail.new ≤ 80 }
{
    if is_target_state(of.state) {
        tail.word(b" -");
        put_pair_state(tail, of.partner, of.volume, of);
    } else {
        put_count(tail, u32::from(of.unsent));
        put_pair_state(tail, of.volume, of.partner, of);
    }
}

/// Adds a letter in front if that bit of the flags is set.
fn put_flag(tail: &mut Tail, flags: u8, flag: u8, letter: &[u8])
    requires { (0 < flag) × (length letter.now ≤ 1) × (length tail.old ≤ 128) }
    ensures text { tail.new ≡ letter_if flags flag letter.now ++ tail.old }
    ensures short { length tail.new ≤ length tail.old + 1 }
    ensures long { length tail.old ≤ length tail.new }
{
    if flags / flag % 2 == 1 {
        tail.word(letter);
    }
}

fn put_letters(tail: &mut Tail, flags: u8)
    requires { length tail.old ≤ 100 }
    ensures text { tail.new ≡ letter_if flags 1 (codes "N") ++ letter_if flags 2 (codes "P") ++ letter_if flags 4 (codes "R") ++ letter_if flags 8 (codes "I") ++ tail.old }
    ensures short { length tail.new ≤ length tail.old + 4 }
{
    put_flag(tail, flags, 8, b"I");
    put_flag(tail, flags, 4, b"R");
    put_flag(tail, flags, 2, b"P");
    put_flag(tail, flags, 1, b"N");
}

/// Adds the flags in front as letters, or a dash if none is set.
fn put_flags(tail: &mut Tail, flags: u8)
    requires { length tail.old ≤ 100 }
    ensures text { tail.new ≡ flag_letters flags ++ tail.old }
    ensures short { length tail.new ≤ length tail.old + 4 }
{
    let before = tail.bytes().len();
    put_letters(tail, flags);
    if tail.bytes().len() == before {
        tail.word(b"-");
    }
}

/// Adds in front the state of a relationship, its flags, and how many tracks its target holds.
fn put_flash_state(tail: &mut Tail, of: FlashNumbers)
    requires { length tail.old ≤ 1 }
    ensures text { tail.new ≡ codes " " ++ flash_word of.state ++ codes " " ++ flag_letters of.flags ++ codes " " ++ decimal of.own ++ tail.old }
    ensures short { length tail.new ≤ 45 }
{
    put_count(tail, u32::from(of.own));
    put_flags(tail, of.flags);
    tail.word(b" ");
    put_word(tail, flash_word(u32::from(of.state)));
}

/// Adds a relationship in front.
pub(crate) fn put_flash(tail: &mut Tail, of: FlashNumbers)
    requires { length tail.old ≤ 1 }
    ensures text { tail.new ≡ flash_text of.source of.target of.sequence of.previous of.state of.flags of.own ++ tail.old }
    ensures short { length tail.new ≤ 80 }
{
    put_flash_state(tail, of);
    put_count(tail, of.previous);
    put_count(tail, of.sequence);
    put_volumes(tail, of.source, of.target);
}

/// Adds a session's member in front.
pub(crate) fn put_member(tail: &mut Tail, of: MemberNumbers)
    requires { length tail.old ≤ 1 }
    ensures text { tail.new ≡ member_text of.session of.primary of.secondary of.target of.state ++ tail.old }
    ensures short { length tail.new ≤ 80 }
{
    put_word(tail, pair_words(u32::from(of.state)));
    tail.hex4(of.target);
    tail.word(b":");
    put_volumes(tail, of.primary, of.secondary);
    tail.word(b" ");
    tail.hex2(of.session);
}

/// The word that says whether a session's master goes on.
fn pace_word(paused: bool) -> &'static [u8]
    ensures word { result.now ≡ (if paused then codes " paused" else codes " running") }
    ensures short { length result.now ≤ 8 }
{
    if paused { b" paused" } else { b" running" }
}

/// Adds a session's master in front, whose server has this name.
pub(crate) fn put_mirror(tail: &mut Tail, name: &[u8], of: MirrorNumbers)
    requires { (length name.now ≤ 24) × (length tail.old ≤ 1) }
    ensures text { tail.new ≡ mirror_text name.now of.session of.phase of.n of.paused ++ tail.old }
    ensures short { length tail.new ≤ 80 }
{
    tail.word(pace_word(of.paused));
    put_count(tail, of.n);
    put_word(tail, phase_word(u32::from(of.phase)));
    put_word(tail, name);
    tail.hex2(of.session);
}
