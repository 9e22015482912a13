//! The lines of a trial.

ghost use Rattle.std.specs.Prelude.{◌≡◌, ◌∷◌, ◌++◌, ◌-◌, ◌+◌, ◌<◌, ◌^◌, [], nat_lt, OnOk, IfOk, codes, if◌then◌else◌};
ghost use Rattle.std.specs.Fmt.{decimal};
ghost use Rattle.dr_ids.specs.Spelling.{hex2};
ghost use Rattle.dr_gen.specs.Trial.{volume_word, server_word, round_lines, tried_again, writes_of, lines_of, rounds, ended, head, last, script_text};

use crate::rounds::{Round, draw_round};
use dr_ids::{Text, upper_hex};
use std::alloc::{AllocError, Global};

/// How many rounds a trial has.
const ROUNDS: u32 = 2000;

/// How many writes lie between a write and its second try.
const BEHIND: u32 = 32;

fn volume_word(volume: u32) -> &'static [u8]
    ensures { result.now ≡ volume_word volume }
{
    match volume {
        0 => b"1000",
        1 => b"1001",
        2 => b"1100",
        _ => b"1101",
    }
}

fn server_word(server: u32) -> &'static [u8]
    ensures { result.now ≡ server_word server }
{
    match server {
        0 => b"A1",
        _ => b"A2",
    }
}

/// Two servers with two primary volumes each, their pairs, the FlashCopy relationships of the
/// secondaries, and a session.
#[tactic(auto, unfolding(crate::specs::Trial::head))]
fn head() -> &'static [u8]
    ensures { result.now ≡ ended head }
{
    b"\
        @server A1\n\
        @server A2\n\
        @server B1\n\
        @server B2\n\
        @volume 1000 A1 4\n\
        @volume 1001 A1 4\n\
        @volume 1100 A2 4\n\
        @volume 1101 A2 4\n\
        @volume 2000 B1 4\n\
        @volume 2001 B1 4\n\
        @volume 2100 B2 4\n\
        @volume 2101 B2 4\n\
        @volume 3000 B1 4\n\
        @volume 3001 B1 4\n\
        @volume 3100 B2 4\n\
        @volume 3101 B2 4\n\
        mkpprcpath -dev A1 -remotedev B1 -remotewwnn 5005076303FFC1A5 -srclss 10 -tgtlss 20 I0010:I0140\n\
        mkpprcpath -srclss 11 -tgtlss 21 I0010:I0140\n\
        mkpprc -type gcp -mode nocp 1000-1001:2000-2001\n\
        mkpprc -type gcp -mode nocp 1100-1101:2100-2101\n\
        mkflash -tgtinhibit -record -persist -nocp 2000-2001:3000-3001\n\
        mkflash -tgtinhibit -record -persist -nocp 2100-2101:3100-3101\n\
        mksession -lss 10 -volume 1000-1001 01\n\
        mksession -lss 11 -volume 1100-1101 01\n\
        mkgmir -lss 10 -session 01 -cginterval 0 -coordinate 50 -drain 30 A1/10:A2/11\n"
}

/// The primary servers stop, and the session is recovered.
fn last() -> &'static [u8]
    ensures { result.now ≡ ended last }
{
    b"@stop A1\n@stop A2\n@recover 01\n"
}

/// Adds a space and a number in decimal digits.
fn push_number(alloc: Global, text: &mut Text, n: u32) -> Result<(), AllocError>
    ensures { OnOk result (text.new ≡ text.old ++ codes " " ++ decimal n) }
{
    let digits = n.to_string(alloc)?;
    text.append(b" ")?;
    text.append(digits.as_bytes())
}

/// Adds a space and a byte in two upper-case hexadecimal digits.
fn push_byte(text: &mut Text, byte: u8) -> Result<(), AllocError>
    ensures { OnOk result (text.new ≡ text.old ++ codes " " ++ hex2 byte) }
{
    let digits = [upper_hex(byte / 16), upper_hex(byte % 16)];
    text.append(b" ")?;
    text.append(&digits)
}

/// Adds a line of a command and its last word.
fn push_line(text: &mut Text, command: &[u8], word: &[u8]) -> Result<(), AllocError>
    ensures { OnOk result (text.new ≡ text.old ++ ended ((command.now ++ word.now) ∷ [])) }
{
    text.append(command)?;
    text.append(word)?;
    text.append(b"\n")
}

/// Adds the line of a write.
#[tactic(auto, unfolding(crate::specs::Trial::round_lines))]
fn push_write(
    alloc: Global,
    text: &mut Text,
    volume: u32,
    track: u32,
    offset: u32,
    byte: u8,
) -> Result<(), AllocError>
    ensures { OnOk result (text.new ≡ text.old ++ ended (round_lines (Round.Write volume track offset byte))) }
{
    text.append(b"@write ")?;
    text.append(volume_word(volume))?;
    push_number(alloc, text, track)?;
    push_number(alloc, text, offset)?;
    push_byte(text, byte)?;
    text.append(b"\n")
}

/// Adds the lines of a round. `writes` counts the writes, and behind a write from the 33rd on stands the
/// second try of an earlier one, so that each held write is tried again.
#[tactic(auto, unfolding(crate::specs::Trial::round_lines))]
fn push_round(
    alloc: Global,
    text: &mut Text,
    writes: &mut u32,
    round: Round,
) -> Result<(), AllocError>
    requires { writes.old < 2 ^ 31 }
    ensures text { OnOk result (text.new ≡ text.old ++ ended (round_lines round ++ tried_again (writes.old + 1) round)) }
    ensures writes { writes.new ≡ writes.old + writes_of round }
{
    match round {
        Round::Write {
            volume,
            track,
            offset,
            byte,
        } => {
            *writes += 1;
            push_write(alloc, text, volume, track, offset, byte)?;
            push_try(alloc, text, *writes)
        }
        Round::Drain { volume } => {
            text.append(b"@drain ")?;
            text.append(volume_word(volume))?;
            text.append(b" all\n")
        },
        Round::Exchange { server } => push_line(text, b"@exchange 01 ", server_word(server)),
        Round::Abort => text.append(b"@abort 01\n"),
        Round::Restart { server } => {
            push_line(text, b"@stop ", server_word(server))?;
            push_line(text, b"@start ", server_word(server))
        }
        Round::Run => text.append(b"@run 01 1\n"),
    }
}

/// Behind the j-th write, from the 33rd on, adds the second try of the one that was issued 32 writes before.
fn push_try(alloc: Global, text: &mut Text, j: u32) -> Result<(), AllocError>
    ensures { OnOk result (text.new ≡ text.old ++ ended (if nat_lt 32 j then (codes "@apply " ++ decimal (j - 32)) ∷ [] else [])) }
{
    if BEHIND < j {
        text.append(b"@apply")?;
        push_number(alloc, text, j - BEHIND)?;
        text.append(b"\n")
    } else {
        Ok(())
    }
}

/// The script of the trial of that number. Fails where there is no memory.
#[tactic(auto, unfolding(crate::specs::Trial::script_text))]
pub fn script(alloc: Global, n: u32) -> Result<Text, AllocError>
    ensures { IfOk result (λ text. text ≡ script_text n) }
{
    let mut text = Text::new(alloc);
    text.append(head())?;
    let mut state = n;
    let mut writes = 0;
    for _ in 0..ROUNDS {
        let round = draw_round(&mut state);
        push_round(alloc, &mut text, &mut writes, round)?;
    }
    text.append(last())?;
    Ok(text)
}
