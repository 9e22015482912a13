//! The line that says a step.

ghost use Rattle.std.specs.Prelude.{◌≡◌, ◌∷◌, ◌++◌, ◌+◌, ◌<◌, [], take, drop, length, true, OnOk, IfOk, Ok, codes, if◌then◌else◌};
ghost use Rattle.std.specs.Fmt.{decimal};
ghost use Rattle.std.specs.List.{flat_map};
ghost use Rattle.std.specs.Option.{unwrap_or};
ghost use Rattle.dr_ids.specs.Spelling.{hex2, hex4};
ghost use Rattle.dr_model.specs.LineText.{unpadded, sequence_text, name_text, bytes_text, torn_text, most_text, kind_text, setting_text, setting_words, settings_words, operand_text, operand_words, said_count, said_operands, spaced, said_text, saying, step_text, IsWritten};
ghost use Rattle.dr_model.specs.LineTable.{settings, setting_word};
ghost use Rattle.dr_model.specs.LineSteps.{is_flag, lss_in};
ghost use Rattle.dr_model.specs.Grammar.{line_of};

use crate::operands::no_name;
use crate::saying::saying;
use crate::settings::has;
use crate::table::{command_word, is_flag, may_end_with, operands, setting_word, settings};
use dr_ids::{Text, upper_hex};
use dr_model::{Command, Item, Name, Operand, Operands, Options, Saying, Setting, Step, TornWord};
use std::alloc::{AllocError, Global};

/// Adds two upper-case hexadecimal digits.
fn push_hex2(text: &mut Text, n: u8) -> Result<(), AllocError>
    ensures { OnOk result (text.new ≡ text.old ++ hex2 n) }
{
    let digits = [upper_hex(n / 16), upper_hex(n % 16)];
    text.append(&digits)
}

/// Adds four upper-case hexadecimal digits.
fn push_hex4(text: &mut Text, n: u16) -> Result<(), AllocError>
    ensures { OnOk result (text.new ≡ text.old ++ hex4 n) }
{
    push_hex2(text, (n / 256) as u8)?;
    push_hex2(text, (n % 256) as u8)
}

/// The digits without the zeros at their front; the last digit stays.
fn unpadded(digits: &[u8]) -> &[u8]
    ensures { result.now ≡ unpadded digits.now }
{
    let mut start = 0;
    while start + 1 < digits.len() && digits[start] == b'0' {
        start += 1;
    }
    &digits[start..]
}

/// Adds a sequence number.
fn push_sequence(alloc: Global, text: &mut Text, n: u32) -> Result<(), AllocError>
    ensures { OnOk result (text.new ≡ text.old ++ sequence_text n) }
{
    let mut digits = Text::new(alloc);
    push_hex4(&mut digits, (n / 65536) as u16)?;
    push_hex4(&mut digits, (n % 65536) as u16)?;
    text.append(unpadded(digits.bytes()))
}

/// Adds a number in decimal digits.
fn push_decimal(alloc: Global, text: &mut Text, n: u32) -> Result<(), AllocError>
    ensures { OnOk result (text.new ≡ text.old ++ decimal n) }
{
    let digits = n.to_string(alloc)?;
    text.append(digits.as_bytes())
}

fn front(bytes: &[u8], len: usize) -> &[u8]
    ensures { result.now ≡ take len bytes.now }
{
    &bytes[..len.min(bytes.len())]
}

fn push_name(text: &mut Text, name: &Name) -> Result<(), AllocError>
    ensures { OnOk result (text.new ≡ text.old ++ name_text name.now) }
{
    text.append(front(&name.bytes, usize::from(name.len)))
}

fn push_bytes(text: &mut Text, bytes: &[u8]) -> Result<(), AllocError>
    ensures { OnOk result (text.new ≡ text.old ++ bytes_text bytes.now) }
{
    for byte in bytes {
        push_hex2(text, *byte)?;
    }
    Ok(())
}

fn push_torn(text: &mut Text, torn: &TornWord) -> Result<(), AllocError>
    ensures { OnOk result (text.new ≡ text.old ++ torn_text torn.now) }
{
    match torn {
        TornWord::Same => text.append(b"none"),
        TornWord::Fill(byte) => push_hex2(text, *byte),
        TornWord::Bytes(bytes) => push_bytes(text, bytes),
    }
}

fn push_most(alloc: Global, text: &mut Text, most: Option<u32>) -> Result<(), AllocError>
    ensures { OnOk result (text.new ≡ text.old ++ most_text most) }
{
    match most {
        None => text.append(b"all"),
        Some(n) => push_decimal(alloc, text, n),
    }
}

fn kind_word(kind: u8) -> &'static [u8]
    ensures { result.now ≡ kind_text kind }
{
    if kind == 1 { b"mmir" } else { b"gcp" }
}

fn mode_word(full: bool) -> &'static [u8]
    ensures { result.now ≡ (if full then codes "full" else codes "nocp") }
{
    if full { b"full" } else { b"nocp" }
}

fn action_word(adds: bool) -> &'static [u8]
    ensures { result.now ≡ (if adds then codes "add" else codes "remove") }
{
    if adds { b"add" } else { b"remove" }
}

fn link_word(up: bool) -> &'static [u8]
    ensures { result.now ≡ (if up then codes "up" else codes "down") }
{
    if up { b"up" } else { b"down" }
}

/// Adds the value of an option.
#[tactic(auto, unfolding(dr_model::specs::LineText::setting_text))]
fn push_setting_text(
    alloc: Global,
    text: &mut Text,
    setting: Setting,
    options: &Options,
    item: Item,
) -> Result<(), AllocError>
    ensures { OnOk result (text.new ≡ text.old ++ setting_text setting options.now item) }
{
    match setting {
        Setting::Dev => push_name(text, &options.devs.dev.unwrap_or(no_name())),
        Setting::RemoteDev => push_name(text, &options.devs.remotedev.unwrap_or(no_name())),
        Setting::SourceLss => push_hex2(text, options.src.unwrap_or(0)),
        Setting::TargetLss => push_hex2(text, options.tgt.unwrap_or(0)),
        Setting::PairType => text.append(kind_word(options.kind.unwrap_or(0))),
        Setting::Mode => text.append(mode_word(options.full.unwrap_or(true))),
        Setting::AtSource => text.append(b"src"),
        Setting::Sequence => push_sequence(alloc, text, options.sequence.unwrap_or(0)),
        Setting::OfLss => push_hex2(text, options.lss.unwrap_or(0)),
        Setting::Members => push_hex4(text, item.first),
        Setting::Action => text.append(action_word(options.adds.unwrap_or(true))),
        Setting::OfSession => push_hex2(text, options.session.unwrap_or(0)),
        Setting::Interval => push_decimal(alloc, text, options.cginterval.unwrap_or(0)),
        Setting::Coordination => push_decimal(alloc, text, options.coordinate.unwrap_or(0)),
        Setting::DrainTime => push_decimal(alloc, text, options.drain.unwrap_or(0)),
        _ => Ok(()),
    }
}

/// Adds the word of an option behind a space, and its value behind another.
fn push_given(
    alloc: Global,
    text: &mut Text,
    setting: Setting,
    options: &Options,
    item: Item,
) -> Result<(), AllocError>
    ensures { OnOk result (text.new ≡ text.old ++ spaced (setting_word setting ∷ (if is_flag setting then [] else setting_text setting options.now item ∷ []))) }
{
    text.append(b" ")?;
    text.append(setting_word(setting))?;
    if is_flag(setting) {
        return Ok(());
    }
    text.append(b" ")?;
    push_setting_text(alloc, text, setting, options, item)
}

/// Adds the words of an option, where it is given.
fn push_setting(
    alloc: Global,
    text: &mut Text,
    setting: Setting,
    options: &Options,
    item: Item,
) -> Result<(), AllocError>
    ensures { OnOk result (text.new ≡ text.old ++ spaced (setting_words setting options.now item)) }
{
    if has(setting, options) {
        push_given(alloc, text, setting, options, item)
    } else {
        Ok(())
    }
}

fn push_settings(alloc: Global, text: &mut Text, said: &Saying) -> Result<(), AllocError>
    ensures { OnOk result (text.new ≡ text.old ++ spaced (settings_words (settings said.now.command) said.now.options said.now.item)) }
{
    let all = settings(said.command);
    for setting in all {
        push_setting(alloc, text, *setting, &said.options, said.item)?;
    }
    Ok(())
}

/// An item's logical subsystem.
fn push_lss(text: &mut Text, n: u16) -> Result<(), AllocError>
    ensures { OnOk result (text.new ≡ text.old ++ hex2 (lss_in n)) }
{
    push_hex2(text, (n % 256) as u8)
}

fn push_volume_pair(text: &mut Text, item: Item) -> Result<(), AllocError>
    ensures { OnOk result (text.new ≡ text.old ++ hex4 item.first ++ 58 ∷ hex4 item.second) }
{
    push_hex4(text, item.first)?;
    text.append(b":")?;
    push_hex4(text, item.second)
}

fn push_lss_pair(text: &mut Text, item: Item) -> Result<(), AllocError>
    ensures { OnOk result (text.new ≡ text.old ++ hex2 (lss_in item.first) ++ 58 ∷ hex2 (lss_in item.second)) }
{
    push_lss(text, item.first)?;
    text.append(b":")?;
    push_lss(text, item.second)
}

/// Adds an operand.
#[tactic(auto, unfolding(dr_model::specs::LineText::operand_text))]
fn push_operand_text(
    alloc: Global,
    text: &mut Text,
    operand: Operand,
    operands: &Operands,
    item: Item,
) -> Result<(), AllocError>
    ensures { OnOk result (text.new ≡ text.old ++ operand_text operand operands.now item) }
{
    match operand {
        Operand::ServerName => push_name(text, &operands.server),
        Operand::OtherName => push_name(text, &operands.other),
        Operand::UpOrDown => text.append(link_word(operands.up)),
        Operand::AfterWord => text.append(b"after"),
        Operand::TornMark => text.append(b"torn"),
        Operand::TornBytes => push_torn(text, &operands.torn),
        Operand::OneVolume => push_hex4(text, operands.volume),
        Operand::OtherVolume => push_hex4(text, operands.with),
        Operand::Count => push_decimal(alloc, text, operands.count),
        Operand::TrackNumber => push_decimal(alloc, text, operands.track),
        Operand::Offset => push_decimal(alloc, text, u32::from(operands.offset)),
        Operand::WriteBytes => push_bytes(text, front(&operands.bytes, usize::from(operands.len))),
        Operand::CountOrAll => push_most(alloc, text, operands.most),
        Operand::SessionNumber => push_hex2(text, operands.session),
        Operand::NoReply => text.append(b"noreply"),
        Operand::LssNumber => push_hex2(text, operands.lss),
        Operand::VolumeRange | Operand::VolumeList => push_hex4(text, item.first),
        Operand::VolumePair => push_volume_pair(text, item),
        Operand::LssPair => push_lss_pair(text, item),
        Operand::EachLss => push_lss(text, item.first),
        Operand::Ports => text.append(b"I0000:I0000"),
        Operand::ControlPath => Ok(()),
    }
}

/// How many operands a line says.
#[tactic(auto, unfolding(dr_model::specs::LineText::said_count))]
fn said_count(command: Command, operands: &Operands) -> usize
    ensures { result ≡ said_count command operands.now }
{
    match command {
        Command::AtStop => { if operands.after { 5 } else { 1 } }
        Command::AtExchange => { if operands.reply { 2 } else { 3 } }
        _ => may_end_with(command),
    }
}

fn said_operands(said: &Saying) -> &'static [Operand]
    ensures { result.now ≡ said_operands said.now }
{
    let all = operands(said.command);
    let count = said_count(said.command, &said.operands);
    &all[..count.min(all.len())]
}

fn push_operands(alloc: Global, text: &mut Text, said: &Saying) -> Result<(), AllocError>
    ensures { OnOk result (text.new ≡ text.old ++ spaced (operand_words (said_operands said.now) said.now.operands said.now.item)) }
{
    let all = said_operands(said);
    for operand in all {
        text.append(b" ")?;
        push_operand_text(alloc, text, *operand, &said.operands, said.item)?;
    }
    Ok(())
}

/// The line of what is said.
fn say(alloc: Global, said: &Saying) -> Result<Text, AllocError>
    ensures { IfOk result (λ text. text ≡ said_text said.now) }
{
    let mut text = Text::new(alloc);
    text.append(command_word(said.command))?;
    push_settings(alloc, &mut text, said)?;
    push_operands(alloc, &mut text, said)?;
    Ok(text)
}

/// The line that says a step: its command, the options that are given in the order of the table, and one
/// operand, with single spaces. It reads as just that step. Fails where there is no memory.
///
/// What a step doesn't keep isn't written; as the operand of `mkpprcpath` the line has `I0000:I0000`.
#[tactic(auto, unfolding(dr_model::specs::LineText::step_text))]
pub fn print_step(alloc: Global, step: &Step) -> Result<Text, AllocError>
    requires { IsWritten step.now }
    ensures text { IfOk result (λ text. text ≡ step_text step.now) }
    ensures reads { IfOk result (λ text. line_of text ≡ Ok (step.now ∷ [])) }
{
    say(alloc, &saying(step))
}
