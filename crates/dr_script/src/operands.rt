//! Operands: what they give.

ghost use Rattle.std.specs.Prelude.{◌≡◌, Some, None, IfOk};
ghost use Rattle.std.specs.Option.{option_map};
ghost use Rattle.dr_model.specs.LineSteps.{no_name, no_operands, operand_value, operand_items, written};
ghost use Rattle.dr_model.specs.LineWords.{onto};
ghost use Rattle.dr_script.specs.Pieces.{kept};

use crate::items::{push_each_lss, push_list, push_lss_pair, push_pair, push_range};
use crate::values::{
    are_ports, either, empty_name, is_control_path, is_word, read_bytes, read_decimal, read_most,
    read_name, read_torn, zero_block,
};
use dr_ids::{read_lss, read_number, read_session, read_volume};
use dr_model::{Item, Name, Operand, Operands, TornWord};
use std::alloc::AllocError;

/// The name that stands where none was given.
#[tactic(auto, unfolding(dr_model::specs::LineSteps::no_name, crate::specs::Pieces::empty_name))]
pub(crate) fn no_name() -> Name
    ensures { result ≡ no_name }
{
    Name {
        len: 0,
        bytes: empty_name(),
    }
}

/// What a line without operands gives.
#[tactic(auto, unfolding(dr_model::specs::LineSteps::no_operands))]
pub(crate) fn no_operands() -> Operands
    ensures { result ≡ no_operands }
{
    Operands {
        server: no_name(),
        other: no_name(),
        up: false,
        after: false,
        torn: TornWord::Same,
        volume: 0,
        with: 0,
        count: 0,
        track: 0,
        offset: 0,
        len: 0,
        bytes: zero_block(),
        most: None,
        session: 0,
        reply: true,
        lss: 0,
    }
}

/// Sets the bytes of a write; `None` where they don't lie in one track.
fn set_bytes(word: &[u8], operands: &mut Operands) -> Option<()>
    ensures { written word.now operands.old ≡ option_map (λ _. operands.new) result }
{
    if 64 < usize::from(operands.offset) + word.len() / 2 {
        return None;
    }
    operands.bytes = read_bytes(word)?;
    operands.len = (word.len() / 2) as u8;
    Some(())
}

/// Sets an operand's value; `None` where the word can't stand as it.
#[tactic(auto, unfolding(dr_model::specs::LineSteps::operand_value))]
pub(crate) fn set_operand(operand: Operand, word: &[u8], operands: &mut Operands) -> Option<()>
    ensures { operand_value operand word.now operands.old ≡ option_map (λ _. operands.new) result }
{
    match operand {
        Operand::ServerName => {
            operands.server = read_name(word)?;
            Some(())
        }
        Operand::OtherName => {
            operands.other = read_name(word)?;
            Some(())
        }
        Operand::UpOrDown => {
            operands.up = either(word, b"up", b"down")?;
            Some(())
        }
        Operand::AfterWord => {
            if !is_word(word, b"after") {
                return None;
            }
            operands.after = true;
            Some(())
        }
        Operand::TornMark => {
            if !is_word(word, b"torn") {
                return None;
            }
            Some(())
        }
        Operand::TornBytes => {
            operands.torn = read_torn(word)?;
            Some(())
        }
        Operand::OneVolume => {
            operands.volume = read_volume(word)?.0;
            Some(())
        }
        Operand::OtherVolume => {
            operands.with = read_volume(word)?.0;
            Some(())
        }
        Operand::Count => {
            operands.count = read_decimal(word)?;
            Some(())
        }
        Operand::TrackNumber => {
            operands.track = read_decimal(word)?;
            Some(())
        }
        Operand::Offset => {
            operands.offset = read_number(word, 63)? as u8;
            Some(())
        }
        Operand::WriteBytes => set_bytes(word, operands),
        Operand::CountOrAll => {
            operands.most = read_most(word)?;
            Some(())
        }
        Operand::SessionNumber => {
            operands.session = read_session(word)?.0;
            Some(())
        }
        Operand::NoReply => {
            if !is_word(word, b"noreply") {
                return None;
            }
            operands.reply = false;
            Some(())
        }
        Operand::LssNumber => {
            operands.lss = read_lss(word)?.0;
            Some(())
        }
        Operand::Ports => {
            if !are_ports(word) {
                return None;
            }
            Some(())
        }
        Operand::ControlPath => {
            if !is_control_path(word) {
                return None;
            }
            Some(())
        }
        _ => Some(()),
    }
}

/// Adds the items that an operand gives; false where the word can't stand as it.
#[tactic(auto, unfolding(dr_model::specs::LineSteps::operand_items))]
pub(crate) fn push_operand_items(
    items: &mut Vec<Item>,
    operand: Operand,
    word: &[u8],
) -> Result<bool, AllocError>
    ensures { IfOk result (λ stands. onto items.old.items (operand_items operand word.now) ≡ kept stands items.new.items) }
{
    match operand {
        Operand::VolumeRange => push_range(items, word),
        Operand::VolumeList => push_list(items, word),
        Operand::VolumePair => push_pair(items, word),
        Operand::LssPair => push_lss_pair(items, word),
        Operand::EachLss => push_each_lss(items, word),
        _ => Ok(true),
    }
}
