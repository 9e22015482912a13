//! Options: which were given, and what their values give.

ghost use Rattle.std.specs.Prelude.{◌≡◌, Some, None, IfOk};
ghost use Rattle.std.specs.Option.{option_map};
ghost use Rattle.dr_model.specs.LineSteps.{has, flagged, valued, setting_items, setting_number, no_options};
ghost use Rattle.dr_model.specs.LineWords.{onto};
ghost use Rattle.dr_script.specs.Pieces.{kept};

use crate::items::push_list;
use crate::values::{either, is_hex, is_word, read_kind, read_name, read_sequence};
use dr_ids::{read_lss, read_number, read_session};
use dr_model::{Devs, Item, Options, Setting};
use std::alloc::AllocError;

/// What a line without options gives.
#[tactic(auto, unfolding(dr_model::specs::LineSteps::no_options))]
pub(crate) fn no_options() -> Options
    ensures { result ≡ no_options }
{
    Options {
        quiet: false,
        devs: Devs {
            dev: None,
            remotedev: None,
        },
        remote_port: false,
        src: None,
        tgt: None,
        group: false,
        force: false,
        kind: None,
        full: None,
        cascade: false,
        unconditional: false,
        at_source: false,
        nocopy: false,
        persistent: false,
        recorded: false,
        inhibited: false,
        freeze: false,
        sequence: None,
        fast: false,
        tgtpprc: false,
        lss: None,
        members: false,
        adds: None,
        session: None,
        cginterval: None,
        coordinate: None,
        drain: None,
    }
}

/// The option was given.
#[tactic(auto, unfolding(dr_model::specs::LineSteps::has))]
pub(crate) fn has(setting: Setting, options: &Options) -> bool
    ensures { result ≡ has setting options.now }
{
    match setting {
        Setting::Quiet => options.quiet,
        Setting::Dev => options.devs.dev.is_some(),
        Setting::RemoteDev => options.devs.remotedev.is_some(),
        Setting::RemotePort => options.remote_port,
        Setting::SourceLss => options.src.is_some(),
        Setting::TargetLss => options.tgt.is_some(),
        Setting::ConsistencyGroup => options.group,
        Setting::Force => options.force,
        Setting::PairType => options.kind.is_some(),
        Setting::Mode => options.full.is_some(),
        Setting::Cascade => options.cascade,
        Setting::Unconditional => options.unconditional,
        Setting::AtSource => options.at_source,
        Setting::NoCopy => options.nocopy,
        Setting::Persist => options.persistent,
        Setting::Recording => options.recorded,
        Setting::Inhibit => options.inhibited,
        Setting::FreezeSource => options.freeze,
        Setting::Sequence => options.sequence.is_some(),
        Setting::Fast => options.fast,
        Setting::TargetPprc => options.tgtpprc,
        Setting::OfLss => options.lss.is_some(),
        Setting::Members => options.members,
        Setting::Action => options.adds.is_some(),
        Setting::OfSession => options.session.is_some(),
        Setting::Interval => options.cginterval.is_some(),
        Setting::Coordination => options.coordinate.is_some(),
        Setting::DrainTime => options.drain.is_some(),
    }
}

/// Sets a flag.
#[tactic(auto, unfolding(dr_model::specs::LineSteps::flagged))]
pub(crate) fn flag(setting: Setting, options: &mut Options)
    ensures { options.new ≡ flagged setting options.old }
{
    match setting {
        Setting::Quiet => options.quiet = true,
        Setting::ConsistencyGroup => options.group = true,
        Setting::Force => options.force = true,
        Setting::Cascade => options.cascade = true,
        Setting::Unconditional => options.unconditional = true,
        Setting::NoCopy => options.nocopy = true,
        Setting::Persist => options.persistent = true,
        Setting::Recording => options.recorded = true,
        Setting::Inhibit => options.inhibited = true,
        Setting::FreezeSource => options.freeze = true,
        Setting::Fast => options.fast = true,
        Setting::TargetPprc => options.tgtpprc = true,
        _ => {}
    }
}

/// A number of seconds or minutes.
fn read_setting_number(word: &[u8]) -> Option<u32>
    ensures { result ≡ setting_number word.now }
{
    read_number(word, 65535)
}

/// Sets an option's value; `None` where the word can't stand as its value.
#[tactic(auto, unfolding(dr_model::specs::LineSteps::valued))]
pub(crate) fn set_value(setting: Setting, word: &[u8], options: &mut Options) -> Option<()>
    ensures { valued setting word.now options.old ≡ option_map (λ _. options.new) result }
{
    match setting {
        Setting::Dev => {
            options.devs.dev = Some(read_name(word)?);
            Some(())
        }
        Setting::RemoteDev => {
            options.devs.remotedev = Some(read_name(word)?);
            Some(())
        }
        Setting::RemotePort => {
            if !is_hex(word) {
                return None;
            }
            options.remote_port = true;
            Some(())
        }
        Setting::SourceLss => {
            options.src = Some(read_lss(word)?.0);
            Some(())
        }
        Setting::TargetLss => {
            options.tgt = Some(read_lss(word)?.0);
            Some(())
        }
        Setting::PairType => {
            options.kind = Some(read_kind(word)?);
            Some(())
        }
        Setting::Mode => {
            options.full = Some(either(word, b"full", b"nocp")?);
            Some(())
        }
        Setting::AtSource => {
            if !is_word(word, b"src") {
                return None;
            }
            options.at_source = true;
            Some(())
        }
        Setting::Sequence => {
            options.sequence = Some(read_sequence(word)?);
            Some(())
        }
        Setting::OfLss => {
            options.lss = Some(read_lss(word)?.0);
            Some(())
        }
        Setting::Members => {
            options.members = true;
            Some(())
        }
        Setting::Action => {
            options.adds = Some(either(word, b"add", b"remove")?);
            Some(())
        }
        Setting::OfSession => {
            options.session = Some(read_session(word)?.0);
            Some(())
        }
        Setting::Interval => {
            options.cginterval = Some(read_setting_number(word)?);
            Some(())
        }
        Setting::Coordination => {
            options.coordinate = Some(read_setting_number(word)?);
            Some(())
        }
        Setting::DrainTime => {
            options.drain = Some(read_setting_number(word)?);
            Some(())
        }
        _ => None,
    }
}

/// Adds the items that an option's value gives: one for each volume of a list of volumes. False where
/// the word is no such list.
#[tactic(auto, unfolding(dr_model::specs::LineSteps::setting_items))]
pub(crate) fn push_setting_items(
    items: &mut Vec<Item>,
    setting: Setting,
    word: &[u8],
) -> Result<bool, AllocError>
    ensures { IfOk result (λ stands. onto items.old.items (setting_items setting word.now) ≡ kept stands items.new.items) }
{
    match setting {
        Setting::Members => push_list(items, word),
        _ => Ok(true),
    }
}
