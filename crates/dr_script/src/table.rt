//! The table of commands: the word of each, its options, its operands and how many steps it makes.

ghost use Rattle.std.specs.Prelude.{◌≡◌, ◌≤◌};
ghost use Rattle.dr_model.specs.LineTable.{command_word, commands, setting_word, settings, needed, operands, repeats, may_end_with, own_steps};
ghost use Rattle.dr_model.specs.LineSteps.{is_flag};

use dr_model::{Command, Operand, Setting};

/// The commands of most lines.
pub(crate) const COMMON_COMMANDS: [Command; 5] = [
    Command::AtWrite,
    Command::AtShow,
    Command::AtRun,
    Command::AtDrain,
    Command::AtIssue,
];

/// All commands.
#[tactic(auto, unfolding(dr_model::specs::LineTable::commands))]
pub(crate) fn commands() -> &'static [Command]
    ensures { result.now ≡ commands }
{
    &[
        Command::AtServer,
        Command::AtVolume,
        Command::AtLink,
        Command::AtStop,
        Command::AtStart,
        Command::AtExpire,
        Command::AtIssue,
        Command::AtWrite,
        Command::AtApply,
        Command::AtDrain,
        Command::AtCopy,
        Command::AtDestage,
        Command::AtExchange,
        Command::AtSend,
        Command::AtDeliver,
        Command::AtLose,
        Command::AtRun,
        Command::AtAbort,
        Command::AtRecover,
        Command::AtShow,
        Command::AtCompare,
        Command::AtImage,
        Command::Mkpprcpath,
        Command::Rmpprcpath,
        Command::Mkpprc,
        Command::Rmpprc,
        Command::Pausepprc,
        Command::Resumepprc,
        Command::Failoverpprc,
        Command::Failbackpprc,
        Command::Freezepprc,
        Command::Unfreezepprc,
        Command::Lspprc,
        Command::Lsflash,
        Command::Mkflash,
        Command::Rmflash,
        Command::Resyncflash,
        Command::Reverseflash,
        Command::Commitflash,
        Command::Revertflash,
        Command::Unfreezeflash,
        Command::Mksession,
        Command::Chsession,
        Command::Rmsession,
        Command::Lssession,
        Command::Showgmir,
        Command::Mkgmir,
        Command::Resumegmir,
        Command::Pausegmir,
        Command::Rmgmir,
    ]
}

/// The word of a command.
#[tactic(auto, unfolding(dr_model::specs::LineTable::command_word, dr_model::specs::LineTable::form))]
pub(crate) fn command_word(command: Command) -> &'static [u8]
    ensures { result.now ≡ command_word command }
{
    match command {
        Command::AtServer => b"@server",
        Command::AtVolume => b"@volume",
        Command::AtLink => b"@link",
        Command::AtStop => b"@stop",
        Command::AtStart => b"@start",
        Command::AtExpire => b"@expire",
        Command::AtIssue => b"@issue",
        Command::AtWrite => b"@write",
        Command::AtApply => b"@apply",
        Command::AtDrain => b"@drain",
        Command::AtCopy => b"@copy",
        Command::AtDestage => b"@destage",
        Command::AtExchange => b"@exchange",
        Command::AtSend => b"@send",
        Command::AtDeliver => b"@deliver",
        Command::AtLose => b"@lose",
        Command::AtRun => b"@run",
        Command::AtAbort => b"@abort",
        Command::AtRecover => b"@recover",
        Command::AtShow => b"@show",
        Command::AtCompare => b"@compare",
        Command::AtImage => b"@image",
        Command::Mkpprcpath => b"mkpprcpath",
        Command::Rmpprcpath => b"rmpprcpath",
        Command::Mkpprc => b"mkpprc",
        Command::Rmpprc => b"rmpprc",
        Command::Pausepprc => b"pausepprc",
        Command::Resumepprc => b"resumepprc",
        Command::Failoverpprc => b"failoverpprc",
        Command::Failbackpprc => b"failbackpprc",
        Command::Freezepprc => b"freezepprc",
        Command::Unfreezepprc => b"unfreezepprc",
        Command::Lspprc => b"lspprc",
        Command::Lsflash => b"lsflash",
        Command::Mkflash => b"mkflash",
        Command::Rmflash => b"rmflash",
        Command::Resyncflash => b"resyncflash",
        Command::Reverseflash => b"reverseflash",
        Command::Commitflash => b"commitflash",
        Command::Revertflash => b"revertflash",
        Command::Unfreezeflash => b"unfreezeflash",
        Command::Mksession => b"mksession",
        Command::Chsession => b"chsession",
        Command::Rmsession => b"rmsession",
        Command::Lssession => b"lssession",
        Command::Showgmir => b"showgmir",
        Command::Mkgmir => b"mkgmir",
        Command::Resumegmir => b"resumegmir",
        Command::Pausegmir => b"pausegmir",
        Command::Rmgmir => b"rmgmir",
    }
}

/// The word of an option.
#[tactic(auto, unfolding(dr_model::specs::LineTable::setting_word))]
pub(crate) fn setting_word(setting: Setting) -> &'static [u8]
    ensures { result.now ≡ setting_word setting }
{
    match setting {
        Setting::Quiet => b"-quiet",
        Setting::Dev => b"-dev",
        Setting::RemoteDev => b"-remotedev",
        Setting::RemotePort => b"-remotewwnn",
        Setting::SourceLss => b"-srclss",
        Setting::TargetLss => b"-tgtlss",
        Setting::ConsistencyGroup => b"-consistgrp",
        Setting::Force => b"-force",
        Setting::PairType => b"-type",
        Setting::Mode => b"-mode",
        Setting::Cascade => b"-cascade",
        Setting::Unconditional => b"-unconditional",
        Setting::AtSource => b"-at",
        Setting::NoCopy => b"-nocp",
        Setting::Persist => b"-persist",
        Setting::Recording => b"-record",
        Setting::Inhibit => b"-tgtinhibit",
        Setting::FreezeSource => b"-freeze",
        Setting::Sequence => b"-seqnum",
        Setting::Fast => b"-fast",
        Setting::TargetPprc => b"-tgtpprc",
        Setting::OfLss => b"-lss",
        Setting::Members => b"-volume",
        Setting::Action => b"-action",
        Setting::OfSession => b"-session",
        Setting::Interval => b"-cginterval",
        Setting::Coordination => b"-coordinate",
        Setting::DrainTime => b"-drain",
    }
}

/// The options of a command.
#[tactic(auto, unfolding(dr_model::specs::LineTable::settings, dr_model::specs::LineTable::form))]
pub(crate) fn settings(command: Command) -> &'static [Setting]
    ensures { result.now ≡ settings command }
{
    match command {
        Command::Mkpprcpath => &[
            Setting::Quiet,
            Setting::Dev,
            Setting::RemoteDev,
            Setting::RemotePort,
            Setting::SourceLss,
            Setting::TargetLss,
            Setting::ConsistencyGroup,
        ],
        Command::Rmpprcpath => &[
            Setting::Quiet,
            Setting::Dev,
            Setting::RemoteDev,
            Setting::RemotePort,
            Setting::Force,
        ],
        Command::Mkpprc => &[
            Setting::Quiet,
            Setting::Dev,
            Setting::RemoteDev,
            Setting::PairType,
            Setting::Mode,
            Setting::Cascade,
        ],
        Command::Rmpprc => &[
            Setting::Quiet,
            Setting::Dev,
            Setting::RemoteDev,
            Setting::Unconditional,
            Setting::AtSource,
        ],
        Command::Pausepprc | Command::Freezepprc | Command::Unfreezepprc | Command::Lspprc => &[
            Setting::Quiet,
            Setting::Dev,
            Setting::RemoteDev,
        ],
        Command::Resumepprc | Command::Failoverpprc | Command::Failbackpprc => &[
            Setting::Quiet,
            Setting::Dev,
            Setting::RemoteDev,
            Setting::PairType,
        ],
        Command::Lsflash | Command::Unfreezeflash | Command::Lssession | Command::Showgmir => &[
            Setting::Quiet,
            Setting::Dev,
        ],
        Command::Mkflash => &[
            Setting::Quiet,
            Setting::Dev,
            Setting::NoCopy,
            Setting::Persist,
            Setting::Recording,
            Setting::Inhibit,
            Setting::FreezeSource,
            Setting::Sequence,
        ],
        Command::Resyncflash => &[
            Setting::Quiet,
            Setting::Dev,
            Setting::NoCopy,
            Setting::Persist,
            Setting::Recording,
            Setting::Inhibit,
            Setting::Sequence,
        ],
        Command::Rmflash | Command::Commitflash | Command::Revertflash => &[
            Setting::Quiet,
            Setting::Dev,
            Setting::Sequence,
        ],
        Command::Reverseflash => &[
            Setting::Quiet,
            Setting::Dev,
            Setting::Fast,
            Setting::TargetPprc,
            Setting::Sequence,
        ],
        Command::Mksession => &[
            Setting::Quiet,
            Setting::Dev,
            Setting::OfLss,
            Setting::Members,
        ],
        Command::Chsession => &[
            Setting::Quiet,
            Setting::Dev,
            Setting::OfLss,
            Setting::Action,
            Setting::Members,
        ],
        Command::Rmsession => &[Setting::Quiet, Setting::Dev, Setting::OfLss],
        Command::Mkgmir | Command::Resumegmir => &[
            Setting::Quiet,
            Setting::Dev,
            Setting::OfLss,
            Setting::OfSession,
            Setting::Interval,
            Setting::Coordination,
            Setting::DrainTime,
        ],
        Command::Pausegmir | Command::Rmgmir => &[
            Setting::Quiet,
            Setting::Dev,
            Setting::OfLss,
            Setting::OfSession,
        ],
        Command::AtServer
        | Command::AtVolume
        | Command::AtLink
        | Command::AtStop
        | Command::AtStart
        | Command::AtExpire
        | Command::AtIssue
        | Command::AtWrite
        | Command::AtApply
        | Command::AtDrain
        | Command::AtCopy
        | Command::AtDestage
        | Command::AtExchange
        | Command::AtSend
        | Command::AtDeliver
        | Command::AtLose
        | Command::AtRun
        | Command::AtAbort
        | Command::AtRecover
        | Command::AtShow
        | Command::AtCompare
        | Command::AtImage => &[],
    }
}

/// The options that a command can't do without.
#[tactic(auto, unfolding(dr_model::specs::LineTable::needed, dr_model::specs::LineTable::form))]
pub(crate) fn needed(command: Command) -> &'static [Setting]
    ensures { result.now ≡ needed command }
{
    match command {
        Command::Mkpprcpath => &[Setting::SourceLss, Setting::TargetLss],
        Command::Mkpprc | Command::Resumepprc | Command::Failoverpprc | Command::Failbackpprc => &[
            Setting::PairType,
        ],
        Command::Reverseflash => &[Setting::Fast],
        Command::Mksession | Command::Rmsession => &[Setting::OfLss],
        Command::Chsession => &[Setting::OfLss, Setting::Action, Setting::Members],
        Command::Mkgmir | Command::Resumegmir | Command::Pausegmir | Command::Rmgmir => &[
            Setting::OfLss,
            Setting::OfSession,
        ],
        Command::AtServer
        | Command::AtVolume
        | Command::AtLink
        | Command::AtStop
        | Command::AtStart
        | Command::AtExpire
        | Command::AtIssue
        | Command::AtWrite
        | Command::AtApply
        | Command::AtDrain
        | Command::AtCopy
        | Command::AtDestage
        | Command::AtExchange
        | Command::AtSend
        | Command::AtDeliver
        | Command::AtLose
        | Command::AtRun
        | Command::AtAbort
        | Command::AtRecover
        | Command::AtShow
        | Command::AtCompare
        | Command::AtImage
        | Command::Rmpprcpath
        | Command::Rmpprc
        | Command::Pausepprc
        | Command::Freezepprc
        | Command::Unfreezepprc
        | Command::Lspprc
        | Command::Lsflash
        | Command::Mkflash
        | Command::Rmflash
        | Command::Resyncflash
        | Command::Commitflash
        | Command::Revertflash
        | Command::Unfreezeflash
        | Command::Lssession
        | Command::Showgmir => &[],
    }
}

/// What stands behind the options of a command, in order.
#[tactic(auto, unfolding(dr_model::specs::LineTable::operands, dr_model::specs::LineTable::form))]
pub(crate) fn operands(command: Command) -> &'static [Operand]
    ensures { result.now ≡ operands command }
{
    match command {
        Command::AtServer | Command::AtStart | Command::AtExpire => &[Operand::ServerName],
        Command::AtVolume => &[Operand::VolumeRange, Operand::ServerName, Operand::Count],
        Command::AtLink => &[Operand::ServerName, Operand::OtherName, Operand::UpOrDown],
        Command::AtStop => &[
            Operand::ServerName,
            Operand::AfterWord,
            Operand::Count,
            Operand::TornMark,
            Operand::TornBytes,
        ],
        Command::AtIssue | Command::AtWrite => &[
            Operand::OneVolume,
            Operand::TrackNumber,
            Operand::Offset,
            Operand::WriteBytes,
        ],
        Command::AtApply | Command::AtDeliver | Command::AtLose => &[Operand::Count],
        Command::AtDrain | Command::AtCopy => &[Operand::OneVolume, Operand::CountOrAll],
        Command::AtDestage => &[Operand::OneVolume],
        Command::AtExchange => &[
            Operand::SessionNumber,
            Operand::ServerName,
            Operand::NoReply,
        ],
        Command::AtSend => &[Operand::SessionNumber, Operand::ServerName],
        Command::AtRun => &[Operand::SessionNumber, Operand::Count],
        Command::AtAbort
        | Command::AtRecover
        | Command::Mksession
        | Command::Chsession
        | Command::Rmsession => &[Operand::SessionNumber],
        Command::AtShow => &[Operand::OneVolume, Operand::TrackNumber],
        Command::AtCompare => &[Operand::OneVolume, Operand::OtherVolume],
        Command::AtImage => &[],
        Command::Mkpprcpath => &[Operand::Ports],
        Command::Rmpprcpath | Command::Freezepprc | Command::Unfreezepprc => &[Operand::LssPair],
        Command::Lspprc | Command::Lsflash | Command::Commitflash | Command::Revertflash => &[
            Operand::VolumeList,
        ],
        Command::Unfreezeflash => &[Operand::EachLss],
        Command::Lssession | Command::Showgmir => &[Operand::LssNumber],
        Command::Mkgmir | Command::Resumegmir | Command::Pausegmir | Command::Rmgmir => &[
            Operand::ControlPath,
        ],
        Command::Mkpprc
        | Command::Rmpprc
        | Command::Pausepprc
        | Command::Resumepprc
        | Command::Failoverpprc
        | Command::Failbackpprc
        | Command::Mkflash
        | Command::Rmflash
        | Command::Resyncflash
        | Command::Reverseflash => &[Operand::VolumePair],
    }
}

/// The option has no value.
pub(crate) fn is_flag(setting: Setting) -> bool
    ensures { result ≡ is_flag setting }
{
    matches!(
        setting,
        Setting::Quiet
            | Setting::ConsistencyGroup
            | Setting::Force
            | Setting::Cascade
            | Setting::Unconditional
            | Setting::NoCopy
            | Setting::Persist
            | Setting::Recording
            | Setting::Inhibit
            | Setting::FreezeSource
            | Setting::Fast
            | Setting::TargetPprc
    )
}

/// The operand is alone behind its command and may be repeated.
pub(crate) fn repeats(operand: Operand) -> bool
    ensures { result ≡ repeats operand }
{
    matches!(
        operand,
        Operand::VolumeList
            | Operand::VolumePair
            | Operand::LssPair
            | Operand::EachLss
            | Operand::Ports
            | Operand::ControlPath
    )
}

/// The number of operands with which a line may end before all of them stand.
#[tactic(auto, unfolding(dr_model::specs::LineTable::may_end_with, dr_model::specs::LineTable::form))]
pub(crate) fn may_end_with(command: Command) -> usize
    ensures { result ≡ may_end_with command }
{
    match command {
        Command::AtStop => 1,
        Command::AtExchange => 2,
        Command::Mkgmir | Command::Resumegmir | Command::Pausegmir | Command::Rmgmir => 0,
        _ => operands(command).len(),
    }
}

/// The command makes a step of its own, and not only one for each item.
#[tactic(auto, unfolding(dr_model::specs::LineTable::own_steps, dr_model::specs::LineTable::form))]
pub(crate) fn own_steps(command: Command) -> usize
    ensures value { result ≡ own_steps command }
    ensures few { result ≤ 1 }
{
    match command {
        Command::AtVolume
        | Command::Rmpprcpath
        | Command::Mkpprc
        | Command::Rmpprc
        | Command::Pausepprc
        | Command::Resumepprc
        | Command::Failoverpprc
        | Command::Failbackpprc
        | Command::Freezepprc
        | Command::Unfreezepprc
        | Command::Lspprc
        | Command::Lsflash
        | Command::Mkflash
        | Command::Rmflash
        | Command::Resyncflash
        | Command::Reverseflash
        | Command::Commitflash
        | Command::Revertflash
        | Command::Unfreezeflash
        | Command::Chsession => 0,
        _ => 1,
    }
}
