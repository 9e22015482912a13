//! The step that a command makes of its options, its operands and one item.

ghost use Rattle.std.specs.Prelude.{◌≡◌};
ghost use Rattle.dr_model.specs.LineSteps.{lss_in, step_of};

use dr_model::{Command, Item, Operands, Options, PairChoices, Step};

/// An item's logical subsystem.
fn lss_in(n: u16) -> u8
    ensures { result ≡ lss_in n }
{
    (n % 256) as u8
}

/// The step of a write. It stands by itself, since in one function with all others its fields are put together
/// byte by byte.
#[inline(never)]
pub(crate) fn write_step(operands: &Operands) -> Step
    ensures { result ≡ Step.Write operands.now.volume operands.now.track operands.now.offset operands.now.len operands.now.bytes }
{
    Step::Write {
        volume: operands.volume,
        track: operands.track,
        offset: operands.offset,
        len: operands.len,
        bytes: operands.bytes,
    }
}

/// The step of a command with one item.
#[tactic(auto, unfolding(dr_model::specs::LineSteps::step_of))]
pub(crate) fn step_of(command: Command, options: &Options, operands: &Operands, item: Item) -> Step
    ensures { result ≡ step_of command options.now operands.now item }
{
    match command {
        Command::AtServer => Step::Server {
            name: operands.server,
        },
        Command::AtVolume => Step::Volume {
            volume: item.first,
            server: operands.server,
            tracks: operands.count,
        },
        Command::AtLink => Step::Link {
            a: operands.server,
            b: operands.other,
            up: operands.up,
        },
        Command::AtStop => {
            if operands.after {
                Step::StopAfter {
                    server: operands.server,
                    writes: operands.count,
                    torn: operands.torn,
                }
            } else {
                Step::Stop {
                    server: operands.server,
                }
            }
        }
        Command::AtStart => Step::Start {
            server: operands.server,
        },
        Command::AtExpire => Step::Expire {
            server: operands.server,
        },
        Command::AtIssue => Step::Issue {
            volume: operands.volume,
            track: operands.track,
            offset: operands.offset,
            len: operands.len,
            bytes: operands.bytes,
        },
        Command::AtWrite => write_step(operands),
        Command::AtApply => Step::Apply { w: operands.count },
        Command::AtDrain => Step::Drain {
            volume: operands.volume,
            most: operands.most,
        },
        Command::AtCopy => Step::Copy {
            volume: operands.volume,
            most: operands.most,
        },
        Command::AtDestage => Step::Destage {
            volume: operands.volume,
        },
        Command::AtExchange => Step::Exchange {
            session: operands.session,
            server: operands.server,
            reply: operands.reply,
        },
        Command::AtSend => Step::Send {
            session: operands.session,
            server: operands.server,
        },
        Command::AtDeliver => Step::Deliver {
            message: operands.count,
        },
        Command::AtLose => Step::Lose {
            message: operands.count,
        },
        Command::AtRun => Step::Run {
            session: operands.session,
            groups: operands.count,
        },
        Command::AtAbort => Step::Abort {
            session: operands.session,
        },
        Command::AtRecover => Step::Recover {
            session: operands.session,
        },
        Command::AtShow => Step::Show {
            volume: operands.volume,
            track: operands.track,
        },
        Command::AtCompare => Step::Compare {
            v: operands.volume,
            w: operands.with,
        },
        Command::AtImage => Step::Image,
        Command::Mkpprcpath => Step::MakePath {
            devs: options.devs,
            src: options.src.unwrap_or(0),
            tgt: options.tgt.unwrap_or(0),
            group: options.group,
        },
        Command::Rmpprcpath => Step::RemovePath {
            devs: options.devs,
            src: lss_in(item.first),
            tgt: lss_in(item.second),
            force: options.force,
        },
        Command::Mkpprc => Step::MakePair {
            devs: options.devs,
            a: item.first,
            b: item.second,
            kind: options.kind.unwrap_or(0),
            choices: PairChoices {
                full: options.full.unwrap_or(true),
                cascade: options.cascade,
            },
        },
        Command::Rmpprc => Step::RemovePair {
            devs: options.devs,
            a: item.first,
            b: item.second,
            source_only: options.unconditional,
        },
        Command::Pausepprc => Step::PausePair {
            devs: options.devs,
            a: item.first,
            b: item.second,
        },
        Command::Resumepprc => Step::ResumePair {
            devs: options.devs,
            a: item.first,
            b: item.second,
            kind: options.kind.unwrap_or(0),
        },
        Command::Failoverpprc => Step::Failover {
            devs: options.devs,
            b: item.first,
            a: item.second,
            kind: options.kind.unwrap_or(0),
        },
        Command::Failbackpprc => Step::Failback {
            devs: options.devs,
            x: item.first,
            y: item.second,
            kind: options.kind.unwrap_or(0),
        },
        Command::Freezepprc => Step::Freeze {
            devs: options.devs,
            l: lss_in(item.first),
            m: lss_in(item.second),
        },
        Command::Unfreezepprc => Step::Unfreeze {
            devs: options.devs,
            l: lss_in(item.first),
            m: lss_in(item.second),
        },
        Command::Lspprc => Step::ListPairs {
            devs: options.devs,
            volume: item.first,
        },
        Command::Lsflash => Step::ListFlashes {
            devs: options.devs,
            volume: item.first,
        },
        Command::Mkflash => Step::MakeFlash {
            devs: options.devs,
            s: item.first,
            t: item.second,
            nocopy: options.nocopy,
            persistent: options.persistent,
            recorded: options.recorded,
            inhibited: options.inhibited,
            freeze: options.freeze,
            sequence: options.sequence,
        },
        Command::Rmflash => Step::RemoveFlash {
            devs: options.devs,
            s: item.first,
            t: item.second,
            sequence: options.sequence,
        },
        Command::Resyncflash => Step::ResyncFlash {
            devs: options.devs,
            s: item.first,
            t: item.second,
            nocopy: options.nocopy,
            persistent: options.persistent,
            recorded: options.recorded,
            inhibited: options.inhibited,
            sequence: options.sequence,
        },
        Command::Reverseflash => Step::ReverseFlash {
            devs: options.devs,
            s: item.first,
            t: item.second,
            tgtpprc: options.tgtpprc,
            sequence: options.sequence,
        },
        Command::Commitflash => Step::CommitFlash {
            devs: options.devs,
            source: item.first,
            sequence: options.sequence,
        },
        Command::Revertflash => Step::RevertFlash {
            devs: options.devs,
            source: item.first,
            sequence: options.sequence,
        },
        Command::Unfreezeflash => Step::UnfreezeFlash {
            devs: options.devs,
            lss: lss_in(item.first),
        },
        Command::Mksession => Step::MakeSession {
            devs: options.devs,
            lss: options.lss.unwrap_or(0),
            session: operands.session,
        },
        Command::Chsession => {
            if options.adds.unwrap_or(true) {
                Step::AddMember {
                    devs: options.devs,
                    lss: options.lss.unwrap_or(0),
                    volume: item.first,
                    session: operands.session,
                }
            } else {
                Step::RemoveMember {
                    devs: options.devs,
                    lss: options.lss.unwrap_or(0),
                    volume: item.first,
                    session: operands.session,
                }
            }
        }
        Command::Rmsession => Step::RemoveSession {
            devs: options.devs,
            lss: options.lss.unwrap_or(0),
            session: operands.session,
        },
        Command::Lssession => Step::ListSession {
            devs: options.devs,
            lss: operands.lss,
        },
        Command::Showgmir => Step::ShowMirror {
            devs: options.devs,
            lss: operands.lss,
        },
        Command::Mkgmir => Step::MakeMirror {
            devs: options.devs,
            lss: options.lss.unwrap_or(0),
            session: options.session.unwrap_or(0),
            cginterval: options.cginterval,
            coordinate: options.coordinate,
            drain: options.drain,
        },
        Command::Resumegmir => Step::ResumeMirror {
            devs: options.devs,
            lss: options.lss.unwrap_or(0),
            session: options.session.unwrap_or(0),
            cginterval: options.cginterval,
            coordinate: options.coordinate,
            drain: options.drain,
        },
        Command::Pausegmir => Step::PauseMirror {
            devs: options.devs,
            lss: options.lss.unwrap_or(0),
            session: options.session.unwrap_or(0),
        },
        Command::Rmgmir => Step::RemoveMirror {
            devs: options.devs,
            lss: options.lss.unwrap_or(0),
            session: options.session.unwrap_or(0),
        },
    }
}
