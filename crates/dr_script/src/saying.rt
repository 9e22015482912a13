//! What a line says of a step.

ghost use Rattle.std.specs.Prelude.{◌≡◌};
ghost use Rattle.dr_model.specs.LineText.{given, at_sign, for_item, for_session, for_lss, at_saying, pair_saying, flash_saying, session_saying, saying};

use crate::operands::no_operands;
use crate::settings::no_options;
use dr_model::{Command, Devs, Item, Operands, Options, Saying, Step};

fn given(devs: Devs) -> Options
    ensures { result ≡ given devs }
{
    Options {
        devs,
        ..no_options()
    }
}

/// A line that begins with `@`.
fn at_sign(command: Command, operands: Operands) -> Saying
    ensures { result ≡ at_sign command operands }
{
    Saying {
        command,
        options: no_options(),
        operands,
        item: Item {
            first: 0,
            second: 0,
        },
    }
}

/// A line with an item.
fn for_item(command: Command, options: Options, first: u16, second: u16) -> Saying
    ensures { result ≡ for_item command options first second }
{
    Saying {
        command,
        options,
        operands: no_operands(),
        item: Item { first, second },
    }
}

/// A line of a session.
fn for_session(command: Command, options: Options, session: u8, volume: u16) -> Saying
    ensures { result ≡ for_session command options session volume }
{
    Saying {
        command,
        options,
        operands: Operands {
            session,
            ..no_operands()
        },
        item: Item {
            first: volume,
            second: volume,
        },
    }
}

/// A line of a logical subsystem.
fn for_lss(command: Command, options: Options, lss: u8) -> Saying
    ensures { result ≡ for_lss command options lss }
{
    Saying {
        command,
        options,
        operands: Operands {
            lss,
            ..no_operands()
        },
        item: Item {
            first: 0,
            second: 0,
        },
    }
}

/// What a line says of a step of commands that begin with `@`.
#[tactic(auto, unfolding(dr_model::specs::LineText::at_saying))]
fn at_saying(step: &Step) -> Option<Saying>
    ensures { result ≡ at_saying step.now }
{
    let said = match *step {
        Step::Server { name } => at_sign(
            Command::AtServer,
            Operands {
                server: name,
                ..no_operands()
            },
        ),
        Step::Volume {
            volume,
            server,
            tracks,
        } => Saying {
            command: Command::AtVolume,
            options: no_options(),
            operands: Operands {
                server,
                count: tracks,
                ..no_operands()
            },
            item: Item {
                first: volume,
                second: volume,
            },
        },
        Step::Link { a, b, up } => at_sign(
            Command::AtLink,
            Operands {
                server: a,
                other: b,
                up,
                ..no_operands()
            },
        ),
        Step::Stop { server } => at_sign(
            Command::AtStop,
            Operands {
                server,
                ..no_operands()
            },
        ),
        Step::StopAfter {
            server,
            writes,
            torn,
        } => at_sign(
            Command::AtStop,
            Operands {
                server,
                after: true,
                torn,
                count: writes,
                ..no_operands()
            },
        ),
        Step::Start { server } => at_sign(
            Command::AtStart,
            Operands {
                server,
                ..no_operands()
            },
        ),
        Step::Expire { server } => at_sign(
            Command::AtExpire,
            Operands {
                server,
                ..no_operands()
            },
        ),
        Step::Issue {
            volume,
            track,
            offset,
            len,
            bytes,
        } => at_sign(
            Command::AtIssue,
            Operands {
                volume,
                track,
                offset,
                len,
                bytes,
                ..no_operands()
            },
        ),
        Step::Write {
            volume,
            track,
            offset,
            len,
            bytes,
        } => at_sign(
            Command::AtWrite,
            Operands {
                volume,
                track,
                offset,
                len,
                bytes,
                ..no_operands()
            },
        ),
        Step::Apply { w } => at_sign(
            Command::AtApply,
            Operands {
                count: w,
                ..no_operands()
            },
        ),
        Step::Drain { volume, most } => at_sign(
            Command::AtDrain,
            Operands {
                volume,
                most,
                ..no_operands()
            },
        ),
        Step::Copy { volume, most } => at_sign(
            Command::AtCopy,
            Operands {
                volume,
                most,
                ..no_operands()
            },
        ),
        Step::Destage { volume } => at_sign(
            Command::AtDestage,
            Operands {
                volume,
                ..no_operands()
            },
        ),
        Step::Exchange {
            session,
            server,
            reply,
        } => at_sign(
            Command::AtExchange,
            Operands {
                server,
                session,
                reply,
                ..no_operands()
            },
        ),
        Step::Send { session, server } => at_sign(
            Command::AtSend,
            Operands {
                server,
                session,
                ..no_operands()
            },
        ),
        Step::Deliver { message } => at_sign(
            Command::AtDeliver,
            Operands {
                count: message,
                ..no_operands()
            },
        ),
        Step::Lose { message } => at_sign(
            Command::AtLose,
            Operands {
                count: message,
                ..no_operands()
            },
        ),
        Step::Run { session, groups } => at_sign(
            Command::AtRun,
            Operands {
                count: groups,
                session,
                ..no_operands()
            },
        ),
        Step::Abort { session } => at_sign(
            Command::AtAbort,
            Operands {
                session,
                ..no_operands()
            },
        ),
        Step::Recover { session } => at_sign(
            Command::AtRecover,
            Operands {
                session,
                ..no_operands()
            },
        ),
        Step::Show { volume, track } => at_sign(
            Command::AtShow,
            Operands {
                volume,
                track,
                ..no_operands()
            },
        ),
        Step::Compare { v, w } => at_sign(
            Command::AtCompare,
            Operands {
                volume: v,
                with: w,
                ..no_operands()
            },
        ),
        Step::Image => at_sign(Command::AtImage, no_operands()),
        _ => return None,
    };
    Some(said)
}

/// What a line says of a step of remote copies.
#[tactic(auto, unfolding(dr_model::specs::LineText::pair_saying))]
fn pair_saying(step: &Step) -> Option<Saying>
    ensures { result ≡ pair_saying step.now }
{
    let said = match *step {
        Step::MakePath {
            devs,
            src,
            tgt,
            group,
        } => for_item(
            Command::Mkpprcpath,
            Options {
                devs,
                src: Some(src),
                tgt: Some(tgt),
                group,
                ..no_options()
            },
            0,
            0,
        ),
        Step::RemovePath {
            devs,
            src,
            tgt,
            force,
        } => for_item(
            Command::Rmpprcpath,
            Options {
                devs,
                force,
                ..no_options()
            },
            u16::from(src),
            u16::from(tgt),
        ),
        Step::MakePair {
            devs,
            a,
            b,
            kind,
            choices,
        } => for_item(
            Command::Mkpprc,
            Options {
                devs,
                kind: Some(kind),
                full: if choices.full { None } else { Some(false) },
                cascade: choices.cascade,
                ..no_options()
            },
            a,
            b,
        ),
        Step::RemovePair {
            devs,
            a,
            b,
            source_only,
        } => for_item(
            Command::Rmpprc,
            Options {
                devs,
                unconditional: source_only,
                at_source: source_only,
                ..no_options()
            },
            a,
            b,
        ),
        Step::PausePair { devs, a, b } => for_item(Command::Pausepprc, given(devs), a, b),
        Step::ResumePair { devs, a, b, kind } => for_item(
            Command::Resumepprc,
            Options {
                devs,
                kind: Some(kind),
                ..no_options()
            },
            a,
            b,
        ),
        Step::Failover { devs, b, a, kind } => for_item(
            Command::Failoverpprc,
            Options {
                devs,
                kind: Some(kind),
                ..no_options()
            },
            b,
            a,
        ),
        Step::Failback { devs, x, y, kind } => for_item(
            Command::Failbackpprc,
            Options {
                devs,
                kind: Some(kind),
                ..no_options()
            },
            x,
            y,
        ),
        Step::Freeze { devs, l, m } => for_item(
            Command::Freezepprc,
            given(devs),
            u16::from(l),
            u16::from(m),
        ),
        Step::Unfreeze { devs, l, m } => for_item(
            Command::Unfreezepprc,
            given(devs),
            u16::from(l),
            u16::from(m),
        ),
        Step::ListPairs { devs, volume } => for_item(Command::Lspprc, given(devs), volume, volume),
        _ => return None,
    };
    Some(said)
}

/// What a line says of a step of FlashCopy.
#[tactic(auto, unfolding(dr_model::specs::LineText::flash_saying))]
fn flash_saying(step: &Step) -> Option<Saying>
    ensures { result ≡ flash_saying step.now }
{
    let said = match *step {
        Step::ListFlashes { devs, volume } => for_item(
            Command::Lsflash,
            given(devs),
            volume,
            volume,
        ),
        Step::MakeFlash {
            devs,
            s,
            t,
            nocopy,
            persistent,
            recorded,
            inhibited,
            freeze,
            sequence,
        } => for_item(
            Command::Mkflash,
            Options {
                devs,
                nocopy,
                persistent,
                recorded,
                inhibited,
                freeze,
                sequence,
                ..no_options()
            },
            s,
            t,
        ),
        Step::RemoveFlash {
            devs,
            s,
            t,
            sequence,
        } => for_item(
            Command::Rmflash,
            Options {
                devs,
                sequence,
                ..no_options()
            },
            s,
            t,
        ),
        Step::ResyncFlash {
            devs,
            s,
            t,
            nocopy,
            persistent,
            recorded,
            inhibited,
            sequence,
        } => for_item(
            Command::Resyncflash,
            Options {
                devs,
                nocopy,
                persistent,
                recorded,
                inhibited,
                sequence,
                ..no_options()
            },
            s,
            t,
        ),
        Step::ReverseFlash {
            devs,
            s,
            t,
            tgtpprc,
            sequence,
        } => for_item(
            Command::Reverseflash,
            Options {
                devs,
                sequence,
                fast: true,
                tgtpprc,
                ..no_options()
            },
            s,
            t,
        ),
        Step::CommitFlash {
            devs,
            source,
            sequence,
        } => for_item(
            Command::Commitflash,
            Options {
                devs,
                sequence,
                ..no_options()
            },
            source,
            source,
        ),
        Step::RevertFlash {
            devs,
            source,
            sequence,
        } => for_item(
            Command::Revertflash,
            Options {
                devs,
                sequence,
                ..no_options()
            },
            source,
            source,
        ),
        Step::UnfreezeFlash { devs, lss } => for_item(
            Command::Unfreezeflash,
            given(devs),
            u16::from(lss),
            u16::from(lss),
        ),
        _ => return None,
    };
    Some(said)
}

/// What a line says of a step of sessions.
#[tactic(auto, unfolding(dr_model::specs::LineText::session_saying))]
fn session_saying(step: &Step) -> Option<Saying>
    ensures { result ≡ session_saying step.now }
{
    let said = match *step {
        Step::MakeSession { devs, lss, session } => for_session(
            Command::Mksession,
            Options {
                devs,
                lss: Some(lss),
                ..no_options()
            },
            session,
            0,
        ),
        Step::AddMember {
            devs,
            lss,
            volume,
            session,
        } => for_session(
            Command::Chsession,
            Options {
                devs,
                lss: Some(lss),
                members: true,
                adds: Some(true),
                ..no_options()
            },
            session,
            volume,
        ),
        Step::RemoveMember {
            devs,
            lss,
            volume,
            session,
        } => for_session(
            Command::Chsession,
            Options {
                devs,
                lss: Some(lss),
                members: true,
                adds: Some(false),
                ..no_options()
            },
            session,
            volume,
        ),
        Step::RemoveSession { devs, lss, session } => for_session(
            Command::Rmsession,
            Options {
                devs,
                lss: Some(lss),
                ..no_options()
            },
            session,
            0,
        ),
        Step::ListSession { devs, lss } => for_lss(Command::Lssession, given(devs), lss),
        Step::ShowMirror { devs, lss } => for_lss(Command::Showgmir, given(devs), lss),
        Step::MakeMirror {
            devs,
            lss,
            session,
            cginterval,
            coordinate,
            drain,
        } => for_item(
            Command::Mkgmir,
            Options {
                devs,
                lss: Some(lss),
                session: Some(session),
                cginterval,
                coordinate,
                drain,
                ..no_options()
            },
            0,
            0,
        ),
        Step::ResumeMirror {
            devs,
            lss,
            session,
            cginterval,
            coordinate,
            drain,
        } => for_item(
            Command::Resumegmir,
            Options {
                devs,
                lss: Some(lss),
                session: Some(session),
                cginterval,
                coordinate,
                drain,
                ..no_options()
            },
            0,
            0,
        ),
        Step::PauseMirror { devs, lss, session } => for_item(
            Command::Pausegmir,
            Options {
                devs,
                lss: Some(lss),
                session: Some(session),
                ..no_options()
            },
            0,
            0,
        ),
        Step::RemoveMirror { devs, lss, session } => for_item(
            Command::Rmgmir,
            Options {
                devs,
                lss: Some(lss),
                session: Some(session),
                ..no_options()
            },
            0,
            0,
        ),
        _ => return None,
    };
    Some(said)
}

/// What a line says of a step.
pub(crate) fn saying(step: &Step) -> Saying
    ensures { result ≡ saying step.now }
{
    at_saying(step)
        .or(pair_saying(step))
        .or(flash_saying(step).or(session_saying(step)))
        .unwrap_or(at_sign(Command::AtImage, no_operands()))
}
