ghost use Rattle.std.specs.Prelude.{◌≡◌, ◌<◌};
ghost use Rattle.dr_model.specs.Answers as answers;
ghost use Rattle.dr_model.specs.Answers.{answer};

use crate::event::Event;
use dr_ids::{Decision, Kind, PairSeen, PhaseName, Refusal, RelSeen, Which};

/// What the answer of a step that is done adds.
#[derive(Clone, Copy)]
pub enum Addition {
    /// Nothing.
    Alone,
    /// The number of the write.
    Wrote { w: u32 },
    /// A write that had landed in a stop is acknowledged.
    Acked { w: u32 },
    /// How many tracks were copied or sent.
    Counted { tracks: u32 },
    /// The phase of the session's master, with the number of its attempt.
    InPhase { phase: PhaseName, n: u32 },
    /// The group that recovery gives, and what it decided.
    InGroup { group: u32, decision: Decision },
    /// The bytes that were shown.
    Showed,
    /// The number of the control message that was made.
    Posted { m: u32 },
}

/// What a step answers.
#[derive(Clone, Copy)]
pub enum Said {
    /// It is done.
    Done(Addition),
    /// The host write is held, and stays pending.
    Held { w: u32 },
    /// It was refused, or a server stopped in it.
    Refused(Refusal),
}

/// An answer as the journal keeps it: code 0 is ok, 100 held, any other the number of the refusal.
#[derive(Clone, Copy)]
pub struct AnswerNumbers {
    pub code: u8,
    pub a: u32,
    pub b: u32,
    pub c: u32,
}

impl Said {
    /// The event that keeps this answer of a script line.
    pub fn event(self, line: u32) -> Event
        ensures { result ≡ answer line self }
    {
        let numbers = self.numbers();
        Event::Answer {
            line,
            code: numbers.code,
            a: numbers.a,
            b: numbers.b,
            c: numbers.c,
        }
    }

    fn numbers(self) -> AnswerNumbers
        ensures { result ≡ answers.numbers self }
    {
        match self {
            Said::Done(added) => added.numbers(),
            Said::Held { w } => numbered(100, w, 0, 0),
            Said::Refused(refusal) => refused_numbers(refusal),
        }
    }
}

impl Addition {
    fn numbers(self) -> AnswerNumbers
        ensures { result ≡ answers.done_numbers self }
    {
        match self {
            Addition::Alone => numbered(0, 0, 0, 0),
            Addition::Wrote { w } => numbered(0, 1, w, 0),
            Addition::Acked { w } => numbered(0, 2, w, 0),
            Addition::Counted { tracks } => numbered(0, 3, tracks, 0),
            Addition::InPhase { phase, n } => numbered(0, 4, phase_place(phase), n),
            Addition::InGroup { group, decision } => numbered(
                0,
                256 * decision_place(decision) + 5,
                group,
                decision_number(decision),
            ),
            Addition::Showed => numbered(0, 6, 0, 0),
            Addition::Posted { m } => numbered(0, 7, m, 0),
        }
    }
}

fn numbered(code: u8, a: u32, b: u32, c: u32) -> AnswerNumbers
    ensures { result ≡ answers.numbers_of code a b c }
{
    AnswerNumbers { code, a, b, c }
}

fn refused_numbers(refusal: Refusal) -> AnswerNumbers
    ensures { result ≡ answers.refused_numbers refusal }
{
    match refusal {
        Refusal::Syntax { column } => numbered(1, u32::from(column), 0, 0),
        Refusal::Unknown { kind } => numbered(2, kind_place(kind), 0, 0),
        Refusal::Duplicate { kind } => numbered(3, kind_place(kind), 0, 0),
        Refusal::Limit { which } => numbered(4, which_place(which), 0, 0),
        Refusal::ServerOff { server } => numbered(5, u32::from(server.0), 0, 0),
        Refusal::LinkDown { a, b } => numbered(6, u32::from(a.0), u32::from(b.0), 0),
        Refusal::Void { n } => numbered(7, n, 0, 0),
        Refusal::NotPrimary { volume } => numbered(8, u32::from(volume.0), 0, 0),
        Refusal::Inhibited { volume } => numbered(9, u32::from(volume.0), 0, 0),
        Refusal::PairState { volume, found } => {
            numbered(10, u32::from(volume.0), pair_place(found), 0)
        }
        Refusal::RelationState { volume, found } => {
            numbered(11, u32::from(volume.0), relation_place(found), 0)
        }
        Refusal::InSession { session } => numbered(12, u32::from(session.0), 0, 0),
        Refusal::NotInSession { session } => numbered(13, u32::from(session.0), 0, 0),
        Refusal::InFormation { phase, n } => numbered(14, phase_place(phase), n, 0),
        Refusal::OutOfOrder { phase } => numbered(15, phase_place(phase), 0, 0),
        Refusal::Unsealed { volume, seal } => numbered(16, u32::from(volume.0), seal, 0),
        Refusal::Stale { n, floor } => numbered(17, n, floor, 0),
        Refusal::Forbidden { decision } => decided_numbers(18, decision),
        Refusal::NotIdentical { track } => numbered(19, u32::from(track), 0, 0),
        Refusal::NumbersSpent => numbered(20, 0, 0, 0),
        Refusal::Stopped { server } => numbered(21, u32::from(server.0), 0, 0),
        Refusal::NoGroup { decision } => decided_numbers(22, decision),
        Refusal::JournalFull => numbered(23, 0, 0, 0),
        Refusal::NotBuilt => numbered(24, 0, 0, 0),
        Refusal::OldMessage { m } => numbered(25, m, 0, 0),
        Refusal::Held { volume } => numbered(26, u32::from(volume.0), 0, 0),
    }
}

fn decided_numbers(code: u8, decision: Decision) -> AnswerNumbers
    ensures { result ≡ answers.numbers_of code (answers.decision_place decision) (answers.decision_first decision) (answers.decision_second decision) }
{
    numbered(
        code,
        decision_place(decision),
        decision_first(decision),
        decision_second(decision),
    )
}

fn kind_place(kind: Kind) -> u32
    ensures { result ≡ answers.kind_place kind }
{
    match kind {
        Kind::Server => 0,
        Kind::Volume => 1,
        Kind::Lss => 2,
        Kind::Path => 3,
        Kind::Write => 4,
        Kind::Session => 5,
        Kind::Track => 6,
        Kind::Master => 7,
        Kind::Message => 8,
    }
}

fn which_place(which: Which) -> u32
    ensures { result ≡ answers.which_place which }
{
    match which {
        Which::Servers => 0,
        Which::Volumes => 1,
        Which::Tracks => 2,
        Which::Sessions => 3,
        Which::Pending => 4,
        Which::Targets => 5,
        Which::Groups => 6,
        Which::Size => 7,
        Which::Server => 8,
        Which::Messages => 9,
    }
}

fn phase_place(phase: PhaseName) -> u32
    ensures { result ≡ answers.phase_place phase }
{
    match phase {
        PhaseName::None => 0,
        PhaseName::Idle => 1,
        PhaseName::Coordinating => 2,
        PhaseName::Releasing => 3,
        PhaseName::Draining => 4,
        PhaseName::Flashing => 5,
        PhaseName::Committing => 6,
        PhaseName::Reverting => 7,
        PhaseName::Finishing => 8,
        PhaseName::Lost => 9,
    }
}

fn pair_place(found: PairSeen) -> u32
    ensures { result ≡ answers.pair_place found }
{
    match found {
        PairSeen::CopyPending => 0,
        PairSeen::FullDuplex => 1,
        PairSeen::Suspended => 2,
        PairSeen::TargetCopyPending => 3,
        PairSeen::TargetFullDuplex => 4,
        PairSeen::TargetSuspended => 5,
        PairSeen::None => 6,
    }
}

fn relation_place(found: RelSeen) -> u32
    ensures { result ≡ answers.relation_place found }
{
    match found {
        RelSeen::Revertible => 0,
        RelSeen::Reversing => 1,
        RelSeen::Target => 2,
        RelSeen::Source => 3,
        RelSeen::None => 4,
    }
}

fn decision_place(decision: Decision) -> u32
    ensures place { result ≡ answers.decision_place decision }
    ensures small { result < 6 }
{
    match decision {
        Decision::NoMember => 0,
        Decision::Nothing(_) => 1,
        Decision::RevertAll(_) => 2,
        Decision::CommitRest(_) => 3,
        Decision::RevertSome(_, _) => 4,
        Decision::Impossible(_, _) => 5,
    }
}

fn decision_first(decision: Decision) -> u32
    ensures { result ≡ answers.decision_first decision }
{
    match decision {
        Decision::NoMember => 0,
        Decision::Nothing(n) | Decision::RevertAll(n) | Decision::CommitRest(n) => n,
        Decision::RevertSome(m, _) => m,
        Decision::Impossible(a, _) => a,
    }
}

fn decision_second(decision: Decision) -> u32
    ensures { result ≡ answers.decision_second decision }
{
    match decision {
        Decision::NoMember
        | Decision::Nothing(_)
        | Decision::RevertAll(_)
        | Decision::CommitRest(_) => 0,
        Decision::RevertSome(_, n) => n,
        Decision::Impossible(_, b) => b,
    }
}

fn decision_number(decision: Decision) -> u32
    ensures { result ≡ answers.decision_number decision }
{
    match decision {
        Decision::NoMember => 0,
        Decision::Nothing(n) | Decision::RevertAll(n) | Decision::CommitRest(n) => n,
        Decision::RevertSome(_, n) => n,
        Decision::Impossible(_, b) => b,
    }
}
