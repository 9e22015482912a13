use crate::names::{ServerId, SessionId, VolumeId};

/// What a name that isn't defined, or is defined already, was to name.
#[derive(Clone, Copy)]
pub enum Kind {
    Server,
    Volume,
    Lss,
    Path,
    Write,
    Session,
    Track,
    Master,
    Message,
}

/// The limit that was reached, or the size or server that doesn't fit.
#[derive(Clone, Copy)]
pub enum Which {
    Servers,
    Volumes,
    Tracks,
    Sessions,
    Pending,
    Targets,
    Groups,
    Size,
    Server,
    Messages,
}

/// The phase of a session's master; `None` where the session has no master.
#[derive(Clone, Copy)]
pub enum PhaseName {
    None,
    Idle,
    Coordinating,
    Releasing,
    Draining,
    Flashing,
    Committing,
    Reverting,
    Finishing,
    Lost,
}

/// What recovery decides over the members of a session, with the numbers that it speaks of.
#[derive(Clone, Copy)]
pub enum Decision {
    NoMember,
    Nothing(u32),
    RevertAll(u32),
    CommitRest(u32),
    RevertSome(u32, u32),
    Impossible(u32, u32),
}

/// The state of a volume's pair, as an answer shows it.
#[derive(Clone, Copy)]
pub enum PairSeen {
    CopyPending,
    FullDuplex,
    Suspended,
    TargetCopyPending,
    TargetFullDuplex,
    TargetSuspended,
    None,
}

/// The state of a volume's FlashCopy relationships, as an answer shows it.
#[derive(Clone, Copy)]
pub enum RelSeen {
    Revertible,
    Reversing,
    Target,
    Source,
    None,
}

/// Why a step was refused; the answers E01 to E26 in this order.
#[derive(Clone, Copy)]
pub enum Refusal {
    Syntax { column: u16 },
    Unknown { kind: Kind },
    Duplicate { kind: Kind },
    Limit { which: Which },
    ServerOff { server: ServerId },
    LinkDown { a: ServerId, b: ServerId },
    Void { n: u32 },
    NotPrimary { volume: VolumeId },
    Inhibited { volume: VolumeId },
    PairState { volume: VolumeId, found: PairSeen },
    RelationState { volume: VolumeId, found: RelSeen },
    InSession { session: SessionId },
    NotInSession { session: SessionId },
    InFormation { phase: PhaseName, n: u32 },
    OutOfOrder { phase: PhaseName },
    Unsealed { volume: VolumeId, seal: u32 },
    Stale { n: u32, floor: u32 },
    Forbidden { decision: Decision },
    NotIdentical { track: u16 },
    NumbersSpent,
    Stopped { server: ServerId },
    NoGroup { decision: Decision },
    JournalFull,
    NotBuilt,
    OldMessage { m: u32 },
    Held { volume: VolumeId },
}

/// Why a call that may want memory failed.
#[derive(Clone, Copy)]
pub enum Fault {
    NoMemory,
    Refused(Refusal),
}
