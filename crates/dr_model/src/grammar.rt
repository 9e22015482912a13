use crate::step::{Devs, Name, TornWord};

/// The commands of script lines, each named as its word.
#[derive(Clone, Copy)]
pub enum Command {
    AtServer,
    AtVolume,
    AtLink,
    AtStop,
    AtStart,
    AtExpire,
    AtIssue,
    AtWrite,
    AtApply,
    AtDrain,
    AtCopy,
    AtDestage,
    AtExchange,
    AtSend,
    AtDeliver,
    AtLose,
    AtRun,
    AtAbort,
    AtRecover,
    AtShow,
    AtCompare,
    AtImage,
    Mkpprcpath,
    Rmpprcpath,
    Mkpprc,
    Rmpprc,
    Pausepprc,
    Resumepprc,
    Failoverpprc,
    Failbackpprc,
    Freezepprc,
    Unfreezepprc,
    Lspprc,
    Lsflash,
    Mkflash,
    Rmflash,
    Resyncflash,
    Reverseflash,
    Commitflash,
    Revertflash,
    Unfreezeflash,
    Mksession,
    Chsession,
    Rmsession,
    Lssession,
    Showgmir,
    Mkgmir,
    Resumegmir,
    Pausegmir,
    Rmgmir,
}

/// The options of commands: flags, and options whose value is the word behind them.
#[derive(Clone, Copy)]
pub enum Setting {
    Quiet,
    Dev,
    RemoteDev,
    RemotePort,
    SourceLss,
    TargetLss,
    ConsistencyGroup,
    Force,
    PairType,
    Mode,
    Cascade,
    Unconditional,
    AtSource,
    NoCopy,
    Persist,
    Recording,
    Inhibit,
    FreezeSource,
    Sequence,
    Fast,
    TargetPprc,
    OfLss,
    Members,
    Action,
    OfSession,
    Interval,
    Coordination,
    DrainTime,
}

/// What may stand as an operand.
#[derive(Clone, Copy)]
pub enum Operand {
    ServerName,
    OtherName,
    UpOrDown,
    AfterWord,
    TornMark,
    TornBytes,
    OneVolume,
    OtherVolume,
    Count,
    TrackNumber,
    Offset,
    WriteBytes,
    CountOrAll,
    SessionNumber,
    NoReply,
    LssNumber,
    VolumeRange,
    VolumeList,
    VolumePair,
    LssPair,
    EachLss,
    Ports,
    ControlPath,
}

/// What the options of a line gave.
///
/// A `kind` is 1 for Metro Mirror and 2 for Global Copy; `full` is false for `-mode nocp`; `adds` is false
/// for `-action remove`.
#[derive(Clone, Copy)]
pub struct Options {
    pub quiet: bool,
    pub devs: Devs,
    pub remote_port: bool,
    pub src: Option<u8>,
    pub tgt: Option<u8>,
    pub group: bool,
    pub force: bool,
    pub kind: Option<u8>,
    pub full: Option<bool>,
    pub cascade: bool,
    pub unconditional: bool,
    pub at_source: bool,
    pub nocopy: bool,
    pub persistent: bool,
    pub recorded: bool,
    pub inhibited: bool,
    pub freeze: bool,
    pub sequence: Option<u32>,
    pub fast: bool,
    pub tgtpprc: bool,
    pub lss: Option<u8>,
    pub members: bool,
    pub adds: Option<bool>,
    pub session: Option<u8>,
    pub cginterval: Option<u32>,
    pub coordinate: Option<u32>,
    pub drain: Option<u32>,
}

/// What the operands of a line gave, but for those that are a step each.
///
/// The bytes of a write past its `len` are zero. `most` is `None` for all; `reply` is false for `noreply`;
/// `after` is true where a stop waits for writes.
#[derive(Clone, Copy)]
pub struct Operands {
    pub server: Name,
    pub other: Name,
    pub up: bool,
    pub after: bool,
    pub torn: TornWord,
    pub volume: u16,
    pub with: u16,
    pub count: u32,
    pub track: u32,
    pub offset: u8,
    pub len: u8,
    pub bytes: [u8; 64],
    pub most: Option<u32>,
    pub session: u8,
    pub reply: bool,
    pub lss: u8,
}

/// One of the operands that are a step each: the two volumes of a pair, the two logical subsystems of
/// a path, or one volume or one logical subsystem twice.
#[derive(Clone, Copy)]
pub struct Item {
    pub first: u16,
    pub second: u16,
}

/// A range of volumes in one logical subsystem, from the lowest to the highest.
#[derive(Clone, Copy)]
pub struct Span {
    pub low: u16,
    pub high: u16,
}

/// How far a line was read: its command, the option whose value comes next, how many places of the
/// command's operands are filled, and what was given.
#[derive(Clone, Copy)]
pub struct LinePlace {
    pub command: Command,
    pub awaited: Option<Setting>,
    pub filled: usize,
    pub options: Options,
    pub operands: Operands,
}

/// What a line says of one step: its command, the options that are given, the operands, and the item.
#[derive(Clone, Copy)]
pub struct Saying {
    pub command: Command,
    pub options: Options,
    pub operands: Operands,
    pub item: Item,
}
