/// A server's name: the first `len` of the bytes; the others are zero.
#[derive(Clone, Copy)]
pub struct Name {
    pub len: u8,
    pub bytes: [u8; 24],
}

/// The servers that `-dev` and `-remotedev` name, where they were given.
#[derive(Clone, Copy)]
pub struct Devs {
    pub dev: Option<Name>,
    pub remotedev: Option<Name>,
}

/// What a stop leaves in the block whose write it cuts short.
#[derive(Clone, Copy)]
pub enum TornWord {
    Same,
    Fill(u8),
    Bytes([u8; 64]),
}

/// How a pair is made: whether all tracks are to be copied, or none, and whether its primary is the secondary of
/// another pair, so that it is cascaded from then on.
#[derive(Clone, Copy)]
pub struct PairChoices {
    pub full: bool,
    pub cascade: bool,
}

/// One step of a script: a line's command with one operand.
///
/// A `kind` is 1 for Metro Mirror and 2 for Global Copy; `most` is `None` for all; `reply` is false for
/// `noreply`; `source_only` is true for `-unconditional -at src`; `freeze` is true where the source is
/// to get a flash hold first.
#[derive(Clone, Copy)]
pub enum Step {
    Server {
        name: Name,
    },
    Volume {
        volume: u16,
        server: Name,
        tracks: u32,
    },
    Link {
        a: Name,
        b: Name,
        up: bool,
    },
    Stop {
        server: Name,
    },
    StopAfter {
        server: Name,
        writes: u32,
        torn: TornWord,
    },
    Start {
        server: Name,
    },
    Expire {
        server: Name,
    },
    Issue {
        volume: u16,
        track: u32,
        offset: u8,
        len: u8,
        bytes: [u8; 64],
    },
    Write {
        volume: u16,
        track: u32,
        offset: u8,
        len: u8,
        bytes: [u8; 64],
    },
    Apply {
        w: u32,
    },
    Drain {
        volume: u16,
        most: Option<u32>,
    },
    Copy {
        volume: u16,
        most: Option<u32>,
    },
    Destage {
        volume: u16,
    },
    Exchange {
        session: u8,
        server: Name,
        reply: bool,
    },
    Send {
        session: u8,
        server: Name,
    },
    Deliver {
        message: u32,
    },
    Lose {
        message: u32,
    },
    Run {
        session: u8,
        groups: u32,
    },
    Abort {
        session: u8,
    },
    Recover {
        session: u8,
    },
    Show {
        volume: u16,
        track: u32,
    },
    Compare {
        v: u16,
        w: u16,
    },
    Image,
    MakePath {
        devs: Devs,
        src: u8,
        tgt: u8,
        group: bool,
    },
    RemovePath {
        devs: Devs,
        src: u8,
        tgt: u8,
        force: bool,
    },
    MakePair {
        devs: Devs,
        a: u16,
        b: u16,
        kind: u8,
        choices: PairChoices,
    },
    RemovePair {
        devs: Devs,
        a: u16,
        b: u16,
        source_only: bool,
    },
    PausePair {
        devs: Devs,
        a: u16,
        b: u16,
    },
    ResumePair {
        devs: Devs,
        a: u16,
        b: u16,
        kind: u8,
    },
    Failover {
        devs: Devs,
        b: u16,
        a: u16,
        kind: u8,
    },
    Failback {
        devs: Devs,
        x: u16,
        y: u16,
        kind: u8,
    },
    Freeze {
        devs: Devs,
        l: u8,
        m: u8,
    },
    Unfreeze {
        devs: Devs,
        l: u8,
        m: u8,
    },
    ListPairs {
        devs: Devs,
        volume: u16,
    },
    ListFlashes {
        devs: Devs,
        volume: u16,
    },
    MakeFlash {
        devs: Devs,
        s: u16,
        t: u16,
        nocopy: bool,
        persistent: bool,
        recorded: bool,
        inhibited: bool,
        freeze: bool,
        sequence: Option<u32>,
    },
    RemoveFlash {
        devs: Devs,
        s: u16,
        t: u16,
        sequence: Option<u32>,
    },
    ResyncFlash {
        devs: Devs,
        s: u16,
        t: u16,
        nocopy: bool,
        persistent: bool,
        recorded: bool,
        inhibited: bool,
        sequence: Option<u32>,
    },
    ReverseFlash {
        devs: Devs,
        s: u16,
        t: u16,
        tgtpprc: bool,
        sequence: Option<u32>,
    },
    CommitFlash {
        devs: Devs,
        source: u16,
        sequence: Option<u32>,
    },
    RevertFlash {
        devs: Devs,
        source: u16,
        sequence: Option<u32>,
    },
    UnfreezeFlash {
        devs: Devs,
        lss: u8,
    },
    MakeSession {
        devs: Devs,
        lss: u8,
        session: u8,
    },
    AddMember {
        devs: Devs,
        lss: u8,
        volume: u16,
        session: u8,
    },
    RemoveMember {
        devs: Devs,
        lss: u8,
        volume: u16,
        session: u8,
    },
    RemoveSession {
        devs: Devs,
        lss: u8,
        session: u8,
    },
    ListSession {
        devs: Devs,
        lss: u8,
    },
    ShowMirror {
        devs: Devs,
        lss: u8,
    },
    MakeMirror {
        devs: Devs,
        lss: u8,
        session: u8,
        cginterval: Option<u32>,
        coordinate: Option<u32>,
        drain: Option<u32>,
    },
    ResumeMirror {
        devs: Devs,
        lss: u8,
        session: u8,
        cginterval: Option<u32>,
        coordinate: Option<u32>,
        drain: Option<u32>,
    },
    PauseMirror {
        devs: Devs,
        lss: u8,
        session: u8,
    },
    RemoveMirror {
        devs: Devs,
        lss: u8,
        session: u8,
    },
}
