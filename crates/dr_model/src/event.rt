/// What happened in a run, in order: one entry of the journal.
///
/// Servers and sessions are plain `u8`, volumes and tracks `u16`, other numbers `u32`. The bytes of a name
/// or a write past its `len` are zero. An event takes at most 96 bytes.
#[derive(Clone, Copy)]
pub enum Event {
    /// A server was defined.
    Server {
        server: u8,
        len: u8,
        name: [u8; 24],
    },
    /// A volume was defined, with zero tracks.
    Volume {
        volume: u16,
        server: u8,
        tracks: u16,
    },
    /// A host write was issued.
    Issue {
        w: u32,
        volume: u16,
        track: u16,
        offset: u8,
        len: u8,
        bytes: [u8; 64],
    },
    /// A host write was acknowledged.
    Ack {
        w: u32,
    },
    /// The Metro Mirror secondary `volume` stored the new track of a write.
    Mirrored {
        w: u32,
        volume: u16,
    },
    /// The secondary `to` stored a track of its primary `volume`.
    Sent {
        volume: u16,
        track: u16,
        to: u16,
    },
    /// A primary became Suspended.
    Suspended {
        volume: u16,
    },
    /// The path from one logical subsystem to another was removed by a freeze.
    Frozen {
        src: u8,
        tgt: u8,
    },
    /// A thaw ended.
    Thawed {
        src: u8,
        tgt: u8,
    },
    /// An attempt to form a group began.
    Begin {
        session: u8,
        n: u32,
    },
    /// The primary `volume` was held and its two track sets were swapped for attempt `n`.
    Cut {
        session: u8,
        n: u32,
        volume: u16,
    },
    /// The secondary of `volume` was sealed for attempt `n`.
    Sealed {
        session: u8,
        n: u32,
        volume: u16,
    },
    /// The target of the member of `volume` was flashed from its source for attempt `n`.
    Flashed {
        session: u8,
        n: u32,
        volume: u16,
        source: u16,
        target: u16,
    },
    /// The flash of attempt `n` was committed on the target.
    Committed {
        session: u8,
        n: u32,
        volume: u16,
        target: u16,
    },
    /// The target went back from attempt `n`.
    Reverted {
        session: u8,
        n: u32,
        volume: u16,
        target: u16,
    },
    /// The target of the member of `volume` is no longer a member.
    Left {
        session: u8,
        volume: u16,
    },
    /// A FlashCopy was made or renewed: `volume` took the tracks of `from`.
    Set {
        volume: u16,
        from: u16,
    },
    /// A target stored a track of its source.
    Copied {
        volume: u16,
        track: u16,
    },
    /// A reverse restore stored a track of `from` at its source `volume`.
    Back {
        volume: u16,
        track: u16,
        from: u16,
    },
    /// A relationship ended, and this track of the former target now reads zeros.
    Blanked {
        volume: u16,
        track: u16,
    },
    /// A reverse restore ended.
    Restored {
        volume: u16,
        from: u16,
    },
    /// A volume got a flash hold: host writes on it wait.
    FlashHeld {
        volume: u16,
    },
    /// A volume lost its flash hold.
    FlashFreed {
        volume: u16,
    },
    /// A secondary was made a suspended primary.
    TakenOver {
        volume: u16,
    },
    /// A server stopped; `write` is the write that landed in that stop, else 0.
    Stopped {
        server: u8,
        write: u32,
    },
    /// A server that was off starts.
    Started {
        server: u8,
    },
    /// A recovery ended with this group, 0 for none.
    Recovered {
        session: u8,
        group: u32,
    },
    /// The bytes of a track that a step shows.
    Shown {
        line: u32,
        volume: u16,
        track: u16,
        bytes: [u8; 64],
    },
    /// One line of the listing of pairs.
    PairLine {
        line: u32,
        volume: u16,
        partner: u16,
        state: u8,
        kind: u8,
        k: u16,
    },
    /// One line of the listing of FlashCopy relationships.
    FlashLine {
        line: u32,
        source: u16,
        target: u16,
        sequence: u32,
        previous: u32,
        state: u8,
        flags: u8,
        own: u16,
    },
    /// One line of the listing of a session's members.
    SessionLine {
        line: u32,
        session: u8,
        a: u16,
        b: u16,
        c: u16,
        state: u8,
    },
    /// One line of the listing of masters.
    MirrorLine {
        line: u32,
        session: u8,
        server: u8,
        phase: u8,
        n: u32,
        paused: bool,
    },
    /// The first line of a plant image.
    ImageStart,
    /// A volume's line of a plant image.
    ImageVolume {
        volume: u16,
        server: u8,
        tracks: u16,
    },
    /// A block's line of a plant image.
    ImageBlock {
        volume: u16,
        index: u16,
        bytes: [u8; 64],
    },
    /// The last line of a plant image.
    ImageEnd,
    /// The answer of a step: code 0 is ok, 100 held, any other the number of the refusal.
    Answer {
        line: u32,
        code: u8,
        a: u32,
        b: u32,
        c: u32,
    },
}
