//! What no clause and no scenario says: sources and sinks that fail or give an input in pieces, other words, calls of the standard streams,
//! and kernels on lengths that no set of tracks has.

ghost use Rattle.std.specs.Prelude.{◌<◌};
ghost use Rattle.dr_plant.specs.State.{IsFresh};

mod lanes;

use dr_io::{MemSink, MemSource, Sink, Source, StdSink, StdSource};
use dr_model::Journal;
use dr_plant::{ModelPlant, Plant};
use dr_top::drsim;
use std::alloc::{AllocError, Global};
use std::cell::Cell;
use std::io;
use std::io::Write;
use std::process::Abort;

const USAGE: &str = "usage: drsim run | recover SS | trial N | convert\n";

/// What a trial prints of its script by number 0.
const TRIAL: &str = "lines 2998\nrefused 1150\ngroup 244\n";

const FIRST: &str = "@server A\r\n@volume 1000 A 2\n@write 1000 0 0 41\n@show 1000 0\n";

/// What it prints after a line feed.
const ANSWERS: &str = "2 ok\n3 ok\n4 ok w1\n5 ok 41\n";

/// A target of group 1, which has what its source has.
const TARGET: &str = "\
    image 1\n\
    volume 2000 0 1\n\
    volume 3000 0 1\n\
    block 2000 13 41\n\
    block 3000 1 00000000009F01000000000020000000000000000000000000000001\n\
    end\n";

/// What recovery makes of it.
const GROUP: &str = "members 1\ndecision Nothing(1)\ngroup 1\ntrack 3000 0 41\n";

/// A script of two steps.
const STEPS: &str = "@server A\n@volume 1000 A 1\n";

/// Which call of the source fails; how many bytes the sink has room for, which of its calls fails, and which takes
/// nothing. 0 is none of the calls.
#[derive(Clone, Copy)]
struct Faults {
    read: u32,
    room: usize,
    fail: u32,
    stuck: u32,
}

const SOUND: Faults = Faults {
    read: 0,
    room: 4096,
    fail: 0,
    stuck: 0,
};

/// A call: its words; a byte and how often it comes, and the input after it; how many bytes the source gives at a time; and what fails.
#[derive(Clone, Copy)]
struct Call<'a> {
    words: &'a str,
    before: (u8, usize),
    input: &'a str,
    piece: usize,
    faults: Faults,
}

/// What a call left.
#[derive(Drop)]
struct Left {
    status: u8,
    sink: MemSink,
    journal: Journal,
}

/// Makes a call on a plant that is empty.
fn call_on<P: Plant>(
    alloc: Global,
    words: &str,
    mut source: MemSource,
    plant: &mut P,
    mut sink: MemSink,
) -> Result<Left, AllocError>
    requires fresh { IsFresh (P.state plant.old) }
{
    let mut list = Vec::new(alloc);
    for word in words.split_whitespace() {
        list.push(String::from_str(alloc, word)?)?;
    }
    let mut journal = Journal::new(alloc);
    let status = drsim(alloc, &list, &mut source, plant, &mut sink, &mut journal);
    Ok(Left {
        status: status.code(),
        sink,
        journal,
    })
}

/// Makes a call, and asserts what it leaves.
fn leaves(
    rt: &impl Abort,
    alloc: Global,
    call: &Call,
    printed: &str,
    status: u8,
    events: usize,
) -> Result<(), AllocError> {
    let (byte, count) = call.before;
    let faults = call.faults;
    assert!(rt; 0 < call.piece);
    let mut input = vec![in alloc; byte; count]?;
    input.extend_from_slice(call.input.as_bytes())?;
    let source = MemSource::new(input, call.piece, vec![in alloc; faults.read]?);
    let fails = vec![in alloc; faults.fail]?;
    let sink = MemSink::new(alloc, faults.room, fails, vec![in alloc; faults.stuck]?)?;
    let left = call_on(alloc, call.words, source, &mut ModelPlant::new(alloc), sink)?;
    assert!(rt;
        left.sink.bytes() == printed.as_bytes(),
        "printed, not {printed}"
    );
    assert_eq!(rt; left.status, status, "status after {printed}");
    assert_eq!(rt; left.journal.len(), events, "events after {printed}");
    Ok(())
}

#[test]
fn other_words_print_the_usage_line(rt: HostRuntime) -> Result<(), AllocError> {
    for words in ["", "run x", "recover 00", "trial", "help", "RUN"] {
        let call = Call {
            words,
            before: (b'\n', 0),
            input: STEPS,
            piece: 10,
            faults: SOUND,
        };
        leaves(&rt, rt.alloc(), &call, USAGE, 2, 0)?;
    }
    Ok(())
}

const NARROW: Faults = Faults { room: 3, ..SOUND };

const STUCK: Faults = Faults { stuck: 1, ..SOUND };

const BOTH: Faults = Faults {
    read: 2,
    fail: 1,
    ..SOUND
};

/// Words, faults, and what a call leaves whose source gives the two steps 10 bytes at a time.
type FaultRow = (&'static str, Faults, &'static str, u8, usize);

const FAULTS: [FaultRow; 25] = [
    ("run", Faults { read: 1, ..SOUND }, "", 3, 0),
    ("run", Faults { read: 2, ..SOUND }, "1 ok\n", 3, 2),
    ("run", Faults { read: 3, ..SOUND }, "1 ok\n", 3, 2),
    ("run", Faults { read: 4, ..SOUND }, "1 ok\n2 ok\n", 3, 4),
    ("run", Faults { fail: 1, ..SOUND }, "", 4, 2),
    ("run", Faults { fail: 2, ..SOUND }, "1 ok\n", 4, 4),
    ("run", STUCK, "", 4, 2),
    ("run", NARROW, "1 o", 4, 2),
    ("run", BOTH, "", 4, 2),
    ("recover 01", SOUND, "bad image line 1\n", 7, 0),
    ("recover 01", Faults { read: 1, ..SOUND }, "", 3, 0),
    ("recover 01", Faults { read: 4, ..SOUND }, "", 3, 0),
    ("recover 01", Faults { fail: 1, ..SOUND }, "", 4, 0),
    ("recover 01", STUCK, "", 4, 0),
    ("recover 01", NARROW, "bad", 4, 0),
    ("recover 01", BOTH, "", 3, 0),
    ("help", Faults { fail: 1, ..SOUND }, "", 4, 0),
    ("help", STUCK, "", 4, 0),
    ("help", NARROW, "usa", 4, 0),
    ("trial 0", Faults { read: 1, ..SOUND }, TRIAL, 0, 8867),
    ("trial 0", Faults { fail: 1, ..SOUND }, "", 4, 8867),
    ("trial 0", STUCK, "", 4, 8867),
    ("trial 0", NARROW, "lin", 4, 8867),
    (
        "trial 0",
        Faults { room: 20, ..SOUND },
        "lines 2998\nrefused 1",
        4,
        8867,
    ),
    (
        "trial 0",
        Faults { room: 29, ..SOUND },
        "lines 2998\nrefused 1150\ngroup",
        4,
        8867,
    ),
];

/// Makes the calls of these rows.
fn try_faults(rt: &impl Abort, alloc: Global, rows: &[FaultRow]) -> Result<(), AllocError> {
    for (words, faults, printed, status, events) in rows {
        let call = Call {
            words,
            before: (b'\n', 0),
            input: STEPS,
            piece: 10,
            faults: *faults,
        };
        leaves(rt, alloc, &call, printed, *status, *events)?;
    }
    Ok(())
}

#[test]
fn lines_taken_whole_are_carried_out_before_a_fault(rt: HostRuntime) -> Result<(), AllocError> {
    try_faults(&rt, rt.alloc(), &FAULTS)
}

/// Words, a byte and how often it comes, what follows it, how many bytes the source gives at a time, and what the call leaves.
type PieceRow = (
    &'static str,
    (u8, usize),
    &'static str,
    usize,
    &'static str,
    u8,
    usize,
);

const PIECES: [PieceRow; 19] = [
    ("run", (b'\n', 1), FIRST, 1, ANSWERS, 0, 9),
    ("run", (b'\n', 1), FIRST, 7, ANSWERS, 0, 9),
    ("run", (b'\n', 1), FIRST, 4096, ANSWERS, 0, 9),
    (
        "run",
        (b'\n', 99_999),
        "@server A",
        4096,
        "100000 ok\n",
        0,
        2,
    ),
    ("run", (b'\n', 100_000), "", 4096, "", 0, 0),
    ("run", (b'\n', 100_001), "", 4096, "", 6, 0),
    ("run", (b'\n', 100_000), "@server A", 4096, "", 6, 0),
    ("run", (b' ', 1_024), "", 7, "", 0, 0),
    ("run", (b' ', 1_024), "\r\n", 1, "", 0, 0),
    ("run", (b' ', 1_024), "\r", 1, "1 E01 syntax 1025\n", 1, 1),
    ("run", (b' ', 1_025), "", 7, "1 E01 syntax 1025\n", 1, 1),
    ("recover 01", (b'\n', 0), TARGET, 1, GROUP, 0, 0),
    ("recover 01", (b'\n', 0), TARGET, 2, GROUP, 0, 0),
    ("recover 01", (b'\n', 0), TARGET, 3, GROUP, 0, 0),
    ("recover 01", (b'\n', 0), TARGET, 63, GROUP, 0, 0),
    ("recover 01", (b'\n', 0), TARGET, 4096, GROUP, 0, 0),
    (
        "recover 01",
        (b'\n', 100_000),
        "",
        4096,
        "bad image line 1\n",
        7,
        0,
    ),
    ("recover 01", (b'\n', 100_001), "", 4096, "", 6, 0),
    ("recover 01", (b'\n', 100_000), "x", 63, "", 6, 0),
];

/// Makes the calls of these rows.
fn try_pieces(rt: &impl Abort, alloc: Global, rows: &[PieceRow]) -> Result<(), AllocError> {
    for (words, before, input, piece, printed, status, events) in rows {
        let call = Call {
            words,
            before: *before,
            input,
            piece: *piece,
            faults: SOUND,
        };
        leaves(rt, alloc, &call, printed, *status, *events)?;
    }
    Ok(())
}

#[test]
fn pieces_of_any_size_read_as_the_whole_input(rt: HostRuntime) -> Result<(), AllocError> {
    try_pieces(&rt, rt.alloc(), &PIECES)
}

/// Which call of a stream fails, once.
#[derive(Clone, Copy)]
enum Fails {
    Never,
    InMove,
    InFlush,
}

/// A reader and a writer that count their calls, of which the first may fail, as one that a signal broke off.
#[derive(Drop)]
struct Counting<'a> {
    bytes: Vec<u8>,
    moves: &'a Cell<u32>,
    flushes: &'a Cell<u32>,
    fails: Fails,
}

/// Counts a call; fails at the first one, where it is to fail.
fn counted(calls: &Cell<u32>, fails: bool) -> io::Result<()> {
    calls.set(calls.get().saturating_add(1));
    if fails && calls.get() == 1 {
        return Err(io::Error::from(io::ErrorKind::Interrupted));
    }
    Ok(())
}

impl<'a> io::Write for Counting<'a> {
    fn write(&mut self, buf: &[u8]) -> io::Result<usize> {
        counted(self.moves, matches!(self.fails, Fails::InMove))?;
        self.bytes.write(buf)
    }

    fn flush(&mut self) -> io::Result<()> {
        counted(self.flushes, matches!(self.fails, Fails::InFlush))
    }
}

impl<'a> io::Read for Counting<'a> {
    fn read(&mut self, buf: &mut [u8]) -> io::Result<usize> {
        counted(self.moves, matches!(self.fails, Fails::InMove))?;
        let n = buf.len().min(self.bytes.len());
        buf[..n].copy_from_slice(&self.bytes[..n]);
        Ok(n)
    }
}

/// Each call of a stream is one of its reader or writer, and each piece is flushed; where one fails, so does the call, and it isn't
/// tried again. No contract can say this, since the standard library counts no calls.
#[test]
fn each_put_is_one_write_and_one_flush(rt: HostRuntime) -> Result<(), AllocError> {
    let alloc = rt.alloc();
    let piece = vec![in alloc; b'p'; 5000]?;
    let cases = [
        (Fails::Never, Some(5000), [1, 1], [2, 2]),
        (Fails::InMove, None, [1, 0], [2, 1]),
        (Fails::InFlush, None, [1, 1], [2, 2]),
    ];
    for (fails, taken, first, second) in cases {
        let (moves, flushes) = (Cell::new(0), Cell::new(0));
        let mut sink = StdSink::new(Counting {
            bytes: Vec::new(alloc),
            moves: &moves,
            flushes: &flushes,
            fails,
        });
        assert_eq!(rt; sink.put(&piece).ok(), taken);
        assert_eq!(rt; [moves.get(), flushes.get()], first);
        assert_eq!(rt; sink.put(&piece).ok(), Some(5000));
        assert_eq!(rt; [moves.get(), flushes.get()], second);
    }
    for (fails, taken) in [(Fails::Never, Some(3)), (Fails::InMove, None)] {
        let (moves, flushes) = (Cell::new(0), Cell::new(0));
        let mut source = StdSource::new(Counting {
            bytes: Vec::from_slice(alloc, b"abc")?,
            moves: &moves,
            flushes: &flushes,
            fails,
        });
        let mut into = [b'x'; 5];
        assert_eq!(rt; source.take(&mut into).ok(), taken);
        assert_eq!(rt; moves.get(), 1);
        assert!(rt; taken.is_some() || into == *b"xxxxx");
        assert_eq!(rt; source.take(&mut into).ok(), Some(3));
        assert_eq!(rt; moves.get(), 2);
        assert!(rt; into == *b"abcxx");
    }
    Ok(())
}
