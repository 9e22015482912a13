//! The table of stops: a server stops at each write of a run of two primaries, with what a torn block may hold, and recoveries
//! follow. Each of its scripts is a function of three numbers.

use crate::run::{recover_image, run_program};
use dr_verdict::{Recovery, agreed_group, words_of};
use std::alloc::{AllocError, Global};
use std::str;
use thiserror::Error;

/// The servers that stop: a primary, and both secondaries.
const SERVERS: [&str; 3] = ["A1", "B1", "B2"];
/// How many writes of its server a stop may wait for: 0 to one less than this.
const WRITES: u32 = 80;
/// What the write that is cut short leaves in its block.
const TORN: [&str; 3] = ["none", "00", "01"];

/// The lines before the stop: a session over two primaries, whose first group has 41 on track 0 of 3000.
const HEAD: &str = "\
@server A1\n\
@server A2\n\
@server B1\n\
@server B2\n\
@volume 1000 A1 4\n\
@volume 1001 A1 4\n\
@volume 1100 A2 4\n\
@volume 1101 A2 4\n\
@volume 2000 B1 4\n\
@volume 2001 B1 4\n\
@volume 2100 B2 4\n\
@volume 2101 B2 4\n\
@volume 3000 B1 4\n\
@volume 3001 B1 4\n\
@volume 3100 B2 4\n\
@volume 3101 B2 4\n\
mkpprcpath -dev A1 -remotedev B1 -remotewwnn 5005076303FFC1A5 -srclss 10 -tgtlss 20 I0010:I0140\n\
mkpprcpath -srclss 11 -tgtlss 21 I0010:I0140\n\
mkpprc -type gcp -mode nocp 1000-1001:2000-2001\n\
mkpprc -type gcp -mode nocp 1100-1101:2100-2101\n\
mkflash -tgtinhibit -record -persist -nocp 2000-2001:3000-3001\n\
mkflash -tgtinhibit -record -persist -nocp 2100-2101:3100-3101\n\
mksession -lss 10 -volume 1000-1001 01\n\
mksession -lss 11 -volume 1100-1101 01\n\
mkgmir -lss 10 -session 01 -cginterval 0 -coordinate 50 -drain 30 A1/10:A2/11\n\
@write 1000 0 0 41\n\
@write 1100 0 0 42\n\
@run 01 1\n\
";

/// What the lines up to the stop answer.
const HEAD_ANSWERS: &str = "\
1 ok\n\
2 ok\n\
3 ok\n\
4 ok\n\
5 ok\n\
6 ok\n\
7 ok\n\
8 ok\n\
9 ok\n\
10 ok\n\
11 ok\n\
12 ok\n\
13 ok\n\
14 ok\n\
15 ok\n\
16 ok\n\
17 ok\n\
18 ok\n\
19 ok\n\
19 ok\n\
20 ok\n\
20 ok\n\
21 ok\n\
21 ok\n\
22 ok\n\
22 ok\n\
23 ok\n\
23 ok\n\
23 ok\n\
24 ok\n\
24 ok\n\
24 ok\n\
25 ok\n\
26 ok w1\n\
27 ok w2\n\
28 ok Idle 1\n\
29 ok\n\
";

/// The lines behind the stop: a write of 43, an attempt, the loss of the primaries, three recoveries, and what shows what is left.
const TAIL: &str = "\
@write 1000 0 0 43\n\
@run 01 1\n\
@stop A1\n\
@stop A2\n\
@start B1\n\
@start B2\n\
@recover 01\n\
@start B1\n\
@start B2\n\
@recover 01\n\
@start B1\n\
@start B2\n\
@recover 01\n\
@show 3000 0\n\
@image\n\
";

/// The bytes that a run of the table may print: one that prints more ends with another status.
const ROOM: usize = 32_768;

/// The three numbers of a script.
#[derive(Clone, Copy)]
pub struct Stop<'a> {
    /// The server that stops.
    pub server: &'a str,
    /// How many of its writes pass before.
    pub writes: u32,
    /// What the next one leaves in its block.
    pub torn: &'a str,
}

/// What is wrong with what a script came to.
#[derive(Debug, Drop, Error)]
pub enum StopFault {
    #[error("the output is no text")]
    NoText,
    #[error("an answer up to the stop differs")]
    Head,
    #[error("the recoveries don't agree on group 1 or 2")]
    Recoveries,
    #[error("the status isn't that of the answers")]
    Status,
    #[error("track 0 of 3000 doesn't hold what the group has, or no image follows")]
    Track,
    #[error("the image at the end gives another group or track")]
    Image,
    #[error(transparent)]
    Memory(#[from(alloc)] AllocError),
}

/// All stops of the table.
pub fn stops(alloc: Global) -> Result<Vec<Stop<'static>>, AllocError> {
    let mut stops = Vec::new(alloc);
    for server in SERVERS {
        for writes in 0..WRITES {
            for torn in TORN {
                stops.push(Stop {
                    server,
                    writes,
                    torn,
                })?;
            }
        }
    }
    Ok(stops)
}

/// The script with this stop.
fn script(alloc: Global, stop: Stop<'_>) -> Result<Vec<u8>, AllocError> {
    let Stop {
        server,
        writes,
        torn,
    } = stop;
    let text = format!(in alloc; "{HEAD}@stop {server} after {writes} torn {torn}\n{TAIL}")?;
    Vec::from_slice(alloc, text.as_bytes())
}

/// The answer of the line with this number before it; none where it has none or several.
fn answer_of<'a>(lines: &[&'a str], number: &str) -> Option<&'a str> {
    let mut answer = None;
    for line in lines {
        if let Some(text) = line.strip_prefix(number) {
            if answer.is_some() {
                return None;
            }
            answer = Some(text);
        }
    }
    answer
}

/// The group that an answer says was found.
fn group_in(answer: &str) -> Option<u8> {
    let (group, _) = answer.strip_prefix("ok group ")?.split_once(' ')?;
    group.parse().ok()
}

/// What a recovery came to, by its answer, where this is the server that may stop in it.
fn recovery_of(answer: Option<&str>, server: &str) -> Recovery {
    let Some(answer) = answer else {
        return Recovery::Other;
    };
    if answer.strip_prefix("E21 stopped ") == Some(server) {
        return Recovery::Stopped;
    }
    match group_in(answer) {
        Some(group) => Recovery::Found { group },
        None => Recovery::Other,
    }
}

/// Whether this line of the output refuses a step.
fn is_refusal(line: &str) -> bool {
    match line.split_once(' ') {
        Some((_, answer)) => answer.starts_with('E'),
        None => false,
    }
}

/// The byte that this group has on track 0 of 3000, in hexadecimal digits.
fn held_in(group: u8) -> &'static str {
    if group == 1 { "41" } else { "43" }
}

/// The image that is printed behind this answer of the line before.
fn image_behind<'a>(printed: &'a str, answer: &str) -> Option<&'a str> {
    let (_, behind) = printed.split_once(answer)?;
    behind.strip_suffix("44 ok\n")
}

/// Whether these lines have this one.
fn has_line(lines: &[&str], wanted: &str) -> bool {
    lines.iter().any(|line| *line == wanted)
}

/// Looks at what recovery makes of the plant of an image: this group, and what it has.
fn check_image(alloc: Global, image: &str, group: u8) -> Result<(), StopFault> {
    let outcome = recover_image(alloc, image.as_bytes(), ROOM)?;
    let printed = str::from_utf8(&outcome.printed).map_err(|_| StopFault::NoText)?;
    let lines = printed.lines().collect::<Vec<&str>>(alloc)?;
    let held = held_in(group);
    let is_as_answered = outcome.status == 0
        && has_line(&lines, &format!(in alloc; "group {group}")?)
        && has_line(&lines, &format!(in alloc; "track 3000 0 {held}")?);
    if is_as_answered {
        Ok(())
    } else {
        Err(StopFault::Image)
    }
}

/// Runs the script with this stop, looks at what it came to, and gives what its recoveries did.
pub fn check_stop(alloc: Global, stop: Stop<'_>) -> Result<[Recovery; 3], StopFault> {
    let words = words_of(alloc, None)?;
    let outcome = run_program(alloc, &words, script(alloc, stop)?, ROOM)?;
    let printed = str::from_utf8(&outcome.printed).map_err(|_| StopFault::NoText)?;
    if !printed.starts_with(HEAD_ANSWERS) {
        return Err(StopFault::Head);
    }
    let lines = printed.lines().collect::<Vec<&str>>(alloc)?;
    let recoveries = [
        recovery_of(answer_of(&lines, "36 "), stop.server),
        recovery_of(answer_of(&lines, "39 "), stop.server),
        recovery_of(answer_of(&lines, "42 "), stop.server),
    ];
    let group = agreed_group(&recoveries).ok_or(StopFault::Recoveries)?;
    if outcome.status != u8::from(lines.iter().any(|line| is_refusal(line))) {
        return Err(StopFault::Status);
    }
    let held = held_in(group);
    let shown = format!(in alloc; "\n43 ok {held}\n")?;
    let image = image_behind(printed, &shown).ok_or(StopFault::Track)?;
    check_image(alloc, image, group)?;
    Ok(recoveries)
}
