ghost use Rattle.std.specs.Prelude.{◌≡◌, ℕ, ◌+◌, ◌-◌, ◌*◌, ◌<◌, ◌≤◌, ◌↔◌, List, None, take, length, slice_get, IsTrue, IsFalse, IsSome, nat_le, if◌then◌else◌};
ghost use Rattle.std.specs.Option.{unwrap_or};
ghost use Rattle.dr_logic.specs.Bytes.{zeros};
ghost use Rattle.dr_model.specs.Histories.{histories};
ghost use Rattle.dr_model.specs.Contents.{image, image_at, laid, volume_image};
ghost use Rattle.dr_model.specs.Asked.{asked, asked_if, asks_volume, asks_track, asks_aside, present, kept_aside, goes_on, ends, stored, earlier_of, issue_in, issue_at, tracks_in, tracks_at, over, with_write_if};

use crate::event::Event;
use crate::journal::Journal;

/// How many bytes a track has.
const TRACK_BYTES: usize = 64;

/// The list of writes that is looked for: that of a track, as it is or as it is kept aside.
#[derive(Clone, Copy)]
struct Question {
    volume: u16,
    track: u16,
    aside: bool,
}

/// What remains to be looked for before an event, and the write that the event adds to it.
#[derive(Clone, Copy)]
struct Earlier {
    question: Option<Question>,
    write: Option<u32>,
}

/// A host write as it was issued; the first `len` of its bytes count.
#[derive(Clone, Copy)]
struct Issued {
    volume: u16,
    track: u16,
    offset: u8,
    len: u8,
    bytes: [u8; TRACK_BYTES],
}

impl Issued {
    /// The bytes that the write wrote.
    fn written(&self) -> &[u8]
        ensures { result.now ≡ take self.now.len self.now.bytes }
    {
        let len = usize::from(self.len).min(TRACK_BYTES);
        &self.bytes[..len]
    }
}

/// What an event issues under a number.
fn issue_told(event: &Event, number: u32) -> Option<Issued>
    ensures { result ≡ issue_in event.now number }
{
    match event {
        Event::Issue {
            w,
            volume,
            track,
            offset,
            len,
            bytes,
        } => {
            if number == *w {
                Some(Issued {
                    volume: *volume,
                    track: *track,
                    offset: *offset,
                    len: *len,
                    bytes: *bytes,
                })
            } else {
                None
            }
        }
        _ => None,
    }
}

/// What the event at a place issues under a number.
fn issue_told_at(journal: &Journal, place: usize, number: u32) -> Option<Issued>
    ensures { result ≡ issue_at (slice_get journal.now.events place) number }
{
    match journal.event(place) {
        Some(event) => issue_told(event, number),
        None => None,
    }
}

/// The last write that was issued under a number before a place; one of no bytes where none was.
fn issue_before(journal: &Journal, place: usize, number: u32) -> Issued
    requires { place ≤ length journal.now.events }
    ensures volume { result.volume ≡ ((histories (take place journal.now.events)).write number).volume }
    ensures track { result.track ≡ ((histories (take place journal.now.events)).write number).track }
    ensures offset { result.offset ≡ ((histories (take place journal.now.events)).write number).offset }
    ensures bytes { take result.len result.bytes ≡ ((histories (take place journal.now.events)).write number).bytes }
{
    let mut at = place;
    while at > 0 {
        at -= 1;
        if let Some(issued) = issue_told_at(journal, at, number) {
            return issued;
        }
    }
    Issued {
        volume: 0,
        track: 0,
        offset: 0,
        len: 0,
        bytes: [0; TRACK_BYTES],
    }
}

/// The number of tracks that an event defines for a volume.
fn tracks_told(event: &Event, of: u16) -> Option<u16>
    ensures { result ≡ tracks_in event.now of }
{
    match event {
        Event::Volume { volume, tracks, .. } => { if of == *volume { Some(*tracks) } else { None } }
        _ => None,
    }
}

/// The number of tracks that the event at a place defines for a volume.
fn tracks_told_at(journal: &Journal, place: usize, of: u16) -> Option<u16>
    ensures { result ≡ tracks_at (slice_get journal.now.events place) of }
{
    match journal.event(place) {
        Some(event) => tracks_told(event, of),
        None => None,
    }
}

/// The number of a volume's tracks by the events before a place; `None` where they don't define it.
fn tracks_before(journal: &Journal, place: usize, of: u16) -> Option<u16>
    requires { place ≤ length journal.now.events }
    ensures { result ≡ (histories (take place journal.now.events)).tracks of }
{
    let mut at = place;
    while at > 0 {
        at -= 1;
        if let Some(tracks) = tracks_told_at(journal, at, of) {
            return Some(tracks);
        }
    }
    None
}

impl Earlier {
    /// The event adds no write, and a question is asked before it.
    fn goes_on(question: Question) -> Self
        ensures { result ≡ goes_on question }
    {
        Earlier {
            question: Some(question),
            write: None,
        }
    }

    /// The event leaves an empty list, whatever was before it.
    fn ends() -> Self
        ensures { result ≡ ends }
    {
        Earlier {
            question: None,
            write: None,
        }
    }
}

impl Question {
    /// The question for the present list of a track.
    fn present(volume: u16, track: u16) -> Self
        ensures { result ≡ present volume track }
    {
        Question {
            volume,
            track,
            aside: false,
        }
    }

    /// The question for the list of a track that is kept aside.
    fn kept_aside(volume: u16, track: u16) -> Self
        ensures { result ≡ kept_aside volume track }
    {
        Question {
            volume,
            track,
            aside: true,
        }
    }

    /// Whether a present list of a volume is asked for.
    fn asks_volume(self, volume: u16) -> bool
        ensures { result ≡ asks_volume self volume }
    {
        !self.aside && self.volume == volume
    }

    /// Whether the present list of a track is asked for.
    fn asks_track(self, volume: u16, track: u16) -> bool
        ensures { result ≡ asks_track self volume track }
    {
        !self.aside && self.volume == volume && self.track == track
    }

    /// Whether a list that a volume keeps aside is asked for.
    fn asks_aside(self, volume: u16) -> bool
        ensures { result ≡ asks_aside self volume }
    {
        self.aside && self.volume == volume
    }

    /// What is asked before write `w`, of a track of `volume`, was stored to that track of the volume `at`.
    fn before_store(self, w: u32, volume: u16, track: u16, at: u16) -> Earlier
        ensures { result ≡ stored self w volume track at }
    {
        if self.asks_track(at, track) {
            Earlier {
                question: Some(Question::present(volume, track)),
                write: Some(w),
            }
        } else {
            Earlier::goes_on(self)
        }
    }

    /// This question, or another one in its place.
    fn or_if(self, changes: bool, other: Question) -> Earlier
        ensures { result ≡ (if changes then goes_on other else goes_on self) }
    {
        if changes {
            Earlier::goes_on(other)
        } else {
            Earlier::goes_on(self)
        }
    }

    /// This question, or none.
    fn unless(self, stops: bool) -> Earlier
        ensures { result ≡ (if stops then ends else goes_on self) }
    {
        if stops {
            Earlier::ends()
        } else {
            Earlier::goes_on(self)
        }
    }

    /// What is asked before the event at a place of the journal, where this is asked after it.
    fn before(self, journal: &Journal, place: usize, event: &Event) -> Earlier
        requires { place ≤ length journal.now.events }
        ensures { result ≡ earlier_of (histories (take place journal.now.events)) self event.now }
    {
        match event {
            Event::Volume { volume, .. } => self.unless(self.asks_volume(*volume)),
            Event::Ack { w } => {
                let issued = issue_before(journal, place, *w);
                self.before_store(*w, issued.volume, issued.track, issued.volume)
            }
            Event::Mirrored { w, volume } => {
                let issued = issue_before(journal, place, *w);
                self.before_store(*w, issued.volume, issued.track, *volume)
            }
            Event::Sent { volume, track, to } => {
                self.or_if(
                    self.asks_track(*to, *track),
                    Question::present(*volume, *track),
                )
            }
            Event::Flashed { source, target, .. } => self.before_flash(*source, *target),
            Event::Committed { target, .. } => self.unless(self.asks_aside(*target)),
            Event::Reverted { target, .. } => {
                self.or_if(
                    self.asks_volume(*target),
                    Question::kept_aside(*target, self.track),
                )
            }
            Event::Set { volume, from } => {
                self.or_if(
                    self.asks_volume(*volume),
                    Question::present(*from, self.track),
                )
            }
            Event::Back {
                volume,
                track,
                from,
            } => {
                self.or_if(
                    self.asks_track(*volume, *track),
                    Question::present(*from, *track),
                )
            }
            Event::Blanked { volume, track } => self.unless(self.asks_track(*volume, *track)),
            _ => Earlier::goes_on(self),
        }
    }

    /// What is asked before a target was flashed from a source.
    fn before_flash(self, source: u16, target: u16) -> Earlier
        ensures { result ≡ (if asks_volume self target then goes_on (present source self.track) else (if asks_aside self target then goes_on (present target self.track) else goes_on self)) }
    {
        if self.asks_volume(target) {
            Earlier::goes_on(Question::present(source, self.track))
        } else {
            self.or_if(
                self.asks_aside(target),
                Question::present(target, self.track),
            )
        }
    }
}

/// The byte that a write from an offset on leaves at byte `k` of a track, where it reaches it.
fn byte_written(offset: usize, bytes: &[u8], k: usize) -> Option<u8>
    ensures { result ≡ (if nat_le offset k then slice_get bytes.now (k - offset) else None) }
{
    if offset <= k {
        bytes.get(k - offset).copied()
    } else {
        None
    }
}

/// Lays a write under the bytes that are known: it gives those that aren't known yet.
fn lay_under(known: &mut [bool], into: &mut [u8], offset: usize, bytes: &[u8])
    requires known { length known.old ≡ 64 }
    requires into { length into.old ≡ 64 }
    ensures { (under : List ℕ) → over known.new into.new under ≡ over known.old into.old (laid offset bytes.now under) }
{
    for k in 0..TRACK_BYTES {
        if known[k] {
            continue;
        }
        let Some(byte) = byte_written(offset, bytes, k) else {
            continue;
        };
        known[k] = true;
        into[k] = byte;
    }
}

/// Lays the write of a number under the bytes that are known, if there is one.
fn lay_write_under(
    journal: &Journal,
    place: usize,
    write: Option<u32>,
    known: &mut [bool],
    into: &mut [u8],
)
    requires place { place ≤ length journal.now.events }
    requires known { length known.old ≡ 64 }
    requires into { length into.old ≡ 64 }
    ensures { (under : List ℕ) → over known.new into.new under ≡ over known.old into.old (with_write_if (histories (take place journal.now.events)).write under write) }
{
    if let Some(w) = write {
        let issued = issue_before(journal, place, w);
        lay_under(known, into, usize::from(issued.offset), issued.written());
    }
}

/// Goes back over the event at place `at`: what is asked before it, with its write laid under the known bytes.
fn go_back(
    journal: &Journal,
    place: usize,
    at: usize,
    question: Question,
    known: &mut [bool],
    into: &mut [u8],
) -> Option<Question>
    requires place { place ≤ length journal.now.events }
    requires at { at < place }
    requires known { length known.old ≡ 64 }
    requires into { length into.old ≡ 64 }
    ensures { let write = (histories (take place journal.now.events)).write in
        over known.new into.new (image write (asked_if (histories (take at journal.now.events)) result))
        ≡ over known.old into.old (image write (asked (histories (take (at + 1) journal.now.events)) question)) }
{
    let Some(event) = journal.event(at) else {
        return Some(question);
    };
    let earlier = question.before(journal, at, event);
    lay_write_under(journal, place, earlier.write, known, into);
    earlier.question
}

/// Writes zero where no byte is known.
fn clear_rest(known: &[bool], into: &mut [u8])
    requires known { length known.now ≡ 64 }
    requires into { length into.old ≡ 64 }
    ensures { into.new ≡ over known.now into.old zeros }
{
    for k in 0..TRACK_BYTES {
        if !known[k] {
            into[k] = 0;
        }
    }
}

/// Writes what a track contains by the host writes among the events before a place.
fn write_track(journal: &Journal, place: usize, volume: u16, track: u16, into: &mut [u8])
    requires place { place ≤ length journal.now.events }
    requires into { length into.old ≡ 64 }
    ensures { into.new ≡ image_at (take place journal.now.events) volume track }
{
    let mut known = [false; TRACK_BYTES];
    let mut asked = Some(Question::present(volume, track));
    let mut at = place;
    while at > 0 {
        let Some(question) = asked else {
            clear_rest(&known, into);
            return;
        };
        at -= 1;
        asked = go_back(journal, place, at, question, &mut known, into);
    }
    clear_rest(&known, into);
}

/// Writes what the tracks of a volume contain after the first `place` events of a journal, by their host writes
/// alone, track after track of 64 bytes.
///
/// False, with `into` as it was, exactly where there are fewer events, where these don't define the volume, or
/// where `into` is not as long as its tracks.
pub fn image_of(journal: &Journal, volume: u16, place: usize, into: &mut [u8]) -> bool
    ensures when { let tracks = (histories (take place journal.now.events)).tracks volume in
        IsTrue result ↔ (place ≤ length journal.now.events) × IsSome tracks × (length into.old ≡ 64 * unwrap_or tracks 0) }
    ensures image { IsTrue result → into.new ≡ volume_image (take place journal.now.events) volume }
    ensures same { IsFalse result → into.new ≡ into.old }
{
    if place > journal.len() {
        return false;
    }
    let Some(tracks) = tracks_before(journal, place, volume) else {
        return false;
    };
    if into.len() != usize::from(tracks) * TRACK_BYTES {
        return false;
    }
    for track in 0..tracks {
        let start = usize::from(track) * TRACK_BYTES;
        let block = &mut into[start..start + TRACK_BYTES];
        write_track(journal, place, volume, track, block);
    }
    true
}
