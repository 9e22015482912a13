//! The catalogue of moves: a move is a value, with its row in each of the machine's tables.

ghost use Rattle.std.specs.Prelude.{◌≡◌, ◌≤◌, ◌<◌, ◌+◌, [], ◌∷◌, ◌++◌, length, Some, if◌then◌else◌};
ghost use Rattle.dr_ids.specs.Sizes.{most_tracks};
ghost use Rattle.dr_ids.specs.declared.names.VolumeId.{VolumeId};
ghost use Rattle.dr_model.specs.declared.event.Event.TheVariants.{Suspended, Begin, Cut, FlashFreed};
ghost use Rattle.dr_model.specs.Moves as machine;
ghost use Rattle.dr_model.specs.Pairs as pairs;
ghost use Rattle.dr_volume.specs.Plain.{plain};
ghost use Rattle.dr_volume.specs.Update.{stages};
ghost use Rattle.dr_moves.specs.Moves.{move_of, volume_with, IsBelow, number_of};
ghost use Rattle.dr_moves.specs.Entered.{is_calm};
ghost use Rattle.dr_moves.specs.Told.{seen};
ghost use Rattle.dr_moves.specs.Turns.{told_in_stop};

use crate::attempt_fields::{
    committed, flash_freed, flash_held, flashed, freed, held_for, lifted, no_member, past_attempt,
    reverted, sealed, with_attempt, with_floor,
};
use crate::flash_fields::{
    altered, kept, made, noted, overwritten, released, resynced, reversed, taken, withdrawn,
    written,
};
use crate::options::FlashOptions;
use crate::pair_fields::{
    fallen_back, followed, made_primary, made_secondary, mirrored, no_primary, no_secondary,
    received, restarted, resumed, struck, suspended, synced, taken_over, thawed, yielded,
};
use crate::told::{Sight, tell_blank, tell_returned};
use dr_bits::TrackSet;
use dr_ids::{ServerId, SessionId, VolumeId, WriteId};
use dr_model::{Event, Journal, PairState, Part};
use dr_volume::Fields;

/// One move: the control record of one volume is changed, done or not done as a whole, and maybe one track with it.
#[derive(Clone, Copy)]
pub enum Move {
    /// Host write `w` lands on track `t` of `v`, which is no target.
    Land {
        w: WriteId,
        v: VolumeId,
        t: u16,
    },
    /// Host write `w` lands on track `t` of target `v`.
    Overwrite {
        w: WriteId,
        v: VolumeId,
        t: u16,
    },
    /// Target `v` keeps its source's track `t`, which is about to change.
    Keep {
        v: VolumeId,
        t: u16,
    },
    /// Target `v` notes that its source's track `t` is about to change.
    Note {
        v: VolumeId,
        t: u16,
    },
    /// `v` becomes a target of `s`.
    Relate {
        v: VolumeId,
        s: VolumeId,
        options: FlashOptions,
    },
    /// `v` is a target no more.
    Withdraw {
        v: VolumeId,
    },
    /// Target `v` takes track `t` of its source.
    Fetch {
        v: VolumeId,
        t: u16,
    },
    /// Target `v` shares its changed tracks with its source again.
    Resync {
        v: VolumeId,
        sequence: Option<u32>,
    },
    /// Target `v` is to be restored onto its source, and leaves its session as that of the member with primary `left`.
    Reverse {
        v: VolumeId,
        left: Option<VolumeId>,
    },
    /// Source `v` takes track `t` back from its target `u`.
    Restore {
        v: VolumeId,
        t: u16,
        u: VolumeId,
    },
    /// Target `v` gives up track `t`, which its source has taken back.
    Release {
        v: VolumeId,
        t: u16,
    },
    /// Secondary `v` stores track `t` of its primary `u`, maybe the last one of a Metro Mirror pair.
    Store {
        v: VolumeId,
        t: u16,
        u: VolumeId,
        last: bool,
    },
    /// Primary `v` strikes track `t` off, which its secondary has stored.
    Strike {
        v: VolumeId,
        t: u16,
        last: bool,
    },
    /// Primary `v` is Suspended, and maybe long busy.
    Suspend {
        v: VolumeId,
        busy: bool,
    },
    /// `v` becomes the secondary of `u`.
    MakeSecondary {
        v: VolumeId,
        u: VolumeId,
        kind: Part,
        state: PairState,
    },
    /// `v` becomes the primary of `u`, and all its tracks are out of sync, or none is.
    MakePrimary {
        v: VolumeId,
        u: VolumeId,
        kind: Part,
        state: PairState,
        full: bool,
    },
    /// `v` is a primary no more.
    DropPrimary {
        v: VolumeId,
    },
    /// `v` is a secondary no more.
    DropSecondary {
        v: VolumeId,
    },
    /// Secondary `v` has another state.
    Follow {
        v: VolumeId,
        state: PairState,
    },
    /// Primary `v` goes on.
    Resume {
        v: VolumeId,
        state: PairState,
    },
    /// Secondary `v` becomes a Suspended primary of its primary.
    TakeOver {
        v: VolumeId,
    },
    /// `v`, which is a primary too, leaves its primary: it is a secondary no more.
    LeavePrimary {
        v: VolumeId,
    },
    /// Primary `v` is voided, these tracks are out of sync too, and it has this state.
    FallBack {
        v: VolumeId,
        more: TrackSet,
        state: PairState,
    },
    /// Primary `v` of `u`, which is a primary of `v`, becomes its secondary.
    Yield {
        v: VolumeId,
        u: VolumeId,
        kind: Part,
        state: PairState,
    },
    /// Track `t` of primary `v` is about to change on both sides.
    Unsync {
        v: VolumeId,
        t: u16,
    },
    /// Secondary `v` stores what host write `w` makes of track `t` of its primary `u`.
    Mirror {
        v: VolumeId,
        t: u16,
        u: VolumeId,
        w: WriteId,
    },
    /// Host write `w`, which the secondary of `v` has stored, lands on track `t` of `v`.
    LandBoth {
        w: WriteId,
        v: VolumeId,
        t: u16,
    },
    /// Primary `v` is long busy no more.
    Thaw {
        v: VolumeId,
    },
    /// `v` gets a flash hold: host writes on it wait.
    FlashHold {
        v: VolumeId,
    },
    /// `v` has no flash hold any more.
    FlashFree {
        v: VolumeId,
    },
    /// Host writes on `v` wait no more, whatever held them back.
    Lift {
        v: VolumeId,
    },
    /// `v` goes on after a stop.
    Restart {
        v: VolumeId,
    },
    /// Primary `v` is held for attempt `n` of session `s`, maybe as the first of its members.
    Hold {
        v: VolumeId,
        s: SessionId,
        n: u32,
        first: bool,
    },
    /// Primary `v`, which is held, is let go.
    Free {
        v: VolumeId,
    },
    /// Secondary `v` of `u` is sealed for attempt `n` of session `s`.
    Seal {
        v: VolumeId,
        u: VolumeId,
        s: SessionId,
        n: u32,
    },
    /// Attempt `n` is over for primary `v`.
    Finish {
        v: VolumeId,
        n: u32,
    },
    /// No attempt up to `n` is made with primary `v` any more.
    RaiseAttempt {
        v: VolumeId,
        n: u32,
    },
    /// Nothing of an attempt up to `n` is flashed on target `v` any more.
    RaiseFloor {
        v: VolumeId,
        n: u32,
    },
    /// Target `v` is no longer one of session `s`, whose member `u` is the primary of.
    Leave {
        v: VolumeId,
        u: VolumeId,
        s: SessionId,
    },
    /// Target `v` of `u` is flashed for attempt `n` of session `s`, whose member `a` is the primary of.
    Flash {
        v: VolumeId,
        u: VolumeId,
        a: VolumeId,
        s: SessionId,
        n: u32,
    },
    /// The flash of attempt `n` stays.
    Commit {
        v: VolumeId,
        a: VolumeId,
        s: SessionId,
        n: u32,
    },
    /// The flash of attempt `n` is taken back.
    Revert {
        v: VolumeId,
        a: VolumeId,
        s: SessionId,
        n: u32,
    },
}

pub fn target_of(m: &Move) -> VolumeId
    ensures { result.0 ≡ machine.target (move_of m.now) }
{
    match m {
        Move::Land { v, .. } => *v,
        Move::Overwrite { v, .. } => *v,
        Move::Keep { v, .. } => *v,
        Move::Note { v, .. } => *v,
        Move::Relate { v, .. } => *v,
        Move::Withdraw { v } => *v,
        Move::Fetch { v, .. } => *v,
        Move::Resync { v, .. } => *v,
        Move::Reverse { v, .. } => *v,
        Move::Restore { v, .. } => *v,
        Move::Release { v, .. } => *v,
        Move::Store { v, .. } => *v,
        Move::Strike { v, .. } => *v,
        Move::Suspend { v, .. } => *v,
        Move::MakeSecondary { v, .. } => *v,
        Move::MakePrimary { v, .. } => *v,
        Move::DropPrimary { v } => *v,
        Move::DropSecondary { v } => *v,
        Move::Follow { v, .. } => *v,
        Move::Resume { v, .. } => *v,
        Move::TakeOver { v } => *v,
        Move::LeavePrimary { v } => *v,
        Move::FallBack { v, .. } => *v,
        Move::Yield { v, .. } => *v,
        Move::Unsync { v, .. } => *v,
        Move::Mirror { v, .. } => *v,
        Move::LandBoth { v, .. } => *v,
        Move::Thaw { v } => *v,
        Move::FlashHold { v } => *v,
        Move::FlashFree { v } => *v,
        Move::Lift { v } => *v,
        Move::Restart { v } => *v,
        Move::Hold { v, .. } => *v,
        Move::Free { v } => *v,
        Move::Seal { v, .. } => *v,
        Move::Finish { v, .. } => *v,
        Move::RaiseAttempt { v, .. } => *v,
        Move::RaiseFloor { v, .. } => *v,
        Move::Leave { v, .. } => *v,
        Move::Flash { v, .. } => *v,
        Move::Commit { v, .. } => *v,
        Move::Revert { v, .. } => *v,
    }
}

/// The fields of a volume with so many tracks become those that a move leaves. What they stage stays.
pub fn next_fields(m: &Move, size: u16, f: &mut Fields)
    requires size { size ≤ most_tracks }
    requires below { IsBelow most_tracks (move_of m.now) }
    ensures fields { plain f.new ≡ machine.fields_left (move_of m.now) (volume_with size (plain f.old)) }
    ensures stages { stages f.new ≡ stages f.old }
{
    match m {
        Move::Land { t, .. } => written(f, *t),
        Move::Overwrite { t, .. } => overwritten(size, f, *t),
        Move::Keep { t, .. } => kept(size, f, *t),
        Move::Note { t, .. } => noted(f, *t),
        Move::Relate { s, options, .. } => made(*s, options, f),
        Move::Withdraw { .. } => withdrawn(size, f),
        Move::Fetch { t, .. } => taken(size, f, *t),
        Move::Resync { sequence, .. } => resynced(*sequence, f),
        Move::Reverse { .. } => reversed(size, f),
        Move::Restore { t, .. } => altered(f, *t),
        Move::Release { t, .. } => released(size, f, *t),
        Move::Store { t, last, .. } => received(*last, f, *t),
        Move::Strike { t, last, .. } => struck(*last, f, *t),
        Move::Suspend { busy, .. } => suspended(*busy, f),
        Move::MakeSecondary { u, kind, state, .. } => made_secondary(*u, *kind, *state, f),
        Move::MakePrimary {
            u,
            kind,
            state,
            full,
            ..
        } => made_primary(size, *u, *kind, *state, *full, f),
        Move::DropPrimary { .. } => no_primary(f),
        Move::DropSecondary { .. } | Move::LeavePrimary { .. } => no_secondary(f),
        Move::Follow { state, .. } => followed(*state, f),
        Move::Resume { state, .. } => resumed(*state, f),
        Move::TakeOver { .. } => taken_over(f),
        Move::FallBack { more, state, .. } => fallen_back(more, *state, f),
        Move::Yield { u, kind, state, .. } => yielded(*u, *kind, *state, f),
        Move::Unsync { t, .. } => f.out_of_sync.insert(*t),
        Move::Mirror { t, .. } => mirrored(f, *t),
        Move::LandBoth { t, .. } => synced(f, *t),
        Move::Thaw { .. } => thawed(f),
        Move::FlashHold { .. } => flash_held(f),
        Move::FlashFree { .. } => flash_freed(f),
        Move::Lift { .. } => lifted(f),
        Move::Restart { .. } => restarted(f),
        Move::Hold { n, .. } => held_for(*n, f),
        Move::Free { .. } => freed(f),
        Move::Seal { n, .. } => sealed(*n, f),
        Move::Finish { n, .. } => past_attempt(*n, f),
        Move::RaiseAttempt { n, .. } => with_attempt(*n, f),
        Move::RaiseFloor { n, .. } => with_floor(*n, f),
        Move::Leave { .. } => no_member(f),
        Move::Flash { s, n, .. } => flashed(*s, *n, f),
        Move::Commit { n, .. } => committed(*n, f),
        Move::Revert { n, .. } => reverted(*n, f),
    }
}

/// Tells that a primary in this state is suspended: nothing where it was Suspended.
fn tell_suspended(journal: &mut Journal, v: VolumeId, state: PairState)
    requires { length (if pairs.is_suspended state then [] else Suspended v.0 ∷ []) ≤ journal.old.spare }
    ensures events { journal.new.events ≡ journal.old.events ++ (if pairs.is_suspended state then [] else Suspended v.0 ∷ []) }
    ensures spare { journal.old.spare ≡ journal.new.spare + length (if pairs.is_suspended state then [] else Suspended v.0 ∷ []) }
{
    if state.is_suspended() {
        return;
    }
    journal.push(Event::Suspended { volume: v.0 });
}

/// Tells of the end of the holds of a volume: that of its flash hold, where it had one.
fn tell_lifted(journal: &mut Journal, v: VolumeId, held: bool)
    requires { length (if held then FlashFreed v.0 ∷ [] else []) ≤ journal.old.spare }
    ensures events { journal.new.events ≡ journal.old.events ++ (if held then FlashFreed v.0 ∷ [] else []) }
    ensures spare { journal.old.spare ≡ journal.new.spare + length (if held then FlashFreed v.0 ∷ [] else []) }
{
    if held {
        journal.push(Event::FlashFreed { volume: v.0 });
    }
}

/// Tells of a hold: the first one that its attempt begins, and each that the volume is cut.
fn tell_held(journal: &mut Journal, v: VolumeId, s: SessionId, n: u32, first: bool)
    requires { length (if first then Begin s.0 n ∷ Cut s.0 n v.0 ∷ [] else Cut s.0 n v.0 ∷ []) ≤ journal.old.spare }
    ensures events { journal.new.events ≡ journal.old.events ++ (if first then Begin s.0 n ∷ Cut s.0 n v.0 ∷ [] else Cut s.0 n v.0 ∷ []) }
    ensures spare { journal.old.spare ≡ journal.new.spare + length (if first then Begin s.0 n ∷ Cut s.0 n v.0 ∷ [] else Cut s.0 n v.0 ∷ []) }
{
    if first {
        journal.push(Event::Begin { session: s.0, n });
    }
    journal.push(Event::Cut {
        session: s.0,
        n,
        volume: v.0,
    });
}

/// Tells that a target leaves this session as that of the member with primary `left`, where it is one.
fn tell_left(journal: &mut Journal, left: Option<VolumeId>, session: u8)
    requires { length (machine.told_left (number_of left) session) ≤ journal.old.spare }
    ensures events { journal.new.events ≡ journal.old.events ++ machine.told_left (number_of left) session }
    ensures spare { journal.old.spare ≡ journal.new.spare + length (machine.told_left (number_of left) session) }
{
    if let Some(primary) = left {
        journal.push(Event::Left {
            session,
            volume: primary.0,
        });
    }
}

/// Tells of a target that is to be restored onto its source.
fn tell_reversed(
    journal: &mut Journal,
    v: VolumeId,
    left: Option<VolumeId>,
    size: u16,
    sight: &Sight,
)
    requires { length (machine.told (machine.Reverse v.0 (number_of left)) (volume_with size (seen sight.now))) ≤ journal.old.spare }
    ensures events { journal.new.events ≡ journal.old.events ++ machine.told (machine.Reverse v.0 (number_of left)) (volume_with size (seen sight.now)) }
    ensures spare { journal.old.spare ≡ journal.new.spare + length (machine.told (machine.Reverse v.0 (number_of left)) (volume_with size (seen sight.now))) }
{
    let mut own = sight.source_changes;
    own.union(&sight.target_changes);
    tell_left(journal, left, sight.session);
    tell_returned(journal, v.0, sight.source.0, size, &own);
}

/// Tells of a target that has given track t back.
fn tell_released(journal: &mut Journal, v: VolumeId, t: u16, size: u16, sight: &Sight)
    requires { length (machine.told (machine.Release v.0 t) (volume_with size (seen sight.now))) ≤ journal.old.spare }
    ensures events { journal.new.events ≡ journal.old.events ++ machine.told (machine.Release v.0 t) (volume_with size (seen sight.now)) }
    ensures spare { journal.old.spare ≡ journal.new.spare + length (machine.told (machine.Release v.0 t) (volume_with size (seen sight.now))) }
{
    let mut own = sight.own;
    own.remove(t);
    tell_returned(journal, v.0, sight.source.0, size, &own);
}

/// Tells the journal of a move that is done, of a volume with so many tracks of which this was seen before it.
pub(crate) fn tell_done(journal: &mut Journal, m: &Move, size: u16, sight: &Sight)
    requires { length (machine.told (move_of m.now) (volume_with size (seen sight.now))) ≤ journal.old.spare }
    ensures events { journal.new.events ≡ journal.old.events ++ machine.told (move_of m.now) (volume_with size (seen sight.now)) }
    ensures spare { journal.old.spare ≡ journal.new.spare + length (machine.told (move_of m.now) (volume_with size (seen sight.now))) }
{
    match m {
        Move::Land { w, .. } => journal.push(Event::Ack { w: w.0 }),
        Move::Overwrite { w, .. } => journal.push(Event::Ack { w: w.0 }),
        Move::Keep { v, t } => journal.push(Event::Copied {
            volume: v.0,
            track: *t,
        }),
        Move::Relate { v, s, .. } => journal.push(Event::Set {
            volume: v.0,
            from: s.0,
        }),
        Move::Withdraw { v } => tell_blank(journal, v.0, size, &sight.own),
        Move::Fetch { v, t } => journal.push(Event::Copied {
            volume: v.0,
            track: *t,
        }),
        Move::Resync { v, .. } => journal.push(Event::Set {
            volume: v.0,
            from: sight.source.0,
        }),
        Move::Reverse { v, left } => tell_reversed(journal, *v, *left, size, sight),
        Move::Restore { v, t, u } => journal.push(Event::Back {
            volume: v.0,
            track: *t,
            from: u.0,
        }),
        Move::Release { v, t } => tell_released(journal, *v, *t, size, sight),
        Move::Store { v, t, u, .. } => journal.push(Event::Sent {
            volume: u.0,
            track: *t,
            to: v.0,
        }),
        Move::Suspend { v, .. } => tell_suspended(journal, *v, sight.state),
        Move::TakeOver { v } | Move::LeavePrimary { v } => journal.push(Event::TakenOver {
            volume: v.0,
        }),
        Move::Mirror { v, w, .. } => journal.push(Event::Mirrored {
            w: w.0,
            volume: v.0,
        }),
        Move::LandBoth { w, .. } => journal.push(Event::Ack { w: w.0 }),
        Move::FlashHold { v } => journal.push(Event::FlashHeld { volume: v.0 }),
        Move::FlashFree { v } => journal.push(Event::FlashFreed { volume: v.0 }),
        Move::Lift { v } => tell_lifted(journal, *v, sight.flash_hold),
        Move::Hold { v, s, n, first } => tell_held(journal, *v, *s, *n, *first),
        Move::Seal { u, s, n, .. } => journal.push(Event::Sealed {
            session: s.0,
            n: *n,
            volume: u.0,
        }),
        Move::Leave { u, s, .. } => journal.push(Event::Left {
            session: s.0,
            volume: u.0,
        }),
        Move::Flash { v, u, a, s, n } => journal.push(Event::Flashed {
            session: s.0,
            n: *n,
            volume: a.0,
            source: u.0,
            target: v.0,
        }),
        Move::Commit { v, a, s, n } => journal.push(Event::Committed {
            session: s.0,
            n: *n,
            volume: a.0,
            target: v.0,
        }),
        Move::Revert { v, a, s, n } => journal.push(Event::Reverted {
            session: s.0,
            n: *n,
            volume: a.0,
            target: v.0,
        }),
        Move::Note { .. }
        | Move::Strike { .. }
        | Move::MakeSecondary { .. }
        | Move::MakePrimary { .. }
        | Move::DropPrimary { .. }
        | Move::DropSecondary { .. }
        | Move::Follow { .. }
        | Move::Resume { .. }
        | Move::FallBack { .. }
        | Move::Yield { .. }
        | Move::Unsync { .. }
        | Move::Thaw { .. }
        | Move::Restart { .. }
        | Move::Free { .. }
        | Move::Finish { .. }
        | Move::RaiseAttempt { .. }
        | Move::RaiseFloor { .. } => {}
    }
}

/// The number of the host write that a move lands, 0 where it lands none.
fn landed(m: &Move) -> u32
    ensures { result ≡ machine.landed (move_of m.now) }
{
    match m {
        Move::Land { w, .. } => w.0,
        Move::Overwrite { w, .. } => w.0,
        Move::LandBoth { w, .. } => w.0,
        _ => 0,
    }
}

/// Whether a move lands no host write.
fn is_calm(m: &Move) -> bool
    ensures { result ≡ is_calm (move_of m.now) }
{
    match m {
        Move::Land { .. } => false,
        Move::Overwrite { .. } => false,
        Move::LandBoth { .. } => false,
        _ => true,
    }
}

/// Tells that a server stopped within a move that counts as done or doesn't: what a write lands is told by the stop itself.
pub(crate) fn tell_stop(
    journal: &mut Journal,
    m: &Move,
    size: u16,
    sight: &Sight,
    server: ServerId,
    done: bool,
)
    requires { length (machine.told_in_stop (move_of m.now) (volume_with size (seen sight.now))) + 1 ≤ journal.old.spare }
    ensures events { journal.new.events ≡ journal.old.events ++ told_in_stop done (move_of m.now) (volume_with size (seen sight.now)) server.0 }
    ensures spare { journal.old.spare ≤ journal.new.spare + (length (machine.told_in_stop (move_of m.now) (volume_with size (seen sight.now))) + 1) }
    ensures sum { length journal.new.events + journal.new.spare ≡ length journal.old.events + journal.old.spare }
{
    if !done {
        journal.push(Event::Stopped {
            server: server.0,
            write: 0,
        });
        return;
    }
    tell_counted(journal, m, size, sight);
    journal.push(Event::Stopped {
        server: server.0,
        write: landed(m),
    });
}

/// Tells the journal of a move that counts as done in a stop, but for the stop.
fn tell_counted(journal: &mut Journal, m: &Move, size: u16, sight: &Sight)
    requires { length (machine.told_in_stop (move_of m.now) (volume_with size (seen sight.now))) ≤ journal.old.spare }
    ensures events { journal.new.events ≡ journal.old.events ++ machine.told_in_stop (move_of m.now) (volume_with size (seen sight.now)) }
    ensures spare { journal.old.spare ≡ journal.new.spare + length (machine.told_in_stop (move_of m.now) (volume_with size (seen sight.now))) }
{
    if is_calm(m) {
        tell_done(journal, m, size, sight);
    }
}
