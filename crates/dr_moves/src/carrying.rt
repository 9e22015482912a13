//! Entries of a plan, carried out in order.

ghost use Rattle.std.specs.Prelude.{◌≡◌, ℕ, ◌<◌, ◌≤◌, ◌+◌, Bool, true, false, List, [], ◌∷◌, length, Option, OnOk, OnErr, is_ok};
ghost use Rattle.dr_ids.specs.declared.refusal.Refusal.{Refusal};
ghost use Rattle.dr_plant.specs.State.{PlantState};
ghost use Rattle.dr_config.specs.Table.{ConfigTable};
ghost use Rattle.dr_model.specs.declared.event.Event.{Event};
ghost use Rattle.dr_model.specs.Carry.{Entry};
ghost use Rattle.dr_volume.specs.View.{Rest};
ghost use Rattle.dr_moves.specs.Beside.{heard};
ghost use Rattle.dr_moves.specs.Checks.{is_stop};
ghost use Rattle.dr_moves.specs.Coming.{next_of, done_news, stop_news, MayCome, MayComeBy, Went, CutIn, RefusedAs, cost_of, most_of, Acted, ActedBeside};
ghost use Rattle.dr_moves.specs.Heard.{if_counts, refused_by};
ghost use Rattle.dr_moves.specs.Here.{world_seen, armed_in, refusal_of};
ghost use Rattle.dr_moves.specs.Made.{IsAt, Kept};
ghost use Rattle.dr_moves.specs.Turns.{Leads, Fails};
ghost use Rattle.dr_moves.specs.declared.carrying.Next.TheVariants as TheNext;

use crate::acts::Stop;
use crate::beside::{Beside, Nothing};
use crate::hearing::{make_beside, open_attempt};
use crate::moves::Move;
use crate::performing::{Act, perform};
use crate::reads::read_told;
use dr_config::Config;
use dr_ids::{Refusal, SessionId, VolumeId};
use dr_model::Journal;
use dr_plant::Plant;

/// What an entry comes to.
#[derive(Clone, Copy)]
pub enum Next {
    /// Nothing.
    Pass,
    /// A move that carries no track.
    Do(Move),
    /// A move that carries this track of a volume.
    Bring(Move, VolumeId, u16),
    /// The first hold of attempt `n` of session `s`, that of primary `v`.
    Open { v: VolumeId, s: SessionId, n: u32 },
    /// An act that takes no device write; no freeze ends here, as the configuration stays.
    Perform(Act),
    /// The plan is refused here; this is no stop.
    End(Refusal),
}

/// The entries of a plan that are left: each says what it comes to in the state that those before it left, and in what lies beside;
/// of a plan of moves that land no host write that is `Nothing`.
///
/// `left` is the list of them, and `first` the first. `stands` is what holds of plant, what lies beside and configuration before it
/// comes. `room` is how many events they tell at most where all goes well, and `most` also where a server stops. `makes` is what
/// holds of the state in which they begin and of the one in which they ended, well or cut short: each of them extends it backwards.
/// `refuses` is what they may fail with.
pub trait Entries<P: Plant, B: Beside> {
    ghost left: { Self → ConfigTable → List Entry };

    ghost first: { Self → ConfigTable → Entry };

    ghost stands: { Self → PlantState → B → ConfigTable → Type 0 };

    ghost makes: { Self → Bool → PlantState → B → PlantState → B → ConfigTable → Type 0 };

    ghost refuses: { Self → ConfigTable → Option Refusal → Type 0 };

    ghost room: { Self → ConfigTable → ℕ };

    ghost most: { Self → ConfigTable → ℕ };

    /// How many are left.
    fn count(&self, config: &Config) -> usize
        ensures { result ≡ length (left self.now config.now) };

    /// What the first of them comes to, and goes on to those behind it.
    fn next(&mut self, plant: &P, config: &Config, beside: &B) -> Next
        requires at { IsAt (P.state plant.now) config.now }
        requires stands { stands self.old (P.state plant.now) beside.now config.now }
        requires some { 0 < length (left self.old config.now) }
        ensures goes { left self.old config.now ≡ first self.old config.now ∷ left self.new config.now }
        ensures comes { (r : Rest) (events : List Event) → first self.old config.now (world_seen (P.state plant.now) config.now (B.rest beside.now r) events).control ≡ next_of result }
        ensures may { MayComeBy (B.takes beside.now) (P.state plant.now) config.now result }
        ensures stands { (u : PlantState) → Went (P.state plant.now) u config.now result → stands self.new u (heard B.after (done_news result) beside.now) config.now }
        ensures goes_on { (done : Bool) (u w : PlantState) (z : B) → Went (P.state plant.now) u config.now result → makes self.new done u (heard B.after (done_news result) beside.now) w z config.now → makes self.old done (P.state plant.now) beside.now w z config.now }
        ensures cut { (u : PlantState) (counts : Bool) → CutIn (P.state plant.now) u config.now counts result → makes self.old false (P.state plant.now) beside.now u (heard B.after (if_counts counts (stop_news result)) beside.now) config.now }
        ensures refused { (r : Option Refusal) → RefusedAs (P.state plant.now) config.now result r → refuses self.old config.now r }
        ensures later { (r : Option Refusal) → refuses self.new config.now r → refuses self.old config.now r }
        ensures room { cost_of result (P.state plant.now) config.now + room self.new config.now ≤ room self.old config.now }
        ensures most { cost_of result (P.state plant.now) config.now + most self.new config.now ≤ most self.old config.now }
        ensures stop { most_of result (P.state plant.now) config.now ≤ most self.old config.now };

    ghost none_left: { (x : Self) (s : PlantState) (y : B) (c : ConfigTable) → left x c ≡ [] → makes x true s y s y c };
}

/// A move that wasn't done refuses what follows it, with the stop of its server.
pub fn refused(done: Result<(), Stop>) -> Result<(), Refusal>
    ensures { result ≡ refused_by done }
{
    match done {
        Ok(()) => Ok(()),
        Err(stop) => Err(Refusal::Stopped {
            server: stop.server,
        }),
    }
}

/// Makes a move that carries no track.
fn make_alone<P: Plant, B: Beside>(
    plant: &mut P,
    config: &Config,
    journal: &mut Journal,
    beside: &mut B,
    m: &Move,
) -> Result<(), Refusal>
    requires at { IsAt (P.state plant.old) config.now }
    requires may { MayComeBy (B.takes beside.old) (P.state plant.old) config.now (TheNext.Do m.now) }
    requires room { most_of (TheNext.Do m.now) (P.state plant.old) config.now ≤ journal.old.spare }
    ensures acted { ActedBeside B.after B.rest beside.old beside.new (P.state plant.old) (P.state plant.new) config.now journal.old journal.new (TheNext.Do m.now) (most_of (TheNext.Do m.now) (P.state plant.old) config.now) result }
{
    refused(make_beside(plant, config, journal, beside, m, None))
}

/// Makes a move that carries track t of volume u.
fn bring<P: Plant, B: Beside>(
    plant: &mut P,
    config: &Config,
    journal: &mut Journal,
    beside: &mut B,
    m: &Move,
    u: VolumeId,
    t: u16,
) -> Result<(), Refusal>
    requires at { IsAt (P.state plant.old) config.now }
    requires may { MayComeBy (B.takes beside.old) (P.state plant.old) config.now (TheNext.Bring m.now u t) }
    requires room { most_of (TheNext.Bring m.now u t) (P.state plant.old) config.now ≤ journal.old.spare }
    ensures acted { ActedBeside B.after B.rest beside.old beside.new (P.state plant.old) (P.state plant.new) config.now journal.old journal.new (TheNext.Bring m.now u t) (most_of (TheNext.Bring m.now u t) (P.state plant.old) config.now) result }
{
    let mut bytes = [0; 64];
    read_told(plant, config, journal, u, t, &mut bytes)?;
    refused(make_beside(plant, config, journal, beside, m, Some((t, bytes))))
}

/// Opens an attempt.
fn open_so<P: Plant, B: Beside>(
    plant: &mut P,
    config: &Config,
    journal: &mut Journal,
    beside: &mut B,
    v: VolumeId,
    s: SessionId,
    n: u32,
) -> Result<(), Refusal>
    requires at { IsAt (P.state plant.old) config.now }
    requires may { MayComeBy (B.takes beside.old) (P.state plant.old) config.now (TheNext.Open v s n) }
    requires room { 3 ≤ journal.old.spare }
    ensures acted { ActedBeside B.after B.rest beside.old beside.new (P.state plant.old) (P.state plant.new) config.now journal.old journal.new (TheNext.Open v s n) 3 result }
{
    refused(open_attempt(plant, config, journal, beside, v, s, n))
}

/// Does what an entry comes to: nothing, its move, or its act. Fails with its refusal, or with `Refusal::Stopped` where a server
/// stops in the move or goes off at a read. The journal needs room for what it tells, and for a stop where one may come.
pub fn act_beside<P: Plant, B: Beside>(
    plant: &mut P,
    config: &Config,
    journal: &mut Journal,
    beside: &mut B,
    next: &Next,
) -> Result<(), Refusal>
    requires at { IsAt (P.state plant.old) config.now }
    requires may { MayComeBy (B.takes beside.old) (P.state plant.old) config.now next.now }
    requires room { most_of next.now (P.state plant.old) config.now ≤ journal.old.spare }
    ensures acted { ActedBeside B.after B.rest beside.old beside.new (P.state plant.old) (P.state plant.new) config.now journal.old journal.new next.now (most_of next.now (P.state plant.old) config.now) result }
{
    match next {
        Next::Pass => Ok(()),
        Next::Do(m) => make_alone(plant, config, journal, beside, m),
        Next::Bring(m, u, t) => bring(plant, config, journal, beside, m, *u, *t),
        Next::Open { v, s, n } => open_so(plant, config, journal, beside, *v, *s, *n),
        Next::Perform(a) => {
            perform(journal, beside, a);
            Ok(())
        }
        Next::End(why) => Err(*why),
    }
}

/// The same where nothing lies beside. The journal needs room for what the move tells, and for a stop.
pub fn act<P: Plant>(
    plant: &mut P,
    config: &Config,
    journal: &mut Journal,
    next: &Next,
) -> Result<(), Refusal>
    requires at { IsAt (P.state plant.old) config.now }
    requires may { MayCome (P.state plant.old) config.now next.now }
    requires room { cost_of next.now (P.state plant.old) config.now + 1 ≤ journal.old.spare }
    ensures acted { Acted (P.state plant.old) (P.state plant.new) config.now journal.old journal.new next.now result }
{
    let mut nothing = Nothing;
    act_beside(plant, config, journal, &mut nothing, next)
}

/// Carries out the entries that are left, in order, and what lies beside hears of them. Fails with the refusal of the one that ends
/// the plan, or with `Refusal::Stopped` where a server stops. The journal needs room for what they tell, and for a stop.
pub fn carry_beside<P: Plant, B: Beside, E: Entries<P, B>>(
    plant: &mut P,
    config: &Config,
    journal: &mut Journal,
    beside: &mut B,
    entries: &mut E,
) -> Result<(), Refusal>
    requires at { IsAt (P.state plant.old) config.now }
    requires stands { E.stands entries.old (P.state plant.old) beside.old config.now }
    requires room { E.most entries.old config.now ≤ journal.old.spare }
    ensures leads { OnOk result ((r : Rest) → Leads (world_seen (P.state plant.old) config.now (B.rest beside.old r) journal.old.events) (E.left entries.old config.now) (world_seen (P.state plant.new) config.now (B.rest beside.new r) journal.new.events)) }
    ensures fails { OnErr result ((r : Rest) → Fails (armed_in (P.state plant.old)) (world_seen (P.state plant.old) config.now (B.rest beside.old r) journal.old.events) (E.left entries.old config.now) (world_seen (P.state plant.new) config.now (B.rest beside.new r) journal.new.events) (refusal_of result)) }
    ensures stands { OnOk result (E.stands entries.new (P.state plant.new) beside.new config.now) }
    ensures makes { E.makes entries.old (is_ok result) (P.state plant.old) beside.old (P.state plant.new) beside.new config.now }
    ensures refused { OnErr result (E.refuses entries.old config.now (refusal_of result)) }
    ensures kept { Kept (P.state plant.old) (P.state plant.new) config.now journal.old journal.new (E.most entries.old config.now) (is_stop (refusal_of result)) result }
    ensures room_left { OnOk result (journal.old.spare ≤ journal.new.spare + E.room entries.old config.now) }
    ensures no_more { OnOk result (journal.new.spare ≤ journal.old.spare) }
{
    for _ in 0..entries.count(config) {
        let next = entries.next(plant, config, beside);
        act_beside(plant, config, journal, beside, &next)?;
    }
    Ok(())
}

/// The same where nothing lies beside.
pub fn carry<P: Plant, E: Entries<P, Nothing>>(
    plant: &mut P,
    config: &Config,
    journal: &mut Journal,
    entries: &mut E,
) -> Result<(), Refusal>
    requires at { IsAt (P.state plant.old) config.now }
    requires stands { E.stands entries.old (P.state plant.old) (record {}) config.now }
    requires room { E.most entries.old config.now ≤ journal.old.spare }
    ensures leads { OnOk result ((r : Rest) → Leads (world_seen (P.state plant.old) config.now r journal.old.events) (E.left entries.old config.now) (world_seen (P.state plant.new) config.now r journal.new.events)) }
    ensures fails { OnErr result ((r : Rest) → Fails (armed_in (P.state plant.old)) (world_seen (P.state plant.old) config.now r journal.old.events) (E.left entries.old config.now) (world_seen (P.state plant.new) config.now r journal.new.events) (refusal_of result)) }
    ensures stands { OnOk result (E.stands entries.new (P.state plant.new) (record {}) config.now) }
    ensures makes { E.makes entries.old (is_ok result) (P.state plant.old) (record {}) (P.state plant.new) (record {}) config.now }
    ensures refused { OnErr result (E.refuses entries.old config.now (refusal_of result)) }
    ensures kept { Kept (P.state plant.old) (P.state plant.new) config.now journal.old journal.new (E.most entries.old config.now) (is_stop (refusal_of result)) result }
    ensures room_left { OnOk result (journal.old.spare ≤ journal.new.spare + E.room entries.old config.now) }
    ensures no_more { OnOk result (journal.new.spare ≤ journal.old.spare) }
{
    let mut nothing = Nothing;
    carry_beside(plant, config, journal, &mut nothing, entries)
}
