//! What a point of a sweep comes to.

ghost use Rattle.std.specs.Prelude.{◌≡◌};
ghost use Rattle.dr_rows.specs.Outcome.{gives_group, is_kept, is_refused, is_short, has_group, has_refusal, lacks_members, lost_count, lost_age, broken_at, is_broken};

use dr_lost::Broken;
use dr_plan::Point;
use std::marker::Model;

/// The phase of a session's master.
#[derive(Clone, Copy)]
pub struct SessionPhase {
    pub session: u8,
    /// Its place among the phases; 0 is none, where the session has no master.
    pub phase: u8,
}

/// How many members of a session count after an `@recover`, and how many it has.
#[derive(Clone, Copy)]
pub struct Members {
    pub counted: usize,
    pub all: usize,
}

/// An answer of a step of the recovery.
#[derive(Clone, Copy)]
pub struct Answer {
    /// The line of the recovery, counted from 1.
    pub line: u32,
    /// 0 is ok, 100 is held, and another number that of a refusal.
    pub code: u8,
    pub a: u32,
    pub b: u32,
    pub c: u32,
}

/// What is lost to one use of volumes.
#[derive(Drop)]
pub struct Loss {
    count: usize,
    least: Vec<u32>,
    age: usize,
    broken: Option<Broken>,
}

impl Model for Loss {
    ghost use Rattle.dr_rows.specs.Outcome.{Loss as UseLoss};

    ghost Value = { UseLoss };

    ghost view = { λ l. record { count = l.count; least = l.least.items; age = l.age; broken = l.broken } };
}

impl Loss {
    /// How many writes are lost, the numbers of the least of them (up to 16), how many writes were acknowledged on the second volumes
    /// from the first lost one on, and a write that is held and depends on a lost one.
    pub fn new(count: usize, least: Vec<u32>, age: usize, broken: Option<Broken>) -> Loss
        ensures { result ≡ record { count = count; least = least.items; age = age; broken = broken } }
    {
        Loss {
            count,
            least,
            age,
            broken,
        }
    }

    /// How many writes are lost.
    pub fn count(&self) -> usize
        ensures { result ≡ self.now.count }
    {
        self.count
    }

    /// The numbers of the least of them.
    pub fn least(&self) -> &[u32]
        ensures { result.now ≡ self.now.least }
    {
        &self.least
    }

    /// How many writes were acknowledged on the second volumes from the first lost one on.
    pub fn age(&self) -> usize
        ensures { result ≡ self.now.age }
    {
        self.age
    }

    /// A write that is held and depends on a lost one.
    pub fn broken(&self) -> Option<Broken>
        ensures { result ≡ self.now.broken }
    {
        self.broken
    }
}

/// What a point comes to.
#[derive(Drop)]
pub struct Row {
    point: Point,
    phases: Vec<SessionPhase>,
    answers: Vec<Answer>,
    members: Vec<Members>,
    newest: Option<u32>,
    losses: Vec<Loss>,
}

impl Model for Row {
    ghost use Rattle.dr_rows.specs.Outcome.{Outcome};

    ghost Value = { Outcome };

    ghost view = { λ r. record { point = r.point; phases = r.phases.items; answers = r.answers.items; members = r.members.items; newest = r.newest; losses = r.losses.items } };
}

impl Row {
    /// The row of a point: the phase of each session as the disaster came, the answers of all steps of the recovery, the members after
    /// each `@recover` that was answered with a group, the write that was acknowledged last before the recovery, and the losses of all
    /// uses in the order of the plan.
    pub fn new(
        point: Point,
        phases: Vec<SessionPhase>,
        answers: Vec<Answer>,
        members: Vec<Members>,
        newest: Option<u32>,
        losses: Vec<Loss>,
    ) -> Row
        ensures { result ≡ record { point = point; phases = phases.items; answers = answers.items; members = members.items; newest = newest; losses = losses.items } }
    {
        Row {
            point,
            phases,
            answers,
            members,
            newest,
            losses,
        }
    }

    /// Where the disaster came.
    pub fn point(&self) -> Point
        ensures { result ≡ self.now.point }
    {
        self.point
    }

    /// The phase of each session as the disaster came.
    pub fn phases(&self) -> &[SessionPhase]
        ensures { result.now ≡ self.now.phases }
    {
        &self.phases
    }

    /// The answers of all steps of the recovery, in order.
    pub fn answers(&self) -> &[Answer]
        ensures { result.now ≡ self.now.answers }
    {
        &self.answers
    }

    /// The members after each `@recover` that was answered with a group.
    pub fn members(&self) -> &[Members]
        ensures { result.now ≡ self.now.members }
    {
        &self.members
    }

    /// The write that was acknowledged last before the recovery.
    pub fn newest(&self) -> Option<u32>
        ensures { result ≡ self.now.newest }
    {
        self.newest
    }

    /// The losses of all uses, in the order of the plan.
    pub fn losses(&self) -> &[Loss]
        ensures { result.now ≡ self.now.losses }
    {
        &self.losses
    }

    /// Some answer has a group.
    pub(crate) fn has_group(&self) -> bool
        ensures { result ≡ has_group self.now }
    {
        self.answers().iter().any(|a| gives_group(*a))
    }

    /// Some answer is a refusal.
    pub(crate) fn has_refusal(&self) -> bool
        ensures { result ≡ has_refusal self.now }
    {
        self.answers().iter().any(|a| is_refused(*a))
    }

    /// Fewer members count than the session has, after some `@recover`.
    pub fn lacks_members(&self) -> bool
        ensures { result ≡ lacks_members self.now }
    {
        self.members().iter().any(|m| is_short(*m))
    }

    /// How many writes are lost to the use at a place.
    pub fn lost_count(&self, which: usize) -> usize
        ensures { result ≡ lost_count which self.now }
    {
        match self.losses().get(which) {
            None => 0,
            Some(loss) => loss.count(),
        }
    }

    /// How many writes were acknowledged on the second volumes of the use at a place, from the first lost one on.
    pub(crate) fn age(&self, which: usize) -> usize
        ensures { result ≡ lost_age which self.now }
    {
        match self.losses().get(which) {
            None => 0,
            Some(loss) => loss.age(),
        }
    }

    /// A write that is held and depends on one that is lost to the use at a place.
    pub(crate) fn broken_at(&self, which: usize) -> Option<Broken>
        ensures { result ≡ broken_at which self.now }
    {
        match self.losses().get(which) {
            None => None,
            Some(loss) => loss.broken(),
        }
    }

    /// There is such a write.
    pub fn is_broken(&self, which: usize) -> bool
        ensures { result ≡ is_broken which self.now }
    {
        self.broken_at(which).is_some()
    }
}

/// The answer has a group.
pub(crate) fn gives_group(a: Answer) -> bool
    ensures { result ≡ gives_group a }
{
    a.code == 0 && a.a % 256 == 5
}

/// The answer is ok or held.
pub(crate) fn is_kept(a: Answer) -> bool
    ensures { result ≡ is_kept a }
{
    a.code == 0 || a.code == 100
}

/// The answer is a refusal.
pub(crate) fn is_refused(a: Answer) -> bool
    ensures { result ≡ is_refused a }
{
    !is_kept(a)
}

fn is_short(m: Members) -> bool
    ensures { result ≡ is_short m }
{
    m.counted < m.all
}
