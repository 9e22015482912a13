//! What a plan says.

ghost use Rattle.std.specs.Prelude.{◌≡◌};
ghost use Rattle.dr_plan.specs.Parts.{IsSweep};
ghost use Rattle.dr_plan.specs.Sweep.{empty};

use crate::names::Disaster;
use dr_ids::Text;
use dr_model::{Item, Name};
use std::alloc::Global;
use std::marker::Model;

/// Volumes that the host uses after the recovery.
#[derive(Drop)]
pub struct Use {
    pub(crate) name: Option<Name>,
    pub(crate) pairs: Vec<Item>,
}

impl Model for Use {
    ghost use Rattle.dr_plan.specs.Sweep.{Use as HostUse};

    ghost Value = { HostUse };

    ghost view = { λ u. record { name = u.name; pairs = u.pairs.items } };
}

impl Use {
    /// Its name; the lines without one are one use.
    pub fn name(&self) -> Option<Name>
        ensures { result ≡ self.now.name }
    {
        self.name
    }

    /// Pairs of volumes: the host uses the first one in place of the second.
    pub fn pairs(&self) -> &[Item]
        ensures { result.now ≡ self.now.pairs }
    {
        &self.pairs
    }
}

/// A step that is tried.
#[derive(Drop)]
pub struct Tried {
    pub(crate) line: usize,
    pub(crate) part: usize,
    pub(crate) text: Text,
}

impl Model for Tried {
    ghost use Rattle.dr_plan.specs.Sweep.{Tried as TriedStep};

    ghost Value = { TriedStep };

    ghost view = { λ t. record { line = t.line; part = t.part; text = t.text } };
}

impl Tried {
    /// The number of its line in the plan, counted from 1.
    pub fn line(&self) -> usize
        ensures { result ≡ self.now.line }
    {
        self.line
    }

    /// Its place among the steps of that line, counted from 1; 0 where it is the only one.
    pub fn part(&self) -> usize
        ensures { result ≡ self.now.part }
    {
        self.part
    }

    /// The line, or of one of several steps the line that it would be by itself.
    pub fn text(&self) -> &[u8]
        ensures { result.now ≡ self.now.text }
    {
        self.text.bytes()
    }
}

/// What was read of a plan so far.
#[derive(Drop)]
pub(crate) struct Draft {
    pub(crate) loses: Vec<Disaster>,
    pub(crate) uses: Vec<Use>,
    pub(crate) bound: Option<u32>,
    pub(crate) setup: Vec<Text>,
    pub(crate) tried: Vec<Tried>,
    pub(crate) then_line: usize,
    pub(crate) recovery: Vec<Text>,
    pub(crate) announced: Vec<usize>,
}

impl Model for Draft {
    ghost use Rattle.dr_plan.specs.Sweep.{Sweep};

    ghost Value = { Sweep };

    ghost view = { λ d. record { loses = d.loses.items; uses = d.uses.items; bound = d.bound; setup = d.setup.items; tried = d.tried.items; then_line = d.then_line; recovery = d.recovery.items; announced = d.announced.items } };
}

impl Draft {
    /// A plan that says nothing.
    pub(crate) fn new(alloc: Global) -> Draft
        ensures { result ≡ empty }
    {
        Draft {
            loses: Vec::new(alloc),
            uses: Vec::new(alloc),
            bound: None,
            setup: Vec::new(alloc),
            tried: Vec::new(alloc),
            then_line: 0,
            recovery: Vec::new(alloc),
            announced: Vec::new(alloc),
        }
    }
}

/// A plan of a sweep. Lines are counted from 1.
#[derive(Drop)]
pub struct SweepPlan {
    draft: Draft,
}

impl Model for SweepPlan {
    ghost use Rattle.dr_plan.specs.Sweep.{Sweep};

    ghost Value = { Sweep };

    ghost use Rattle.dr_plan.specs.Parts.{IsSweep};

    ghost view = { λ p. p.draft };

    ghost invariant = { λ p. IsSweep p.draft };
}

impl SweepPlan {
    /// The plan that was read.
    pub(crate) fn of(draft: Draft) -> SweepPlan
        requires { IsSweep draft }
        ensures { result ≡ draft }
    {
        SweepPlan { draft }
    }

    /// What was read.
    pub(crate) fn draft(&self) -> &Draft
        ensures draft { result.now ≡ self.now }
        ensures sweep { IsSweep self.now }
    {
        &self.draft
    }

    /// The disasters, one to eight, in the order of the plan.
    pub fn disasters(&self) -> &[Disaster]
        ensures disasters { result.now ≡ self.now.loses }
        ensures sweep { IsSweep self.now }
    {
        let draft = &self.draft;
        &draft.loses
    }

    /// The volumes that the host uses after the recovery, by name, in the order in which names first come.
    pub fn uses(&self) -> &[Use]
        ensures uses { result.now ≡ self.now.uses }
        ensures sweep { IsSweep self.now }
    {
        let draft = &self.draft;
        &draft.uses
    }

    /// More lost writes than that many are a finding.
    pub fn bound(&self) -> Option<u32>
        ensures { result ≡ self.now.bound }
    {
        let draft = &self.draft;
        draft.bound
    }

    /// The lines with which each run begins. The line `#sweep here` comes after them.
    pub fn setup(&self) -> &[Text]
        ensures { result.now ≡ self.now.setup }
    {
        let draft = &self.draft;
        &draft.setup
    }

    /// The steps that are tried.
    pub fn tried(&self) -> &[Tried]
        ensures { result.now ≡ self.now.tried }
    {
        let draft = &self.draft;
        &draft.tried
    }

    /// The number of the line `#sweep then`.
    pub fn then_line(&self) -> usize
        ensures { result ≡ self.now.then_line }
    {
        let draft = &self.draft;
        draft.then_line
    }

    /// The lines of the recovery.
    pub fn recovery(&self) -> &[Text]
        ensures { result.now ≡ self.now.recovery }
    {
        let draft = &self.draft;
        &draft.recovery
    }

    /// The numbers of the lines in which a refusal is announced, ascending.
    pub fn announced(&self) -> &[usize]
        ensures { result.now ≡ self.now.announced }
    {
        let draft = &self.draft;
        &draft.announced
    }
}
