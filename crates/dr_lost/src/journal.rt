//! The events of a journal, heard in order.

ghost use Rattle.std.specs.Prelude.{ℕ, ◌≤◌, ◌<◌, take, IfOk, OnOk, OnErr};
ghost use Rattle.dr_model.specs.Histories.{histories};
ghost use Rattle.dr_lost.specs.Held.{StandsFor};

use crate::holdings::Holdings;
use dr_model::Journal;
use std::alloc::{AllocError, Global};

impl Holdings {
    /// What the events of a journal before a place leave, places counted from 0; all events, where there are no more. Fails for want of memory alone.
    pub fn after(alloc: Global, journal: &Journal, place: usize) -> Result<Holdings, AllocError>
        ensures { IfOk result (λ x. StandsFor x (histories (take place journal.now.events))) }
    {
        let mut holdings = Holdings::new(alloc);
        holdings.hear_between(journal, 0, place)?;
        Ok(holdings)
    }

    /// Hears the events of a journal from one place up to another, places counted from 0; past the journal's end there is nothing to hear.
    /// Fails for want of memory alone; then it has heard the events up to a place between.
    pub fn hear_between(
        &mut self,
        journal: &Journal,
        from: usize,
        to: usize,
    ) -> Result<(), AllocError>
        requires { from ≤ to }
        ensures heard { StandsFor self.old (histories (take from journal.now.events)) → OnOk result (StandsFor self.new (histories (take to journal.now.events))) }
        ensures failed { StandsFor self.old (histories (take from journal.now.events)) → OnErr result ((k : ℕ) × (from ≤ k) × (k < to) × StandsFor self.new (histories (take k journal.now.events))) }
    {
        for place in from..to {
            let Some(event) = journal.event(place) else {
                return Ok(());
            };
            self.hear(event)?;
        }
        Ok(())
    }
}
