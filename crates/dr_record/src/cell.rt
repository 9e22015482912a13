//! A record in two slots of a device.

ghost use Rattle.std.specs.Prelude.{◌≡◌, ℕ, ◌<◌, ◌≤◌, ◌+◌, ◌*◌, ◌^◌, ◌↔◌, not, is_ok, is_err, IfOk, OnOk, OnErr};
ghost use Rattle.dr_plant.specs.State.{HasBlock, after_read, can_read};
ghost use Rattle.dr_plant.specs.Writes.{IsDevice, after_writes};
ghost use Rattle.dr_record.specs.Slots.{slot_of, record_writes, Chooses, IsOldOrNew, IsCutShort, SameElsewhere};

use crate::form::Form;
use crate::slot;
use dr_plant::{DeviceId, Plant, Stopped};

/// The value of a record on a device, and the slot that it stands in. Block 0 of the device is the
/// gate, which chooses slot 0 in blocks 1 to `BLOCKS` or slot 1 in the `BLOCKS` blocks behind it.
#[derive(Drop)]
pub struct Cell<F: Form> {
    dev: DeviceId,
    slot: bool,
    value: F,
}

impl<F: Form> Cell<F> {
    /// Reads the record of a device. Fails where the plant can't read the device.
    pub fn load<P: Plant>(plant: &mut P, dev: DeviceId) -> Result<Cell<F>, Stopped>
        requires device { IsDevice (P.state plant.old) dev.0 (2 * F.BLOCKS + 1) }
        requires fits { 2 * F.BLOCKS + 1 < 2 ^ 16 }
        ensures state { P.state plant.new ≡ after_read (P.state plant.old) dev.0 }
        ensures done { is_ok result ≡ can_read (P.state plant.old) dev.0 }
        ensures same { OnOk result (P.state plant.new ≡ P.state plant.old) }
        ensures device { IfOk result (λ cell. cell.dev ≡ dev) }
        ensures value { IfOk result (λ cell. Chooses F.taken F.BLOCKS F.fresh (P.state plant.old) dev.0 cell.slot cell.value) }
    {
        let mut gate = [0; 64];
        plant.read(dev, 0, &mut gate)?;
        let slot = slot::choice(&gate);
        let value = slot::read_slot(plant, dev, slot)?;
        Ok(Cell { dev, slot, value })
    }

    /// The value.
    pub fn get(&self) -> &F
        ensures { result.now ≡ self.now.value }
    {
        &self.value
    }

    /// Writes the next value to the slot that isn't chosen, and then the gate. Fails where a write
    /// is stopped: then the device still chooses the old value, unless the gate's own write was cut
    /// short and left the choice of the new one. The cell then stays as it was, so that it is to be
    /// loaded again once the server is on.
    pub fn put<P: Plant>(&mut self, plant: &mut P, next: &F) -> Result<(), Stopped>
        requires device { IsDevice (P.state plant.old) self.old.dev.0 (2 * F.BLOCKS + 1) }
        requires fits { 2 * F.BLOCKS + 1 < 2 ^ 16 }
        requires held { Chooses F.taken F.BLOCKS F.fresh (P.state plant.old) self.old.dev.0 self.old.slot self.old.value }
        ensures writes { after_writes (P.state plant.old) self.old.dev.0 (record_writes F.BLOCKS (not self.old.slot) (F.blocks next.now)) ≡ (P.state plant.new, is_err result) }
        ensures done { OnOk result (Chooses F.taken F.BLOCKS F.fresh (P.state plant.new) self.old.dev.0 (not self.old.slot) next.now) }
        ensures cell { OnOk result (self.new ≡ record self.old { slot = not self.old.slot; value = next.now }) }
        ensures cut_short { OnErr result (IsCutShort F.BLOCKS (P.state plant.old) (P.state plant.new) self.old.dev.0) }
        ensures same_cell { OnErr result (self.new ≡ self.old) }
        ensures old_or_new { IsOldOrNew F.taken F.BLOCKS F.fresh (P.state plant.new) self.old.dev.0 self.old.slot self.old.value next.now }
        ensures elsewhere { SameElsewhere (2 * F.BLOCKS + 1) (P.state plant.old) (P.state plant.new) self.old.dev.0 }
        ensures slot { slot_of (P.state plant.new) self.old.dev.0 ≡ not self.old.slot ↔ Chooses F.taken F.BLOCKS F.fresh (P.state plant.new) self.old.dev.0 (not self.old.slot) next.now }
    {
        next.tell_whole();
        slot::write_record(plant, self.dev, !self.slot, next)?;
        self.slot = !self.slot;
        self.value = *next;
        Ok(())
    }

    /// The slot that a device chooses: slot 1 where it is true. Neither its fuses nor the count of
    /// faults change.
    pub fn slot<P: Plant>(plant: &P, dev: DeviceId) -> bool
        requires { HasBlock (P.state plant.now) dev.0 0 }
        ensures { result ≡ slot_of (P.state plant.now) dev.0 }
    {
        slot::choice(&plant.peek(dev, 0))
    }
}
