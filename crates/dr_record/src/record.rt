//! Which of a device's two records counts, and how the next one takes its place.

ghost use Rattle.std.specs.Prelude.{◌≡◌, ℕ, ◌<◌, ◌≤◌, ◌+◌, ◌*◌, ◌^◌, ◌↔◌, not, length, is_ok, is_err, IfOk, OnOk, OnErr};
ghost use Rattle.dr_plant.specs.State.{HasBlock, after_read, can_read};
ghost use Rattle.dr_plant.specs.Writes.{IsDevice, after_writes, listed};
ghost use Rattle.dr_record.specs.Slots.{slot_of, stored, record_writes, Chooses, IsOldOrNew, IsCutShort, SameElsewhere};

use crate::form::Form;
use crate::slot;
use dr_plant::{Block, DeviceId, Plant, Stopped};

/// Reads which slot a device chooses: slot 1 where it is true. Fails where the plant can't read the device.
pub fn read_choice<P: Plant>(plant: &mut P, dev: DeviceId) -> Result<bool, Stopped>
    requires { HasBlock (P.state plant.old) dev.0 0 }
    ensures state { P.state plant.new ≡ after_read (P.state plant.old) dev.0 }
    ensures done { is_ok result ≡ can_read (P.state plant.old) dev.0 }
    ensures same { OnOk result (P.state plant.new ≡ P.state plant.old) }
    ensures slot { IfOk result (λ slot. slot ≡ slot_of (P.state plant.old) dev.0) }
{
    let mut gate = [0; 64];
    plant.read(dev, 0, &mut gate)?;
    Ok(slot::choice(&gate))
}

/// The slot that a device chooses, whether or not its owner is on. Neither its fuses nor the count of faults change.
pub fn peek_choice<P: Plant>(plant: &P, dev: DeviceId) -> bool
    requires { HasBlock (P.state plant.now) dev.0 0 }
    ensures { result ≡ slot_of (P.state plant.now) dev.0 }
{
    slot::choice(&plant.peek(dev, 0))
}

/// Writes a record to the slot that isn't `slot`, which the device chooses, and then the gate. Fails where a write is
/// stopped: then the device still chooses the old record, unless the gate's own write was cut short and left the choice
/// of the new one.
pub fn put<P: Plant, F: Form>(
    plant: &mut P,
    dev: DeviceId,
    slot: bool,
    next: &F,
) -> Result<(), Stopped>
    requires device { IsDevice (P.state plant.old) dev.0 (2 * F.BLOCKS + 1) }
    requires fits { 2 * F.BLOCKS + 1 < 2 ^ 16 }
    requires chosen { slot_of (P.state plant.old) dev.0 ≡ slot }
    ensures writes { after_writes (P.state plant.old) dev.0 (record_writes F.BLOCKS (not slot) (F.blocks next.now)) ≡ (P.state plant.new, is_err result) }
    ensures done { OnOk result (Chooses F.taken F.BLOCKS F.fresh (P.state plant.new) dev.0 (not slot) next.now) }
    ensures cut_short { OnErr result (IsCutShort F.BLOCKS (P.state plant.old) (P.state plant.new) dev.0) }
    ensures old_or_new { IsOldOrNew F.taken F.BLOCKS F.fresh (P.state plant.new) dev.0 slot (stored F.taken F.BLOCKS F.fresh (P.state plant.old) dev.0 slot) next.now }
    ensures elsewhere { SameElsewhere (2 * F.BLOCKS + 1) (P.state plant.old) (P.state plant.new) dev.0 }
    ensures slot { slot_of (P.state plant.new) dev.0 ≡ not slot ↔ Chooses F.taken F.BLOCKS F.fresh (P.state plant.new) dev.0 (not slot) next.now }
{
    next.tell_whole();
    slot::write_record(plant, dev, !slot, next)
}

/// Writes a record whose blocks are at hand to the slot that isn't `slot`, and then the gate: the device writes of `put`. Fails at
/// the first write that can't be done.
pub fn put_blocks<P: Plant>(
    plant: &mut P,
    dev: DeviceId,
    slot: bool,
    blocks: &[Block],
) -> Result<(), Stopped>
    requires device { IsDevice (P.state plant.old) dev.0 (2 * length blocks.now + 1) }
    requires fits { 2 * length blocks.now + 1 < 2 ^ 16 }
    ensures writes { after_writes (P.state plant.old) dev.0 (record_writes (length blocks.now) (not slot) (listed blocks.now)) ≡ (P.state plant.new, is_err result) }
{
    slot::write_record_blocks(plant, dev, !slot, blocks)
}
