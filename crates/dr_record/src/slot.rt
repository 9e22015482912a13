//! Reading and writing one slot, and the gate.

ghost use Rattle.std.specs.Prelude.{◌≡◌, ℕ, ◌<◌, ◌≤◌, ◌+◌, ◌*◌, ◌^◌, Bool, false, length, is_ok, is_err, IfOk, OnOk, OnErr};
ghost use Rattle.dr_plant.specs.State.{HasBlock, after_read, after_write, can_read, can_write};
ghost use Rattle.dr_plant.specs.Writes.{IsDevice, SameShape, after_writes, block_writes, listed};
ghost use Rattle.dr_record.specs.Slots as slots;

use crate::form::Form;
use dr_plant::{Block, DeviceId, Plant, Stopped};

/// The slot that a gate chooses: slot 1 where it is true.
pub fn choice(gate: &Block) -> bool
    ensures { result ≡ slots.choice gate.now }
{
    gate[0] % 2 == 1
}

/// The gate that chooses a slot.
#[tactic(auto, unfolding(crate::specs::Slots::gate_of))]
pub fn gate_of(slot: bool) -> Block
    ensures { result ≡ slots.gate_of slot }
{
    let mut gate = [0; 64];
    gate[0] = slot as u8;
    gate
}

/// The first block of a slot.
fn start_of<F: Form>(slot: bool) -> u16
    requires { 2 * F.BLOCKS + 1 < 2 ^ 16 }
    ensures { result ≡ slots.start_of F.BLOCKS slot }
{
    begin_of(F::BLOCKS, slot)
}

/// The first block of a slot of a record of so many blocks.
fn begin_of(blocks: u16, slot: bool) -> u16
    requires { 2 * blocks + 1 < 2 ^ 16 }
    ensures { result ≡ slots.start_of blocks slot }
{
    if slot { blocks + 1 } else { 1 }
}

/// Reads the value in a slot. Fails where the plant can't read the device.
pub fn read_slot<P: Plant, F: Form>(plant: &mut P, dev: DeviceId, slot: bool) -> Result<F, Stopped>
    requires device { IsDevice (P.state plant.old) dev.0 (2 * F.BLOCKS + 1) }
    requires fits { 2 * F.BLOCKS + 1 < 2 ^ 16 }
    ensures same { OnOk result (P.state plant.new ≡ P.state plant.old) }
    ensures stopped { OnErr result (can_read (P.state plant.old) dev.0 ≡ false) }
    ensures state { OnErr result (P.state plant.new ≡ after_read (P.state plant.old) dev.0) }
    ensures value { IfOk result (λ x. x ≡ slots.stored F.taken F.BLOCKS F.fresh (P.state plant.old) dev.0 slot) }
{
    let start = start_of::<F>(slot);
    let mut value = F::blank();
    for number in 0..F::BLOCKS {
        let mut block = [0; 64];
        plant.read(dev, start + number, &mut block)?;
        value.take_block(number, &block);
    }
    Ok(value)
}

/// Writes the blocks of a value to a slot. Fails at the first write that can't be done.
pub fn write_slot<P: Plant, F: Form>(
    plant: &mut P,
    dev: DeviceId,
    slot: bool,
    value: &F,
) -> Result<(), Stopped>
    requires device { IsDevice (P.state plant.old) dev.0 (2 * F.BLOCKS + 1) }
    requires fits { 2 * F.BLOCKS + 1 < 2 ^ 16 }
    ensures writes { after_writes (P.state plant.old) dev.0 (block_writes (slots.start_of F.BLOCKS slot) 0 F.BLOCKS (F.blocks value.now)) ≡ (P.state plant.new, is_err result) }
    ensures shape { SameShape (P.state plant.old) (P.state plant.new) }
{
    let start = start_of::<F>(slot);
    for i in 0..F::BLOCKS {
        plant.write(dev, start + i, &value.block(i))?;
    }
    Ok(())
}

/// Writes the gate that chooses a slot.
fn write_gate<P: Plant>(plant: &mut P, dev: DeviceId, slot: bool) -> Result<(), Stopped>
    requires { HasBlock (P.state plant.old) dev.0 0 }
    ensures state { P.state plant.new ≡ after_write (P.state plant.old) dev.0 0 (slots.gate_of slot) }
    ensures done { is_ok result ≡ can_write (P.state plant.old) dev.0 }
{
    plant.write(dev, 0, &gate_of(slot))
}

/// Writes a record whose blocks are at hand to a slot: the blocks in order, by one call of the plant, and then the gate that
/// chooses the slot. Fails at the first write that can't be done.
pub fn write_record_blocks<P: Plant>(
    plant: &mut P,
    dev: DeviceId,
    slot: bool,
    blocks: &[Block],
) -> Result<(), Stopped>
    requires device { IsDevice (P.state plant.old) dev.0 (2 * length blocks.now + 1) }
    requires fits { 2 * length blocks.now + 1 < 2 ^ 16 }
    ensures { after_writes (P.state plant.old) dev.0 (slots.record_writes (length blocks.now) slot (listed blocks.now)) ≡ (P.state plant.new, is_err result) }
{
    let start = begin_of(blocks.len() as u16, slot);
    plant.write_blocks(dev, start, blocks)?;
    write_gate(plant, dev, slot)
}

/// Writes a record to a slot: the blocks of the value in order, and then the gate that chooses the
/// slot. Fails at the first write that can't be done.
pub fn write_record<P: Plant, F: Form>(
    plant: &mut P,
    dev: DeviceId,
    slot: bool,
    value: &F,
) -> Result<(), Stopped>
    requires device { IsDevice (P.state plant.old) dev.0 (2 * F.BLOCKS + 1) }
    requires fits { 2 * F.BLOCKS + 1 < 2 ^ 16 }
    ensures { after_writes (P.state plant.old) dev.0 (slots.record_writes F.BLOCKS slot (F.blocks value.now)) ≡ (P.state plant.new, is_err result) }
{
    write_slot(plant, dev, slot, value)?;
    write_gate(plant, dev, slot)
}
