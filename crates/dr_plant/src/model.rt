//! A plant in memory.

ghost use Rattle.std.specs.Prelude.{◌≡◌, ◌<◌};
ghost use Rattle.dr_plant.specs.Model.{state_of};
ghost use Rattle.dr_plant.specs.State.{IsFresh};
ghost use Rattle.dr_plant.specs.State as state;
ghost use Rattle.dr_logic.specs.Counts.{risen};

use crate::device::Device;
use crate::devices;
use crate::fuse::{
    lower_write, lowered_read, passes_read, passes_write, started_read, started_write, torn_block,
    unarmed,
};
use crate::plant::{AddFault, Block, DeviceId, Plant, Stopped, Torn, WriteFuse};
use std::alloc::Global;

/// How many devices a plant may have.
const MOST_DEVICES: usize = 64;

/// A plant in memory, with the count of the reads and writes that could not be done.
#[derive(Drop)]
pub struct ModelPlant {
    alloc: Global,
    devices: Vec<Device>,
    on: [bool; 8],
    write_fuses: [Option<WriteFuse>; 8],
    read_fuses: [Option<u32>; 8],
    faults: u64,
}

impl ModelPlant {
    /// A plant with no devices, all servers on and no fuse armed.
    pub fn new(alloc: Global) -> ModelPlant
        ensures fresh { IsFresh (⟦<ModelPlant as Plant>⟧.state result) }
        ensures faults { (⟦<ModelPlant as Plant>⟧.state result).faults ≡ 0 }
    {
        ModelPlant {
            alloc,
            devices: Vec::new(alloc),
            on: [true; 8],
            write_fuses: [None; 8],
            read_fuses: [None; 8],
            faults: 0,
        }
    }
}

/// The count of faults after one more. At its end it stands still.
fn risen(faults: u64) -> u64
    ensures { result ≡ risen faults }
{
    faults.saturating_add(1)
}

impl Plant for ModelPlant {
    ghost use Rattle.dr_plant.specs.Model.{state_of};

    ghost state = { state_of };

    #[tactic(auto, unfolding(crate::specs::State::with_device))]
    fn add_device(&mut self, server: u8, blocks: u16) -> Result<DeviceId, AddFault> {
        let count = self.devices.len();
        if count >= MOST_DEVICES {
            return Err(AddFault::Full);
        }
        match devices::add(self.alloc, &mut self.devices, server, blocks as usize) {
            Ok(()) => Ok(DeviceId(count as u16)),
            Err(_) => Err(AddFault::NoMemory),
        }
    }

    #[tactic(auto, unfolding(crate::specs::State::after_read))]
    fn read(&mut self, dev: DeviceId, block: u16, into: &mut Block) -> Result<(), Stopped> {
        let owner = devices::owner_of(&self.devices, dev.0 as usize);
        if self.on[owner] && passes_read(self.read_fuses[owner]) {
            *into = devices::device_block(&self.devices, dev.0 as usize, block as usize);
            return Ok(());
        }
        self.on[owner] = false;
        self.faults = risen(self.faults);
        Err(Stopped)
    }

    #[tactic(auto, unfolding(crate::specs::State::after_write))]
    fn write(&mut self, dev: DeviceId, block: u16, from: &Block) -> Result<(), Stopped> {
        let (dev, block) = (dev.0 as usize, block as usize);
        let owner = devices::owner_of(&self.devices, dev);
        if !self.on[owner] {
            self.faults = risen(self.faults);
            return Err(Stopped);
        }
        if !passes_write(&self.write_fuses[owner]) {
            let before = devices::device_block(&self.devices, dev, block);
            let left = torn_block(self.write_fuses[owner], before);
            devices::put_block(&mut self.devices, dev, block, &left);
            self.on[owner] = false;
            self.faults = risen(self.faults);
            return Err(Stopped);
        }
        devices::put_block(&mut self.devices, dev, block, from);
        lower_write(&mut self.write_fuses[owner]);
        self.read_fuses[owner] = lowered_read(self.read_fuses[owner]);
        Ok(())
    }

    fn put_blocks(&mut self, dev: DeviceId, first: u16, from: &[Block]) -> bool {
        let dev = dev.0 as usize;
        let owner = devices::owner_of(&self.devices, dev);
        if !self.on[owner] || !unarmed(&self.write_fuses[owner], &self.read_fuses[owner]) {
            return false;
        }
        devices::put_blocks(&mut self.devices, dev, first as usize, from);
        true
    }

    fn peek(&self, dev: DeviceId, block: u16) -> Block {
        devices::device_block(&self.devices, dev.0 as usize, block as usize)
    }

    fn arm_writes(&mut self, server: u8, after: u32, torn: Torn) {
        self.write_fuses[server as usize] = Some(WriteFuse { after, torn });
    }

    fn arm_reads(&mut self, server: u8, after: u32) {
        self.read_fuses[server as usize] = Some(after);
    }

    #[tactic(auto, unfolding(crate::specs::State::started))]
    fn start(&mut self, server: u8) {
        let server = server as usize;
        self.on[server] = true;
        self.write_fuses[server] = started_write(self.write_fuses[server]);
        self.read_fuses[server] = started_read(self.read_fuses[server]);
    }

    fn stop(&mut self, server: u8) {
        self.on[server as usize] = false;
    }

    fn is_on(&self, server: u8) -> bool {
        self.on[server as usize]
    }
}
