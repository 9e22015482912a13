//! What a plant promises to those who read and write its devices.

ghost use Rattle.std.specs.Prelude.{◌≡◌, ℕ, ◌<◌, ◌≤◌, ◌+◌, ◌^◌, ◌↔◌, true, false, length, Some, is_ok, is_err, IfOk, OnOk, OnErr, IsErrOf};
ghost use Rattle.dr_logic.specs.Tables.{at};
ghost use Rattle.dr_plant.specs.State.{PlantState, HasBlock, after_write, after_read, can_write, can_read, started, off, with_device};
ghost use Rattle.dr_plant.specs.Writes.{after_writes, list_writes};

/// The bytes of one block.
pub type Block = [u8; 64];

/// A device, by its number in the order in which devices were added.
#[derive(Clone, Copy)]
pub struct DeviceId(pub u16);

/// The answer of a read or write that could not be done: the server that owns the device is off.
#[derive(Clone, Copy)]
pub struct Stopped;

/// What a block contains after a write to it was cut short.
#[derive(Clone, Copy)]
pub enum Torn {
    /// What it contained before.
    Untouched,
    /// These bytes.
    Bytes(Block),
}

/// Why a device was not added.
#[derive(Clone, Copy)]
pub enum AddFault {
    /// There is no memory for its blocks.
    NoMemory,
    /// The plant has 64 devices already.
    Full,
}

/// How many writes of a server are still done, and what the one after them leaves in its block.
#[derive(Clone, Copy)]
pub struct WriteFuse {
    pub after: u32,
    pub torn: Torn,
}

/// Devices of blocks, each owned by one of the servers 0 to 7. A server is on or off, and a fuse
/// may be armed that stops it at a later write, and one that stops it at a later read.
pub trait Plant {
    ghost state: { Self → PlantState };

    /// Adds a device of so many blocks of zeros, owned by `server`. Its id is the number of devices
    /// before it. Fails where there are 64 devices, or no memory; then nothing has changed.
    fn add_device(&mut self, server: u8, blocks: u16) -> Result<DeviceId, AddFault>
        requires { server < 8 }
        ensures id { IfOk result (λ d. d.0 ≡ (state self.old).count) }
        ensures added { OnOk result (state self.new ≡ with_device (state self.old) server blocks) }
        ensures same { OnErr result (state self.new ≡ state self.old) }
        ensures full { IsErrOf result AddFault.Full ↔ (64 ≤ (state self.old).count) };

    /// Reads a block. Fails where the owner is off or its read fuse stands at 0; then the owner is
    /// off, one more fault is counted, and `into` is as before.
    fn read(&mut self, dev: DeviceId, block: u16, into: &mut Block) -> Result<(), Stopped>
        requires { HasBlock (state self.old) dev.0 block }
        ensures state { state self.new ≡ after_read (state self.old) dev.0 }
        ensures done { is_ok result ≡ can_read (state self.old) dev.0 }
        ensures bytes { OnOk result (into.new ≡ (state self.old).block dev.0 block) }
        ensures same { OnErr result (into.new ≡ into.old) };

    /// Writes a block, which lowers by one each fuse of the owner that is above 0. Fails where the
    /// owner is off, and then only counts a fault. Fails too where the owner's write fuse stands at
    /// 0: then the block has what the fuse leaves, the owner is off, and one more fault is counted.
    fn write(&mut self, dev: DeviceId, block: u16, from: &Block) -> Result<(), Stopped>
        requires { HasBlock (state self.old) dev.0 block }
        ensures state { state self.new ≡ after_write (state self.old) dev.0 block from.now }
        ensures done { is_ok result ≡ can_write (state self.old) dev.0 };

    /// Writes blocks, from a block on, as `write` does each, up to the first that fails.
    fn write_blocks(&mut self, dev: DeviceId, first: u16, from: &[Block]) -> Result<(), Stopped>
        requires device { dev.0 < (state self.old).count }
        requires blocks { first + length from.now ≤ (state self.old).size dev.0 }
        requires fits { first + length from.now < 2 ^ 16 }
        ensures { after_writes (state self.old) dev.0 (list_writes first from.now) ≡ (state self.new, is_err result) }
    {
        if self.put_blocks(dev, first, from) {
            return Ok(());
        }
        let mut block = first;
        for bytes in from {
            self.write(dev, block, bytes)?;
            block += 1;
        }
        Ok(())
    }

    /// Writes blocks, from a block on, in one piece, and tells whether it did: a plant may, if no write of them fails. Else
    /// nothing has changed. `write_blocks` goes on block by block then.
    fn put_blocks(&mut self, dev: DeviceId, first: u16, from: &[Block]) -> bool
        requires device { dev.0 < (state self.old).count }
        requires blocks { first + length from.now ≤ (state self.old).size dev.0 }
        ensures done { result ≡ true → after_writes (state self.old) dev.0 (list_writes first from.now) ≡ (state self.new, false) }
        ensures same { result ≡ false → state self.new ≡ state self.old }
    {
        false
    }

    /// A block's bytes, whether or not its owner is on. No fuse and no count changes.
    fn peek(&self, dev: DeviceId, block: u16) -> Block
        requires { HasBlock (state self.now) dev.0 block }
        ensures { result ≡ (state self.now).block dev.0 block };

    /// Lets a server do `after` more writes, and stops it at the next one, which leaves `torn` in
    /// its block. Replaces the write fuse that was armed.
    fn arm_writes(&mut self, server: u8, after: u32, torn: Torn)
        requires { server < 8 }
        ensures { state self.new ≡ record (state self.old) { write_fuse = at (state self.old).write_fuse server (Some (record { after = after; torn = torn })) } };

    /// Stops a server at its next read once `after` more writes are done. Replaces the read fuse
    /// that was armed.
    fn arm_reads(&mut self, server: u8, after: u32)
        requires { server < 8 }
        ensures { state self.new ≡ record (state self.old) { read_fuse = at (state self.old).read_fuse server (Some after) } };

    /// Turns a server on, and takes away its fuses that stand at 0.
    fn start(&mut self, server: u8)
        requires { server < 8 }
        ensures { state self.new ≡ started (state self.old) server };

    /// Turns a server off. Its fuses stay.
    fn stop(&mut self, server: u8)
        requires { server < 8 }
        ensures { state self.new ≡ off (state self.old) server };

    /// Whether a server is on.
    fn is_on(&self, server: u8) -> bool
        requires { server < 8 }
        ensures { result ≡ (state self.now).on server };
}
