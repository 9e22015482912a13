ghost use Rattle.std.specs.Prelude.{◌≡◌, ◌+◌, ◌<◌, ◌≤◌, [], Some, length, IsSome, IfOk, IfSome, OnOk, OnErr, option_map};
ghost use Rattle.std.specs.List.{find};
ghost use Rattle.std.specs.Option.{option_copied};
ghost use Rattle.dr_config.specs.Rules.{refusal_of};
ghost use Rattle.dr_host.specs.Writes.{has_number, issue_refusal, written, with_write, with_marked, without, landed_on, IsSoundHost};

use crate::pending::{Pending, find_write, first_landed, mark, padded, take_out};
use dr_config::Config;
use dr_ids::{Fault, Refusal, ServerId, VolumeId, Which, WriteId};
use std::alloc::Global;
use std::marker::Model;

/// How many writes are pending at most.
const MOST_PENDING: usize = 64;

/// The host: how many writes it issued, and those that are pending, in order of issue.
#[derive(Drop)]
pub struct Host {
    issued: u32,
    pending: Vec<Pending>,
}

impl Model for Host {
    ghost use Rattle.dr_host.specs.Writes.{Writes, IsSoundHost};

    ghost Value = { Writes };

    ghost view = { λ h. record { issued = h.issued; pending = h.pending.items } };

    ghost invariant = { λ h. IsSoundHost (record { issued = h.issued; pending = h.pending.items }) };
}

impl Host {
    /// A host that issued no write.
    pub fn new(alloc: Global) -> Host
        ensures { result ≡ record { issued = 0; pending = [] } }
    {
        Host {
            issued: 0,
            pending: Vec::new(alloc),
        }
    }

    /// How many writes were issued.
    pub fn issued(&self) -> u32
        ensures count { result ≡ self.now.issued }
        ensures sound { IsSoundHost self.now }
    {
        self.issued
    }

    /// Issues a write, which is pending from then on and the last of these, and gives its number: the
    /// count of writes up to it. Refused where 64 are pending; fails too where there is no memory. Then
    /// nothing has changed.
    pub fn issue(
        &mut self,
        v: VolumeId,
        track: u16,
        offset: u8,
        bytes: &[u8],
    ) -> Result<WriteId, Fault>
        requires some { 1 ≤ length bytes.now }
        requires within { offset + length bytes.now ≤ 64 }
        requires numbers { self.old.issued < 4294967295 }
        ensures refused { refusal_of result ≡ issue_refusal self.old }
        ensures number { IfOk result (λ w. w.0 ≡ self.old.issued + 1) }
        ensures added { OnOk result (self.new ≡ with_write self.old v.0 track offset bytes.now) }
        ensures found { IfOk result (λ w. find (has_number w.0) self.new.pending ≡ Some (written w.0 v.0 track offset bytes.now)) }
        ensures same { OnErr result (self.new ≡ self.old) }
    {
        if MOST_PENDING <= self.pending.len() {
            return Err(Fault::Refused(Refusal::Limit {
                which: Which::Pending,
            }));
        }
        let w = WriteId(self.issued + 1);
        let Ok(()) = self.pending.push(Pending {
            w,
            volume: v,
            track,
            offset,
            len: bytes.len() as u8,
            bytes: padded(bytes),
            landed: false,
        })
        else {
            return Err(Fault::NoMemory);
        };
        self.issued = w.0;
        Ok(w)
    }

    /// The pending write of that number, if there is one. Its bytes end within a track.
    pub fn pending(&self, w: WriteId) -> Option<&Pending>
        ensures value { option_copied result ≡ find (has_number w.0) self.now.pending }
        ensures named { IfSome result (λ p. p.now.w.0 ≡ w.0) }
        ensures some { IfSome result (λ p. 1 ≤ p.now.len) }
        ensures within { IfSome result (λ p. p.now.offset + p.now.len ≤ 64) }
    {
        find_write(&self.pending, w)
    }

    /// A pending write has landed, and waits for its acknowledgement.
    pub fn land(&mut self, w: WriteId)
        requires { IsSome (find (has_number w.0) self.old.pending) }
        ensures { self.new ≡ with_marked self.old w.0 }
    {
        mark(&mut self.pending, w);
    }

    /// A pending write is acknowledged, and so no longer pending.
    pub fn finish(&mut self, w: WriteId)
        requires { IsSome (find (has_number w.0) self.old.pending) }
        ensures { self.new ≡ without self.old w.0 }
    {
        take_out(&mut self.pending, w);
    }

    /// The first pending write that has landed on a volume of the server, if there is one.
    pub fn landed_on(&self, config: &Config, s: ServerId) -> Option<WriteId>
        ensures number { option_map (λ w. w.0) result ≡ landed_on config.now s.0 self.now.pending }
        ensures pending { IfSome result (λ w. IsSome (find (has_number w.0) self.now.pending)) }
    {
        let pending = first_landed(&self.pending, config, s)?;
        Some(pending.w)
    }
}
