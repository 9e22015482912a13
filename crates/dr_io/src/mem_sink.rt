ghost use Rattle.std.specs.Prelude.{◌≡◌, false, ℕ, ◌<◌, ◌≤◌, List, [], ◌++◌, length, take, None, Some, IfOk, OnErr, is_err, min, if◌then◌else◌};
ghost use Rattle.dr_logic.specs.Counts.{Rose};
ghost use Rattle.dr_io.specs.Faults.{takes_none};
ghost use Rattle.dr_io.specs.Memory.{put_fails, accepted, after_put};

use crate::copies::copy_at;
use crate::counts::{count_if_none, listed, one_fault_more};
use crate::streams::{Failed, Sink};
use std::alloc::{AllocError, Global};
use std::marker::Model;

/// A sink with room for so many bytes, some of whose calls fail or take nothing.
#[derive(Drop)]
pub struct MemSink {
    bytes: Vec<u8>,
    len: usize,
    fails: Vec<u32>,
    stuck: Vec<u32>,
    calls: u64,
    faults: u64,
}

impl Model for MemSink {
    ghost use Rattle.std.specs.Prelude.{◌≤◌, length, take};
    ghost use Rattle.dr_io.specs.Memory.{Store};

    ghost Value = { Store };

    ghost view = { λ s. record { written = take s.len s.bytes.items; room = length s.bytes.items; fails = s.fails.items; stuck = s.stuck.items; calls = s.calls; faults = s.faults } };

    ghost invariant = { λ s. s.len ≤ length s.bytes.items };
}

impl MemSink {
    /// A sink that takes `room` bytes in all; their memory is taken now. Calls are counted from 1:
    /// those whose numbers stand in `fails` fail, and those in `stuck` take nothing. Fails where
    /// there is no memory.
    pub fn new(
        alloc: Global,
        room: usize,
        fails: Vec<u32>,
        stuck: Vec<u32>,
    ) -> Result<MemSink, AllocError>
        ensures { IfOk result (λ s. s ≡ record { written = []; room = room; fails = fails.items; stuck = stuck.items; calls = 0; faults = 0 }) }
    {
        Ok(MemSink {
            bytes: vec![in alloc; 0; room]?,
            len: 0,
            fails,
            stuck,
            calls: 0,
            faults: 0,
        })
    }

    /// The bytes that were taken.
    pub fn bytes(&self) -> &[u8]
        ensures { result.now ≡ self.now.written }
    {
        &self.bytes[..self.len]
    }
}

impl Sink for MemSink {
    ghost written = { λ s. Some s.written };

    ghost faults = { λ s. s.faults };

    fn put(&mut self, piece: &[u8]) -> Result<usize, Failed>
        ensures count { IfOk result (λ n. n ≤ length piece.now) }
        ensures taken { IfOk result (λ n. (out : List ℕ) → Some self.old.written ≡ Some out → Some self.new.written ≡ Some (out ++ take n piece.now)) }
        ensures failed { OnErr result (Some self.new.written ≡ Some self.old.written) }
        ensures silent { Some self.old.written ≡ None → Some self.new.written ≡ None }
        ensures never_falls { self.old.faults ≤ self.new.faults }
        ensures rose { OnErr result (Rose self.old.faults self.new.faults) }
        ensures stuck { IfOk result (λ n. n ≡ 0 → 0 < length piece.now → Rose self.old.faults self.new.faults) }
        ensures steady { IfOk result (λ n. takes_none (length piece.now) n ≡ false → self.new.faults ≡ self.old.faults) }
        ensures fails { is_err result ≡ put_fails self.old }
        ensures number { IfOk result (λ n. n ≡ accepted self.old (length piece.now)) }
        ensures state { self.new ≡ after_put self.old piece.now }
    {
        self.calls = self.calls.saturating_add(1);
        if listed(&self.fails, self.calls) {
            self.faults = one_fault_more(self.faults);
            return Err(Failed);
        }
        let is_stuck = listed(&self.stuck, self.calls);
        let n = number_taken(is_stuck, piece.len(), self.bytes.len() - self.len);
        self.faults = count_if_none(self.faults, piece.len(), n);
        copy_at(&mut self.bytes, self.len, &piece[..n]);
        self.len += n;
        Ok(n)
    }
}

/// How many bytes are taken where so many are wanted and there is room for so many.
fn number_taken(is_stuck: bool, wanted: usize, room: usize) -> usize
    ensures { result ≡ (if is_stuck then 0 else min wanted room) }
{
    if is_stuck { 0 } else { wanted.min(room) }
}
