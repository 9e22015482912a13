ghost use Rattle.std.specs.Prelude.{◌≡◌, ℕ, ◌<◌, ◌≤◌, ◌↔◌, List, [], ◌++◌, length, take, drop, None, Some, IfOk, OnErr, is_err};
ghost use Rattle.dr_logic.specs.Counts.{Rose};
ghost use Rattle.dr_io.specs.Memory.{take_fails, given, after_take};

use crate::counts::{listed, one_fault_more};
use crate::streams::{Failed, Source};
use std::marker::Model;

/// A source of given bytes, some of whose calls fail.
#[derive(Drop)]
pub struct MemSource {
    bytes: Vec<u8>,
    at: usize,
    piece: usize,
    fails: Vec<u32>,
    calls: u64,
    faults: u64,
}

impl Model for MemSource {
    ghost use Rattle.std.specs.Prelude.{◌<◌, ◌≤◌, length, drop};
    ghost use Rattle.dr_io.specs.Memory.{Feed};

    ghost Value = { Feed };

    ghost view = { λ s. record { left = drop s.at s.bytes.items; piece = s.piece; fails = s.fails.items; calls = s.calls; faults = s.faults } };

    ghost invariant = { λ s. (0 < s.piece) × (s.at ≤ length s.bytes.items) };
}

impl MemSource {
    /// A source that gives these bytes, at most `piece` of them in a call. Calls are counted from
    /// 1, and those whose numbers stand in `fails` fail.
    pub fn new(bytes: Vec<u8>, piece: usize, fails: Vec<u32>) -> MemSource
        requires { 0 < piece }
        ensures { result ≡ record { left = bytes.items; piece = piece; fails = fails.items; calls = 0; faults = 0 } }
    {
        MemSource {
            bytes,
            at: 0,
            piece,
            fails,
            calls: 0,
            faults: 0,
        }
    }
}

impl Source for MemSource {
    ghost left = { λ s. Some s.left };

    ghost faults = { λ s. s.faults };

    fn take(&mut self, into: &mut [u8]) -> Result<usize, Failed>
        ensures count { IfOk result (λ n. n ≤ length into.old) }
        ensures within { IfOk result (λ n. (bytes : List ℕ) → Some self.old.left ≡ Some bytes → n ≤ length bytes) }
        ensures given { IfOk result (λ n. (bytes : List ℕ) → Some self.old.left ≡ Some bytes → take n into.new ≡ take n bytes) }
        ensures rest { IfOk result (λ n. (bytes : List ℕ) → Some self.old.left ≡ Some bytes → Some self.new.left ≡ Some (drop n bytes)) }
        ensures end { IfOk result (λ n. (bytes : List ℕ) → Some self.old.left ≡ Some bytes → 0 < length into.old → n ≡ 0 ↔ bytes ≡ []) }
        ensures failed { OnErr result (Some self.new.left ≡ Some self.old.left) }
        ensures silent { Some self.old.left ≡ None → Some self.new.left ≡ None }
        ensures never_falls { self.old.faults ≤ self.new.faults }
        ensures rose { OnErr result (Rose self.old.faults self.new.faults) }
        ensures steady { IfOk result (λ n. self.new.faults ≡ self.old.faults) }
        ensures fails { is_err result ≡ take_fails self.old }
        ensures number { IfOk result (λ n. n ≡ given self.old (length into.old)) }
        ensures filled { IfOk result (λ n. into.new ≡ take n self.old.left ++ drop n into.old) }
        ensures untouched { OnErr result (into.new ≡ into.old) }
        ensures state { self.new ≡ after_take self.old (length into.old) }
    {
        self.calls = self.calls.saturating_add(1);
        if listed(&self.fails, self.calls) {
            self.faults = one_fault_more(self.faults);
            return Err(Failed);
        }
        let left = &self.bytes[self.at..];
        let n = self.piece.min(into.len()).min(left.len());
        into[..n].copy_from_slice(&left[..n]);
        self.at += n;
        Ok(n)
    }
}
