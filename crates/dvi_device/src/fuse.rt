//! A device for tests, which takes few bytes at a time and fails at one chosen call.

ghost use Rattle.std.specs.Prelude.{◌≡◌, ◌≤◌, []};

use crate::device::{Device, DeviceFault};
use std::alloc::Global;
use std::marker::Model;

/// A device that keeps its bytes in memory, takes at most `most` of them at each call, and fails at one chosen call. It also fails where a growth is
/// refused.
#[derive(Debug, Drop)]
pub struct Fuse {
    bytes: Vec<u8>,
    most: usize,
    left: u64,
    failures: u64,
}

impl Model for Fuse {
    ghost use Rattle.std.specs.Prelude.{◌≤◌, vec_capacity};
    ghost use Rattle.dvi_device.specs.Fused.{FuseState};

    ghost Value = { FuseState };

    ghost view = { λ fuse.
        record { bytes = fuse.bytes.items; capacity = vec_capacity fuse.bytes; most = fuse.most; left = fuse.left; failures = fuse.failures } };

    ghost invariant = { λ fuse. 1 ≤ fuse.most };
}

impl Fuse {
    /// A device without bytes that takes at most `most` at each call, and fails at call `at`, counted from 1; where `at` is 0, at none. It takes no
    /// memory.
    pub fn new(alloc: Global, most: usize, at: u64) -> Fuse
        requires { 1 ≤ most }
        ensures { result ≡ record { bytes = []; capacity = 0; most = most; left = at; failures = 0 } }
    {
        Fuse {
            bytes: Vec::new(alloc),
            most,
            left: at,
            failures: 0,
        }
    }

    /// The bytes that it took, in order.
    pub fn bytes(&self) -> &[u8]
        ensures { result.now ≡ self.now.bytes }
    {
        &self.bytes
    }
}

impl Device for Fuse {
    ghost use Rattle.std.specs.Prelude.{◌≡◌, ◌≢◌, ◌≤◌, ◌<◌, ◌+◌, ◌-◌, ◌^◌, ◌++◌, ◌⊎◌, length, take, Some, IfOk, OnOk, OnErr, min};

    ghost bytes_written = { λ fuse. Some fuse.bytes };

    ghost failed = { λ fuse. fuse.failures };

    /// Fails at its chosen call. At each other call it takes as many bytes of the piece as it may, unless its capacity is too small and a growth is
    /// refused.
    fn write(&mut self, piece: &[u8]) -> Result<usize, DeviceFault>
        requires piece_not_empty { 0 < length piece.now }
        requires countable { self.old.failures + 1 < 2 ^ 64 }
        ensures count_bounded { IfOk result (λ n. (1 ≤ n) × (n ≤ length piece.now)) }
        ensures most { IfOk result (λ n. n ≡ min self.old.most (length piece.now)) }
        ensures taken { IfOk result (λ n. self.new.bytes ≡ self.old.bytes ++ take n piece.now) }
        ensures no_failure { OnOk result (self.new.failures ≡ self.old.failures) }
        ensures none_taken { OnErr result (self.new.bytes ≡ self.old.bytes) }
        ensures counted { OnErr result (self.new.failures ≡ self.old.failures + 1) }
        ensures fails { OnOk result (self.old.left ≢ 1) }
        ensures only { OnErr result ((self.old.left ≡ 1) ⊎ (self.old.capacity < length self.old.bytes + min self.old.most (length piece.now))) }
        ensures left { self.new.left ≡ self.old.left - 1 }
        ensures limit { self.new.most ≡ self.old.most }
    {
        let fails = self.left == 1;
        self.left = self.left.saturating_sub(1);
        let taken = piece.len().min(self.most);
        if !fails && self.bytes.extend_from_slice(&piece[..taken]).is_ok() {
            return Ok(taken);
        }
        self.failures += 1;
        Err(DeviceFault)
    }

    fn failures(&self) -> u64 {
        self.failures
    }
}
