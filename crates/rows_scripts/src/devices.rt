//! The devices that cases run on.

use crate::change::Change;
use boxglue_program::{Device, DeviceFault, Fuse};
use std::alloc::Global;
use std::num::NonZeroUsize;

/// The device of a case.
#[derive(Drop)]
pub enum DeviceKind {
    /// It takes all bytes, and they are printed.
    Memory,
    /// Each write fails.
    Broken,
    /// It takes pieces and may fail at one call. The script is then run again in these ways.
    Fuse(FuseKind, Vec<Rerun>),
    /// It takes pieces of at most `most` bytes. For each of the calls 1 to `calls` there is a new device, which fails at that call.
    EachCall { most: NonZeroUsize, calls: u64 },
}

/// A device that takes at most `most` bytes a call and fails at call `at`, counted from 1. With 0 it fails at no call.
#[derive(Clone, Copy)]
pub struct FuseKind {
    pub most: NonZeroUsize,
    pub at: u64,
}

impl FuseKind {
    ghost use Rattle.std.specs.Prelude.{◌≡◌, []};

    /// A device of this kind, which has taken nothing yet.
    pub fn device(&self, alloc: Global) -> Fuse
        ensures fresh { result.bytes ≡ [] }
        ensures none { result.failures ≡ 0 }
    {
        Fuse::new(alloc, self.most.get(), self.at)
    }
}

/// How a script is run again over the rest of its file.
#[derive(Clone, Copy)]
pub enum Rerun {
    /// On the device that took the beginning of it.
    Same,
    /// On that device, with one byte changed in what is taken as sent to it.
    Changed(Change),
    /// On a new device, to which the same beginning is written first.
    New(FuseKind),
}

/// A device that takes nothing.
#[derive(Debug, Drop)]
pub struct BrokenDevice {
    failures: u64,
}

impl BrokenDevice {
    ghost use Rattle.std.specs.Prelude.{◌≡◌};

    /// A device that has not failed yet.
    pub fn new() -> BrokenDevice
        ensures { result.failures ≡ 0 }
    {
        BrokenDevice { failures: 0 }
    }
}

impl Device for BrokenDevice {
    ghost use Rattle.std.specs.Prelude.{None};

    ghost bytes_written = { λ broken. None };

    ghost failed = { λ broken. broken.failures };

    fn write(&mut self, _piece: &[u8]) -> Result<usize, DeviceFault> {
        self.failures += 1;
        Err(DeviceFault)
    }

    fn failures(&self) -> u64 {
        self.failures
    }
}
