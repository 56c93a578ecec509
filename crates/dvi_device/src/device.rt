//! Devices: where the bytes of a DVI file go.

ghost use Rattle.std.specs.Prelude.{◌≡◌, ◌≤◌, ◌<◌, ◌+◌, ◌^◌, [], length, take, Option, Some, IfOk, OnOk, OnErr};
ghost use Rattle.dvi_device.specs.Written.{written_then, GrowsByFront};
ghost use Rattle.dvi_device.specs.Pasts.{Passes};

use std::alloc::Global;
use std::marker::Model;
use thiserror::Error;

/// The device did not take a piece.
#[derive(Clone, Copy, Debug, PartialEq, Eq, Error)]
#[error("the device did not take the bytes")]
pub struct DeviceFault;

/// A device takes bytes in order, a whole piece or the beginning of one at each call, and counts the calls that failed.
pub trait Device {
    ghost use Rattle.std.specs.Prelude.{◌≡◌, ◌≤◌, ◌<◌, ◌+◌, ◌^◌, ⊤, ℕ, List, Option, Result, length, take, IfOk, OnOk, OnErr};
    ghost use Rattle.dvi_device.specs.declared.device.DeviceFault.{DeviceFault};
    ghost use Rattle.dvi_device.specs.Written.{written_then};
    ghost use Rattle.dvi_device.specs.Pasts.{Past, Compares, no_past};

    /// The bytes that it took since it was made, in order, or None where the device does not report them.
    ghost bytes_written: { Self → Option (List ℕ) };

    /// The number of writes that have failed.
    ghost failed: { Self → ℕ };

    /// What the device was made with, which no write changes; the bytes sent before that it has still to meet; and the number of its own failures. A
    /// device that passes its bytes to no other has no past.
    ghost past: { Self → Past } = { λ _. no_past };

    /// What is known of a call of `write` beyond its clauses: of the device before it, the piece, the result and the device after it.
    ghost write_gives: { Self → List ℕ → Result ℕ DeviceFault → Self → Type 0 } = { λ _ _ _ _. ⊤ };

    /// Takes the piece or a beginning of it, and returns how many bytes it took, at least one. Where it fails, it took nothing, and the failure is
    /// counted.
    fn write(&mut self, piece: &[u8]) -> Result<usize, DeviceFault>
        requires piece_not_empty { 0 < length piece.now }
        requires countable { failed self.old + 1 < 2 ^ 64 }
        ensures count_bounded { IfOk result (λ n. (1 ≤ n) × (n ≤ length piece.now)) }
        ensures taken { IfOk result (λ n. bytes_written self.new ≡ written_then (bytes_written self.old) (take n piece.now)) }
        ensures no_failure { OnOk result (failed self.new ≡ failed self.old) }
        ensures none_taken { OnErr result (bytes_written self.new ≡ bytes_written self.old) }
        ensures counted { OnErr result (failed self.new ≡ failed self.old + 1) }
        ensures past { Compares (past self.old).left piece.now result (past self.old) (past self.new) }
        ensures gives { write_gives self.old piece.now result self.new };

    /// The number of writes that have failed.
    fn failures(&self) -> u64
        ensures { result ≡ failed self.now };
}

/// A device that keeps its bytes in memory. It fails where a growth is refused.
#[derive(Debug, Drop)]
pub struct Memory {
    bytes: Vec<u8>,
    failures: u64,
}

impl Model for Memory {
    ghost use Rattle.std.specs.Prelude.{vec_capacity};
    ghost use Rattle.dvi_device.specs.Held.{MemoryState};

    ghost Value = { MemoryState };

    ghost view = { λ memory. record { bytes = memory.bytes.items; capacity = vec_capacity memory.bytes; failures = memory.failures } };
}

impl Memory {
    /// A device without bytes and without failures. It takes no memory.
    pub fn new(alloc: Global) -> Memory
        ensures { result ≡ record { bytes = []; capacity = 0; failures = 0 } }
    {
        Memory {
            bytes: Vec::new(alloc),
            failures: 0,
        }
    }

    /// The bytes that it took, in order.
    pub fn bytes(&self) -> &[u8]
        ensures { result.now ≡ self.now.bytes }
    {
        &self.bytes
    }
}

impl Device for Memory {
    ghost use Rattle.std.specs.Prelude.{◌≡◌, ◌<◌, ◌+◌, ◌^◌, ◌++◌, length, Some, IfOk, OnOk, OnErr};

    ghost bytes_written = { λ memory. Some memory.bytes };

    ghost failed = { λ memory. memory.failures };

    /// Takes the whole piece. It fails only where its capacity is too small and a growth is refused.
    fn write(&mut self, piece: &[u8]) -> Result<usize, DeviceFault>
        requires piece_not_empty { 0 < length piece.now }
        requires countable { self.old.failures + 1 < 2 ^ 64 }
        ensures all { IfOk result (λ n. n ≡ length piece.now) }
        ensures kept { OnOk result (self.new.bytes ≡ self.old.bytes ++ piece.now) }
        ensures no_failure { OnOk result (self.new.failures ≡ self.old.failures) }
        ensures none_taken { OnErr result (self.new.bytes ≡ self.old.bytes) }
        ensures counted { OnErr result (self.new.failures ≡ self.old.failures + 1) }
        ensures full { OnErr result (self.old.capacity < length self.old.bytes + length piece.now) }
    {
        match self.bytes.extend_from_slice(piece) {
            Ok(()) => Ok(piece.len()),
            Err(_) => {
                self.failures += 1;
                Err(DeviceFault)
            }
        }
    }

    fn failures(&self) -> u64 {
        self.failures
    }
}

/// Sends all bytes to the device, piece by piece. Each byte is sent once: where the device fails, it took a beginning of them that is not all, and
/// nothing is sent again.
pub fn write_all<D: Device>(device: &mut D, bytes: &[u8]) -> Result<(), DeviceFault>
    requires { D.failed device.old + 1 < 2 ^ 64 }
    ensures taken { OnOk result (D.bytes_written device.new ≡ written_then (D.bytes_written device.old) bytes.now) }
    ensures no_failure { OnOk result (D.failed device.new ≡ D.failed device.old) }
    ensures front { OnErr result (GrowsByFront (D.bytes_written device.old) (D.bytes_written device.new) bytes.now) }
    ensures counted { OnErr result (D.failed device.new ≡ D.failed device.old + 1) }
    ensures past { Passes result (D.past device.old) bytes.now (D.past device.new) }
{
    let mut sent = 0;
    while sent < bytes.len() {
        sent += device.write(&bytes[sent..])?;
    }
    Ok(())
}
