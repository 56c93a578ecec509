//! A device for the rest of a file whose beginning was sent before.

ghost use Rattle.std.specs.Prelude.{◌≡◌, ◌≢◌, ◌≤◌, ◌<◌, length, take, slice_index};

use crate::device::{Device, DeviceFault};
use crate::snapshot::Snapshot;
use std::marker::Model;

/// A device around another one, to which the beginning of a file was sent before. It compares the bytes that it gets with that beginning, and does
/// not send them on; a byte that differs is a failure. After the whole beginning it sends each piece on.
#[derive(Drop)]
pub struct Rest<D: Device> {
    device: D,
    start: Snapshot<D>,
    sent: Vec<u8>,
    met: usize,
    failures: u64,
}

impl<D: Device> Model for Rest<D> {
    ghost use Rattle.std.specs.Prelude.{◌<◌, ◌+◌, ◌^◌};
    ghost use Rattle.dvi_device.specs.Resumed.{RestState};
    ghost use Rattle.dvi_device.specs.Private.Resumed.{IsResumed};

    ghost Value = { RestState D };

    ghost view = { λ r. record { device = r.device; start = r.start.seen; sent = r.sent.items; met = r.met; failures = r.failures } };

    ghost invariant = { λ r. IsResumed (D.bytes_written r.start.seen) (D.bytes_written r.device) r.sent.items r.met
        × (D.failed r.device + r.failures < 2 ^ 64) };
}

/// The number of bytes in which two texts agree, from their start.
fn common_front(one: &[u8], other: &[u8]) -> usize
    ensures size_bounded { (result ≤ length one.now) × (result ≤ length other.now) }
    ensures same { take result one.now ≡ take result other.now }
    ensures longest { result < length one.now → result < length other.now → slice_index one.now result ≢ slice_index other.now result }
{
    let mut count = 0;
    while count < one.len() && count < other.len() && one[count] == other[count] {
        count += 1;
    }
    count
}

impl<D: Device> Rest<D> {
    ghost use Rattle.std.specs.Prelude.{◌≡◌, ◌<◌, ◌+◌, ◌^◌, [], List, ℕ, Some, length, drop, IfSome};
    ghost use Rattle.dvi_device.specs.Written.{written_then, IsFrontOf};
    ghost use Rattle.dvi_device.specs.Resumed.{written_by, GoesOnAs, PassesOn};

    /// A device around `device`, for a file whose first bytes `sent` were sent before. It takes no memory.
    pub fn new(device: D, sent: Vec<u8>) -> Rest<D>
        requires { D.failed device + 1 < 2 ^ 64 }
        ensures made { result ≡ record { device = device; start = device; sent = sent.items; met = 0; failures = 0 } }
        ensures fresh { IfSome (written_by D.bytes_written result) (λ bytes. bytes ≡ []) }
    {
        Rest {
            start: Snapshot::of(&device),
            device,
            sent,
            met: 0,
            failures: 0,
        }
    }

    /// Returns the inner device. It reports what it had reported before, and only bytes after `sent` follow. Where a whole file went through this
    /// device, and `sent` is a beginning of it, the inner device got the rest of the file. Where the inner device had reported exactly `sent` at the
    /// start, it now reports the whole file.
    pub fn into_device(self) -> D
        ensures device { result ≡ self.device }
        ensures parts { IfSome (written_by D.bytes_written self) (GoesOnAs self.sent (D.bytes_written self.start) (D.bytes_written result)) }
        ensures passes_on { PassesOn self.sent (D.bytes_written self.start) (D.bytes_written result) (written_by D.bytes_written self) }
        ensures rest_sent { (whole : List ℕ) → IfSome (written_by D.bytes_written self) (λ bytes. bytes ≡ whole) → IsFrontOf self.sent whole
            → D.bytes_written result ≡ written_then (D.bytes_written self.start) (drop (length self.sent) whole) }
        ensures whole { (whole : List ℕ) → IfSome (written_by D.bytes_written self) (λ bytes. bytes ≡ whole) → IsFrontOf self.sent whole
            → D.bytes_written self.start ≡ Some self.sent
            → D.bytes_written result ≡ Some whole }
    {
        let Rest {
            device,
            start: _start,
            sent: _sent,
            met: _met,
            failures: _failures,
        } = self;
        device
    }
}

impl<D: Device> Device for Rest<D> {
    ghost use Rattle.std.specs.Prelude.{◌≡◌, ◌≢◌, ◌≤◌, ◌<◌, ◌+◌, ◌^◌, ◌++◌, length, take, drop, slice_index, IfOk, IsOk, IsErr, OnOk, OnErr};
    ghost use Rattle.dvi_device.specs.Written.{written_then};
    ghost use Rattle.dvi_device.specs.Resumed.{written_by, past_by};
    ghost use Rattle.dvi_device.specs.Pasts.{Compares};

    ghost bytes_written = { written_by D.bytes_written };

    ghost failed = { λ r. D.failed r.device + r.failures };

    ghost past = { past_by D.bytes_written D.failed };

    ghost write_gives = { λ old piece result new. old.met ≡ length old.sent → D.write_gives old.device piece result new.device };

    fn write(&mut self, piece: &[u8]) -> Result<usize, DeviceFault>
        requires piece_not_empty { 0 < length piece.now }
        requires countable { D.failed self.old.device + self.old.failures + 1 < 2 ^ 64 }
        ensures count_bounded { IfOk result (λ n. (1 ≤ n) × (n ≤ length piece.now)) }
        ensures taken { IfOk result (λ n. written_by D.bytes_written self.new
            ≡ written_then (written_by D.bytes_written self.old) (take n piece.now)) }
        ensures no_failure { OnOk result (D.failed self.new.device + self.new.failures ≡ D.failed self.old.device + self.old.failures) }
        ensures none_taken { OnErr result (written_by D.bytes_written self.new ≡ written_by D.bytes_written self.old) }
        ensures counted { OnErr result (D.failed self.new.device + self.new.failures ≡ D.failed self.old.device + self.old.failures + 1) }

        // Until all of `sent` was met, the inner device is unchanged, each byte that is taken is the next one of `sent`, and only a byte that differs
        // is a failure. After that, only failures of the inner device are. This holds too where the inner device does not report what it took.
        ensures sent { (self.new.sent ≡ self.old.sent) × (self.new.start ≡ self.old.start) }
        ensures past { Compares (drop self.old.met self.old.sent) piece.now result (past_by D.bytes_written D.failed self.old)
            (past_by D.bytes_written D.failed self.new) }

        // Once all of `sent` was met, a call is one call of the inner device with the whole piece.
        ensures gives { self.old.met ≡ length self.old.sent → D.write_gives self.old.device piece.now result self.new.device }
        ensures apart { self.old.met < length self.old.sent → self.new.device ≡ self.old.device }
        ensures own { self.old.met ≡ length self.old.sent → self.new.failures ≡ self.old.failures }
        ensures met { IfOk result (λ n. self.old.met < length self.old.sent
            → (self.new.met ≡ self.old.met + n) × (take n piece.now ≡ take n (drop self.old.met self.old.sent))) }
        ensures longest { IfOk result (λ n. self.old.met < length self.old.sent → n < length piece.now → self.old.met + n < length self.old.sent
            → slice_index self.old.sent (self.old.met + n) ≢ slice_index piece.now n) }
        ensures refused { self.old.met < length self.old.sent → slice_index self.old.sent self.old.met ≢ slice_index piece.now 0 → IsErr result }
        ensures passed { self.old.met ≡ length self.old.sent → self.new.met ≡ self.old.met }
        ensures unmet { OnErr result (self.new.met ≡ self.old.met) }
        ensures differs { self.old.met < length self.old.sent → slice_index self.old.sent self.old.met ≡ slice_index piece.now 0 → IsOk result }
    {
        let left = &self.sent[self.met..];
        if left.is_empty() {
            return self.device.write(piece);
        }
        let same = common_front(left, piece);
        if same == 0 {
            self.failures += 1;
            return Err(DeviceFault);
        }
        self.met += same;
        Ok(same)
    }

    fn failures(&self) -> u64 {
        self.device.failures() + self.failures
    }
}
