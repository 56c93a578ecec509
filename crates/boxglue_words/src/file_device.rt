//! The device that writes a DVI file at a path.

ghost use Rattle.std.specs.Prelude.{◌≡◌, ◌≢◌, ◌≤◌, ◌<◌, ◌+◌, [], false, true, ℕ, List, length, take, IfOk, OnOk, OnErr};
ghost use Rattle.std.specs.Coded.{Coded-set, →_prop};
ghost use Rattle.std.specs.Option.{ForSome};
ghost use Rattle.dvi_device.specs.Written.{written_then};
ghost use Rattle.boxglue_words.specs.Hosts.{created_after, written_to_file};

use crate::host::{FileHost, OutputFault};
use dvi_device::{Device, DeviceFault, Snapshot};

/// A device that writes a file at a path of its host. It creates the file at its first write, so a script that ships nothing leaves an existing file
/// alone. It fails exactly when its host does: when the file cannot be created or written.
///
/// The host is passed by value and returned by `into_host`: with a `&mut` inside the device no contract could speak of the caller's host afterwards.
#[derive(Drop)]
pub struct FileDevice<'a, H: FileHost> {
    host: H,
    start: Snapshot<H>,
    path: &'a str,
    is_created: bool,
    failures: u64,
    ghost used: { is_created ≡ true → failures ≡ 0 → ForSome (H.written host) (λ bytes. bytes ≢ []) },
    ghost counted: { H.failures host ≡ H.failures start.seen + failures },
    ghost placed: { H.created host ≡ created_after is_created path.now (H.created start.seen) },
    ghost closed: { is_created ≡ false → H.written host ≡ H.written start.seen },
    ghost same: { is_created ≡ false → failures ≡ 0 → host ≡ start.seen } by { →_prop (→_prop (Coded-set H.code host start.seen)) },
}

impl<'a, H: FileHost> FileDevice<'a, H> {
    /// A device that has not created its file yet. It has reported no byte and has not failed.
    pub fn new(host: H, path: &'a str) -> FileDevice<'a, H>
        ensures host { result.host ≡ host }
        ensures path { result.path ≡ path.entry }
        ensures start { result.start.seen ≡ host }
        ensures closed { result.is_created ≡ false }
        ensures fine { result.failures ≡ 0 }
    {
        FileDevice {
            start: Snapshot::of(&host),
            host,
            path,
            is_created: false,
            failures: 0,
        }
    }

    /// Whether the file was created.
    pub fn is_created(&self) -> bool
        ensures { result ≡ self.now.is_created }
    {
        self.is_created
    }

    /// Returns the host, which has failed as often as the device, and has created no file since the device was made but that of the device, once. If
    /// this was created and no write failed, it has taken a byte. If it was not, the host reports the bytes that it reported before, and without a
    /// failure it is as it was.
    pub fn into_host(self) -> H
        ensures host { result ≡ self.entry.host }
        ensures used { self.entry.is_created ≡ true → self.entry.failures ≡ 0 → ForSome (H.written result) (λ bytes. bytes ≢ []) }
        ensures counted { H.failures result ≡ H.failures self.entry.start.seen + self.entry.failures }
        ensures placed { H.created result ≡ created_after self.entry.is_created self.entry.path.now (H.created self.entry.start.seen) }
        ensures closed { self.entry.is_created ≡ false → H.written result ≡ H.written self.entry.start.seen }
        ensures same { self.entry.is_created ≡ false → self.entry.failures ≡ 0 → result ≡ self.entry.start.seen }
    {
        self.host
    }
}

impl From<OutputFault> for DeviceFault {
    fn from(_fault: OutputFault) -> DeviceFault {
        DeviceFault
    }
}

/// Creates the file of a host, unless it was created before.
fn create_once<H: FileHost>(
    host: &mut H,
    path: &str,
    is_created: &mut bool,
) -> Result<(), DeviceFault>
    ensures bytes_written { written_to_file is_created.new (H.written host.new) ≡ written_to_file is_created.old (H.written host.old) }
    ensures created { OnOk result (is_created.new ≡ true) }
    ensures stays_created { is_created.new ≡ false → is_created.old ≡ false }
    ensures closed { is_created.new ≡ false → H.written host.new ≡ H.written host.old }
    ensures placed { (before : List (List ℕ)) → H.created host.old ≡ created_after is_created.old path.now before
        → H.created host.new ≡ created_after is_created.new path.now before }
    ensures no_failure { OnOk result (H.failures host.new ≡ H.failures host.old) }
    ensures counted { OnErr result (H.failures host.new ≡ H.failures host.old + 1) }
{
    if *is_created {
        return Ok(());
    }
    host.create(path)?;
    *is_created = true;
    Ok(())
}

/// Creates the file of a host, unless it was created before, and writes a piece.
fn put<H: FileHost>(
    host: &mut H,
    path: &str,
    is_created: &mut bool,
    piece: &[u8],
) -> Result<usize, DeviceFault>
    requires piece_not_empty { 0 < length piece.now }
    ensures count_bounded { IfOk result (λ n. (1 ≤ n) × (n ≤ length piece.now)) }
    ensures taken { IfOk result (λ n. written_to_file is_created.new (H.written host.new)
        ≡ written_then (written_to_file is_created.old (H.written host.old)) (take n piece.now)) }
    ensures none_taken { OnErr result (written_to_file is_created.new (H.written host.new) ≡ written_to_file is_created.old (H.written host.old)) }
    ensures created { OnOk result (is_created.new ≡ true) }
    ensures used { OnOk result (ForSome (H.written host.new) (λ bytes. bytes ≢ [])) }
    ensures closed { is_created.new ≡ false → H.written host.new ≡ H.written host.old }
    ensures stays_created { is_created.new ≡ false → is_created.old ≡ false }
    ensures placed { (before : List (List ℕ)) → H.created host.old ≡ created_after is_created.old path.now before
        → H.created host.new ≡ created_after is_created.new path.now before }
    ensures no_failure { OnOk result (H.failures host.new ≡ H.failures host.old) }
    ensures counted { OnErr result (H.failures host.new ≡ H.failures host.old + 1) }
{
    create_once(host, path, is_created)?;
    let count = host.write(piece)?;
    Ok(count)
}

impl<H: FileHost> Device for FileDevice<'_, H> {
    ghost use Rattle.std.specs.Prelude.{◌≡◌, ◌≤◌, ◌<◌, ◌+◌, ◌^◌, true, length, take, IfOk, OnOk, OnErr};
    ghost use Rattle.dvi_device.specs.Pasts.{plain_past};
    ghost use Rattle.boxglue_words.specs.Hosts.{begun_for};

    ghost bytes_written = { λ device. written_to_file device.is_created (H.written device.host) };

    ghost failed = { λ device. device.failures };

    ghost past = { λ device. plain_past (begun_for device.path.now (H.row.coded.code device.start.seen) (H.written device.start.seen)
        (H.failures device.start.seen)) };

    /// Fails exactly when its host does in this call: when it creates the file, or in the write. Until the file is created, the host reports of it
    /// what it reported before.
    fn write(&mut self, piece: &[u8]) -> Result<usize, DeviceFault>
        requires piece_not_empty { 0 < length piece.now }
        requires countable { self.old.failures + 1 < 2 ^ 64 }
        ensures count_bounded { IfOk result (λ n. (1 ≤ n) × (n ≤ length piece.now)) }
        ensures taken { IfOk result (λ n. written_to_file self.new.is_created (H.written self.new.host)
            ≡ written_then (written_to_file self.old.is_created (H.written self.old.host)) (take n piece.now)) }
        ensures no_failure { OnOk result (self.new.failures ≡ self.old.failures) }
        ensures none_taken { OnErr result (written_to_file self.new.is_created (H.written self.new.host)
            ≡ written_to_file self.old.is_created (H.written self.old.host)) }
        ensures counted { OnErr result (self.new.failures ≡ self.old.failures + 1) }
        ensures fine { OnOk result (H.failures self.new.host ≡ H.failures self.old.host) }
        ensures blamed { OnErr result (H.failures self.new.host ≡ H.failures self.old.host + 1) }
        ensures start { self.new.start ≡ self.old.start }
        ensures path { self.new.path ≡ self.old.path }
        ensures closed { self.new.is_created ≡ false → H.written self.new.host ≡ H.written self.old.host }
    {
        match put(&mut self.host, self.path, &mut self.is_created, piece) {
            Ok(count) => Ok(count),
            Err(fault) => {
                self.failures += 1;
                Err(fault)
            }
        }
    }

    fn failures(&self) -> u64 {
        self.failures
    }
}
