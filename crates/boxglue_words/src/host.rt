//! What the program needs from its host.

ghost use Rattle.std.specs.Prelude.{◌≡◌};
ghost use Rattle.boxglue_words.specs.declared.host.ReadFault.TheVariants.{OutOfMemory};

use std::alloc::{AllocError, Global};
use std::io::Read;
use thiserror::Error;

/// The greatest number of bytes of one reading, and of the calls that it may take. It bounds the loop that reads.
pub const READ_LIMIT: usize = 268_435_456;

/// A law: the limit of a reading is this number. The definitions take it from the constant, so a wrong constant would be wrong in both.
pub fn limit_of_a_reading()
    ensures { READ_LIMIT ≡ 268435456 }
{}

/// Why a host did not read a file or standard input.
#[derive(Clone, Copy, Debug, PartialEq, Eq, Error)]
pub enum ReadFault {
    /// A growth of memory was refused.
    #[error("a growth of memory was refused")]
    OutOfMemory,
    /// It could not be read, or is over `READ_LIMIT` bytes.
    #[error("the file could not be read")]
    Unreadable,
}

impl From<AllocError> for ReadFault {
    ghost from_gives = { λ _ fault. fault ≡ OutOfMemory };

    fn from(_error: AllocError) -> ReadFault {
        ReadFault::OutOfMemory
    }
}

/// Why a host did not create its file, or did not write to it.
#[derive(Clone, Copy, Debug, PartialEq, Eq, Error)]
pub enum OutputFault {
    /// A growth of memory was refused.
    #[error("a growth of memory was refused")]
    OutOfMemory,
    /// The file could not be created or written.
    #[error("the file could not be written")]
    Unwritten,
}

/// Standard input. It is read as it comes (`Read`), or whole. Contracts may know what it has left; of that of a real program they know nothing.
pub trait StandardInput: Read {
    ghost use Rattle.std.specs.Prelude.{◌≡◌, Err, IfOk};
    ghost use Rattle.boxglue_words.specs.Readings.{IsReadable, IsReading, IsUnreadable};

    /// Reads all bytes that are left. OutOfMemory only if they can be read; Unreadable if they cannot, or are more than `READ_LIMIT`.
    fn read_whole(self, alloc: Global) -> Result<Vec<u8>, ReadFault>
        ensures ok { IfOk result (λ read. IsReading (Self.remaining self) read.items) }
        ensures failed { result ≡ Err ReadFault.Unreadable → IsUnreadable (Self.remaining self) }
        ensures memory { result ≡ Err ReadFault.OutOfMemory → IsReadable (Self.remaining self) };
}

/// The parts of a host.
#[derive(Debug, Drop)]
pub struct HostParts<I, F> {
    /// Standard input.
    pub input: I,
    /// The files.
    pub files: F,
}

/// A host has standard input and files. It gives up both at once, so standard input is handed out once, as a value of its own.
pub trait Host {
    ghost use Rattle.std.specs.Prelude.{◌≡◌, ℕ, List, Option};

    /// Standard input.
    type Input: StandardInput + Drop;

    /// The files.
    type Files: FileHost;

    /// The bytes of standard input, if they are known.
    ghost input: { Self → Option (List ℕ) };

    /// The files that it gives up.
    ghost files: { Self → Self.Files };

    /// Hands out standard input and the files.
    fn into_parts(self) -> HostParts<Self::Input, Self::Files>
        ensures input { Self.Input.remaining result.input ≡ input self }
        ensures files { result.files ≡ files self };
}

/// A host of files has files by their paths, and one file that it creates and writes. Contracts may know what these hold; of the files of a real
/// program they know nothing. A reading is whole, and fails over `READ_LIMIT` bytes.
pub trait FileHost {
    ghost use Rattle.std.specs.Prelude.{◌≡◌, ◌≤◌, ◌<◌, ◌+◌, ◌∷◌, ℕ, List, Option, Err, length, take, IfOk, IfSome, OnOk, OnErr};
    ghost use Rattle.dvi_device.specs.Written.{written_then};
    ghost use Rattle.boxglue_words.specs.Readings.{IsFileReading, IsReadableFile, IsUnreadableFile};
    ghost use Rattle.boxglue_words.specs.Hosts.{just_created};

    /// The file at a path, if it is known: that there is none, or its bytes. With one case for both, a host in memory could give any bytes for a
    /// missing file.
    ghost file: { Self → List ℕ → Option (Option (List ℕ)) };

    /// The paths of the files that it created, the last one first.
    ghost created: { Self → List (List ℕ) };

    /// The bytes that the created file took, if they are known.
    ghost written: { Self → Option (List ℕ) };

    /// How many creations and writes have failed.
    ghost failures: { Self → ℕ };

    /// Reads all bytes of the file at a path. OutOfMemory only if the file can be read; Unreadable if it cannot, or is too large.
    fn read_file(&self, alloc: Global, path: &str) -> Result<Vec<u8>, ReadFault>
        ensures ok { IfOk result (λ read. IsFileReading (file self.now path.now) read.items) }
        ensures failed { result ≡ Err ReadFault.Unreadable → IsUnreadableFile (file self.now path.now) }
        ensures memory { result ≡ Err ReadFault.OutOfMemory → IsReadableFile (file self.now path.now) };

    /// Makes the file at a path an empty one, to which `write` appends. After an error no file was created, the bytes of the one before are as they
    /// were, and the failure is counted.
    fn create(&mut self, path: &str) -> Result<(), OutputFault>
        ensures path { OnOk result (created self.new ≡ path.now ∷ created self.old) }
        ensures path_kept { OnErr result (created self.new ≡ created self.old) }
        ensures empty { OnOk result (written self.new ≡ just_created (written self.old)) }
        ensures none { OnErr result (written self.new ≡ written self.old) }
        ensures no_failure { OnOk result (failures self.new ≡ failures self.old) }
        ensures counted { OnErr result (failures self.new ≡ failures self.old + 1) };

    /// Appends a piece or a beginning of it to the created file, and returns how many bytes it took, at least one. After an error it took none, and
    /// the failure is counted.
    fn write(&mut self, piece: &[u8]) -> Result<usize, OutputFault>
        requires piece_not_empty { 0 < length piece.now }
        ensures path_same { created self.new ≡ created self.old }
        ensures count_bounded { IfOk result (λ n. (1 ≤ n) × (n ≤ length piece.now)) }
        ensures taken { IfOk result (λ n. written self.new ≡ written_then (written self.old) (take n piece.now)) }
        ensures none_taken { OnErr result (written self.new ≡ written self.old) }
        ensures no_failure { OnOk result (failures self.new ≡ failures self.old) }
        ensures counted { OnErr result (failures self.new ≡ failures self.old + 1) };
}
