//! A host in memory.

ghost use Rattle.std.specs.Prelude.{◌≡◌, ◌≤◌, ◌<◌, ◌+◌, ◌++◌, ◌∷◌, [], false, true, length, option_map, Err, IfErr, IfOk, OnOk, OnErr};
ghost use Rattle.std.specs.Str.{bytes_eq};
ghost use Rattle.boxglue_words.specs.HostInMemory.{held_at};
ghost use Rattle.boxglue_words.specs.declared.host.TheConstants.{READ_LIMIT};

use crate::created_paths::CreatedPaths;
use crate::failure_count::FailureCount;
use crate::host::{FileHost, Host, HostParts, OutputFault, READ_LIMIT, ReadFault, StandardInput};
use std::alloc::Global;
use std::io::Cursor;
use std::marker::Model;

/// A file in memory: its path and its bytes.
#[derive(Debug, Drop)]
pub struct HeldFile {
    path: Vec<u8>,
    bytes: Vec<u8>,
}

impl Model for HeldFile {
    ghost use Rattle.boxglue_words.specs.HostInMemory.{HeldBytes};

    ghost Value = { HeldBytes };

    ghost view = { λ file. record { path = file.path.items; bytes = file.bytes.items } };
}

impl HeldFile {
    /// A file with these bytes at a path.
    pub fn new(path: Vec<u8>, bytes: Vec<u8>) -> HeldFile
        ensures { result ≡ record { path = path.items; bytes = bytes.items } }
    {
        HeldFile { path, bytes }
    }

    /// Whether the file is at this path.
    fn is_at(&self, path: &[u8]) -> bool
        ensures { result ≡ bytes_eq self.now.path path.now }
    {
        self.path.as_slice() == path
    }

    /// Its bytes.
    fn bytes(&self) -> &[u8]
        ensures { result.now ≡ self.now.bytes }
    {
        &self.bytes
    }
}

/// Files in memory, and what is written to the one that is created. A missing file cannot be read.
#[derive(Debug, Drop)]
pub struct MemoryFiles {
    alloc: Global,
    files: Vec<HeldFile>,
    is_created: bool,
    created: Vec<u8>,
    written: Vec<u8>,
    paths: CreatedPaths,
    failures: FailureCount,
}

impl Model for MemoryFiles {
    ghost use Rattle.boxglue_words.specs.HostInMemory.{FilesInMemory};

    ghost Value = { FilesInMemory };

    ghost view = { λ host. record {
      files = host.files.items;
      is_created = host.is_created;
      created = host.created.items;
      written = host.written.items;
      paths = host.paths.paths;
      failures = host.failures.count;
    } };
}

impl MemoryFiles {
    /// These files. None has been created yet. It takes no memory.
    pub fn new(alloc: Global, files: Vec<HeldFile>) -> MemoryFiles
        ensures { result ≡ record { files = files.items; is_created = false; created = []; written = []; paths = []; failures = 0 } }
    {
        MemoryFiles {
            alloc,
            files,
            is_created: false,
            created: Vec::new(alloc),
            written: Vec::new(alloc),
            paths: CreatedPaths::none(),
            failures: FailureCount::zero(),
        }
    }

    /// The path of the file that was created last; empty if there is none.
    pub fn created_path(&self) -> &[u8]
        ensures { result.now ≡ self.now.created }
    {
        &self.created
    }

    /// The bytes that the created file took.
    pub fn written_bytes(&self) -> &[u8]
        ensures { result.now ≡ self.now.written }
    {
        &self.written
    }

    /// Stores the path of a file that is created. If memory is refused, all is as before and the failure is counted.
    fn keep_path(&mut self, path: &str) -> Result<(), OutputFault>
        ensures ok { OnOk result (self.new ≡ record self.old { is_created = true; created = path.now; paths = path.now ∷ self.old.paths }) }
        ensures err { OnErr result (self.new ≡ record self.old { failures = self.old.failures + 1 }) }
        ensures memory { IfErr result (λ fault. fault ≡ OutputFault.OutOfMemory) }
    {
        let Ok(created) = Vec::from_slice(self.alloc, path.as_bytes()) else {
            self.failures.raise();
            return Err(OutputFault::OutOfMemory);
        };
        self.is_created = true;
        self.created = created;
        self.paths.add(path);
        Ok(())
    }
}

/// A copy of bytes, as a reading gives it: Unreadable if there are over `READ_LIMIT`, OutOfMemory if memory is refused.
fn copy(alloc: Global, bytes: &[u8]) -> Result<Vec<u8>, ReadFault>
    ensures ok { IfOk result (λ read. (read.items ≡ bytes.now) × (length bytes.now ≤ READ_LIMIT)) }
    ensures failed { result ≡ Err ReadFault.Unreadable → READ_LIMIT < length bytes.now }
    ensures memory { result ≡ Err ReadFault.OutOfMemory → length bytes.now ≤ READ_LIMIT }
{
    if bytes.len() > READ_LIMIT {
        return Err(ReadFault::Unreadable);
    }
    Ok(Vec::from_slice(alloc, bytes)?)
}

/// The bytes of the first file at a path, if there is one.
fn held_at<'a>(files: &'a [HeldFile], path: &[u8]) -> Option<&'a [u8]>
    ensures { option_map (λ bytes. bytes.now) result ≡ held_at files.now path.now }
{
    Some(files.iter().find(|file| file.is_at(path))?.bytes())
}

impl FileHost for MemoryFiles {
    ghost use Rattle.std.specs.Prelude.{Some};
    ghost use Rattle.boxglue_words.specs.HostInMemory.{held_at};

    ghost file = { λ host path. Some (held_at host.files path) };

    ghost created = { λ host. host.paths };

    ghost written = { λ host. Some host.written };

    ghost failures = { λ host. host.failures };

    fn read_file(&self, alloc: Global, path: &str) -> Result<Vec<u8>, ReadFault> {
        match held_at(&self.files, path.as_bytes()) {
            Some(bytes) => copy(alloc, bytes),
            None => Err(ReadFault::Unreadable),
        }
    }

    fn create(&mut self, path: &str) -> Result<(), OutputFault>
        ensures made { OnOk result
            (self.new ≡ record self.old { is_created = true; created = path.now; written = []; paths = path.now ∷ self.old.paths }) }
        ensures unchanged { OnErr result (self.new ≡ record self.old { failures = self.old.failures + 1 }) }
        ensures memory { IfErr result (λ fault. fault ≡ OutputFault.OutOfMemory) }
    {
        self.keep_path(path)?;
        self.written.clear();
        Ok(())
    }

    fn write(&mut self, piece: &[u8]) -> Result<usize, OutputFault>
        requires piece_not_empty { 0 < length piece.now }
        ensures all { IfOk result (λ n. n ≡ length piece.now) }
        ensures kept { OnOk result (self.new ≡ record self.old { written = self.old.written ++ piece.now }) }
        ensures unchanged { OnErr result (self.new ≡ record self.old { failures = self.old.failures + 1 }) }
        ensures memory { IfErr result (λ fault. fault ≡ OutputFault.OutOfMemory) }
    {
        match self.written.extend_from_slice(piece) {
            Ok(()) => Ok(piece.len()),
            Err(_) => {
                self.failures.raise();
                Err(OutputFault::OutOfMemory)
            }
        }
    }
}

/// A host whose files and standard input are in memory.
#[derive(Debug, Drop)]
pub struct MemoryHost {
    input: Vec<u8>,
    files: MemoryFiles,
}

impl Model for MemoryHost {
    ghost use Rattle.boxglue_words.specs.HostInMemory.{InMemory};

    ghost Value = { InMemory };

    ghost view = { λ host. record { input = host.input.items; files = host.files } };
}

impl MemoryHost {
    /// A host with these files and this standard input, which has created no file yet. It takes no memory.
    pub fn new(alloc: Global, files: Vec<HeldFile>, input: Vec<u8>) -> MemoryHost
        ensures { result ≡ record {
          input = input.items;
          files = record {
            files = files.items;
            is_created = false;
            created = [];
            written = [];
            paths = [];
            failures = 0;
          };
        } }
    {
        MemoryHost {
            input,
            files: MemoryFiles::new(alloc, files),
        }
    }
}

impl StandardInput for Cursor<Vec<u8>> {
    fn read_whole(self, alloc: Global) -> Result<Vec<u8>, ReadFault> {
        let bytes = self.get_ref().as_slice();
        let start = self.position().min(bytes.len() as u64);
        copy(alloc, &bytes[start as usize..])
    }
}

impl Host for MemoryHost {
    ghost use Rattle.std.specs.Prelude.{Some};

    type Input = Cursor<Vec<u8>>;

    type Files = MemoryFiles;

    ghost input = { λ host. Some host.input };

    ghost files = { λ host. host.files };

    fn into_parts(self) -> HostParts<Cursor<Vec<u8>>, MemoryFiles> {
        HostParts {
            input: Cursor::new(self.input),
            files: self.files,
        }
    }
}
