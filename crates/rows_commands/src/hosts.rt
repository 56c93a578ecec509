//! Hosts, and runs of the program over them.

use boxglue_lib::{
    CreatedPaths, FailureCount, FileHost, HeldFile, Host, HostParts, MemoryFiles, MemoryHost,
    OutputFault, ReadFault, StandardInput, program, read_all, write_some,
};
use std::alloc::Global;
use std::io;
use std::io::{Cursor, ErrorKind, Read, Write};

/// Why a test failed: memory was refused, or a text is not as expected.
pub type Fail = std::alloc::AllocError;

/// The result of a run of the program: its status, its output, its errors, and its files.
#[derive(Drop)]
pub struct CommandRun<F> {
    pub status: u8,
    pub output: Vec<u8>,
    pub errors: Vec<u8>,
    pub files: F,
}

/// The value of a hexadecimal digit; 16 for other bytes.
fn digit(byte: u8) -> u8 {
    match byte {
        b'0'..=b'9' => byte - b'0',
        b'a'..=b'f' => byte - b'a' + 10,
        _ => 16,
    }
}

/// The bytes of lines of hexadecimal digits.
pub fn bytes_of(alloc: Global, text: &str) -> Result<Vec<u8>, Fail> {
    let mut bytes = Vec::new(alloc);
    let mut high = None;
    for byte in text.as_bytes() {
        let value = digit(*byte);
        if value < 16 {
            match high {
                None => high = Some(value),
                Some(first) => {
                    bytes.push(first << 4 | value)?;
                    high = None;
                }
            }
        }
    }
    Ok(bytes)
}

/// A host with this standard input and these files, each a path and its bytes in hexadecimal digits.
pub fn host_of(alloc: Global, input: &str, files: &[(&str, &str)]) -> Result<MemoryHost, Fail> {
    let mut held = Vec::new(alloc);
    for (path, text) in files {
        let path = Vec::from_slice(alloc, path.as_bytes())?;
        held.push(HeldFile::new(path, bytes_of(alloc, text)?))?;
    }
    Ok(MemoryHost::new(alloc, held, Vec::from_slice(alloc, input.as_bytes())?))
}

/// Runs the program with these words.
pub fn run<H: Host + Drop>(
    alloc: Global,
    words: &[&str],
    host: H,
) -> Result<CommandRun<H::Files>, Fail> {
    let mut owned = Vec::new(alloc);
    for word in words {
        owned.push(String::from_str(alloc, word)?)?;
    }
    let mut output = Vec::new(alloc);
    let mut errors = Vec::new(alloc);
    let (status, files) = program(alloc, &owned, host, &mut output, &mut errors);
    Ok(CommandRun {
        status,
        output,
        errors,
        files,
    })
}

/// A writer that takes 0 bytes.
#[derive(Drop)]
struct ClosedWriter;

impl Write for ClosedWriter {
    fn write(&mut self, _piece: &[u8]) -> io::Result<usize> {
        Ok(0)
    }

    fn flush(&mut self) -> io::Result<()> {
        Ok(())
    }
}

/// Files that cannot be created, or, once created, take 0 bytes.
#[derive(Drop)]
pub struct UnwritableFiles {
    inner: MemoryFiles,
    creates: bool,
    created: CreatedPaths,
    failures: FailureCount,
}

impl FileHost for UnwritableFiles {
    ghost use Rattle.std.specs.Prelude.{None};

    ghost file = { λ host path. None };

    ghost created = { λ host. host.created.paths };

    ghost written = { λ host. None };

    ghost failures = { λ host. host.failures.count };

    fn read_file(&self, alloc: Global, path: &str) -> Result<Vec<u8>, ReadFault> {
        self.inner.read_file(alloc, path)
    }

    fn create(&mut self, path: &str) -> Result<(), OutputFault> {
        if self.creates {
            self.created.add(path);
            Ok(())
        } else {
            self.failures.raise();
            Err(OutputFault::Unwritten)
        }
    }

    fn write(&mut self, piece: &[u8]) -> Result<usize, OutputFault> {
        let written = write_some(&mut ClosedWriter, piece);
        if written.is_err() {
            self.failures.raise();
        }
        written
    }
}

/// A host of such files. Its standard input is a text.
#[derive(Drop)]
pub struct Unwritable {
    input: Vec<u8>,
    files: UnwritableFiles,
}

impl Unwritable {
    /// A host whose files can be created, or not.
    pub fn new(alloc: Global, input: &str, creates: bool) -> Result<Unwritable, Fail> {
        Ok(Unwritable {
            input: Vec::from_slice(alloc, input.as_bytes())?,
            files: UnwritableFiles {
                inner: MemoryFiles::new(alloc, Vec::new(alloc)),
                creates,
                created: CreatedPaths::none(),
                failures: FailureCount::zero(),
            },
        })
    }
}

impl Host for Unwritable {
    ghost use Rattle.std.specs.Prelude.{Some};

    type Input = Cursor<Vec<u8>>;

    type Files = UnwritableFiles;

    ghost input = { λ host. Some host.input.items };

    ghost files = { λ host. host.files };

    fn into_parts(self) -> HostParts<Cursor<Vec<u8>>, UnwritableFiles> {
        HostParts {
            input: Cursor::new(self.input),
            files: self.files,
        }
    }
}

/// Standard input that fails after its last byte.
#[derive(Drop)]
pub struct Breaking {
    text: Cursor<Vec<u8>>,
}

impl Read for Breaking {
    fn read(&mut self, buffer: &mut [u8]) -> io::Result<usize> {
        match self.text.read(buffer) {
            Ok(0) => Err(io::Error::from(ErrorKind::ConnectionReset)),
            read => read,
        }
    }
}

impl StandardInput for Breaking {
    fn read_whole(mut self, alloc: Global) -> Result<Vec<u8>, ReadFault> {
        read_all(alloc, &mut self)
    }
}

/// A host of files in memory, whose standard input breaks.
#[derive(Drop)]
pub struct Unreadable {
    input: Breaking,
    files: MemoryFiles,
}

impl Unreadable {
    /// A host whose standard input breaks after this text.
    pub fn new(alloc: Global, input: &str) -> Result<Unreadable, Fail> {
        Ok(Unreadable {
            input: Breaking {
                text: Cursor::new(Vec::from_slice(alloc, input.as_bytes())?),
            },
            files: MemoryFiles::new(alloc, Vec::new(alloc)),
        })
    }
}

impl Host for Unreadable {
    ghost use Rattle.std.specs.Prelude.{None};

    type Input = Breaking;

    type Files = MemoryFiles;

    ghost input = { λ host. None };

    ghost files = { λ host. host.files };

    fn into_parts(self) -> HostParts<Breaking, MemoryFiles> {
        HostParts {
            input: self.input,
            files: self.files,
        }
    }
}
