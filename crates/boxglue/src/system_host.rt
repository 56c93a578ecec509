//! The files and the standard input of the system.

ghost use Rattle.std.specs.Prelude.{None};

use crate::blocking_stream::BlockingStream;
use boxglue_lib::{
    CreatedPaths, FailureCount, FileHost, Host, HostParts, OutputFault, ReadFault, StandardInput,
    read_all, write_some,
};
use std::alloc::Global;
use std::fs::File;
use std::io::{Error, ErrorKind, Stdin};

/// The files of a real program. Contracts know nothing of what they hold, only which ones were created, and how many creations and writes have
/// failed.
#[derive(Drop)]
pub struct SystemFiles<'a> {
    rt: &'a HostRuntime,
    file: Option<File>,
    created: CreatedPaths,
    failures: FailureCount,
}

impl<'a> SystemFiles<'a> {
    /// The files of a runtime. None has been created yet.
    fn new(rt: &'a HostRuntime) -> SystemFiles<'a> {
        SystemFiles {
            rt,
            file: None,
            created: CreatedPaths::none(),
            failures: FailureCount::zero(),
        }
    }
}

/// The host of a real program. A session waits for its standard input.
#[derive(Drop)]
pub struct SystemHost<'a> {
    input: BlockingStream<'a, Stdin>,
    files: SystemFiles<'a>,
}

impl<'a> SystemHost<'a> {
    /// The host of a runtime.
    pub fn new(rt: &'a HostRuntime) -> SystemHost<'a> {
        SystemHost {
            input: BlockingStream::new(rt, rt.stdin()),
            files: SystemFiles::new(rt),
        }
    }
}

impl StandardInput for BlockingStream<'_, Stdin> {
    /// An input that has nothing yet is not waited for: this reading fails.
    fn read_whole(self, alloc: Global) -> Result<Vec<u8>, ReadFault> {
        read_all(alloc, &mut self.into_stream())
    }
}

impl<'a> Host for SystemHost<'a> {
    ghost use Rattle.std.specs.Prelude.{None};

    type Input = BlockingStream<'a, Stdin>;

    type Files = SystemFiles<'a>;

    ghost input = { λ host. None };

    ghost files = { λ host. host.files };

    fn into_parts(self) -> HostParts<BlockingStream<'a, Stdin>, SystemFiles<'a>> {
        HostParts {
            input: self.input,
            files: self.files,
        }
    }
}

/// The fault of a file that the system did not open.
fn read_fault(fault: &Error) -> ReadFault {
    if fault.kind() == ErrorKind::OutOfMemory {
        ReadFault::OutOfMemory
    } else {
        ReadFault::Unreadable
    }
}

/// The fault of a file that the system did not create.
fn output_fault(fault: &Error) -> OutputFault {
    if fault.kind() == ErrorKind::OutOfMemory {
        OutputFault::OutOfMemory
    } else {
        OutputFault::Unwritten
    }
}

impl FileHost for SystemFiles<'_> {
    ghost use Rattle.std.specs.Prelude.{None};

    ghost file = { λ host path. None };

    ghost created = { λ host. host.created.paths };

    ghost written = { λ host. None };

    ghost failures = { λ host. host.failures.count };

    fn read_file(&self, alloc: Global, path: &str) -> Result<Vec<u8>, ReadFault> {
        match File::open(self.rt, path) {
            Ok(mut file) => read_all(alloc, &mut file),
            Err(fault) => Err(read_fault(&fault)),
        }
    }

    fn create(&mut self, path: &str) -> Result<(), OutputFault> {
        match File::create(self.rt, path) {
            Ok(file) => {
                self.file = Some(file);
                self.created.add(path);
                Ok(())
            }
            Err(fault) => {
                self.failures.raise();
                Err(output_fault(&fault))
            }
        }
    }

    fn write(&mut self, piece: &[u8]) -> Result<usize, OutputFault> {
        let written = match &mut self.file {
            Some(file) => write_some(file, piece),
            None => Err(OutputFault::Unwritten),
        };
        if written.is_err() {
            self.failures.raise();
        }
        written
    }
}
