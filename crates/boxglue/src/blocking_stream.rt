//! Streams that are waited for while they have no space, or nothing to read.

use std::io::{Error, ErrorKind, Read, Result, Write};
use std::thread::sleep;
use std::time::Duration;

/// How many milliseconds pass until a stream that could not go on is tried again. The kit has no call that waits for a descriptor without the handle
/// `Net`.
const PAUSE: u64 = 1;

/// A stream that is waited for. Whoever opened it may have set it not to wait (`O_NONBLOCK`), and then a write for which there is no space fails, and
/// so does a reading where nothing has come yet. Here such a call returns a moment later as an interrupted one, so the caller makes it again.
#[derive(Drop)]
pub struct BlockingStream<'a, W> {
    rt: &'a HostRuntime,
    stream: W,
}

impl<'a, W> BlockingStream<'a, W> {
    /// Wraps a stream.
    pub fn new(rt: &'a HostRuntime, stream: W) -> BlockingStream<'a, W> {
        BlockingStream { rt, stream }
    }

    /// The stream, which is no longer waited for.
    pub fn into_stream(self) -> W {
        self.stream
    }
}

/// The error that a caller gets, after a moment, of a call that would have had to wait: it was interrupted. So the caller makes the call again.
fn interruption(rt: &HostRuntime) -> Error {
    sleep(rt, Duration::from_millis(PAUSE));
    Error::from(ErrorKind::Interrupted)
}

impl<R: Read> Read for BlockingStream<'_, R> {
    ghost remaining = { λ blocking. R.remaining blocking.stream };

    fn read(&mut self, buf: &mut [u8]) -> Result<usize> {
        match self.stream.read(buf) {
            Err(fault) if fault.kind() == ErrorKind::WouldBlock => Err(interruption(self.rt)),
            read => read,
        }
    }
}

impl<W: Write> Write for BlockingStream<'_, W> {
    fn write(&mut self, piece: &[u8]) -> Result<usize> {
        match self.stream.write(piece) {
            Err(fault) if fault.kind() == ErrorKind::WouldBlock => Err(interruption(self.rt)),
            written => written,
        }
    }

    fn flush(&mut self) -> Result<()> {
        self.stream.flush()
    }
}
