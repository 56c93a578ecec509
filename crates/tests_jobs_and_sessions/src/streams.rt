//! Readers and writers that give or take little in each call, or nothing, or are interrupted.

use boxglue_program::{UnwrittenText, write_text};
use boxglue_words::{OutputFault, ReadFault, read_all, read_within, write_some};
use std::io;
use std::io::{Error, ErrorKind, Read, Write};

/// A reader of bytes 7 that gives at most a given number of them a call, and may be interrupted before each call.
#[derive(Drop)]
struct Sevens {
    left: usize,
    most: usize,
    is_interrupted: bool,
    is_ready: bool,
}

impl Read for Sevens {
    fn read(&mut self, buffer: &mut [u8]) -> io::Result<usize> {
        if self.is_interrupted && !self.is_ready {
            self.is_ready = true;
            return Err(Error::from(ErrorKind::Interrupted));
        }
        self.is_ready = false;
        let count = self.left.min(self.most).min(buffer.len());
        buffer[..count].fill(7);
        self.left -= count;
        Ok(count)
    }
}

#[test]
fn reads_all_bytes_of_each_reader(rt: HostRuntime) {
    for (most, is_interrupted) in [(200_000, false), (1_000, false), (1_000, true), (1, false)] {
        let mut reader = Sevens {
            left: 200_000,
            most,
            is_interrupted,
            is_ready: false,
        };
        let bytes = read_all(rt.alloc(), &mut reader).expect(&rt, "it is read");
        assert_eq!(rt; bytes.len(), 200_000);
        assert!(rt; bytes.iter().all(|byte| *byte == 7));
    }
}

/// A reader without an end, each call of which is interrupted, and counted.
#[derive(Drop)]
struct InterruptedReader {
    calls: usize,
}

impl Read for InterruptedReader {
    fn read(&mut self, _buffer: &mut [u8]) -> io::Result<usize> {
        self.calls = self.calls.saturating_add(1);
        Err(Error::from(ErrorKind::Interrupted))
    }
}

#[test]
fn readings_without_an_end(rt: HostRuntime) {
    for limit in [0, 1, 1_000, 65_537] {
        let mut reader = InterruptedReader { calls: 0 };
        let read = read_within(rt.alloc(), &mut reader, limit);
        assert_eq!(rt; read.err(), Some(ReadFault::Unreadable));
        assert_eq!(rt; reader.calls, limit);
    }
}

/// A writer that takes one byte a call, and is interrupted before each call.
#[derive(Drop)]
struct OneByOne {
    taken: Vec<u8>,
    is_ready: bool,
}

impl Write for OneByOne {
    fn write(&mut self, piece: &[u8]) -> io::Result<usize> {
        if !self.is_ready {
            self.is_ready = true;
            return Err(Error::from(ErrorKind::Interrupted));
        }
        self.is_ready = false;
        if piece.is_empty() || self.taken.push(piece[0]).is_err() {
            return Ok(0);
        }
        Ok(1)
    }

    fn flush(&mut self) -> io::Result<()> {
        Ok(())
    }
}

#[test]
fn writes_a_text_byte_by_byte(rt: HostRuntime) {
    let text = b"1: ok\n2: ok\n3: packed 1.0pt 1.0pt 0.0pt badness 0\nend: pages 0 bytes 0\n";
    let mut writer = OneByOne {
        taken: Vec::new(rt.alloc()),
        is_ready: false,
    };
    assert!(rt; write_text(&mut writer, text).is_ok());
    assert_eq!(rt; writer.taken.as_slice(), text.as_slice());
}

/// A writer that takes nothing, and counts its calls. After 1,000 of them it takes all, so that a body that asks for ever ends, and is seen.
#[derive(Drop)]
struct Idle {
    calls: u64,
}

impl Write for Idle {
    fn write(&mut self, piece: &[u8]) -> io::Result<usize> {
        self.calls = self.calls.saturating_add(1);
        Ok(if self.calls > 1_000 { piece.len() } else { 0 })
    }

    fn flush(&mut self) -> io::Result<()> {
        Ok(())
    }
}

#[test]
fn a_piece_for_a_writer_that_takes_nothing(rt: HostRuntime) {
    let mut writer = Idle { calls: 0 };
    assert_eq!(rt; write_some(&mut writer, b"ab"), Err(OutputFault::Unwritten));
    assert_eq!(rt; writer.calls, 1);
}

#[test]
fn a_text_for_a_writer_that_takes_nothing(rt: HostRuntime) {
    let mut writer = Idle { calls: 0 };
    assert_eq!(rt; write_text(&mut writer, b"1: ok\n"), Err(UnwrittenText));
    assert_eq!(rt; writer.calls, 1);
}
