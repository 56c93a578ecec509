//! Sessions with a small limit.

use boxglue_program::{Memory, SessionFault, run_session};
use std::alloc::Global;
use std::io;
use std::io::{Error, ErrorKind, Read};

/// The script of the one-rule page: lines of 12, 17, 4 and 7 bytes.
const PAGE: &[u8] = b"hbox into 0\nrule 1pt 1pt 0pt\nend\nship 0\n";

/// A reader that gives at most this many bytes a call, and is interrupted by each call once it has given all, without an end.
#[derive(Drop)]
struct Endless<'a> {
    text: &'a [u8],
    most: usize,
}

impl Read for Endless<'_> {
    fn read(&mut self, buffer: &mut [u8]) -> io::Result<usize> {
        let count = self.text.len().min(self.most).min(buffer.len());
        if count == 0 {
            return Err(Error::from(ErrorKind::Interrupted));
        }
        let (piece, rest) = self.text.split_at(count);
        buffer[..count].copy_from_slice(piece);
        self.text = rest;
        Ok(count)
    }
}

/// How a session with this limit stops, the bytes of its file, and its answers.
fn run_until<R: Read + Drop>(
    alloc: Global,
    limit: usize,
    mut reader: R,
) -> (Result<bool, SessionFault>, usize, Vec<u8>) {
    let mut answers = Vec::new(alloc);
    let end = run_session(
        alloc,
        &[],
        Memory::new(alloc),
        limit,
        &mut reader,
        &mut answers,
    );
    (end.outcome, end.device.bytes().len(), answers)
}

#[test]
fn a_session_over_its_limit(rt: HostRuntime) {
    let alloc = rt.alloc();
    let (outcome, size, _) = run_until(alloc, 40, PAGE);
    assert_eq!(rt; (outcome, size), (Ok(true), 116));
    for (limit, most, answers) in [
        // One reading brings too much: nothing is run.
        (39, 40, b"".as_slice()),
        // The third line is over the limit.
        (30, 6, b"1: ok\n2: ok\n".as_slice()),
        // The third line is cut off before its line feed, and is not run.
        (32, 4, b"1: ok\n2: ok\n".as_slice()),
        // Seven readings bring seven bytes, and no line.
        (7, 1, b"".as_slice()),
        // Seven readings bring one line, and the next one is over the limit.
        (21, 3, b"1: ok\n".as_slice()),
    ] {
        let (outcome, size, found) = run_until(alloc, limit, Endless { text: PAGE, most });
        assert_eq!(rt; (outcome, size), (Err(SessionFault::Unreadable), 0));
        assert_eq!(rt; found.as_slice(), answers);
    }
    // The page is shipped, and no reading of the others brings an end.
    let (outcome, size, _) = run_until(
        alloc,
        100,
        Endless {
            text: PAGE,
            most: 40,
        },
    );
    assert_eq!(rt; (outcome, size), (Err(SessionFault::Unreadable), 74));
}
