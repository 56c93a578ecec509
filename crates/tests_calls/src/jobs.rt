//! Jobs that are kept between calls.

use crate::samples::ONE_RULE;
use boxglue_calls::Font;
use boxglue_calls::jobs::status::{JOB_EXISTS, NO_JOB};
use boxglue_calls::jobs::{JobHandle, answers, commands, finish, free, new, take};
use boxglue_calls::status::{ACCEPTED, BAD_FONT_NAME, BUFFER_TOO_SMALL, REFUSED};
use std::alloc::Global;

/// The pieces of the script `ONE_RULE`.
const FIRST_PIECE: &str = "hbox into 0\nrule 1pt 1pt 0pt\n";

const SECOND_PIECE: &str = "end\nship 0\n";

#[test]
fn a_job_is_run_in_pieces(rt: HostRuntime) {
    let alloc = rt.alloc();
    let mut job = JobHandle::null();
    assert_eq!(rt; new(alloc, &mut job, &[]), ACCEPTED);
    assert_eq!(rt; commands(alloc, &mut job, FIRST_PIECE.as_bytes()), ACCEPTED);
    assert_eq!(rt;
        commands(alloc, &mut job, SECOND_PIECE.as_bytes()),
        ACCEPTED
    );
    assert_eq!(rt; finish(alloc, &mut job), ACCEPTED);
    let mut text = [0u8; 256];
    let mut size = 0;
    assert_eq!(rt; answers(alloc, &mut job, &mut text, &mut size), ACCEPTED);
    let expected =
        "1: ok\n2: ok\n3: packed 1.0pt 1.0pt 0.0pt badness 0\n4: shipped 1\nend: pages 1 bytes 116\n";
    assert_eq!(rt; text.get(..size), Some(expected.as_bytes()));
    free(alloc, &mut job);
    assert_eq!(rt; finish(alloc, &mut job), NO_JOB);
    job.release(alloc);
}

#[test]
fn the_file_is_taken_in_pieces(rt: HostRuntime) {
    let alloc = rt.alloc();
    let mut job = JobHandle::null();
    assert_eq!(rt; new(alloc, &mut job, &[]), ACCEPTED);
    assert_eq!(rt; commands(alloc, &mut job, ONE_RULE.as_bytes()), ACCEPTED);
    let mut dvi = [7u8; 256];
    let mut size = 0;
    assert_eq!(rt; take(alloc, &mut job, &mut dvi, &mut size), ACCEPTED);
    let first = size;
    assert_eq!(rt; dvi[0], 247);
    assert_eq!(rt; take(alloc, &mut job, &mut dvi, &mut size), ACCEPTED);
    assert_eq!(rt; size, 0);
    assert_eq!(rt; finish(alloc, &mut job), ACCEPTED);
    let mut small = [7u8; 8];
    assert_eq!(rt;
        take(alloc, &mut job, &mut small, &mut size),
        BUFFER_TOO_SMALL
    );
    assert_eq!(rt; small, [7u8; 8]);
    assert_eq!(rt; first.checked_add(size), Some(116));
    assert_eq!(rt; take(alloc, &mut job, &mut dvi, &mut size), ACCEPTED);
    assert_eq!(rt; first.checked_add(size), Some(116));
    assert_eq!(rt; dvi.get(size.wrapping_sub(1)), Some(&223));
    job.release(alloc);
}

/// Whether these answers are handed over.
fn gives_answers(alloc: Global, job: &mut JobHandle, expected: &str) -> bool {
    let mut text = [0u8; 256];
    let mut size = 0;
    answers(alloc, job, &mut text, &mut size) == ACCEPTED
        && text.get(..size) == Some(expected.as_bytes())
}

#[test]
fn a_bad_piece_leaves_the_job(rt: HostRuntime) {
    let alloc = rt.alloc();
    let mut job = JobHandle::null();
    assert_eq!(rt; new(alloc, &mut job, &[]), ACCEPTED);
    assert_eq!(rt; commands(alloc, &mut job, FIRST_PIECE.as_bytes()), ACCEPTED);
    assert_eq!(rt; commands(alloc, &mut job, b"end\nnonsense\n"), REFUSED);
    let mut size = 0;
    let mut small = [0u8; 4];
    assert_eq!(rt;
        answers(alloc, &mut job, &mut small, &mut size),
        BUFFER_TOO_SMALL
    );
    assert_eq!(rt; small, [0u8; 4]);
    let expected = "1: ok\n2: ok\nrefused 2 BadScript 4 Word\n";
    assert_eq!(rt; gives_answers(alloc, &mut job, expected), true);
    assert_eq!(rt;
        commands(alloc, &mut job, SECOND_PIECE.as_bytes()),
        ACCEPTED
    );
    let expected = "3: packed 1.0pt 1.0pt 0.0pt badness 0\n4: shipped 1\n";
    assert_eq!(rt; gives_answers(alloc, &mut job, expected), true);
    job.release(alloc);
}

#[test]
fn a_finished_job_takes_no_commands(rt: HostRuntime) {
    let alloc = rt.alloc();
    let mut job = JobHandle::null();
    assert_eq!(rt; new(alloc, &mut job, &[]), ACCEPTED);
    assert_eq!(rt; finish(alloc, &mut job), ACCEPTED);
    assert_eq!(rt; commands(alloc, &mut job, b"% a note\nvoid 0\n"), REFUSED);
    let mut text = [0u8; 256];
    let mut size = 0;
    assert_eq!(rt; answers(alloc, &mut job, &mut text, &mut size), ACCEPTED);
    let expected = "end: pages 0 bytes 0\n2: refused 19 JobOver\n";
    assert_eq!(rt; text.get(..size), Some(expected.as_bytes()));
    assert_eq!(rt; answers(alloc, &mut job, &mut text, &mut size), ACCEPTED);
    assert_eq!(rt; size, 0);
    job.release(alloc);
}

#[test]
fn a_null_handle_has_no_job(rt: HostRuntime) {
    let alloc = rt.alloc();
    let mut job = JobHandle::null();
    let mut bytes = [7u8; 4];
    let mut size = 9;
    assert_eq!(rt; commands(alloc, &mut job, ONE_RULE.as_bytes()), NO_JOB);
    assert_eq!(rt; answers(alloc, &mut job, &mut bytes, &mut size), NO_JOB);
    assert_eq!(rt; take(alloc, &mut job, &mut bytes, &mut size), NO_JOB);
    assert_eq!(rt; finish(alloc, &mut job), NO_JOB);
    assert_eq!(rt; bytes, [7u8; 4]);
    assert_eq!(rt; size, 9);
    job.release(alloc);
}

#[test]
fn a_job_is_made_once(rt: HostRuntime) {
    let alloc = rt.alloc();
    let mut job = JobHandle::null();
    let nameless = Font {
        name: b"",
        bytes: b"",
    };
    assert_eq!(rt; new(alloc, &mut job, &[nameless]), BAD_FONT_NAME);
    assert_eq!(rt; new(alloc, &mut job, &[]), ACCEPTED);
    assert_eq!(rt; new(alloc, &mut job, &[nameless]), JOB_EXISTS);
    free(alloc, &mut job);
    job.release(alloc);
}
