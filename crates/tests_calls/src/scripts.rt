//! Scripts that are run.

use crate::samples::ONE_RULE;
use boxglue_calls::status::{ACCEPTED, BAD_FONT_NAME, BUFFER_TOO_SMALL, REFUSED};
use boxglue_calls::{Font, Lengths, run, version};

/// No lengths yet.
const NONE: Lengths = Lengths { answers: 0, dvi: 0 };

#[test]
fn a_script_is_run(rt: HostRuntime) {
    let mut answers = [0u8; 256];
    let mut dvi = [0u8; 256];
    let mut lengths = NONE;
    let status = run(
        rt.alloc(),
        ONE_RULE.as_bytes(),
        &[],
        &mut answers,
        &mut dvi,
        &mut lengths,
    );
    assert_eq!(rt; status, ACCEPTED);
    assert_eq!(rt; lengths.dvi, 116);
    let text =
        "1: ok\n2: ok\n3: packed 1.0pt 1.0pt 0.0pt badness 0\n4: shipped 1\nend: pages 1 bytes 116\n";
    assert_eq!(rt; answers.get(..lengths.answers), Some(text.as_bytes()));
    assert_eq!(rt; dvi[115], 223);
    assert_eq!(rt; dvi[116], 0);
}

#[test]
fn a_bad_script_is_refused(rt: HostRuntime) {
    let mut answers = [0u8; 256];
    let mut dvi = [];
    let mut lengths = NONE;
    let status = run(
        rt.alloc(),
        b"nonsense\n",
        &[],
        &mut answers,
        &mut dvi,
        &mut lengths,
    );
    assert_eq!(rt; status, REFUSED);
    assert_eq!(rt; lengths.dvi, 0);
}

#[test]
fn a_small_buffer_stays_as_it_was(rt: HostRuntime) {
    let mut answers = [7u8; 256];
    let mut dvi = [7u8; 115];
    let mut lengths = NONE;
    let status = run(
        rt.alloc(),
        ONE_RULE.as_bytes(),
        &[],
        &mut answers,
        &mut dvi,
        &mut lengths,
    );
    assert_eq!(rt; status, BUFFER_TOO_SMALL);
    assert_eq!(rt; lengths.dvi, 116);
    assert_eq!(rt; answers, [7u8; 256]);
    assert_eq!(rt; dvi, [7u8; 115]);
}

#[test]
fn an_empty_name_is_refused(rt: HostRuntime) {
    let nameless = Font {
        name: b"",
        bytes: b"",
    };
    let mut lengths = NONE;
    let status = run(
        rt.alloc(),
        ONE_RULE.as_bytes(),
        &[nameless],
        &mut [],
        &mut [],
        &mut lengths,
    );
    assert_eq!(rt; status, BAD_FONT_NAME);
    assert_eq!(rt; lengths, NONE);
}

#[test]
fn the_version_is_a_number(rt: HostRuntime) {
    assert_eq!(rt; version(), 10_200);
}
