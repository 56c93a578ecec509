//! Command lines, with the output, the errors and the status of each.

use crate::hosts::{Unreadable, Unwritable, bytes_of, host_of, run};
use crate::samples::{
    BAD_LINES, BAD_LINES_ANSWERS, ONE_RULE, ONE_RULE_ANSWERS, ONE_RULE_BYTES, ONE_RULE_PAGES,
    ONE_RULE_REPLIES, REFUSED_JOB, REFUSED_JOB_ANSWERS, UNWRITTEN_ANSWERS,
};
use boxglue_lib::VERSION_LINE;

/// A command line with a script, over the file of the one-rule page: its status, its output and its errors, and the file that it makes, in
/// hexadecimal digits (an empty text if no file is created).
struct Row {
    words: &'static [&'static str],
    script: &'static str,
    status: u8,
    output: &'static str,
    errors: &'static str,
    file: &'static str,
}

/// A page that goes to its file, also line by line; lines some of which are bad; a job without pages, which makes no file; a page as text, the units
/// of its file without fonts, and the page as a bitmap; a missing file; a missing page; the version.
const ROWS: [Row; 10] = [
    Row {
        words: &["typeset", "out.dvi"],
        script: ONE_RULE,
        status: 0,
        output: ONE_RULE_ANSWERS,
        errors: "",
        file: ONE_RULE_BYTES,
    },
    Row {
        words: &["session", "out.dvi"],
        script: ONE_RULE,
        status: 0,
        output: ONE_RULE_ANSWERS,
        errors: "",
        file: ONE_RULE_BYTES,
    },
    Row {
        words: &["session", "out.dvi"],
        script: BAD_LINES,
        status: 1,
        output: BAD_LINES_ANSWERS,
        errors: "",
        file: ONE_RULE_BYTES,
    },
    Row {
        words: &["typeset", "out.dvi"],
        script: REFUSED_JOB,
        status: 1,
        output: REFUSED_JOB_ANSWERS,
        errors: "",
        file: "",
    },
    Row {
        words: &["list", "f.dvi"],
        script: "",
        status: 0,
        output: "page 1 counts 0 0 0 0 0 0 0 0 0 0\nrule 0 65536 65536 65536\n",
        errors: "",
        file: "",
    },
    Row {
        words: &["fonts", "f.dvi"],
        script: "",
        status: 0,
        output: "units 25400000 473628672 1000\n",
        errors: "",
        file: "",
    },
    Row {
        words: &[
            "paint", "--page", "1", "--dpi", "72", "--width", "3", "--height", "3", "f.dvi",
        ],
        script: "",
        status: 0,
        output: "P1\n3 3\n000\n100\n000\n",
        errors: "",
        file: "",
    },
    Row {
        words: &["list", "g.dvi"],
        script: "",
        status: 1,
        output: "",
        errors: "boxglue: cannot read g.dvi\n",
        file: "",
    },
    Row {
        words: &[
            "paint", "--page", "2", "--dpi", "72", "--width", "3", "--height", "3", "f.dvi",
        ],
        script: "",
        status: 2,
        output: "",
        errors: "boxglue: no such page\n",
        file: "",
    },
    Row {
        words: &["--version"],
        script: ONE_RULE,
        status: 0,
        output: VERSION_LINE,
        errors: "",
        file: "",
    },
];

#[test]
fn command_lines_over_a_host_in_memory(rt: HostRuntime) {
    let alloc = rt.alloc();
    for row in &ROWS {
        let host = host_of(alloc, row.script, &[("f.dvi", ONE_RULE_BYTES)]).expect(&rt, "memory");
        let ran = run(alloc, row.words, host).expect(&rt, "memory");
        let file = bytes_of(alloc, row.file).expect(&rt, "memory");
        assert_eq!(rt; ran.errors.as_slice(), row.errors.as_bytes());
        assert_eq!(rt; ran.output.as_slice(), row.output.as_bytes());
        assert_eq!(rt; ran.status, row.status);
        let path: &[u8] = if row.file.is_empty() { b"" } else { b"out.dvi" };
        assert_eq!(rt; ran.files.created_path(), path);
        assert_eq!(rt; ran.files.written_bytes(), file.as_slice());
    }
}

#[test]
fn a_file_that_is_not_written(rt: HostRuntime) {
    let alloc = rt.alloc();
    for task in ["typeset", "session"] {
        for creates in [false, true] {
            let host = Unwritable::new(alloc, ONE_RULE, creates).expect(&rt, "memory");
            let ran = run(alloc, &[task, "away/out.dvi"], host).expect(&rt, "memory");
            assert_eq!(rt;
                ran.errors.as_slice(),
                b"boxglue: cannot write away/out.dvi\n".as_slice()
            );
            assert_eq!(rt; ran.output.as_slice(), UNWRITTEN_ANSWERS.as_bytes());
            assert_eq!(rt; ran.status, 1);
        }
    }
}

#[test]
fn an_input_that_fails(rt: HostRuntime) {
    let alloc = rt.alloc();
    for (task, output, file) in [
        ("typeset", "", ""),
        ("session", ONE_RULE_REPLIES, ONE_RULE_PAGES),
    ] {
        let host = Unreadable::new(alloc, ONE_RULE).expect(&rt, "memory");
        let ran = run(alloc, &[task, "out.dvi"], host).expect(&rt, "memory");
        let file = bytes_of(alloc, file).expect(&rt, "memory");
        assert_eq!(rt;
            ran.errors.as_slice(),
            b"boxglue: cannot read -\n".as_slice()
        );
        assert_eq!(rt; ran.output.as_slice(), output.as_bytes());
        assert_eq!(rt; ran.status, 1);
        assert_eq!(rt; ran.files.written_bytes(), file.as_slice());
    }
}
