//! Replies that are rows of numbers.

use crate::samples::ONE_RULE;
use boxglue_calls::jobs::status::NO_JOB;
use boxglue_calls::jobs::{
    BoxSizes, JobHandle, ReplyRow, ReplySizes, answers, end, new, reply_kind, run, run_replies,
};
use boxglue_calls::status::{ACCEPTED, BUFFER_TOO_SMALL, REFUSED};

/// No sizes.
const FLAT: BoxSizes = BoxSizes {
    width: 0,
    height: 0,
    depth: 0,
};

/// A row in which every number is 0.
const NONE: ReplyRow = ReplyRow {
    line: 0,
    kind: reply_kind::OK,
    refusal: 0,
    cause: 0,
    box_kind: 0,
    box_sizes: FLAT,
    rest: FLAT,
    has_rest: 0,
    badness: 0,
    pass: 0,
    missing: 0,
    count: 0,
    bytes: 0,
    overhang: 0,
    demerits: 0,
};

/// What a caller's row has before a call.
const OTHER: ReplyRow = ReplyRow { line: 77, ..NONE };

/// The row of the box of a rule of 1pt by 1pt, which is packed at line 3.
const PACKED: ReplyRow = ReplyRow {
    line: 3,
    kind: reply_kind::PACKED,
    box_sizes: BoxSizes {
        width: 65_536,
        height: 65_536,
        depth: 0,
    },
    ..NONE
};

/// The row of the first page, which is shipped at line 4.
const SHIPPED: ReplyRow = ReplyRow {
    line: 4,
    kind: reply_kind::SHIPPED,
    count: 1,
    ..NONE
};

/// The row of the end of a file of one page.
const END: ReplyRow = ReplyRow {
    kind: reply_kind::END,
    count: 1,
    bytes: 116,
    ..NONE
};

/// The row of a bad fourth line, which says no command.
const BAD: ReplyRow = ReplyRow {
    line: 4,
    kind: reply_kind::BAD_LINE,
    refusal: 2,
    cause: 2,
    ..NONE
};

#[test]
fn pieces_are_replied_to(rt: HostRuntime) {
    let alloc = rt.alloc();
    let mut job = JobHandle::null();
    let mut rows = [OTHER; 3];
    let mut count = 9;
    assert_eq!(rt; run(alloc, &mut job, b"", &mut rows, &mut count), NO_JOB);
    assert_eq!(rt; new(alloc, &mut job, &[]), ACCEPTED);
    let piece = b"hbox into 0\nrule 1pt 1pt 0pt\n";
    assert_eq!(rt;
        run(alloc, &mut job, piece, &mut rows, &mut count),
        ACCEPTED
    );
    assert_eq!(rt; (count, rows[1]), (2, ReplyRow { line: 2, ..NONE }));
    assert_eq!(rt;
        run(alloc, &mut job, b"end\nnonsense\n", &mut rows, &mut count),
        REFUSED
    );
    assert_eq!(rt; (count, rows[0]), (1, BAD));
    let piece = b"end\nship 0\n";
    assert_eq!(rt;
        run(alloc, &mut job, piece, &mut rows[..1], &mut count),
        BUFFER_TOO_SMALL
    );
    assert_eq!(rt; (count, rows[0]), (2, BAD));
    assert_eq!(rt;
        run(alloc, &mut job, piece, &mut rows, &mut count),
        ACCEPTED
    );
    assert_eq!(rt; rows, [PACKED, SHIPPED, OTHER]);
    let mut row = OTHER;
    assert_eq!(rt; end(alloc, &mut job, &mut row), ACCEPTED);
    assert_eq!(rt; row, END);
    let mut size = 9;
    assert_eq!(rt; answers(alloc, &mut job, &mut [], &mut size), ACCEPTED);
    assert_eq!(rt; size, 0);
    assert_eq!(rt; end(alloc, &mut job, &mut row), REFUSED);
    assert_eq!(rt;
        (row.line, row.kind, row.refusal),
        (0, reply_kind::REFUSED, 19)
    );
    job.release(alloc);
}

#[test]
fn a_script_is_replied_to(rt: HostRuntime) {
    let mut rows = [OTHER; 6];
    let mut dvi = [7u8; 116];
    let mut sizes = ReplySizes { replies: 0, dvi: 0 };
    let script = ONE_RULE.as_bytes();
    let status = run_replies(
        rt.alloc(),
        script,
        &[],
        &mut rows,
        &mut dvi[..115],
        &mut sizes,
    );
    assert_eq!(rt;
        (status, sizes),
        (
            BUFFER_TOO_SMALL,
            ReplySizes {
                replies: 5,
                dvi: 116
            }
        )
    );
    assert_eq!(rt; (rows, dvi[0]), ([OTHER; 6], 7));
    let status = run_replies(rt.alloc(), script, &[], &mut rows, &mut dvi, &mut sizes);
    assert_eq!(rt; (status, dvi[115]), (ACCEPTED, 223));
    assert_eq!(rt;
        rows.get(2..),
        Some([PACKED, SHIPPED, END, OTHER].as_slice())
    );
    let status = run_replies(
        rt.alloc(),
        b"end\nend\nend\nnonsense\n",
        &[],
        &mut rows,
        &mut dvi,
        &mut sizes,
    );
    assert_eq!(rt;
        (status, sizes),
        (REFUSED, ReplySizes { replies: 1, dvi: 0 })
    );
    assert_eq!(rt; rows[0], BAD);
}
