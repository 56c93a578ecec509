//! The instructions of DVI files and their bytes.

ghost use Rattle.dvi_ops.specs.Spelling.{HasSpelling};
ghost use Rattle.dvi_ops.specs.View.{view};

use dvi_ops::{BodyOp, Op, next, spell};
use std::alloc::Global;
use std::process::Abort;

/// Asserts the bytes of an instruction.
fn expect_bytes(rt: &impl Abort, alloc: Global, op: &Op<'_>, bytes: &[u8])
    requires { HasSpelling (view op.now) }
{
    let mut out = Vec::new(alloc);
    assert!(rt; spell(op, &mut out).is_ok());
    assert_eq!(rt; out.as_slice(), bytes);
}

#[test]
fn instructions_are_spelled(rt: HostRuntime) {
    let alloc = rt.alloc();
    expect_bytes(&rt, alloc, &Op::Body(BodyOp::PutChar(256)), &[134, 1, 0]);
    expect_bytes(
        &rt,
        alloc,
        &Op::Body(BodyOp::Xxx(b"hi")),
        &[239, 2, 104, 105],
    );
}

/// Asserts that an instruction of `size` bytes is read.
fn expect_read(rt: &impl Abort, bytes: &[u8], op: Op<'_>, size: usize) {
    match next(bytes) {
        Ok((found, length)) => {
            assert!(rt; found == op);
            assert_eq!(rt; length, size);
        }
        Err(_) => panic!(rt; "no instruction is read"),
    }
}

#[test]
fn instructions_are_read(rt: HostRuntime) {
    expect_read(
        &rt,
        &[0x9f, 0x01, 0, 0, 0x84],
        Op::Body(BodyOp::Down(65_536)),
        4,
    );
    expect_read(&rt, &[0x8f, 0xff], Op::Body(BodyOp::Right(-1)), 2);
    expect_read(
        &rt,
        &[131, 0xff, 0xff, 0xff, 0xff],
        Op::Body(BodyOp::SetChar(-1)),
        5,
    );
    expect_read(
        &rt,
        &[130, 0xff, 0xff, 0xff],
        Op::Body(BodyOp::SetChar(16_777_215)),
        4,
    );
    expect_read(&rt, &[0x8d], Op::Body(BodyOp::Push), 1);
    expect_read(
        &rt,
        &[137, 0, 0, 0, 1, 0, 0, 0, 2, 9],
        Op::Body(BodyOp::PutRule {
            height: 1,
            width: 2,
        }),
        9,
    );
    expect_read(&rt, &[234], Op::Body(BodyOp::FontNum(63)), 1);
    expect_read(
        &rt,
        &[0xf9, 0, 0, 0, 0x4a, 0x02, 223, 223, 223, 223],
        Op::PostPost { place: 74, id: 2 },
        6,
    );
}
