//! Pseudorandom page bodies, read from a file as they are and after `reuse`: the marks are the same.

use crate::driver::file_of;
use dvi_ops::{BodyOp, spell_body};
use dvi_read::Dvi;
use move_core::{is_plain_body, reuse};
use std::alloc::Global;
use std::process::Abort;
use std::test::Fail;

/// The next number of a pseudorandom sequence.
fn next(seed: &mut u64) -> u64 {
    *seed = seed
        .wrapping_mul(6_364_136_223_846_793_005)
        .wrapping_add(1_442_695_040_888_963_407);
    *seed >> 33
}

/// One of a few amounts.
fn amount(seed: &mut u64) -> i32 {
    match next(seed) % 5 {
        0 => 5,
        1 => 7,
        2 => -9,
        3 => 0,
        _ => 65_536,
    }
}

/// A movement, a rule, a push or a pop. `depth` is the number of open groups, which is at most two.
fn instruction(seed: &mut u64, depth: usize) -> BodyOp<'static> {
    match next(seed) % 12 {
        0..=2 => BodyOp::Right(amount(seed)),
        3..=5 => BodyOp::Down(amount(seed)),
        6 | 7 if depth < 2 => BodyOp::Push,
        8 | 9 if depth > 0 => BodyOp::Pop,
        10 => BodyOp::PutRule {
            height: 1,
            width: 2,
        },
        _ => BodyOp::SetRule {
            height: 3,
            width: 4,
        },
    }
}

/// A body of sixty instructions, and the pops that close its groups.
fn body_of(alloc: Global, seed: &mut u64) -> Result<Vec<BodyOp<'static>>, Fail> {
    let mut ops = Vec::new(alloc);
    let mut depth: usize = 0;
    for _ in 0..60 {
        let op = instruction(seed, depth);
        depth = match op {
            BodyOp::Push => depth.saturating_add(1),
            BodyOp::Pop => depth.saturating_sub(1),
            _ => depth,
        };
        ops.push(op)?;
    }
    ops.extend_from_slice(&[BodyOp::Pop; 2][..depth.min(2)])?;
    Ok(ops)
}

/// The listing of a file of one page with this body, which has no fonts and no specials, and the size of the file in bytes.
fn listing_of(
    rt: &impl Abort,
    alloc: Global,
    ops: &[BodyOp<'static>],
) -> Result<(Vec<u8>, usize), Fail> {
    let mut body = Vec::new(alloc);
    for op in ops {
        match op {
            BodyOp::Xxx(_) => {}
            other => spell_body(other, &mut body)?,
        }
    }
    let file = file_of(alloc, &body)?;
    let mut text = Vec::new(alloc);
    match Dvi::open(alloc, &file, &[]) {
        Ok(dvi) => dvi.listing(&mut text)?,
        Err(fault) => panic!(rt; "refused: {fault}"),
    }
    Ok((text, file.len()))
}

#[test]
fn reused_bodies_show_the_same(rt: HostRuntime) -> Result<(), Fail> {
    let alloc = rt.alloc();
    let mut seed = 20_261_124;
    for _ in 0..200 {
        let body = body_of(alloc, &mut seed)?;
        let (marks, size) = listing_of(&rt, alloc, &body)?;
        if !is_plain_body(&body) {
            panic!(rt; "a group is not closed");
        }
        let (reused_marks, reused_size) = listing_of(&rt, alloc, &reuse(body)?)?;
        assert_eq!(rt; reused_marks.as_slice(), marks.as_slice());
        assert!(rt; reused_size < size);
    }
    Ok(())
}
