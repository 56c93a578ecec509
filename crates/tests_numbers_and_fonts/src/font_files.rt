//! Metric files, and fonts at a size.

use crate::samples::{RESTARTS, TINY, font_of};
use std::alloc::Global;
use tfm_core::{Font, FontSize, Step, Tfm, TfmCause, TfmFault, scaled};

/// The kern between two characters, in scaled points.
fn kern(font: &Font, code: u8, following: u8) -> Option<i32> {
    match font.step(code, following)? {
        Step::Kern(width) => Some(width.get()),
        Step::Ligature(_) => None,
    }
}

#[test]
fn a_restart_names_the_first_step(rt: HostRuntime) {
    let font = font_of(rt.alloc(), &RESTARTS).expect(&rt, "it is a font");
    assert_eq!(rt; kern(&font, 200, 201), Some(-81_920));
    assert_eq!(rt; kern(&font, 200, 200), Some(40_960));
    assert_eq!(rt; kern(&font, 201, 200), None);
}

/// The value of a fix_word at a size, where both are valid.
fn at(word: u32, size: i64) -> Option<i64> {
    scaled(word.cast_signed(), FontSize::try_new(size)?)
}

#[test]
fn words_at_a_size(rt: HostRuntime) {
    for (word, size, want) in [
        (0x0008_0000, 655_360, Some(327_680)),
        (0xfff8_0000, 655_360, Some(-327_680)),
        (0x0100_0000, 655_360, None),
        (0xfeff_ffff, 655_360, None),
        (0x0010_0000, 8_388_607, Some(8_388_607)),
        (0x0010_0000, 8_388_609, Some(8_388_608)),
        (0x0010_0000, 16_777_219, Some(16_777_216)),
        (0x0010_0000, 33_554_439, Some(33_554_432)),
        (0x0010_0000, 67_108_879, Some(67_108_864)),
        (0x0010_0000, 134_217_727, Some(134_217_712)),
        (0x0010_0000, 134_217_728, None),
        (0x0010_0000, 1, Some(1)),
        (0x0010_0000, 0, None),
        (0x0010_0000, -1, None),
    ] {
        assert_eq!(rt; at(word, size), want, "of {word} at {size}");
    }
}

/// The rule that the bytes break; None where they are a metric file.
fn broken_rule(alloc: Global, bytes: &[u8]) -> Option<TfmCause> {
    match Tfm::read(alloc, bytes) {
        Err(TfmFault::Bad(cause)) => Some(cause),
        _ => None,
    }
}

#[test]
fn every_beginning_is_too_short(rt: HostRuntime) {
    for length in 0..116usize {
        let front = TINY.get(..length).expect(&rt, "it is a beginning");
        assert_eq!(rt;
            broken_rule(rt.alloc(), front),
            Some(TfmCause::TooShort),
            "{length}"
        );
    }
}
