//! The metrics of a font.

use crate::samples::TINY;
use boxglue_calls::status::{ACCEPTED, OUT_OF_RANGE, REFUSED};
use boxglue_calls::{Fault, FontParameters, FontStep, Glyph, GlyphTable, Measure, metrics};

/// A number that is not written yet.
const NONE: Measure = Measure {
    value: -1,
    is_unfit: 2,
};

/// A row that is not written yet.
const NO_STEP: FontStep = FontStep {
    character: 0,
    following: 0,
    kind: 0,
    kern: 0,
    ligature: 0,
};

/// What a call writes to.
#[derive(Drop)]
struct Outputs {
    glyphs: GlyphTable,
    parameters: FontParameters,
    steps: [FontStep; 3],
    count: usize,
    fault: Fault,
}

/// Outputs that are not written yet.
fn new_outputs() -> Outputs {
    let glyph = Glyph {
        is_there: 2,
        width: 0,
        height: 0,
        depth: 0,
        italic: NONE,
    };
    Outputs {
        glyphs: GlyphTable { rows: [glyph; 256] },
        parameters: FontParameters {
            size: 0,
            design_size: 0,
            check_sum: 1,
            slant: 1,
            space: 0,
            stretch: 0,
            shrink: 0,
            x_height: NONE,
            quad: NONE,
            extra_space: NONE,
        },
        steps: [NO_STEP; 3],
        count: 9,
        fault: Fault {
            number: 9,
            cause: 0,
            font: 0,
            place: 0,
            name_size: 0,
        },
    }
}

/// Reads the metrics of a file at a size, with space for all steps.
fn measure(rt: &HostRuntime, tfm: &[u8], size: i32, outputs: &mut Outputs) -> u32 {
    metrics(
        rt.alloc(),
        tfm,
        size,
        &mut outputs.glyphs,
        &mut outputs.parameters,
        &mut outputs.steps,
        &mut outputs.count,
        &mut outputs.fault,
    )
}

#[test]
fn a_font_is_measured(rt: HostRuntime) {
    let mut outputs = new_outputs();
    assert_eq!(rt; measure(&rt, &TINY, 655_361, &mut outputs), ACCEPTED);
    assert_eq!(rt; outputs.count, 3);
    assert_eq!(rt; outputs.fault.number, 0);
    assert_eq!(rt; outputs.parameters.size, 655_361);
    assert_eq!(rt; outputs.parameters.space, 204_800);
    assert_eq!(rt; outputs.glyphs.rows[96].is_there, 0);
    assert_eq!(rt; outputs.glyphs.rows[100].width, 655_361);
    let kern = FontStep {
        character: 97,
        following: 99,
        kind: 1,
        kern: -40_961,
        ligature: 0,
    };
    assert_eq!(rt; outputs.steps[1], kern);
}

#[test]
fn a_font_is_refused(rt: HostRuntime) {
    let mut outputs = new_outputs();
    assert_eq!(rt; measure(&rt, &TINY, -1, &mut outputs), OUT_OF_RANGE);
    assert_eq!(rt; measure(&rt, &[], 0, &mut outputs), REFUSED);
    assert_eq!(rt; (outputs.fault.number, outputs.fault.cause), (5, 1));
    assert_eq!(rt; outputs.count, 9);
}
