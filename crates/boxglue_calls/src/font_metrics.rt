//! The metrics of a font, for callers that set text themselves.

ghost use Rattle.std.specs.Prelude.{◌≡◌, ℕ, ℤ, List, Option, IfErr, IfOk};
ghost use Rattle.tfm_core.specs.FontReads.{IsReadRefusal};
ghost use Rattle.boxglue_calls.specs.Calls.{ReadsMetrics, RefusesSize};
ghost use Rattle.boxglue_calls.specs.Metrics.{AreMetrics, MeasuresFont, metric_outputs, read_fault};

use crate::buffers::put;
use crate::faults::{Fault, no_fault, refusal_fault};
use crate::font_bytes::FontBytes;
use crate::font_rows::{FontParameters, FontStep, GlyphTable, font_steps};
use crate::status::{ACCEPTED, BUFFER_TOO_SMALL, OUT_OF_MEMORY, OUT_OF_RANGE, REFUSED};
use job_core::Refusal;
use std::alloc::{AllocError, Global};
use tfm_core::{Font, FontReadFault, FontSize};

/// The metrics of a font.
#[derive(Drop)]
struct FontMetrics {
    glyphs: GlyphTable,
    parameters: FontParameters,
    steps: Vec<FontStep>,
}

/// The metrics in the bytes of a metric file at a size, or at its design size.
fn read_metrics(
    alloc: Global,
    tfm: &[u8],
    size: Option<FontSize>,
) -> Result<FontMetrics, FontReadFault>
    ensures ok { IfOk result (λ metrics. AreMetrics tfm.now size metrics.glyphs.rows metrics.parameters metrics.steps.items) }
    ensures refused { IfErr result (IsReadRefusal tfm.now size) }
{
    let font = Font::read(alloc, tfm, size)?;
    let steps = match font_steps(alloc, &font) {
        Ok(steps) => steps,
        Err(AllocError) => return Err(FontReadFault::OutOfMemory),
    };
    let measured = FontBytes::new(&font, tfm);
    Ok(FontMetrics {
        glyphs: measured.glyphs(),
        parameters: measured.parameters(),
        steps,
    })
}

/// The numbers of the reason for which bytes give no font.
fn read_fault(reason: FontReadFault) -> Fault
    ensures { result ≡ read_fault reason }
{
    match reason {
        FontReadFault::OutOfMemory => refusal_fault(Refusal::OutOfMemory),
        FontReadFault::BadTfm(cause) => refusal_fault(Refusal::BadTfm(cause)),
        FontReadFault::DimensionTooLarge => refusal_fault(Refusal::DimensionTooLarge),
    }
}

/// Hands metrics over, where the buffer has space for the steps.
fn hand_over_metrics(
    metrics: &FontMetrics,
    glyphs: &mut GlyphTable,
    parameters: &mut FontParameters,
    steps: &mut [FontStep],
    count: &mut usize,
    fault: &mut Fault,
) -> u32
    ensures { (tfm : List ℕ) (size : Option ℤ)
        → AreMetrics tfm size metrics.now.glyphs.rows metrics.now.parameters metrics.now.steps.items
        → MeasuresFont tfm size (metric_outputs glyphs.old parameters.old steps.old count.old fault.old)
        (metric_outputs glyphs.new parameters.new steps.new count.new fault.new) result }
{
    *count = metrics.steps.len();
    if metrics.steps.len() > steps.len() {
        return BUFFER_TOO_SMALL;
    }
    put(&metrics.steps, steps);
    *glyphs = metrics.glyphs;
    *parameters = metrics.parameters;
    *fault = no_fault();
    ACCEPTED
}

/// Reads the metrics in the bytes of a metric file at a size, or at its design size.
fn measure_font(
    alloc: Global,
    tfm: &[u8],
    size: Option<FontSize>,
    glyphs: &mut GlyphTable,
    parameters: &mut FontParameters,
    steps: &mut [FontStep],
    count: &mut usize,
    fault: &mut Fault,
) -> u32
    ensures { MeasuresFont tfm.now size (metric_outputs glyphs.old parameters.old steps.old count.old fault.old)
        (metric_outputs glyphs.new parameters.new steps.new count.new fault.new) result }
{
    match read_metrics(alloc, tfm, size) {
        Ok(metrics) => hand_over_metrics(&metrics, glyphs, parameters, steps, count, fault),
        Err(FontReadFault::OutOfMemory) => OUT_OF_MEMORY,
        Err(reason) => {
            *fault = read_fault(reason);
            REFUSED
        }
    }
}

/// Reads the metrics of a font in the bytes of a metric file, at a size in scaled points, or at its design size for 0. The characters go into
/// `glyphs`, the other numbers into `parameters`, and what the font puts between two characters into `steps`, in the order of the first character and
/// then of the following one, and their number into `count`. Why a file is refused goes into `fault`.
///
/// Returns ACCEPTED, and then all are written; REFUSED, and then `fault` alone is written; BUFFER_TOO_SMALL, and then `count` alone is written;
/// OUT_OF_MEMORY or OUT_OF_RANGE, and then nothing is.
pub fn metrics(
    alloc: Global,
    tfm: &[u8],
    size: i32,
    glyphs: &mut GlyphTable,
    parameters: &mut FontParameters,
    steps: &mut [FontStep],
    count: &mut usize,
    fault: &mut Fault,
) -> u32
    ensures size { RefusesSize size result }
    ensures done { ReadsMetrics tfm.now size (metric_outputs glyphs.old parameters.old steps.old count.old fault.old)
        (metric_outputs glyphs.new parameters.new steps.new count.new fault.new) result }
{
    if size == 0 {
        return measure_font(alloc, tfm, None, glyphs, parameters, steps, count, fault);
    }
    let asked = FontSize::try_new(i64::from(size));
    if asked.is_none() {
        return OUT_OF_RANGE;
    }
    measure_font(alloc, tfm, asked, glyphs, parameters, steps, count, fault)
}
