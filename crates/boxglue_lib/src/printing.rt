//! Printing the listing of a DVI file, or a page as a bitmap.

ghost use Rattle.std.specs.Prelude.{◌≡◌, ◌≢◌, ◌≤◌, ◌⊎◌, ℕ, Bool, List, vec_capacity, Err, IfOk, OnErr, OnOk};
ghost use Rattle.std.specs.Io.KnownBytes.{Appends, Keeps};
ghost use Rattle.dvi_read.specs.ItemsLeft.{AreLinesLeft};
ghost use Rattle.dvi_read.specs.declared.listings.part.TheConstants.{PART};
ghost use Rattle.boxglue_print.specs.Outputs.{IsListed, IsPainted, LacksPage};
ghost use Rattle.raster_core.specs.PlainText.{pbm};
ghost use Rattle.raster_core.specs.declared.text.TheConstants.{ROW_TEXT};
ghost use Rattle.boxglue_program.specs.Runs.{WritesFront};
ghost use Rattle.boxglue_lib.specs.Faults.{of_paint};
ghost use Rattle.boxglue_lib.specs.declared.printing.PrintFault.TheVariants.{OutOfMemory, Unwritten};

use boxglue_print::{Bitmap, Dvi, Lines, PaintFault, PaintOptions, Painting, page_bitmap, refusal};
use boxglue_program::{FontFile, UnwrittenText, write_text};
use std::alloc::{AllocError, Global};
use std::io::Write;
use thiserror::Error;

/// Why the listing or the bitmap was not printed.
#[derive(Clone, Copy, Debug, PartialEq, Eq, Error)]
pub enum PrintFault {
    /// A growth of memory was refused. Nothing was written.
    #[error("a growth of memory was refused")]
    OutOfMemory,
    /// The writer took a beginning of the text, or nothing.
    #[error("the text could not be written")]
    Unwritten,
    /// The file is accepted, and does not have this page. Nothing was written.
    #[error("no such page")]
    NoSuchPage,
}

impl From<AllocError> for PrintFault {
    ghost from_gives = { λ _ fault. fault ≡ OutOfMemory };

    fn from(_error: AllocError) -> PrintFault {
        PrintFault::OutOfMemory
    }
}

impl From<PaintFault> for PrintFault {
    ghost from_gives = { λ unpainted fault. fault ≡ of_paint unpainted };

    fn from(unpainted: PaintFault) -> PrintFault {
        match unpainted {
            PaintFault::OutOfMemory => PrintFault::OutOfMemory,
            PaintFault::NoSuchPage => PrintFault::NoSuchPage,
        }
    }
}

impl From<UnwrittenText> for PrintFault {
    ghost from_gives = { λ _ fault. fault ≡ Unwritten };

    fn from(_error: UnwrittenText) -> PrintFault {
        PrintFault::Unwritten
    }
}

/// The most bytes of a listing or a bitmap that are offered to a writer at once. It must be at least PART and ROW_TEXT, the longest line or row.
const PIECE: usize = 65_536;

/// Writes the lines of a listing in pieces. All memory is taken before: a piece has space for PART bytes, so memory is never refused within the text.
fn write_listing<W: Write>(
    lines: &mut Lines<'_, '_>,
    piece: &mut Vec<u8>,
    writer: &mut W,
) -> Result<(), UnwrittenText>
    requires space { PART ≤ vec_capacity piece.old }
    requires remaining { (text : List ℕ) × AreLinesLeft lines.old text }
    ensures all { (text : List ℕ) → AreLinesLeft lines.old text → OnOk result (Appends (W.contents writer.old) (W.contents writer.new) text) }
    ensures front { (text : List ℕ) → AreLinesLeft lines.old text → OnErr result (WritesFront (W.contents writer.old) (W.contents writer.new) text) }
{
    while lines.next_piece(piece) {
        write_text(writer, piece)?;
    }
    Ok(())
}

/// Writes the listing of a DVI file with these metric files, or the one line of its refusal, and nothing else. The result is true if the file is
/// accepted.
///
/// Errors: OutOfMemory before anything is written; Unwritten if the writer did not take all.
pub fn list_file<W: Write>(
    alloc: Global,
    dvi: &[u8],
    files: &[FontFile],
    writer: &mut W,
) -> Result<bool, PrintFault>
    ensures listed { IfOk result (λ fine. (text : List ℕ) × IsListed files.now dvi.now text fine
        × Appends (W.contents writer.old) (W.contents writer.new) text) }
    ensures unwritten { result ≡ Err PrintFault.Unwritten → (text : List ℕ) × (fine : Bool) × IsListed files.now dvi.now text fine
        × WritesFront (W.contents writer.old) (W.contents writer.new) text }
    ensures silent { result ≡ Err PrintFault.OutOfMemory → Keeps (W.contents writer.old) (W.contents writer.new) }
    ensures always { result ≢ Err PrintFault.NoSuchPage }
{
    let opened = match Dvi::open(alloc, dvi, files) {
        Ok(opened) => opened,
        Err(fault) => {
            let text = refusal(alloc, fault)?;
            write_text(writer, &text)?;
            return Ok(false);
        }
    };
    let mut lines = opened.lines()?;
    let mut piece = Vec::with_capacity(alloc, PIECE)?;
    write_listing(&mut lines, &mut piece, writer)?;
    Ok(true)
}

/// Writes the text of a bitmap in pieces. All memory is taken before: a piece has space for ROW_TEXT bytes, so memory is never refused within the
/// text.
fn write_bitmap<W: Write>(
    bitmap: &Bitmap,
    rows: &mut Vec<u8>,
    writer: &mut W,
) -> Result<(), UnwrittenText>
    requires { ROW_TEXT ≤ vec_capacity rows.old }
    ensures all { OnOk result (Appends (W.contents writer.old) (W.contents writer.new) (pbm bitmap.now)) }
    ensures front { OnErr result (WritesFront (W.contents writer.old) (W.contents writer.new) (pbm bitmap.now)) }
{
    let mut text = bitmap.text();
    while text.next_piece(rows) {
        write_text(writer, rows)?;
    }
    Ok(())
}

/// Writes a page of a DVI file with these metric files as a bitmap in plain PBM, or the one line of the file's refusal, and nothing else. The result
/// is true if the file is accepted.
///
/// Errors: NoSuchPage if the file has fewer pages, and OutOfMemory, both before anything is written; Unwritten if the writer did not take all. The
/// whole file is checked first, so NoSuchPage means that it is accepted.
pub fn paint_file<W: Write>(
    alloc: Global,
    dvi: &[u8],
    files: &[FontFile],
    options: PaintOptions,
    writer: &mut W,
) -> Result<bool, PrintFault>
    ensures painted { IfOk result (λ fine. (text : List ℕ) × IsPainted files.now dvi.now options text fine
        × Appends (W.contents writer.old) (W.contents writer.new) text) }
    ensures unwritten { result ≡ Err PrintFault.Unwritten → (text : List ℕ) × (fine : Bool)
        × IsPainted files.now dvi.now options text fine × WritesFront (W.contents writer.old) (W.contents writer.new) text }
    ensures silent { result ≡ Err PrintFault.OutOfMemory → Keeps (W.contents writer.old) (W.contents writer.new) }
    ensures unpainted { result ≡ Err PrintFault.NoSuchPage → Keeps (W.contents writer.old) (W.contents writer.new) }
    ensures missing { result ≡ Err PrintFault.NoSuchPage → LacksPage files.now dvi.now options.page }
    ensures found { LacksPage files.now dvi.now options.page → (result ≡ Err PrintFault.NoSuchPage) ⊎ (result ≡ Err PrintFault.OutOfMemory) }
{
    let bitmap = match page_bitmap(alloc, dvi, files, options)? {
        Painting::Painted(bitmap) => bitmap,
        Painting::Refusal(text) => {
            write_text(writer, &text)?;
            return Ok(false);
        }
    };
    let mut rows = Vec::with_capacity(alloc, PIECE)?;
    write_bitmap(&bitmap, &mut rows, writer)?;
    Ok(true)
}
