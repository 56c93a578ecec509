//! The text of a bitmap in pieces.

ghost use Rattle.std.specs.Prelude.{◌≡◌, ◌+◌, ◌*◌, ◌<◌, ◌≤◌, ◌++◌, [], false, length, vec_capacity, vec_len, IsTrue};
ghost use Rattle.raster_core.specs.Words.{in_rows};
ghost use Rattle.raster_core.specs.PlainText.{header_text, rows_text};
ghost use Rattle.raster_core.specs.Private.RowPieces.{row_size};
ghost use Rattle.raster_core.specs.TextLeft.{pbm_text_left};
ghost use Rattle.raster_core.specs.declared.text.TheConstants.{ROW_TEXT};

use crate::printing::{MAX_DIGITS, append_header, append_row};
use crate::rows::Rows;

/// The greatest size of the text of a row in bytes: 10,000 digits, and a line feed after each seventieth digit and the last. A header is shorter.
pub const ROW_TEXT: usize = 10_143;

/// The rest of the text of a bitmap.
#[derive(Drop)]
pub struct PbmText<'a> {
    rows: Rows<'a>,
    /// Whether the header was given.
    begun: bool,
    /// The number of rows that were given.
    done: usize,
    /// The digits of a row, while its text is written.
    digits: [u8; MAX_DIGITS],
}

impl<'a> PbmText<'a> {
    /// The text of all rows, with its header.
    pub(crate) fn new(rows: Rows<'a>) -> PbmText<'a>
        ensures { pbm_text_left result ≡ header_text rows.entry.width rows.entry.height ++ rows_text rows.entry.width rows.entry.height
            (in_rows rows.entry.words.now rows.entry.stride) }
    {
        PbmText {
            rows,
            begun: false,
            done: 0,
            digits: [0; MAX_DIGITS],
        }
    }

    /// Appends the header, if it was not given yet.
    fn begin(&mut self, piece: &mut Vec<u8>)
        requires { vec_len piece.old + ROW_TEXT ≤ vec_capacity piece.old }
        ensures all { piece.new.items ++ pbm_text_left self.new ≡ piece.old.items ++ pbm_text_left self.old }
        ensures begun { IsTrue self.new.begun }
        ensures capacity { vec_capacity piece.old ≤ vec_capacity piece.new }
        ensures within { vec_len piece.new ≤ vec_capacity piece.old }
    {
        if !self.begun {
            append_header(piece, self.rows.width, self.rows.height);
            self.begun = true;
        }
    }

    /// Appends the next rows, as far as `most` bytes of `piece` allow, which are within its capacity. It takes no memory.
    fn fill(&mut self, most: usize, piece: &mut Vec<u8>)
        requires begun { IsTrue self.old.begun }
        requires within { vec_len piece.old ≤ most }
        requires space { most ≤ vec_capacity piece.old }
        ensures all { piece.new.items ++ pbm_text_left self.new ≡ piece.old.items ++ pbm_text_left self.old }
        ensures none { ROW_TEXT ≤ most → piece.new.items ≡ [] → pbm_text_left self.new ≡ [] }
        ensures capacity { vec_capacity piece.old ≤ vec_capacity piece.new }
        ensures within { vec_len piece.new ≤ most }
    {
        let size = self.rows.row_size();
        while self.done < self.rows.height && most - piece.len() >= size {
            append_row(piece, self.rows, self.done, &mut self.digits);
            self.done += 1;
        }
    }

    /// Replaces `piece`, which has a capacity of at least ROW_TEXT bytes, by the next piece of the text, which has no more bytes than this capacity.
    /// Returns whether there was one. It takes no memory. A piece ends after a row.
    pub fn next_piece(&mut self, piece: &mut Vec<u8>) -> bool
        requires { ROW_TEXT ≤ vec_capacity piece.old }
        ensures all { pbm_text_left self.old ≡ piece.new.items ++ pbm_text_left self.new }
        ensures none { result ≡ false → pbm_text_left self.old ≡ [] }
        ensures piece_nonempty { IsTrue result → 0 < length piece.new.items }
        ensures within { length piece.new.items ≤ vec_capacity piece.old }
        ensures capacity { vec_capacity piece.old ≤ vec_capacity piece.new }
    {
        piece.clear();
        let most = piece.capacity();
        self.begin(piece);
        self.fill(most, piece);
        !piece.is_empty()
    }
}
