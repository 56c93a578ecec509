//! The lines of the listing of a checked file.

ghost use Rattle.std.specs.Prelude.{◌≡◌, ◌++◌, ◌+◌, ◌<◌, ◌≤◌, [], false, length, vec_capacity, vec_len, IsTrue, List, None, ℕ};
ghost use Rattle.dvi_read.specs.Seen.{SeenItemView, seen_lines};
ghost use Rattle.dvi_read.specs.ItemsLeft.{AreLinesLeft, GivesFirst, HasAllLines, AreItemsLeft, lines_left};
ghost use Rattle.dvi_read.specs.declared.listings.part.TheConstants.{PART};

use crate::listings::line_text::{put_counts, put_mark, put_text};
use crate::listings::part::{ListingPart, PART};
use crate::seen_items::{SeenItem, SeenItems};

/// The lines of the listing of a checked file that are still to come.
#[derive(Drop)]
pub struct Lines<'d, 'a> {
    /// The rest of the text of a special whose line was begun.
    pub(crate) text: Option<&'a [u8]>,
    /// What is still to be seen of the pages.
    pub(crate) seen_items: SeenItems<'d, 'a>,
    /// The number of pages whose counts came.
    pub(crate) before: usize,
}

impl<'d, 'a> Lines<'d, 'a> {
    /// All lines of the listing of these pages.
    pub(crate) fn new(seen_items: SeenItems<'d, 'a>) -> Lines<'d, 'a>
        ensures remaining { (seen : List SeenItemView) → AreItemsLeft seen_items.entry seen → AreLinesLeft result (seen_lines 1 seen) }
        ensures seen_items { result.seen_items ≡ seen_items.entry }
    {
        Lines {
            text: None,
            seen_items,
            before: 0,
        }
    }

    /// Keeps the text of a mark that is still to come. Most marks have none, and then nothing is stored: that would take nine instructions a glyph.
    fn keep_text(&mut self, text: Option<&'a [u8]>)
        requires { self.old.text ≡ None }
        ensures { self.new ≡ record self.old { text = text.entry } }
    {
        if text.is_some() {
            self.text = text;
        }
    }

    /// Replaces the part by the next line; for a special by the beginning of its line or by its next byte. Returns whether there was one.
    pub(crate) fn next(&mut self, part: &mut ListingPart) -> bool
        requires { (text : List ℕ) × AreLinesLeft self.old text }
        ensures next { (text : List ℕ) → AreLinesLeft self.old text → IsTrue result → GivesFirst text part.new self.new }
        ensures none { (text : List ℕ) → AreLinesLeft self.old text → result ≡ false → (text ≡ []) × AreLinesLeft self.new [] }
        ensures filled { IsTrue result → 0 < length part.new }
        ensures fewer { IsTrue result → lines_left self.new < lines_left self.old }
        ensures no_more { lines_left self.new ≤ lines_left self.old }
        ensures same { self.new.seen_items.file ≡ self.old.seen_items.file }
    {
        if let Some(text) = self.text {
            self.text = put_text(text, part);
            return true;
        }
        let Some(item) = self.seen_items.next_item() else {
            return false;
        };
        match item {
            SeenItem::Page(counts) => {
                self.before += 1;
                put_counts(self.before, &counts, part);
            }
            SeenItem::Mark(mark) => self.keep_text(put_mark(&mark, part)),
        }
        true
    }

    /// Appends the next lines, as far as the capacity of `text` allows, and takes no memory. Lines are written from their end, and the part keeps the
    /// end of the last line: the glyphs of a line of text have the same v, which is written once.
    fn fill(&mut self, text: &mut Vec<u8>)
        requires { (lines : List ℕ) × AreLinesLeft self.old lines }
        ensures all { (lines : List ℕ) → AreLinesLeft self.old lines → (rest : List ℕ) × (text.new.items ++ rest ≡ text.old.items ++ lines)
            × AreLinesLeft self.new rest }
        ensures filled { (lines : List ℕ) → AreLinesLeft self.old lines → vec_len text.old + PART ≤ vec_capacity text.old → 0 < length lines
            → vec_len text.old < vec_len text.new }
        ensures fewer { vec_len text.old < vec_len text.new → lines_left self.new < lines_left self.old }
        ensures capacity { vec_capacity text.old ≤ vec_capacity text.new }
        ensures within { vec_len text.new ≤ vec_capacity text.old }
        ensures same { self.new.seen_items.file ≡ self.old.seen_items.file }
    {
        let capacity = text.capacity();
        let mut part = ListingPart::new();
        while capacity - text.len() >= PART && self.next(&mut part) {
            let Ok(()) = text.extend_from_slice(part.as_bytes()) else {
                unreachable!()
            };
        }
    }

    /// Replaces `piece`, which has a capacity of at least PART bytes, by the next piece of the listing, which has no more bytes than this capacity.
    /// Returns whether there was one. It takes no memory.
    pub fn next_piece(&mut self, piece: &mut Vec<u8>) -> bool
        requires space { PART ≤ vec_capacity piece.old }
        requires remaining { (text : List ℕ) × AreLinesLeft self.old text }
        ensures all { (text : List ℕ) → AreLinesLeft self.old text → GivesFirst text piece.new.items self.new }
        ensures none { result ≡ false → (text : List ℕ) → AreLinesLeft self.old text → text ≡ [] }
        ensures piece_not_empty { IsTrue result → 0 < length piece.new.items }
        ensures within { length piece.new.items ≤ vec_capacity piece.old }
        ensures fewer { IsTrue result → lines_left self.new < lines_left self.old }
        ensures capacity { vec_capacity piece.old ≤ vec_capacity piece.new }
        // Whatever the whole listing is, it stays so.
        ensures all_lines { (text : List ℕ) → HasAllLines self.old text → HasAllLines self.new text }
    {
        piece.clear();
        self.fill(piece);
        !piece.is_empty()
    }

    /// Begins the listing again with its first line. It takes no memory.
    pub fn rewind(&mut self)
        requires { (text : List ℕ) × AreLinesLeft self.old text }
        ensures remaining { (text : List ℕ) → HasAllLines self.old text → AreLinesLeft self.new text }
        ensures all_lines { (text : List ℕ) → HasAllLines self.old text → HasAllLines self.new text }
    {
        self.text = None;
        self.before = 0;
        self.seen_items.rewind();
    }
}
