//! Sets of characters. With one of them a font rules out most pairs of characters without looking at a program.

ghost use Rattle.std.specs.Prelude.{◌≡◌, ◌==◌, ◌||◌, ◌<◌, ℕ, false};
ghost use Rattle.tfm_core.specs.Private.FontView.{is_in};

/// A set of characters: bit `c % 64` of word `c / 64` is 1 if character c is in it.
#[derive(Clone, Copy, Debug)]
pub struct CharacterSet {
    words: [u64; 4],
}

impl CharacterSet {
    /// The empty set.
    pub fn new() -> CharacterSet
        ensures { (c : ℕ) → is_in result c ≡ false }
    {
        CharacterSet { words: [0; 4] }
    }

    /// Puts a character into the set.
    pub fn insert(&mut self, character: u8)
        ensures { (c : ℕ) → c < 256 → is_in self.new c ≡ (c == character || is_in self.old c) }
    {
        let word = usize::from(character / 64);
        self.words[word] |= 1 << (character % 64);
    }

    /// Whether a character is in the set. Does not allocate.
    pub fn contains(&self, character: u8) -> bool
        ensures { result ≡ is_in self.now character }
    {
        (self.words[usize::from(character / 64)] >> (character % 64)) & 1 == 1
    }
}
