//! The words NAME=TFM.

ghost use Rattle.std.specs.Prelude.{◌≡◌, ◌++◌, [], ◌∷◌, List, map, OnOk, IfOk, IfErr};
ghost use Rattle.std.specs.List.{list_any};
ghost use Rattle.std.specs.Str.{bytes_eq};
ghost use Rattle.clap.specs.Words.{Text};
ghost use Rattle.boxglue_words.specs.Pairs.{AreFonts, IsFaulty, IsPair, name_of, path_part};
ghost use Rattle.boxglue_words.specs.Private.Steps.{IsFaultAfter};

use crate::fonts::{NamedPath, WordFault};
use std::alloc::Global;
use tfm_core::FontName;

/// A word that is cut at its first `=`.
#[derive(Drop)]
struct PairParts<'a> {
    name: &'a str,
    font: NamedPath<'a>,
}

/// The name and the path of a word. NotPair if it has no `=`, or a name of no byte or over 255 bytes; Memory if a growth was refused.
fn cut_word<'a>(alloc: Global, word: &'a str) -> Result<PairParts<'a>, WordFault<'a>>
    ensures ok { IfOk result (λ parts. IsPair word.entry.now × (parts.name.now ≡ name_of word.entry.now) × (parts.font.name ≡ name_of word.entry.now)
        × (parts.font.path.now ≡ path_part word.entry.now)) }
    ensures err { IfErr result (IsFaultAfter [] word.entry.now) }
{
    let Some((name, path)) = word.split_once('=') else {
        return Err(WordFault::NotPair(word));
    };
    let bytes = Vec::from_slice(alloc, name.as_bytes())?;
    let Some(font) = FontName::try_new(bytes) else {
        return Err(WordFault::NotPair(word));
    };
    Ok(PairParts {
        name,
        font: NamedPath { name: font, path },
    })
}

/// Whether a font of that name is among these.
fn is_named(fonts: &[NamedPath<'_>], name: &str) -> bool
    ensures { result ≡ list_any (λ font. bytes_eq font.name name.now) fonts.now }
{
    fonts
        .iter()
        .any(|font| font.name.as_bytes() == name.as_bytes())
}

/// Appends the font of a word to those of the words before it, or returns why the word is refused.
fn push_pair<'a>(
    alloc: Global,
    word: &'a str,
    fonts: &mut Vec<NamedPath<'a>>,
) -> Result<(), WordFault<'a>>
    ensures ok { (before : List Text) → AreFonts before fonts.old.items → OnOk result (AreFonts (before ++ word.entry.now ∷ []) fonts.new.items) }
    ensures err { (before : List Text) → AreFonts before fonts.old.items → IfErr result (IsFaultAfter before word.entry.now) }
{
    let parts = cut_word(alloc, word)?;
    if is_named(fonts, parts.name) {
        return Err(WordFault::NameTwice(parts.name));
    }
    fonts.push(parts.font)?;
    Ok(())
}

/// The fonts of words NAME=TFM, each cut at its first `=`. The names have 1 to 255 bytes and differ.
///
/// Errors: NotPair and NameTwice name the first faulty word from the left; Memory is a refused growth, which a word without `=` never meets. Each
/// name is compared with all before it, so the time grows with the square of the number of words.
pub fn read_pairs<'a>(alloc: Global, words: &[&'a str]) -> Result<Vec<NamedPath<'a>>, WordFault<'a>>
    ensures ok { IfOk result (λ fonts. AreFonts (map (λ word. word.now) words.now) fonts.items) }
    ensures err { IfErr result (IsFaulty (map (λ word. word.now) words.now)) }
{
    let mut fonts = Vec::new(alloc);
    for word in words {
        push_pair(alloc, word, &mut fonts)?;
    }
    Ok(fonts)
}
