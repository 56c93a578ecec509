//! Definitions of fonts, and the first one of each number (DVItype, 18).

ghost use Rattle.std.specs.Prelude.{◌≡◌, ◌≢◌, ◌++◌, ◌∷◌, [], false, true, map, option_copied, option_map, OnErr, OnOk};
ghost use Rattle.std.specs.BTreeMap.{IsUnchanged, get as value_at};
ghost use Rattle.std.specs.List.{AllByRecursion};
ghost use Rattle.std.specs.Ordering.{int_cmp};
ghost use Rattle.dvi_ops.specs.Fonts.{AgreesWith, first_definition_of};
ghost use Rattle.dvi_ops.specs.View.{definition};
ghost use Rattle.dvi_scan.specs.Private.FirstDefinitions.{AddsFirst};

use dvi_ops::FontDefinition;
use std::alloc::{AllocError, Global};
use std::collections::BTreeMap;
use std::marker::Model;

/// The number of a font in a file.
#[derive(Clone, Copy, Debug, PartialEq, Eq)]
pub struct FontNumber {
    pub value: i32,
}

/// Whether two definitions are the same in every field.
fn is_same(one: &FontDefinition<'_>, other: &FontDefinition<'_>) -> bool
    ensures yes { result ≡ true → definition one.now ≡ definition other.now }
    ensures no { result ≡ false → definition one.now ≢ definition other.now }
{
    one.number == other.number
        && one.check_sum == other.check_sum
        && one.size == other.size
        && one.design_size == other.design_size
        && one.area == other.area
        && one.name == other.name
}

/// The first definition of each number.
type Firsts<'a> = BTreeMap<i32, FontDefinition<'a>>;

/// Adds a definition where it is the first one of its number, and takes memory for it only then.
fn add_first<'a>(first: &mut Firsts<'a>, font: &FontDefinition<'a>) -> Result<(), AllocError>
    ensures ok { OnOk result (AddsFirst first.old first.new font.now) }
    ensures err { OnErr result (IsUnchanged first.old first.new) }
{
    if first.contains_key(&font.number) {
        return Ok(());
    }
    first.insert(font.number, *font)?;
    Ok(())
}

/// The definitions of a file so far, in order. Each agrees with those before it. The first one of a number is found in a search tree.
#[derive(Drop)]
pub struct KnownFonts<'a> {
    all: Vec<FontDefinition<'a>>,
    first: Firsts<'a>,
}

impl<'a> Model for KnownFonts<'a> {
    ghost use Rattle.std.specs.Prelude.{List, map};
    ghost use Rattle.dvi_ops.specs.Instruction.{Definition};
    ghost use Rattle.dvi_ops.specs.View.{definition};

    ghost Value = { List Definition };

    ghost use Rattle.dvi_scan.specs.Private.FirstDefinitions.{HasFirstDefinitions};

    ghost view = { λ known. map definition known.all.items };

    ghost invariant = { λ known. HasFirstDefinitions known.first (map definition known.all.items) };
}

impl<'a> KnownFonts<'a> {
    /// No definitions.
    pub fn new(alloc: Global) -> KnownFonts<'a>
        ensures { result ≡ [] }
    {
        KnownFonts {
            all: Vec::new(alloc),
            first: BTreeMap::new(alloc),
        }
    }

    /// Whether a definition is the same as each one of its number (DVItype, 18). It takes no memory, and time logarithmic in the number of
    /// definitions.
    pub fn agrees(&self, font: &FontDefinition<'_>) -> bool
        ensures yes { result ≡ true → AllByRecursion (AgreesWith (definition font.now)) self.now }
        ensures no { result ≡ false → AllByRecursion (AgreesWith (definition font.now)) self.now → ⊥ }
    {
        match self.first.get(&font.number) {
            Some(first) => is_same(font, first),
            None => true,
        }
    }

    /// The first definition of a number (DVItype, 18). It takes no memory, and time logarithmic in the number of definitions.
    pub fn get(&self, number: FontNumber) -> Option<&FontDefinition<'a>>
        ensures { option_map definition (option_copied result) ≡ first_definition_of number.value self.now }
    {
        self.first.get(&number.value)
    }

    /// Adds a definition after the others. It takes memory for it; where this is refused, the definitions are unchanged.
    pub fn push(&mut self, font: &FontDefinition<'a>) -> Result<(), AllocError>
        requires { AllByRecursion (AgreesWith (definition font.now)) self.old }
        ensures ok { OnOk result (self.new ≡ self.old ++ definition font.now ∷ []) }
        ensures err { OnErr result (self.new ≡ self.old) }
    {
        self.all.push(*font)?;
        match add_first(&mut self.first, font) {
            Ok(()) => Ok(()),
            Err(refusal) => {
                let _font = self.all.pop();
                Err(refusal)
            }
        }
    }

    /// All definitions, in order.
    pub fn into_all(self) -> Vec<FontDefinition<'a>>
        ensures { map definition result.items ≡ self.entry }
    {
        self.all
    }
}
