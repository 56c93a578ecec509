//! The places of the tables in a metric file.

ghost use Rattle.std.specs.Prelude.{◌≡◌, ◌≤◌};
ghost use Rattle.tfm_core.specs.MetricFile.{character_count};
ghost use Rattle.tfm_core.specs.Private.MetricFile.{places_of};

use crate::record::Counts;

/// The word at which each table begins, and the word after the last table.
#[derive(Clone, Copy, Debug)]
pub struct Places {
    pub characters: usize,
    pub widths: usize,
    pub heights: usize,
    pub depths: usize,
    pub italics: usize,
    pub steps: usize,
    pub kerns: usize,
    pub parameters: usize,
    pub end: usize,
}

/// The number of codes from the first to the last character.
pub fn character_count(counts: Counts) -> usize
    ensures value { result ≡ character_count counts }
    ensures value_bounded { result ≤ 65536 }
{
    (usize::from(counts.last) + 1).saturating_sub(usize::from(counts.first))
}

/// The places of the tables.
#[tactic(auto, unfolding(crate::specs::Private::MetricFile::places_of))]
pub fn places_of(counts: Counts) -> Places
    ensures { result ≡ places_of counts }
{
    let characters = 6 + usize::from(counts.header);
    let widths = characters + character_count(counts);
    let heights = widths + usize::from(counts.widths);
    let depths = heights + usize::from(counts.heights);
    let italics = depths + usize::from(counts.depths);
    let steps = italics + usize::from(counts.italics);
    let kerns = steps + usize::from(counts.steps);
    let parameters = kerns + usize::from(counts.kerns) + usize::from(counts.recipes);
    Places {
        characters,
        widths,
        heights,
        depths,
        italics,
        steps,
        kerns,
        parameters,
        end: parameters + usize::from(counts.parameters),
    }
}
