//! Laws of the definitions.

ghost use Rattle.std.specs.Prelude.{◌≡◌, ◌↔◌, ◌<◌, ℕ, ℤ, List, Some, Ok, Err, IsSome, true};
ghost use Rattle.std.specs.List.Sorted.{IsStrictlyIncreasing};
ghost use Rattle.std.specs.Option.{option_map};
ghost use Rattle.scaled_core.specs.Dimensions.{Fits};
ghost use Rattle.tfm_core.specs.declared.fault.TfmCause.{TfmCause};
ghost use Rattle.scaled_core.specs.declared.sizes.Sizes.{Sizes};
ghost use Rattle.tfm_core.specs.declared.font.Step.TheVariants.{Ligature};
ghost use Rattle.tfm_core.specs.declared.record.LigKernStep.{LigKernStep};
ghost use Rattle.tfm_core.specs.Fonts.{SizedFont, font_at, glyph_of, is_dimen_at, sizes_in, step_of};
ghost use Rattle.tfm_core.specs.MetricFile.{MetricFile};
ghost use Rattle.tfm_core.specs.Program.{TakesSteps, taken_steps};
ghost use Rattle.tfm_core.specs.Rules.{IsFirstBroken, IsMetricFile, character_at, metric_file};
ghost use Rattle.tfm_core.specs.Scaling.{IsFontSize, IsScaled, scaled};

/// `metric_file` gives the one record in the bytes if they keep all rules, and otherwise the first broken rule.
pub fn what_bytes_hold()
    ensures record_of { (bytes : List ℕ) (file : MetricFile) → (metric_file bytes ≡ Ok file ↔ IsMetricFile bytes file) }
    ensures cause { (bytes : List ℕ) (cause : TfmCause) → (metric_file bytes ≡ Err cause ↔ IsFirstBroken bytes cause) }
{}

/// `taken_steps` gives the only list of the steps that are taken, and their numbers increase.
pub fn steps_that_are_taken()
    ensures list { (steps : List LigKernStep) (k : ℕ) (ks : List ℕ) → (TakesSteps steps k ks ↔ (ks ≡ taken_steps steps k)) }
    ensures rising { (steps : List LigKernStep) (k : ℕ) → IsStrictlyIncreasing (taken_steps steps k) }
{}

/// The character of a ligature exists in the font.
pub fn ligatures_are_there()
    ensures { (font : SizedFont) (code following character : ℕ) → step_of font code following ≡ Some (Ligature character) →
        IsSome (glyph_of font character) }
{}

/// The sizes of a character are the words of the metric file that it names, scaled by the size of the font. So a file at one size gives each
/// character one width.
pub fn sizes_are_scaled_words()
    ensures { (file : MetricFile) (size : ℤ) (code : ℕ) → glyph_of (font_at file size) code
        ≡ option_map (sizes_in file size) (character_at file.counts.first file.characters code) }
{}

/// A number is the size of a fix word exactly when it is the one that `scaled` gives: there is exactly one, for each size of a font.
pub fn one_scaled_size()
    ensures { (fix size q : ℤ) → IsFontSize size → (IsScaled fix size q ↔ (q ≡ scaled size fix)) }
{}

/// The test of a dimension holds exactly for the words whose size fits.
pub fn dimensions_fit()
    ensures { (size word : ℤ) → (is_dimen_at size word ≡ true ↔ Fits (scaled size word)) }
{}

/// A character of a metric file is a byte: its code is below 256.
pub fn characters_are_bytes()
    ensures { (bytes : List ℕ) (file : MetricFile) (size : ℤ) (code : ℕ) (glyph : Sizes) → metric_file bytes ≡ Ok file →
        glyph_of (font_at file size) code ≡ Some glyph → code < 256 }
{}
