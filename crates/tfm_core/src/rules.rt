//! The rules of a metric file (TeX: The Program, part 30, §560 to §576).

ghost use Rattle.std.specs.Prelude.{◌≡◌, ◌<◌, length};
ghost use Rattle.tfm_core.specs.Rules.{begins_nonzero, begins_past_steps, some_table_begins_nonzero, breaks_char_info, breaks_character};
ghost use Rattle.tfm_core.specs.Rules.{breaks_counts, breaks_design_size, breaks_fix_word, breaks_lig_kern, breaks_step, character_at};
ghost use Rattle.tfm_core.specs.Rules.{has_large_number, some_distance_is_no_fix_word, some_size_is_no_fix_word, some_is_no_fix_word};
ghost use Rattle.tfm_core.specs.Rules.{has_wrong_codes, is_too_short, lacks_a_table, names_absent_kern_or_character, space_words};

use crate::entries::{Entries, counts};
use crate::places::places_of;
use crate::record::{CharInfo, Counts, KERN_FLAG, LigKernStep, STOP_FLAG, Tag};
use crate::scaling::is_fix_word;

/// Whether there are fewer than 24 bytes, or fewer than the file says that it has.
#[tactic(auto, unfolding(crate::specs::Rules::is_too_short))]
pub fn is_too_short(bytes: &[u8]) -> bool
    ensures { result ≡ is_too_short bytes.now }
{
    if bytes.len() < 24 {
        return true;
    }
    bytes.len() < 4 * usize::from(counts(bytes).file)
}

/// Whether one of the twelve numbers is 32768 or more.
#[tactic(auto, unfolding(crate::specs::Rules::has_large_number))]
fn has_large_number(c: Counts) -> bool
    ensures { result ≡ has_large_number c }
{
    let numbers = [
        c.file,
        c.header,
        c.first,
        c.last,
        c.widths,
        c.heights,
        c.depths,
        c.italics,
        c.steps,
        c.kerns,
        c.recipes,
        c.parameters,
    ];
    numbers.iter().any(|n| 32768 <= *n)
}

/// Whether the codes of the first and the last character are out of order or out of range.
#[tactic(auto, unfolding(crate::specs::Rules::has_wrong_codes))]
fn has_wrong_codes(c: Counts) -> bool
    ensures { result ≡ has_wrong_codes c }
{
    usize::from(c.last) + 1 < usize::from(c.first) || 255 < c.last
}

/// Whether the header has fewer than 2 words, or there is no width, height, depth or italic correction (TeX: The Program, part 30, §565 and §568).
#[tactic(auto, unfolding(crate::specs::Rules::lacks_a_table))]
fn lacks_a_table(c: Counts) -> bool
    ensures { result ≡ lacks_a_table c }
{
    c.header < 2 || c.widths == 0 || c.heights == 0 || c.depths == 0 || c.italics == 0
}

/// Whether the twelve numbers do not agree with each other.
#[tactic(auto, unfolding(crate::specs::Rules::breaks_counts, crate::specs::Private::MetricFile::places_of))]
pub fn breaks_counts(c: Counts) -> bool
    ensures { result ≡ breaks_counts c }
{
    has_large_number(c)
        || has_wrong_codes(c)
        || lacks_a_table(c)
        || usize::from(c.file) != places_of(c).end
}

/// Whether the design size is below one point.
#[tactic(auto, unfolding(crate::specs::Rules::breaks_design_size))]
pub fn breaks_design_size(word: i32) -> bool
    ensures { result ≡ breaks_design_size word }
{
    word < 0 || word.unsigned_abs() / 16 < 65536
}

/// Whether a program begins after the last step.
fn begins_past_steps(steps: usize, tag: Tag) -> bool
    ensures { result ≡ begins_past_steps steps tag }
{
    match tag {
        Tag::Program(start) => steps <= usize::from(start),
        Tag::Plain | Tag::Larger(_) | Tag::Recipe(_) => false,
    }
}

/// Whether some word is no fix word.
#[tactic(auto, unfolding(crate::specs::Rules::some_is_no_fix_word))]
fn some_is_no_fix_word(words: &[i32]) -> bool
    ensures { result ≡ some_is_no_fix_word words.now }
{
    words.iter().any(|word| !is_fix_word(*word))
}

/// Whether the first word is not 0.
fn begins_nonzero(words: &[i32]) -> bool
    ensures { result ≡ begins_nonzero words.now }
{
    match words {
        [word, ..] => *word != 0,
        [] => false,
    }
}

/// The parameters 2, 3 and 4, as far as the file has them.
fn space_words(parameters: &[i32]) -> &[i32]
    ensures { result.now ≡ space_words parameters.now }
{
    if parameters.is_empty() {
        return parameters;
    }
    &parameters[1..usize::min(4, parameters.len())]
}

/// The character with this code, if the font has it; the list begins with the first code.
#[tactic(auto, unfolding(crate::specs::Rules::character_at))]
pub fn character_at(first: u16, characters: &[CharInfo], code: u8) -> Option<CharInfo>
    ensures { result ≡ character_at first characters.now code }
{
    let place = u16::from(code).checked_sub(first)?;
    let info = *characters.get(usize::from(place))?;
    if info.width == 0 {
        return None;
    }
    Some(info)
}

/// Whether a character names an entry that is not in its table.
#[tactic(auto, unfolding(crate::specs::Rules::breaks_character))]
fn breaks_character(file: &Entries, c: CharInfo) -> bool
    ensures { result ≡ breaks_character file.now c }
{
    file.widths.len() <= usize::from(c.width)
        || file.heights.len() <= usize::from(c.height)
        || file.depths.len() <= usize::from(c.depth)
        || file.italics.len() <= usize::from(c.italic)
        || begins_past_steps(file.steps.len(), c.tag)
}

/// Whether some character names an entry that is not in its table.
#[tactic(auto, unfolding(crate::specs::Rules::breaks_char_info))]
pub fn breaks_char_info(file: &Entries) -> bool
    ensures { result ≡ breaks_char_info file.now }
{
    file.characters.iter().any(|c| breaks_character(file, *c))
}

/// Whether some number is too large, or a table does not begin with 0.
#[tactic(auto, unfolding(crate::specs::Rules::breaks_fix_word))]
pub fn breaks_fix_word(file: &Entries) -> bool
    ensures { result ≡ breaks_fix_word file.now }
{
    some_size_is_no_fix_word(file)
        || some_distance_is_no_fix_word(file)
        || some_table_begins_nonzero(file)
}

/// Whether a width, height, depth or italic correction is no fix word.
#[tactic(auto, unfolding(crate::specs::Rules::some_size_is_no_fix_word))]
fn some_size_is_no_fix_word(file: &Entries) -> bool
    ensures { result ≡ some_size_is_no_fix_word file.now }
{
    some_is_no_fix_word(&file.widths)
        || some_is_no_fix_word(&file.heights)
        || some_is_no_fix_word(&file.depths)
        || some_is_no_fix_word(&file.italics)
}

/// Whether a kern or a size of the space is no fix word.
#[tactic(auto, unfolding(crate::specs::Rules::some_distance_is_no_fix_word))]
fn some_distance_is_no_fix_word(file: &Entries) -> bool
    ensures { result ≡ some_distance_is_no_fix_word file.now }
{
    some_is_no_fix_word(&file.kerns) || some_is_no_fix_word(space_words(&file.parameters))
}

/// Whether one of the first four tables does not begin with 0.
#[tactic(auto, unfolding(crate::specs::Rules::some_table_begins_nonzero))]
fn some_table_begins_nonzero(file: &Entries) -> bool
    ensures { result ≡ some_table_begins_nonzero file.now }
{
    begins_nonzero(&file.widths)
        || begins_nonzero(&file.heights)
        || begins_nonzero(&file.depths)
        || begins_nonzero(&file.italics)
}

/// Whether step k names a step, a kern or a character that is not there.
#[tactic(auto, unfolding(crate::specs::Rules::breaks_step))]
fn breaks_step(file: &Entries, k: usize, s: LigKernStep) -> bool
    requires { k < length file.now.steps }
    ensures { result ≡ breaks_step file.now (k, s) }
{
    if STOP_FLAG < s.skip {
        return file.steps.len() <= 256 * usize::from(s.op) + usize::from(s.remainder);
    }
    names_absent_kern_or_character(file.counts.first, &file.characters, file.kerns.len(), s)
        || s.skip < STOP_FLAG && file.steps.len() <= k + usize::from(s.skip) + 1
}

/// Whether a step names a kern or a ligature's character that is not there; `kerns` is the number of kerns.
#[tactic(auto, unfolding(crate::specs::Rules::names_absent_kern_or_character))]
fn names_absent_kern_or_character(
    first: u16,
    characters: &[CharInfo],
    kerns: usize,
    s: LigKernStep,
) -> bool
    ensures { result ≡ names_absent_kern_or_character first characters.now kerns s }
{
    if KERN_FLAG <= s.op {
        return kerns <= 256 * usize::from(s.op - KERN_FLAG) + usize::from(s.remainder);
    }
    s.op == 0 && character_at(first, characters, s.remainder).is_none()
}

/// Whether some step names a step, a kern or a character that is not there.
#[tactic(auto, unfolding(crate::specs::Rules::breaks_lig_kern))]
pub fn breaks_lig_kern(file: &Entries) -> bool
    ensures { result ≡ breaks_lig_kern file.now }
{
    file.steps
        .iter()
        .enumerate()
        .any(|(k, s)| breaks_step(file, k, *s))
}
