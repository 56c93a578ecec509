//! Metric files.

ghost use Rattle.std.specs.Prelude.{◌≡◌, None, Ok, Err, IfOk};
ghost use Rattle.tfm_core.specs.declared.fault.TfmCause.{TfmCause};
ghost use Rattle.tfm_core.specs.declared.fault.TfmFault.TheVariants.{Bad, OutOfMemory};
ghost use Rattle.tfm_core.specs.MetricFile.{MetricFile};
ghost use Rattle.tfm_core.specs.Private.MetricFile.{HasTables};
ghost use Rattle.tfm_core.specs.Scaling.{design_size_of};
ghost use Rattle.tfm_core.specs.Rules.{IsFirstBroken, IsMetricFile, broken_in_front, metric_file};
ghost use Rattle.tfm_core.specs.Private.Rules.{KeepsRules, broken_in_tables};

use crate::entries::{Entries, counts, word};
use crate::fault::{TfmCause, TfmFault};
use crate::rules;
use crate::scaling::FontSize;
use std::alloc::Global;
use std::marker::Model;

/// A metric file that keeps all rules.
#[derive(Debug, Drop)]
pub struct Tfm {
    entries: Entries,
}

impl Model for Tfm {
    ghost use Rattle.tfm_core.specs.MetricFile.{MetricFile};
    ghost use Rattle.tfm_core.specs.Private.Rules.{KeepsRules};

    ghost Value = { MetricFile };

    ghost view = { λ tfm. tfm.entries };

    ghost invariant = { λ tfm. KeepsRules tfm.entries };
}

/// The first broken rule among those that need no table.
#[tactic(auto, using(crate::proofs::RuleLemmas::space), unfolding(crate::specs::Rules::broken_in_front))]
fn broken_in_front(bytes: &[u8]) -> Option<TfmCause>
    ensures value { result ≡ broken_in_front bytes.now }
    ensures space { result ≡ None → HasTables bytes.now }
{
    if rules::is_too_short(bytes) {
        return Some(TfmCause::TooShort);
    }
    if rules::breaks_counts(counts(bytes)) {
        return Some(TfmCause::Counts);
    }
    if rules::breaks_design_size(word(bytes, 7)) {
        return Some(TfmCause::DesignSize);
    }
    None
}

/// The first broken rule among those that need tables.
#[tactic(auto, unfolding(crate::specs::Private::Rules::broken_in_tables))]
fn broken_in_tables(file: &Entries) -> Option<TfmCause>
    ensures { result ≡ broken_in_tables file.now }
{
    if rules::breaks_char_info(file) {
        return Some(TfmCause::CharInfo);
    }
    if rules::breaks_fix_word(file) {
        return Some(TfmCause::FixWord);
    }
    if rules::breaks_lig_kern(file) {
        return Some(TfmCause::LigKern);
    }
    None
}

impl Tfm {
    /// The metric file in the bytes; bytes after its last word are ignored (TFtoPL, 8 to 15). Allocates its tables.
    ///
    /// A file that breaks a rule is never accepted: `Bad` names the first broken rule. `OutOfMemory` is returned if an allocation is refused, and
    /// then the rules `TooShort`, `Counts` and `DesignSize` are kept, which are tested before anything is allocated.
    #[tactic(auto, using(crate::proofs::ReadingLemmas::relations, crate::proofs::ReadingLemmas::reading))]
    pub fn read(alloc: Global, bytes: &[u8]) -> Result<Tfm, TfmFault>
        ensures ok { IfOk result (λ tfm. IsMetricFile bytes.now tfm) }
        ensures bad { (cause : TfmCause) → result ≡ Err (Bad cause) → IsFirstBroken bytes.now cause }
        ensures none { (cause : TfmCause) (file : MetricFile) → result ≡ Err (Bad cause) → IsMetricFile bytes.now file → ⊥ }
        ensures value { IfOk result (λ tfm. metric_file bytes.now ≡ Ok tfm) }
        ensures refused { (cause : TfmCause) → result ≡ Err (Bad cause) → metric_file bytes.now ≡ Err cause }
        ensures early { result ≡ Err OutOfMemory → broken_in_front bytes.now ≡ None }
    {
        if let Some(cause) = broken_in_front(bytes) {
            return Err(TfmFault::Bad(cause));
        }
        let entries = Entries::read(alloc, bytes, counts(bytes))?;
        if let Some(cause) = broken_in_tables(&entries) {
            return Err(TfmFault::Bad(cause));
        }
        Ok(Tfm { entries })
    }
}

impl Tfm {
    /// The design size in scaled points: a sixteenth of word 1 of the header (TFtoPL, 10).
    pub fn design_size(&self) -> FontSize
        ensures { result ≡ design_size_of self.now.design_word }
    {
        FontSize::from_design_word(self.entries.design_word)
    }

    /// The entries of the file, which keep the rules.
    pub(crate) fn entries(&self) -> &Entries
        ensures value { result.now ≡ self.now }
        ensures kept { KeepsRules self.now }
    {
        &self.entries
    }
}
