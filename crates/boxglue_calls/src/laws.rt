//! Laws of the status of a run, and of what suffices for the answers of a call.

ghost use Rattle.std.specs.Prelude.{◌≡◌, ◌≢◌, ◌≤◌, ◌<◌, ◌⊎◌, ◌↔◌, ℕ, ℤ, List, length, slice_index, Contains, Option, Result, Err, true, is_ok};
ghost use Rattle.std.specs.List.{list_all};
ghost use Rattle.job_machine.specs.declared.replies.Refusal.{Refusal};
ghost use Rattle.job_machine.specs.declared.replies.Refusal.TheVariants.{OutOfMemory};
ghost use Rattle.page_core.specs.declared.summary.Summary.{Summary};
ghost use Rattle.job_machine.specs.Reply.{Reply};
ghost use Rattle.boxglue_program.specs.Runs.{is_accepted};
ghost use Rattle.tfm_core.specs.NamedBytes.{NamedBytes};
ghost use Rattle.dvi_read.specs.Opening.{IsDviFault};
ghost use Rattle.dvi_read.specs.declared.fault.DviFault.{DviFault};
ghost use Rattle.boxglue_calls.specs.Calls.{ReadsMetrics};
ghost use Rattle.boxglue_calls.specs.FileFaults.{ChecksFile, missing_name};
ghost use Rattle.boxglue_calls.specs.Metrics.{AreMetrics, MetricOutputs};
ghost use Rattle.boxglue_calls.specs.declared.faults.Fault.{Fault};
ghost use Rattle.boxglue_calls.specs.declared.font_rows.FontParameters.{FontParameters};
ghost use Rattle.boxglue_calls.specs.declared.font_rows.FontStep.{FontStep};
ghost use Rattle.boxglue_calls.specs.declared.font_rows.Glyph.{Glyph};
ghost use Rattle.boxglue_calls.specs.RunStatus.{replies_status, reply_status, run_status};

/// The status of replies, of an end, and of a run with both, is 7 exactly where one of them is OutOfMemory, and 0 exactly where nothing was refused.
pub fn statuses_of_replies()
    ensures memory { (replies : List Reply) → (replies_status replies ≡ 7) ↔ Contains replies (Err OutOfMemory) }
    ensures end_memory { (end : Result Summary Refusal) → (reply_status end ≡ 7) ↔ (end ≡ Err OutOfMemory) }
    ensures run_memory { (replies : List Reply) (end : Result Summary Refusal)
        → (run_status replies end ≡ 7) ↔ (Contains replies (Err OutOfMemory) ⊎ (end ≡ Err OutOfMemory)) }
    ensures accepted { (replies : List Reply) → (replies_status replies ≡ 0) ↔ (list_all is_ok replies ≡ true) }
    ensures run_accepted { (replies : List Reply) (end : Result Summary Refusal) → (run_status replies end ≡ 0) ↔ (is_accepted replies end ≡ true) }
{}

/// The name of a missing font has at most 255 bytes, since its length in a file is one byte. So a buffer of 255 bytes suffices for it.
pub fn names_are_short()
    ensures names { (files : List NamedBytes) (bytes : List ℕ) (fault : DviFault) → ((k : ℕ) → slice_index bytes k < 256)
        → IsDviFault files bytes fault → length (missing_name fault) ≤ 255 }
    ensures sizes { (files : List NamedBytes) (bytes : List ℕ) (name : List ℕ × List ℕ) (numbers : Fault) (status : ℕ)
        → ((k : ℕ) → slice_index bytes k < 256) → ChecksFile files bytes name numbers status → numbers.name_size ≤ 255 }
{}

/// A font has at most one step for each pair of its characters. So a buffer of 65,536 rows is never too small for them.
pub fn steps_suffice()
    ensures steps { (tfm : List ℕ) (size : Option ℤ) (glyphs : List Glyph) (parameters : FontParameters) (steps : List FontStep)
        → AreMetrics tfm size glyphs parameters steps → length steps ≤ 65536 }
    ensures enough { (tfm : List ℕ) (size : ℤ) (old new : MetricOutputs) (status : ℕ) → ReadsMetrics tfm size old new status
        → 65536 ≤ length old.steps → status ≢ 4 }
{}
