//! Laws about reading back what a job has written: its file is opened with exactly the pages of the job, and the file of a typeset script is listed
//! with exactly the marks of its pages.

ghost use Rattle.std.specs.Prelude.{◌≡◌, ◌≢◌, [], ℕ, Bool, List, Some, Result, Ok, IfSome, OnOk};
ghost use Rattle.job_machine.specs.declared.replies.Refusal.{Refusal};
ghost use Rattle.page_core.specs.declared.summary.Summary.{Summary};
ghost use Rattle.job_core.specs.Jobs.{Represents, JobView};
ghost use Rattle.job_core.specs.Shown.{FilesPages};
ghost use Rattle.boxglue_print.specs.Outputs.{IsListed};
ghost use Rattle.job_machine.specs.Machine.{Machine};
ghost use Rattle.boxglue_program.specs.Reports.{any_bytes};
ghost use Rattle.boxglue_program.specs.Runs.{RanScript};
ghost use Rattle.boxglue_print.specs.ReadBack.{IsReadBack, ListsPages};
ghost use Rattle.tfm_core.specs.NamedBytes.{NamedBytes};

use dvi_ops::dvi_file_laws::one_file;

/// The file of a finished job with at least one page is opened with the job's font files, unless memory is refused, and its pages are those of the
/// machine, in order: the same counts, glyphs, rules and specials.
///
/// It follows from what `Job::finish` and `Dvi::open` ensure (`dvi` and `exact`).
pub fn finished_files_are_read_back()
    ensures { (m : Machine) (old new : JobView) (ended : Result Summary Refusal)
        → Represents old m → m.pages ≢ [] → FilesPages old ended new → OnOk ended (IfSome new.bytes_written (IsReadBack m)) }
{}

/// Where a script was run to a good end and its device reports the bytes of at least one page, `list` accepts these bytes with the same font files,
/// and lists the marks of the pages of the machine that ran the script's commands, in order.
///
/// It follows from what `run_script` ensures (`answers`), and what each call that lists a file does (`IsListed`).
pub fn typeset_scripts_are_listed()
    ensures { (text answer bytes : List ℕ) (files : List NamedBytes) (n k : ℕ) (fine : Bool)
        (ran : RanScript any_bytes text files n k (Some bytes) answer fine) (summary : Summary)
        → ran.end ≡ Ok summary → ran.run.middle.pages ≢ []
        → (listed : List ℕ) (accepted : Bool) → IsListed files bytes listed accepted → ListsPages ran.run.middle.pages listed accepted }
{
    one_file()
}
