//! A law of files that are written.

ghost use Rattle.std.specs.Prelude.{◌≡◌, [], true, false, IsSome, IfSome};
ghost use Rattle.boxglue_words.specs.Hosts.{written_to_file};
ghost use Rattle.boxglue_lib.specs.Typesets.{IsUsed, OutFile};

/// A device that took no byte has not created its file, if it is known what the file took and no write failed. So a job without a page, and a
/// script of which nothing was run, do not create the file.
pub fn a_file_without_bytes_is_not_created()
    ensures { (file : OutFile) → IsUsed file → file.done ≡ true → IsSome file.written
        → IfSome (written_to_file file.is_created file.written) (λ bytes. bytes ≡ []) → file.is_created ≡ false }
{}
