//! A law about the words that ask for the version.

ghost use Rattle.std.specs.Prelude.{◌∷◌, List, codes};
ghost use Rattle.clap.specs.Words.{Text};
ghost use Rattle.boxglue_words.specs.Tasks.{IsTask};
ghost use Rattle.boxglue_words.specs.declared.task.Task.TheVariants.{Version};

/// Words ask for the version if the first is `--version` or `-V`, whatever the words after it are.
pub fn the_first_word_asks_for_the_version()
    ensures long { (rest : List Text) → IsTask (codes "--version" ∷ rest) Version }
    ensures short { (rest : List Text) → IsTask (codes "-V" ∷ rest) Version }
{}
