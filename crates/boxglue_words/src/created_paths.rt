//! The paths of the files that a host created, for contracts alone.

ghost use Rattle.std.specs.Prelude.{◌≡◌, ◌∷◌, [], ℕ, List};
ghost use Rattle.std.specs.Borrow.{ftrue};

use std::marker::Model;

/// The paths of the files that a host created, the last one first. It takes no bytes, and only contracts read it.
#[derive(Debug, Drop)]
pub struct CreatedPaths {
    pub ghost paths: { List (List ℕ) },
}

impl Model for CreatedPaths {
    ghost also_owns = { λ _. ftrue };
}

/// Where a file is created. A reference to it is a plain one, of which the proof of `then` speaks.
#[derive(Clone, Copy, Drop)]
struct Place<'a> {
    path: &'a str,
}

impl CreatedPaths {
    /// The paths of a host that has created no file.
    pub fn none() -> CreatedPaths
        ensures { result.paths ≡ [] }
    {
        CreatedPaths {}
    }

    /// The paths after one more creation.
    fn then(&self, _place: &Place<'_>) -> CreatedPaths
        ensures { result.paths ≡ _place.now.path.now ∷ self.now.paths }
    {
        CreatedPaths {}
    }

    /// Keeps the path of a file that was created.
    pub fn add(&mut self, path: &str)
        ensures { self.new.paths ≡ path.now ∷ self.old.paths }
    {
        *self = self.then(&Place { path });
    }
}
