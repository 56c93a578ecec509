//! The pages of a checked file, for contracts alone.

ghost use Rattle.std.specs.Prelude.{List};
ghost use Rattle.std.specs.Borrow.{ftrue};
ghost use Rattle.dvi_ops.specs.File.{MarkedPage};

use crate::check::checked_file::CheckedFile;
use std::marker::{Model, PhantomData};

/// The pages that a checked file shows. It has no size, and only contracts read it: no page is kept.
#[derive(Drop)]
pub struct ShownPages {
    of: PhantomData<()>,
    pub ghost pages: { List MarkedPage },
}

impl Model for ShownPages {
    ghost also_owns = { λ _. ftrue };
}

impl ShownPages {
    ghost use Rattle.dvi_read.specs.Private.ShownPages.{ShowsPages};

    /// The pages that the file shows. Its caller has shown that there are some.
    pub(crate) fn of(_file: &CheckedFile<'_>) -> ShownPages
        requires { (pages : List MarkedPage) × ShowsPages _file.now pages }
        ensures { ShowsPages _file.now result.pages }
    {
        ShownPages { of: PhantomData }
    }
}
