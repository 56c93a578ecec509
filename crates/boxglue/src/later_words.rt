//! The words of the command line after the program's own path.

ghost use Rattle.std.specs.Prelude.{◌≡◌, ◌+◌, IfSome};

use std::alloc::{Alloc, Global};
use std::env::FillError;
use std::rt::Env;

/// A runtime whose words begin after the path that the program was started by. That path is not read, as it may be any bytes.
#[derive(Drop)]
pub struct LaterWords<'a> {
    rt: &'a HostRuntime,
}

impl<'a> LaterWords<'a> {
    /// The words of a runtime after its first.
    pub fn of(rt: &'a HostRuntime) -> LaterWords<'a> {
        LaterWords { rt }
    }
}

/// The index, among all words, of the word at this index among those after the first.
fn place_of(index: usize) -> Option<usize>
    ensures { IfSome result (λ place. place ≡ index + 1) }
{
    index.checked_add(1)
}

impl Alloc for LaterWords<'_> {
    type A = Global;

    fn alloc(&self) -> Global {
        self.rt.alloc()
    }
}

impl Env for LaterWords<'_> {
    fn arg(&self, i: usize, buf: &mut [u8]) -> Result<usize, FillError> {
        match place_of(i) {
            Some(place) => self.rt.arg(place, buf),
            None => Err(FillError::NotPresent),
        }
    }

    fn var(&self, name: &str, buf: &mut [u8]) -> Result<usize, FillError> {
        self.rt.var(name, buf)
    }

    fn var_at(&self, i: usize, buf: &mut [u8]) -> Result<usize, FillError> {
        self.rt.var_at(i, buf)
    }
}
