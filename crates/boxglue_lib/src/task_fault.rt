//! Why a task printed no whole text.

ghost use Rattle.std.specs.Prelude.{◌≡◌};
ghost use Rattle.boxglue_lib.specs.Faults.{of_input, of_print, of_run};
ghost use Rattle.boxglue_lib.specs.declared.task_fault.TaskFault.TheVariants.{OutOfMemory, Unwritten};

use crate::printing::PrintFault;
use boxglue_program::{RunFault, UnwrittenText};
use boxglue_words::InputFault;
use std::alloc::AllocError;

/// Why a task did not print its whole text to the output. A task that printed it ends with whether nothing was refused.
#[derive(Clone, Copy, Debug)]
pub enum TaskFault<'a> {
    /// The output did not take the whole text, only a beginning of it.
    Unwritten,
    /// A growth of memory was refused. Nothing was printed, but by a session its answers so far.
    OutOfMemory,
    /// The file at this path could not be read; `-` is standard input. Nothing was printed, but by a session its answers so far.
    Unreadable(&'a str),
    /// The DVI file has no such page, and nothing was printed.
    NoSuchPage,
}

impl From<AllocError> for TaskFault<'_> {
    ghost from_gives = { λ _ fault. fault ≡ OutOfMemory };

    fn from(_error: AllocError) -> Self {
        TaskFault::OutOfMemory
    }
}

impl From<UnwrittenText> for TaskFault<'_> {
    ghost from_gives = { λ _ fault. fault ≡ Unwritten };

    fn from(_error: UnwrittenText) -> Self {
        TaskFault::Unwritten
    }
}

impl<'a> From<InputFault<'a>> for TaskFault<'a> {
    ghost from_gives = { λ unread fault. fault ≡ of_input unread };

    fn from(unread: InputFault<'a>) -> TaskFault<'a> {
        match unread {
            InputFault::OutOfMemory => TaskFault::OutOfMemory,
            InputFault::Unreadable(path) => TaskFault::Unreadable(path),
        }
    }
}

impl From<PrintFault> for TaskFault<'_> {
    ghost from_gives = { λ unprinted fault. fault ≡ of_print unprinted };

    fn from(unprinted: PrintFault) -> Self {
        match unprinted {
            PrintFault::OutOfMemory => TaskFault::OutOfMemory,
            PrintFault::Unwritten => TaskFault::Unwritten,
            PrintFault::NoSuchPage => TaskFault::NoSuchPage,
        }
    }
}

impl<D: Drop> From<RunFault<D>> for TaskFault<'_> {
    ghost from_gives = { λ left fault. fault ≡ of_run left };

    fn from(left: RunFault<D>) -> Self {
        match left {
            RunFault::Memory(_) => TaskFault::OutOfMemory,
            RunFault::Answers(_) => TaskFault::Unwritten,
        }
    }
}
