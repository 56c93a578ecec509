//! The replies of a job: answers to commands, and refusals.

use node_core::Kind;
use scaled_core::Sizes;
use std::alloc::AllocError;
use tfm_core::TfmCause;
use thiserror::Error;

/// The answer to a command that was accepted.
#[derive(Clone, Copy, Debug, PartialEq, Eq)]
pub enum Answer {
    /// The command was done, and has nothing to report.
    Done,
    /// The sizes of the box that was packed, and the badness of its setting: 0 to 10000, or 1000000 if it is overfull.
    Packed(Sizes, u32),
    /// The kind and the sizes of the box in the register.
    Measured(Kind, Sizes),
    /// The register that was measured is void.
    MeasuredVoid,
    /// How many items the characters added to the open list, and how many of the characters the font does not have.
    Shaped {
        items: usize,
        missing: usize,
    },
    /// How many items were added to the open list.
    Added(usize),
    /// How a paragraph was broken: the number of its lines, the pass that gave them (1 to 3), the sum of the widths by which lines are overfull, in
    /// scaled points, and the demerits of its lines. All are 0 if the paragraph is empty.
    Paragraph {
        lines: usize,
        pass: u8,
        overhang: i64,
        demerits: i64,
    },
    /// The sizes of the front of a split, the badness of its setting, and the sizes of the rest, if there is one.
    Split {
        front: Sizes,
        badness: u32,
        rest: Option<Sizes>,
    },
    /// The register whose box was to be split is void.
    SplitVoid,
    /// The number of pages that were shipped so far, with this one.
    Shipped(u32),
}

/// Why a command, or the end of the job, was refused. Each text gives the cause.
#[derive(Clone, Copy, Debug, PartialEq, Eq, Error)]
pub enum Refusal {
    #[error("a growth of memory was refused")]
    OutOfMemory,
    #[error("a size or total does not fit")]
    DimensionTooLarge,
    #[error("there is no font in the slot, no current font, or no file of that name")]
    NoFont,
    #[error("{0}")]
    BadTfm(TfmCause),
    #[error("the slot has a font already")]
    SlotTaken,
    #[error("a list is needed and none is open")]
    NoOpenList,
    #[error("the command does not belong in this kind of list")]
    WrongMode,
    #[error("the register holds the other kind of box")]
    WrongKind,
    #[error("an open list would exceed 65536 items")]
    ListTooLong,
    #[error("more than 64 lists would be open, or a box is deeper than 200")]
    TooDeep,
    #[error("a list that is split or a paragraph shrinks without limit")]
    InfiniteShrink,
    #[error("a paragraph has more than 8192 places for breaks")]
    TooManyBreaks,
    #[error("a place or size of the page does not fit")]
    HugePage,
    #[error("as many pages as there can be are shipped already")]
    TooManyPages,
    #[error("more than 16777216 nodes would be shipped in the job")]
    TooMuchShipped,
    #[error("a text of a special has more than 65535 bytes, or more than 1048576 bytes of special texts would be shipped in the job")]
    TooMuchSpecial,
    #[error("the job is to be finished while a list is open")]
    ListsOpen,
    #[error("the device failed during this call")]
    Device,
    #[error("the job was finished, or the device failed before")]
    JobOver,
    #[error("the register is void")]
    VoidBox,
}

impl From<AllocError> for Refusal {
    ghost use Rattle.std.specs.Prelude.{◌≡◌};
    ghost use Rattle.job_machine.specs.declared.replies.Refusal.TheVariants.{OutOfMemory};

    ghost from_gives = { λ _ refusal. refusal ≡ OutOfMemory };

    fn from(_error: AllocError) -> Refusal {
        Refusal::OutOfMemory
    }
}

/// The reply of a job to a command.
pub type Reply = Result<Answer, Refusal>;
