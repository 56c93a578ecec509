//! The abstract machine of a job: commands, answers and refusals as types, the definitions of what each command does in `specs/`, and laws of its
//! steps and runs.
//!
//! This crate is what a reader has to believe about commands, apart from the crates below that it cites. `State` is what a job keeps. `Checks`,
//! `Answers` and `Effects` are the table of commands: when each is refused, what it answers and what it changes. `Machine` puts them together into a
//! step, and `Runs` adds what the table leaves open: refused memory and a failing device. No command is carried out here: `job_lists`, `job_state`
//! and `job_core` are proved to do what these definitions say.
#![tactic(auto)]

pub mod command;
pub mod laws;
pub mod parameter;
pub mod replies;
pub mod run_laws;
pub mod special_laws;
pub mod totality_laws;

ghost use Rattle.std.specs.Prelude.{◌≡◌};
ghost use Rattle.job_machine.specs.OpenLists.{kind_by};

pub use command::{
    AppendBox, BoxForm, Characters, Command, CountNumber, Counting, FontLoad, HeapFontLoad,
    Opening, Register, Splitting, Transfer, Unboxing,
};
use node_core::{Kind, NodeList};
pub use pack_core::Target;
pub use page_core::Summary;
pub use parameter::{NumberParameter, Parameter, SizeParameter, SkipParameter};
pub use replies::{Answer, Refusal, Reply};
use scaled_core::Dimen;
pub use scaled_core::Sizes;
use std::alloc::Global;
use std::default::MadeWith;
pub use tfm_core::{FontName, FontSize, TfmCause};

/// What a list was opened for.
#[derive(Clone, Copy, Debug, PartialEq, Eq)]
pub enum ListPurpose {
    /// It becomes a box.
    Box(Opening),
    /// It becomes the lines of a paragraph, which go into the list around it.
    Paragraph,
}

impl ListPurpose {
    /// Whether the list is horizontal or vertical. A paragraph is a horizontal list.
    pub fn kind(self) -> Kind
        ensures { result ≡ kind_by self }
    {
        match self {
            ListPurpose::Box(opening) => opening.form.kind(),
            ListPurpose::Paragraph => Kind::Horizontal,
        }
    }
}

/// An open list of a job.
#[derive(Debug, Drop)]
pub struct OpenList {
    pub purpose: ListPurpose,
    pub list: NodeList,
    /// The depth of the last box in scaled points, from which the glue before the next box of a vertical list is computed.
    /// At -1000pt or less there is no such glue, as before the first box and after a rule.
    pub previous_depth: Dimen,
}

/// An empty list, for a place that a small vector has moved its list out of.
impl MadeWith<Global> for OpenList {
    fn made_with(alloc: Global) -> OpenList {
        OpenList {
            purpose: ListPurpose::Box(Opening {
                form: BoxForm::Hbox,
                target: Target::Natural,
                into: None,
            }),
            list: NodeList::new(alloc),
            previous_depth: Dimen::IGNORE_DEPTH,
        }
    }
}
