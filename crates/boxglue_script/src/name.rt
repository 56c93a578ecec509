//! The names of commands, except `text` and `special`, whose lines are not cut into fields.
//!
//! Names are compared one by one: a `match` of byte strings tests each byte, which took 70 of the 267 seconds of the check.

ghost use Rattle.std.specs.Prelude.{◌≡◌};
ghost use Rattle.boxglue_script.specs.Private.Names.{box_name, register_name, item_name, name_of};

use job_machine::{BoxForm, Transfer};
use node_core::Kind;

/// The first word of a command.
#[derive(Clone, Copy, Debug, PartialEq, Eq)]
pub enum Name {
    Font,
    Use,
    /// `hbox`, `vbox` or `vtop`.
    Open(BoxForm),
    Paragraph,
    End,
    Character,
    Rule,
    Kern,
    Glue,
    Penalty,
    /// `box` or `copy`.
    Append(Transfer),
    /// `unhbox`, `unhcopy`, `unvbox` or `unvcopy`.
    Unbox(Kind, Transfer),
    LastBox,
    Split,
    Measure,
    Void,
    Set,
    Count,
    Ship,
}

impl Name {
    /// The name that a word is; None if it is none.
    #[tactic(auto, unfolding(crate::specs::Private::Names::name_of))]
    pub fn of(word: &[u8]) -> Option<Name>
        ensures { result ≡ name_of word.now }
    {
        if let Some(name) = box_name(word) {
            return Some(name);
        }
        match register_name(word) {
            Some(name) => Some(name),
            None => item_name(word),
        }
    }
}

/// The names of commands on lists and whole boxes, and that of rules. Most lines of long scripts are such commands, so these names are compared
/// first.
#[tactic(auto, unfolding(crate::specs::Private::Names::box_name))]
fn box_name(word: &[u8]) -> Option<Name>
    ensures { result ≡ box_name word.now }
{
    if word == b"hbox".as_slice() {
        return Some(Name::Open(BoxForm::Hbox));
    }
    if word == b"rule".as_slice() {
        return Some(Name::Rule);
    }
    if word == b"vbox".as_slice() {
        return Some(Name::Open(BoxForm::Vbox));
    }
    if word == b"vtop".as_slice() {
        return Some(Name::Open(BoxForm::Vtop));
    }
    if word == b"par".as_slice() {
        return Some(Name::Paragraph);
    }
    if word == b"end".as_slice() {
        return Some(Name::End);
    }
    if word == b"measure".as_slice() {
        return Some(Name::Measure);
    }
    if word == b"void".as_slice() {
        return Some(Name::Void);
    }
    if word == b"ship".as_slice() {
        return Some(Name::Ship);
    }
    None
}

/// The names of commands that take the box of a register into a list, take the last box out of a list, or split a box.
#[tactic(auto, unfolding(crate::specs::Private::Names::register_name))]
fn register_name(word: &[u8]) -> Option<Name>
    ensures { result ≡ register_name word.now }
{
    if word == b"box".as_slice() {
        return Some(Name::Append(Transfer::Move));
    }
    if word == b"copy".as_slice() {
        return Some(Name::Append(Transfer::Copy));
    }
    if word == b"unhbox".as_slice() {
        return Some(Name::Unbox(Kind::Horizontal, Transfer::Move));
    }
    if word == b"unhcopy".as_slice() {
        return Some(Name::Unbox(Kind::Horizontal, Transfer::Copy));
    }
    if word == b"unvbox".as_slice() {
        return Some(Name::Unbox(Kind::Vertical, Transfer::Move));
    }
    if word == b"unvcopy".as_slice() {
        return Some(Name::Unbox(Kind::Vertical, Transfer::Copy));
    }
    if word == b"lastbox".as_slice() {
        return Some(Name::LastBox);
    }
    if word == b"vsplit".as_slice() {
        return Some(Name::Split);
    }
    None
}

/// The names of commands on fonts, other items, parameters and counts.
#[tactic(auto, unfolding(crate::specs::Private::Names::item_name))]
fn item_name(word: &[u8]) -> Option<Name>
    ensures { result ≡ item_name word.now }
{
    if word == b"font".as_slice() {
        return Some(Name::Font);
    }
    if word == b"use".as_slice() {
        return Some(Name::Use);
    }
    if word == b"char".as_slice() {
        return Some(Name::Character);
    }
    if word == b"kern".as_slice() {
        return Some(Name::Kern);
    }
    if word == b"glue".as_slice() {
        return Some(Name::Glue);
    }
    if word == b"penalty".as_slice() {
        return Some(Name::Penalty);
    }
    if word == b"set".as_slice() {
        return Some(Name::Set);
    }
    if word == b"count".as_slice() {
        return Some(Name::Count);
    }
    None
}
