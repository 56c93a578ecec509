//! The commands of a job.

ghost use Rattle.std.specs.Prelude.{◌≡◌, ◌<◌, IfOk};
ghost use Rattle.std.specs.Option.{SomeIff};
ghost use Rattle.job_machine.specs.BoxForms.{kind_of};

use crate::parameter::Parameter;
use node_core::limits::REGISTERS;
use node_core::{Glue, IntParameter, Kind, Rule};
use pack_core::Target;
use scaled_core::{COUNTS, Dimen};
use std::alloc::{AllocError, Global};
use std::marker::Model;
use std::ops::Deref;
use tfm_core::{FontName, FontSize};

/// The number of a box register: 0 to 32767.
#[derive(Clone, Copy, Debug, PartialEq, Eq)]
pub struct Register {
    number: u16,
}

impl Model for Register {
    ghost use Rattle.std.specs.Prelude.{ℕ, ◌<◌};
    ghost use Rattle.node_core.specs.declared.limits.TheConstants.{REGISTERS};

    ghost Value = { ℕ };

    ghost view = { λ register. register.number };

    ghost invariant = { λ register. register.number < REGISTERS };

    ghost inverse = { λ n. record { number = n } };
}

impl Register {
    /// The register of number 0.
    pub const FIRST: Register = Register { number: 0 };

    /// The register with that number, or None if the number is above 32767.
    pub fn try_new(number: u64) -> Option<Register>
        ensures { SomeIff result (number < REGISTERS) number }
    {
        if number < REGISTERS as u64 {
            Some(Register {
                number: number as u16,
            })
        } else {
            None
        }
    }

    /// The number of the register.
    pub fn number(self) -> usize
        ensures value { result ≡ self }
        ensures number_bounded { result < REGISTERS }
    {
        self.number as usize
    }
}

/// The number of a count: 0 to 9.
#[derive(Clone, Copy, Debug, PartialEq, Eq)]
pub struct CountNumber {
    number: u8,
}

impl Model for CountNumber {
    ghost use Rattle.std.specs.Prelude.{ℕ, ◌<◌};
    ghost use Rattle.scaled_core.specs.declared.counts.TheConstants.{COUNTS};

    ghost Value = { ℕ };

    ghost view = { λ count. count.number };

    ghost invariant = { λ count. count.number < COUNTS };

    ghost inverse = { λ n. record { number = n } };
}

impl CountNumber {
    /// The count with that number, or None if the number is above 9.
    pub fn try_new(number: u64) -> Option<CountNumber>
        ensures { SomeIff result (number < COUNTS) number }
    {
        if number < COUNTS as u64 {
            Some(CountNumber {
                number: number as u8,
            })
        } else {
            None
        }
    }

    /// The number of this count.
    pub fn number(self) -> usize
        ensures value { result ≡ self }
        ensures number_bounded { result < COUNTS }
    {
        self.number as usize
    }
}

/// The bytes of a text: the codes of characters in a font, or the text of a special.
#[derive(Debug, Drop)]
pub struct Characters {
    codes: Vec<u8>,
}

impl Model for Characters {
    ghost use Rattle.std.specs.Prelude.{ℕ, List};

    ghost Value = { List ℕ };

    ghost view = { λ characters. characters.codes.items };
}

impl Characters {
    /// Wraps these codes. A text may have any length; the commands that take it have the limits.
    pub fn new(codes: Vec<u8>) -> Characters
        ensures { result ≡ codes.items }
    {
        Characters { codes }
    }

    /// The codes, in order.
    pub fn codes(&self) -> &[u8]
        ensures { result.now ≡ self.now }
    {
        &self.codes
    }
}

/// Which font file is read, at which size, and into which slot.
#[derive(Debug, Drop)]
pub struct FontLoad {
    pub slot: u8,
    pub name: FontName,
    /// The size of the font; None for the design size of the file.
    pub size: Option<FontSize>,
}

/// The data of a font command on the heap, so that a line of a script takes 40 bytes in place of 56. In contracts its value is the `FontLoad`: a
/// clause sees no pointer.
#[derive(Debug, Drop)]
pub struct HeapFontLoad {
    content: Box<FontLoad>,
}

impl Model for HeapFontLoad {
    ghost use Rattle.job_machine.specs.declared.command.FontLoad.{FontLoad};

    ghost Value = { FontLoad };

    ghost view = { λ load. load.content.value };
}

impl HeapFontLoad {
    /// Moves a `FontLoad` to the heap. The error is a refused growth.
    pub fn new(alloc: Global, load: FontLoad) -> Result<HeapFontLoad, AllocError>
        ensures { IfOk result (λ heap. heap ≡ load) }
    {
        let content = Box::new(alloc, load)?;
        Ok(HeapFontLoad { content })
    }
}

impl Deref for HeapFontLoad {
    type Target = FontLoad;

    ghost deref_gives = { λ heap load. load ≡ heap };

    #[inline]
    fn deref(&self) -> &FontLoad
        ensures { result.now ≡ self.now }
    {
        &self.content
    }
}

/// The form of the box that an open list becomes.
#[derive(Clone, Copy, Debug, PartialEq, Eq)]
pub enum BoxForm {
    /// A box of a horizontal list.
    Hbox,
    /// A box of a vertical list, whose baseline is at the bottom.
    Vbox,
    /// A box of a vertical list, whose baseline is that of its first item, if this is a box or a rule.
    Vtop,
}

impl BoxForm {
    /// The direction of the list of such a box.
    pub fn kind(self) -> Kind
        ensures { result ≡ kind_of self }
    {
        match self {
            BoxForm::Hbox => Kind::Horizontal,
            BoxForm::Vbox => Kind::Vertical,
            BoxForm::Vtop => Kind::Vertical,
        }
    }
}

/// Opens a list: the form of its box, the size that the box is set to, and the register that it goes into.
/// With None for the register, the box goes to the end of the enclosing list.
#[derive(Clone, Copy, Debug, PartialEq, Eq)]
pub struct Opening {
    pub form: BoxForm,
    pub target: Target,
    pub into: Option<Register>,
}

/// Whether a command uses up the box of a register.
#[derive(Clone, Copy, Debug, PartialEq, Eq)]
pub enum Transfer {
    /// The box itself: the register becomes void.
    Move,
    /// A copy: the register keeps its box.
    Copy,
}

/// The register whose box is appended, and the shift of the box in scaled points: down in a horizontal list, to the right in a vertical one.
#[derive(Clone, Copy, Debug, PartialEq, Eq)]
pub struct AppendBox {
    pub register: Register,
    pub taking: Transfer,
    pub shift: Dimen,
}

/// The register whose items are appended, and the kind of box that it has to hold.
#[derive(Clone, Copy, Debug, PartialEq, Eq)]
pub struct Unboxing {
    pub kind: Kind,
    pub register: Register,
    pub taking: Transfer,
}

/// The register whose box is split, the height of the front in scaled points, and the register that the front goes into.
#[derive(Clone, Copy, Debug, PartialEq, Eq)]
pub struct Splitting {
    pub register: Register,
    pub height: Dimen,
    pub into: Register,
}

/// The count that is set, and its new value.
#[derive(Clone, Copy, Debug, PartialEq, Eq)]
pub struct Counting {
    pub count: CountNumber,
    pub value: i32,
}

/// A command to a job, with its name in scripts. The abstract machine of `job_machine` defines what each one does.
#[derive(Debug, Drop)]
pub enum Command {
    /// `font`: reads a font file into a slot that has no font.
    LoadFont(HeapFontLoad),
    /// `use`: chooses the font of a slot as the current one.
    UseFont(u8),
    /// `hbox`, `vbox` and `vtop`: opens a list, which becomes a box at its end.
    Open(Opening),
    /// `par`: opens a paragraph inside a vertical list.
    Paragraph,
    /// `end`: ends the innermost open list. Its box goes into its register or to the end of the enclosing list; a paragraph is broken into lines,
    /// which go to the end of the enclosing list.
    End,
    /// `text`: appends a text in the current font to the innermost open list: its characters with their kerns and ligatures, and one glue for each
    /// run of spaces.
    Text(Characters),
    /// `char`: appends one character of the current font to the innermost open list, without kerns and ligatures.
    Character(u8),
    /// `rule`: appends a rule to the innermost open list.
    Rule(Rule),
    /// `kern`: appends an explicit kern to the innermost open list.
    Kern(Dimen),
    /// `glue`: appends glue to the innermost open list.
    Glue(Glue),
    /// `penalty`: appends a penalty to the innermost open list.
    Penalty(IntParameter),
    /// `box` and `copy`: appends the box of a register to the innermost open list; in a vertical list interline glue comes before it.
    Append(AppendBox),
    /// `unhbox`, `unhcopy`, `unvbox` and `unvcopy`: appends the items of a register's box to the innermost open list.
    Unbox(Unboxing),
    /// `lastbox`: takes the last item of the innermost open list into a register, if it is a box. Otherwise the register becomes void.
    LastBox(Register),
    /// `vsplit`: splits the vbox of a register at a height. The rest goes back into its register, and then the front into the other one.
    Split(Splitting),
    /// `measure`: reports what a register holds.
    Measure(Register),
    /// `void`: makes a register void.
    Void(Register),
    /// `set`: gives a parameter its value.
    Set(Parameter),
    /// `count`: sets a count, which each later page carries.
    Count(Counting),
    /// `special`: appends a special to the innermost open list: a text for the program that reads the DVI file. It takes no space.
    Special(Characters),
    /// `ship`: ships the box of a register as a page; the register becomes void.
    Ship(Register),
}
