//! The commands that the fields of a line give.

ghost use Rattle.std.specs.Prelude.{◌≡◌, Ok, Err, IfOk, IfErr, OnErr};
ghost use Rattle.tfm_core.specs.NamedBytes.{IsFontName};
ghost use Rattle.job_machine.specs.declared.command.Command.TheVariants as commands;
ghost use Rattle.boxglue_script.specs.Grammar.{register_count};
ghost use Rattle.boxglue_script.specs.ScriptLines.{fields_of};
ghost use Rattle.boxglue_script.specs.Private.Reading.{last_count, count_command, counting_of, size_of_font, last_number, map_ok, chosen_size_of};
ghost use Rattle.boxglue_script.specs.Private.Reading.{font_of};
ghost use Rattle.boxglue_script.specs.Private.Reading.{last_penalty, last_amount, opening_command, opening_with_register, opening_into, opening_of};
ghost use Rattle.boxglue_script.specs.Private.Reading.{shift_of};
ghost use Rattle.boxglue_script.specs.Private.Reading.{append_of, unboxing_command, split_into, split_height, split_to, split_of, glue, shrink_of};
ghost use Rattle.boxglue_script.specs.Private.Reading.{last_shrink_of, parts_of, glue_of, parameter_of, rule_of, command_named, command_by};
ghost use Rattle.boxglue_script.specs.Private.Reading.{first_word, content_of, ReadsBytes};

use crate::amounts::Amount;
use crate::cause::Cause;
use crate::fields::Fields;
use crate::line_content::{LineContent, content_of};
use crate::name::Name;
use crate::parameter::{names_first_lines, number_name, size_name, skip_name};
use job_machine::{
    AppendBox, BoxForm, Command, CountNumber, Counting, FontLoad, FontName, FontSize, HeapFontLoad,
    Opening, Parameter, Register, Splitting, Target, Transfer, Unboxing,
};
use node_core::{FirstLines, Glue, IntParameter, Kind, Rule, RuleSize};
use scaled_core::Dimen;
use std::alloc::{AllocError, Global};

impl<'a> Fields<'a> {
    /// What follows the name of a font: nothing, or `at` and a size.
    #[tactic(auto, unfolding(crate::specs::Private::Reading::chosen_size_of))]
    fn chosen_size(&mut self) -> Result<Option<FontSize>, Cause>
        ensures { result ≡ chosen_size_of (fields_of self.old.rest.now) }
    {
        match self.field() {
            Ok(b"at") => {
                let size = self.size_of_font()?;
                self.end()?;
                Ok(Some(size))
            }
            Ok(_) => Err(Cause::Word),
            Err(_) => Ok(None),
        }
    }

    /// The words after `font`, read.
    #[tactic(auto, unfolding(crate::specs::Private::Reading::font_of))]
    fn font_words(&mut self) -> Result<FontWords<'a>, Cause>
        ensures ok { IfOk result (λ words. font_of (fields_of self.old.rest.now)
            ≡ Ok (commands.LoadFont (record { slot = words.slot; name = words.name.now; size = words.size }))) }
        ensures name_valid { IfOk result (λ words. IsFontName words.name.now) }
        ensures err { IfErr result (λ cause. font_of (fields_of self.old.rest.now) ≡ Err cause) }
    {
        let slot = self.value::<u8>()?;
        let name = self.name()?;
        let size = self.chosen_size()?;
        Ok(FontWords { slot, name, size })
    }

    /// The command of what follows `font`. The error is a refused growth, for the name or its place, so only where there is such a command.
    fn font(&mut self, alloc: Global) -> Result<LineContent, AllocError>
        ensures read { IfOk result (λ content. content ≡ content_of (font_of (fields_of self.old.rest.now))) }
        ensures memory { OnErr result (ReadsBytes (font_of (fields_of self.old.rest.now))) }
    {
        match self.font_words() {
            Ok(words) => Ok(LineContent::Command(Command::LoadFont(words.load(alloc)?))),
            Err(cause) => Ok(LineContent::Bad(cause)),
        }
    }

    /// What follows `hbox`, `vbox` or `vtop`: a size or none, and a register or none.
    #[tactic(auto, unfolding(crate::specs::Private::Reading::opening_of, crate::specs::Private::Reading::opening_with_size))]
    fn opening(&mut self, form: BoxForm) -> Result<Command, Cause>
        ensures { result ≡ opening_of form (fields_of self.old.rest.now) }
    {
        match self.field() {
            Ok(b"into") => self.opening_with_register(form, Target::Natural),
            Ok(b"to") => {
                let size = self.value::<Dimen>()?;
                self.opening_into(form, Target::To(size))
            }
            Ok(b"spread") => {
                let more = self.value::<Dimen>()?;
                self.opening_into(form, Target::Spread(more))
            }
            Ok(_) => Err(Cause::Word),
            Err(_) => Ok(opening(form, Target::Natural, None)),
        }
    }

    /// The opening of a list, with nothing after its size, or with `into` and a register.
    #[tactic(auto, unfolding(crate::specs::Private::Reading::opening_into))]
    #[inline(never)]
    fn opening_into(&mut self, form: BoxForm, target: Target) -> Result<Command, Cause>
        ensures { result ≡ opening_into form target (fields_of self.old.rest.now) }
    {
        match self.field() {
            Ok(b"into") => self.opening_with_register(form, target),
            Ok(_) => Err(Cause::Word),
            Err(_) => Ok(opening(form, target, None)),
        }
    }

    /// The opening of a list, with a register as the last field.
    #[tactic(auto, unfolding(crate::specs::Private::Reading::opening_with_register))]
    #[inline(always)]
    fn opening_with_register(&mut self, form: BoxForm, target: Target) -> Result<Command, Cause>
        ensures { result ≡ opening_with_register form target (fields_of self.old.rest.now) }
    {
        let register = self.last_value::<Register>()?;
        Ok(opening(form, target, Some(register)))
    }

    /// What follows `box` or `copy`: a register, and a shift or none.
    #[tactic(auto, unfolding(crate::specs::Private::Reading::append_of))]
    fn append(&mut self, taking: Transfer) -> Result<Command, Cause>
        ensures { result ≡ append_of taking (fields_of self.old.rest.now) }
    {
        let register = self.value::<Register>()?;
        let shift = self.shift()?;
        Ok(Command::Append(AppendBox {
            register,
            taking,
            shift,
        }))
    }

    /// What follows the register of a box: nothing, or `shift` and a dimension.
    #[tactic(auto, unfolding(crate::specs::Private::Reading::shift_of))]
    fn shift(&mut self) -> Result<Dimen, Cause>
        ensures { result ≡ shift_of (fields_of self.old.rest.now) }
    {
        match self.field() {
            Ok(b"shift") => self.last_value::<Dimen>(),
            Ok(_) => Err(Cause::Word),
            Err(_) => Ok(Dimen::ZERO),
        }
    }

    /// What follows `unhbox`, `unhcopy`, `unvbox` or `unvcopy`: a register.
    fn unboxing(&mut self, kind: Kind, taking: Transfer) -> Result<Command, Cause>
        ensures { result ≡ map_ok (unboxing_command kind taking) (last_number register_count (fields_of self.old.rest.now)) }
    {
        let register = self.last_value::<Register>()?;
        Ok(Command::Unbox(Unboxing {
            kind,
            register,
            taking,
        }))
    }

    /// What follows `vsplit`: a register, `to` and a height, and `into` and a register.
    #[tactic(auto, unfolding(crate::specs::Private::Reading::split_of))]
    fn split(&mut self) -> Result<Command, Cause>
        ensures { result ≡ split_of (fields_of self.old.rest.now) }
    {
        let register = self.value::<Register>()?;
        self.split_to(register)
    }

    /// What follows the register of a split: `to`, and a height.
    #[tactic(auto, unfolding(crate::specs::Private::Reading::split_to))]
    fn split_to(&mut self, register: Register) -> Result<Command, Cause>
        ensures { result ≡ split_to register (fields_of self.old.rest.now) }
    {
        match self.field()? {
            b"to" => self.split_height(register),
            _ => Err(Cause::Word),
        }
    }

    /// The height of a split, and what follows it.
    #[tactic(auto, unfolding(crate::specs::Private::Reading::split_height))]
    fn split_height(&mut self, register: Register) -> Result<Command, Cause>
        ensures { result ≡ split_height register (fields_of self.old.rest.now) }
    {
        let height = self.value::<Dimen>()?;
        self.split_into(register, height)
    }

    /// What follows the height of a split: `into` and a register.
    #[tactic(auto, unfolding(crate::specs::Private::Reading::split_into))]
    fn split_into(&mut self, register: Register, height: Dimen) -> Result<Command, Cause>
        ensures { result ≡ split_into register height (fields_of self.old.rest.now) }
    {
        match self.field()? {
            b"into" => {
                let into = self.last_value::<Register>()?;
                Ok(Command::Split(Splitting {
                    register,
                    height,
                    into,
                }))
            }
            _ => Err(Cause::Word),
        }
    }

    /// The last fields as glue: its width, and its stretch, its shrink or both.
    #[tactic(auto, unfolding(crate::specs::Private::Reading::glue_of))]
    fn glue(&mut self) -> Result<Glue, Cause>
        ensures { result ≡ glue_of (fields_of self.old.rest.now) }
    {
        let width = self.value::<Dimen>()?;
        self.glue_parts(width)
    }

    /// What follows the width of a glue: nothing, or its stretch, its shrink or both.
    #[tactic(auto, unfolding(crate::specs::Private::Reading::parts_of))]
    fn glue_parts(&mut self, width: Dimen) -> Result<Glue, Cause>
        ensures { result ≡ parts_of width (fields_of self.old.rest.now) }
    {
        match self.field() {
            Ok(b"plus") => {
                let stretch = self.value::<Amount>()?;
                self.shrink(width, stretch)
            }
            Ok(b"minus") => self.last_shrink(width, Amount::none()),
            Ok(_) => Err(Cause::Word),
            Err(_) => Ok(glue(width, Amount::none(), Amount::none())),
        }
    }

    /// What follows the stretch of a glue: nothing, or `minus` and its shrink.
    #[tactic(auto, unfolding(crate::specs::Private::Reading::shrink_of))]
    fn shrink(&mut self, width: Dimen, stretch: Amount) -> Result<Glue, Cause>
        ensures { result ≡ shrink_of width stretch (fields_of self.old.rest.now) }
    {
        match self.field() {
            Ok(b"minus") => self.last_shrink(width, stretch),
            Ok(_) => Err(Cause::Word),
            Err(_) => Ok(glue(width, stretch, Amount::none())),
        }
    }

    /// Glue of that width and stretch, with its shrink as the last field.
    #[tactic(auto, unfolding(crate::specs::Private::Reading::last_shrink_of))]
    fn last_shrink(&mut self, width: Dimen, stretch: Amount) -> Result<Glue, Cause>
        ensures { result ≡ last_shrink_of width stretch (fields_of self.old.rest.now) }
    {
        let shrink = self.last_value::<Amount>()?;
        Ok(glue(width, stretch, shrink))
    }

    /// What follows `set`: the name of a parameter and its value.
    #[tactic(auto, unfolding(crate::specs::Private::Reading::parameter_of))]
    fn parameter(&mut self) -> Result<Parameter, Cause>
        ensures { result ≡ parameter_of (fields_of self.old.rest.now) }
    {
        let word = self.field()?;
        if let Some(name) = size_name(word) {
            let size = self.last_value::<Dimen>()?;
            return Ok(Parameter::Size(name, size));
        }
        if let Some(name) = skip_name(word) {
            let glue = self.glue()?;
            return Ok(Parameter::Skip(name, glue));
        }
        if let Some(name) = number_name(word) {
            let number = self.last_value::<IntParameter>()?;
            return Ok(Parameter::Number(name, number));
        }
        if !names_first_lines(word) {
            return Err(Cause::Word);
        }
        let lines = self.last_value::<FirstLines>()?;
        Ok(Parameter::FirstLines(lines))
    }

    /// What follows `count`: the number of a count, and its value.
    #[tactic(auto, unfolding(crate::specs::Private::Reading::counting_of))]
    fn counting(&mut self) -> Result<Command, Cause>
        ensures { result ≡ counting_of (fields_of self.old.rest.now) }
    {
        let count = self.value::<CountNumber>()?;
        let value = self.last_value::<i32>()?;
        Ok(Command::Count(Counting { count, value }))
    }

    /// What follows `rule`.
    #[tactic(auto, unfolding(crate::specs::Private::Reading::rule_of))]
    fn rule(&mut self) -> Result<Command, Cause>
        ensures { result ≡ rule_of (fields_of self.old.rest.now) }
    {
        let width = self.value::<RuleSize>()?;
        let height = self.value::<RuleSize>()?;
        let depth = self.value::<RuleSize>()?;
        self.end()?;
        Ok(Command::Rule(Rule {
            width,
            height,
            depth,
        }))
    }

    /// The command of that name with the fields after it. The error is a refused growth, only for a font.
    #[tactic(auto, unfolding(crate::specs::Private::Reading::command_named))]
    fn command_named(&mut self, alloc: Global, name: Name) -> Result<LineContent, AllocError>
        ensures read { IfOk result (λ content. content ≡ content_of (command_named name (fields_of self.old.rest.now))) }
        ensures memory { OnErr result (ReadsBytes (command_named name (fields_of self.old.rest.now))) }
    {
        match name {
            Name::Font => self.font(alloc),
            Name::Use => Ok(content_of(self.last_value::<u8>().map(Command::UseFont))),
            Name::Open(form) => Ok(content_of(self.opening(form))),
            Name::Paragraph => Ok(content_of(self.end().map(|()| Command::Paragraph))),
            Name::End => Ok(content_of(self.end().map(|()| Command::End))),
            Name::Character => Ok(content_of(self.last_value::<u8>().map(Command::Character))),
            Name::Rule => Ok(content_of(self.rule())),
            Name::Kern => Ok(content_of(self.last_value::<Dimen>().map(Command::Kern))),
            Name::Glue => Ok(content_of(self.glue().map(Command::Glue))),
            Name::Penalty => Ok(content_of(
                self.last_value::<IntParameter>().map(Command::Penalty),
            )),
            Name::Append(taking) => Ok(content_of(self.append(taking))),
            Name::Unbox(kind, taking) => Ok(content_of(self.unboxing(kind, taking))),
            Name::LastBox => Ok(content_of(self.last_value::<Register>().map(Command::LastBox))),
            Name::Split => Ok(content_of(self.split())),
            Name::Measure => Ok(content_of(self.last_value::<Register>().map(Command::Measure))),
            Name::Void => Ok(content_of(self.last_value::<Register>().map(Command::Void))),
            Name::Set => Ok(content_of(self.parameter().map(Command::Set))),
            Name::Count => Ok(content_of(self.counting())),
            Name::Ship => Ok(content_of(self.last_value::<Register>().map(Command::Ship))),
        }
    }

    /// The command that a first word and the fields after it give, or the cause at the first bad field from the left. Where there is no field the
    /// word is empty. The error is a refused growth, only for a font.
    pub fn command(&mut self, alloc: Global, word: &[u8]) -> Result<LineContent, AllocError>
        ensures read { IfOk result (λ content. content ≡ content_of (command_by (first_word word.now) (fields_of self.old.rest.now))) }
        ensures memory { OnErr result (ReadsBytes (command_by (first_word word.now) (fields_of self.old.rest.now))) }
    {
        if word.is_empty() {
            return Ok(LineContent::Bad(Cause::Missing));
        }
        match Name::of(word) {
            Some(name) => self.command_named(alloc, name),
            None => Ok(LineContent::Bad(Cause::Word)),
        }
    }
}

/// The words after `font`: a slot, a name, and a size or none.
#[derive(Drop)]
struct FontWords<'a> {
    slot: u8,
    name: &'a [u8],
    size: Option<FontSize>,
}

impl<'a> FontWords<'a> {
    /// The command's data, with a copy of the name, on the heap.
    fn load(&self, alloc: Global) -> Result<HeapFontLoad, AllocError>
        requires { IsFontName self.now.name.now }
        ensures { IfOk result (λ load. load ≡ record { slot = self.now.slot; name = self.now.name.now; size = self.now.size }) }
    {
        let Some(name) = FontName::try_new(self.name.to_vec(alloc)?) else {
            unreachable!()
        };
        let load = FontLoad {
            slot: self.slot,
            name,
            size: self.size,
        };
        HeapFontLoad::new(alloc, load)
    }
}

/// The opening of a list of that form and size, for that register or for the enclosing list.
fn opening(form: BoxForm, target: Target, into: Option<Register>) -> Command
    ensures { result ≡ opening_command form target into }
{
    Command::Open(Opening { form, target, into })
}

/// Glue of that width, stretch and shrink.
fn glue(width: Dimen, stretch: Amount, shrink: Amount) -> Glue
    ensures { result ≡ glue width stretch shrink }
{
    Glue {
        width,
        stretch: stretch.size,
        stretch_order: stretch.order,
        shrink: shrink.size,
        shrink_order: shrink.order,
    }
}
