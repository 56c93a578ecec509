//! The fields of a line, read from the left: each as the kind of value that belongs there. A field that is missing has the cause Missing in all
//! calls.

ghost use Rattle.std.specs.Prelude.{◌≡◌, Ok, Err, IfOk, IfErr};
ghost use Rattle.tfm_core.specs.NamedBytes.{IsFontName};
ghost use Rattle.boxglue_script.specs.ScriptLines.{fields_of};
ghost use Rattle.boxglue_script.specs.Private.Reading.{first_of, rest_of, value_first, last_value, size_of_font, size_of_font_first, is_name};
ghost use Rattle.boxglue_script.specs.Private.Reading.{name_first, no_field_left};

use crate::cause::Cause;
use crate::field_value::FieldValue;
use crate::lines::first_field;
use crate::values::{is_name, size_of_font};
use job_machine::FontSize;
use scaled_core::Dimen;

/// The fields of a line that are not read yet.
#[derive(Drop)]
pub struct Fields<'a> {
    pub(crate) rest: &'a [u8],
}

impl<'a> Fields<'a> {
    /// All fields of a line, or of the rest of one.
    pub fn new(line: &'a [u8]) -> Fields<'a>
        ensures { fields_of result.rest.now ≡ fields_of line.now }
    {
        Fields { rest: line }
    }

    /// The next field; Missing if there is none.
    #[tactic(auto, using(crate::proofs::FieldLemmas::next_field))]
    pub(crate) fn field(&mut self) -> Result<&'a [u8], Cause>
        ensures ok { IfOk result (λ field. first_of (fields_of self.old.rest.now) ≡ Ok field.now) }
        ensures err { IfErr result (λ cause. first_of (fields_of self.old.rest.now) ≡ Err cause) }
        ensures fields_left { fields_of self.new.rest.now ≡ rest_of (fields_of self.old.rest.now) }
    {
        let (field, rest) = first_field(self.rest);
        self.rest = rest;
        if field.is_empty() {
            return Err(Cause::Missing);
        }
        Ok(field)
    }

    /// Checks that no field is left; Extra if one is.
    pub(crate) fn end(&mut self) -> Result<(), Cause>
        ensures { result ≡ no_field_left (fields_of self.old.rest.now) }
    {
        match self.field() {
            Ok(_) => Err(Cause::Extra),
            Err(_) => Ok(()),
        }
    }

    /// The next field as a value of its kind.
    #[tactic(auto, unfolding(crate::specs::Private::Reading::value_first))]
    pub(crate) fn value<T: FieldValue>(&mut self) -> Result<T, Cause>
        ensures value { result ≡ value_first T.reading (fields_of self.old.rest.now) }
        ensures fields_left { fields_of self.new.rest.now ≡ rest_of (fields_of self.old.rest.now) }
    {
        T::of_field(self.field()?)
    }

    /// The next field, which is the last, as a value of its kind.
    #[tactic(auto, unfolding(crate::specs::Private::Reading::last_value))]
    pub(crate) fn last_value<T: FieldValue>(&mut self) -> Result<T, Cause>
        ensures { result ≡ last_value T.reading (fields_of self.old.rest.now) }
    {
        let value = self.value::<T>()?;
        self.end()?;
        Ok(value)
    }

    /// The next field as the size of a font: a dimension in a range of its own.
    #[tactic(auto, unfolding(crate::specs::Private::Reading::size_of_font_first))]
    pub(crate) fn size_of_font(&mut self) -> Result<FontSize, Cause>
        ensures value { result ≡ size_of_font_first (fields_of self.old.rest.now) }
        ensures fields_left { fields_of self.new.rest.now ≡ rest_of (fields_of self.old.rest.now) }
    {
        size_of_font(self.value::<Dimen>()?).ok_or(Cause::Number)
    }

    /// The next field as the name of a font.
    #[tactic(auto, unfolding(crate::specs::Private::Reading::name_first))]
    pub(crate) fn name(&mut self) -> Result<&'a [u8], Cause>
        ensures ok { IfOk result (λ name. name_first (fields_of self.old.rest.now) ≡ Ok name.now) }
        ensures name_valid { IfOk result (λ name. IsFontName name.now) }
        ensures err { IfErr result (λ cause. name_first (fields_of self.old.rest.now) ≡ Err cause) }
        ensures fields_left { fields_of self.new.rest.now ≡ rest_of (fields_of self.old.rest.now) }
    {
        let field = self.field()?;
        if is_name(field) {
            Ok(field)
        } else {
            Err(Cause::Name)
        }
    }
}
