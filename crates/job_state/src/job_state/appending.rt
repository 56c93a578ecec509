//! Items are appended to the innermost open list: characters in the current font, rules, specials and all others but boxes.

ghost use Rattle.std.specs.Prelude.{◌≡◌, ◌≢◌, ◌∷◌, [], None, Some, IfOk, IfErr, OnOk, OnErr};
ghost use Rattle.job_machine.specs.declared.command.Command.TheVariants as commands;
ghost use Rattle.tfm_core.specs.Slots.{font_in};
ghost use Rattle.job_state.specs.JobStateView.{before_shipping};
ghost use Rattle.job_state.specs.Private.Characters.{state_for_characters};
ghost use Rattle.job_machine.specs.Checks.{checks, first_refusal, character_checks, item_checks, is_misplaced};
ghost use Rattle.job_machine.specs.Effects.{with_items};
ghost use Rattle.job_machine.specs.Machine.{reply_by, reply_to, state_by, state_after};
ghost use Rattle.job_machine.specs.Runs.{early_checks};

use super::JobState;
use job_lists::nest::Nest;
use job_lists::texts::{append_character, append_text};
use job_machine::{Answer, Characters, Refusal, Reply};
use node_core::limits::{MAX_ITEMS, MAX_SPECIAL_TEXT};
use node_core::{Kind, Node, NodeList, Rule, RuleSize, SpecialText};
use std::alloc::AllocError;
use tfm_core::{Fonts, LoadedFont};

/// The current font and its slot, or why no character may be appended. Where the characters would go is checked before the font.
/// It takes fields of the state and not the whole, so that the font stays lent while the items change.
fn font_for_characters<'a>(
    nest: &Nest,
    fonts: &'a Fonts,
    current: Option<u8>,
) -> Result<(u8, &'a LoadedFont), Refusal>
    ensures slot { IfOk result (λ font. current ≡ Some font.0) }
    ensures font { IfOk result (λ font. font_in fonts.now font.0 ≡ Some font.1.now) }
    ensures ok { OnOk result (first_refusal (character_checks (state_for_characters nest.now fonts.now current)) ≡ None) }
    ensures err { IfErr result
        (λ refusal. first_refusal (character_checks (state_for_characters nest.now fonts.now current)) ≡ Some refusal) }
{
    let Some(innermost) = nest.innermost() else {
        return Err(Refusal::NoOpenList);
    };
    if innermost.purpose.kind() == Kind::Vertical {
        return Err(Refusal::WrongMode);
    }
    let Some(slot) = current else {
        return Err(Refusal::NoFont);
    };
    let Some(loaded) = fonts.get(slot) else {
        return Err(Refusal::NoFont);
    };
    Ok((slot, loaded))
}

impl JobState {
    /// Appends a text in the current font. An empty text takes no memory. Inside `obey` its loop would have too few registers.
    #[inline(never)]
    pub(super) fn append_text(&mut self, text: &Characters) -> Result<Reply, AllocError>
        ensures reply { IfOk result (λ reply. reply ≡ reply_to (before_shipping self.old) (commands.Text text.now)) }
        ensures state { OnOk result (before_shipping self.new ≡ state_after (before_shipping self.old) (commands.Text text.now)) }
        ensures err { OnErr result (self.new ≡ self.old) }
        ensures early { OnErr result (first_refusal (early_checks (before_shipping self.old) (commands.Text text.now)) ≡ None) }
        ensures takes { OnErr result (text.now ≢ []) }
    {
        let (slot, loaded) = match font_for_characters(&self.nest, &self.fonts, self.current) {
            Ok(font) => font,
            Err(refusal) => return Ok(Err(refusal)),
        };
        let mut items = self.nest.take_items();
        let reply = append_text(loaded, slot, text.codes(), &mut items);
        self.nest.refill(NodeList::from_vec(items));
        reply
    }

    /// Appends a character of the current font, without kerns and ligatures.
    pub(super) fn append_character(&mut self, code: u8) -> Result<Reply, AllocError>
        ensures reply { IfOk result (λ reply. reply ≡ reply_to (before_shipping self.old) (commands.Character code)) }
        ensures state { OnOk result (before_shipping self.new ≡ state_after (before_shipping self.old) (commands.Character code)) }
        ensures err { OnErr result (self.new ≡ self.old) }
        ensures early { OnErr result (first_refusal (early_checks (before_shipping self.old) (commands.Character code)) ≡ None) }
    {
        let (slot, loaded) = match font_for_characters(&self.nest, &self.fonts, self.current) {
            Ok(font) => font,
            Err(refusal) => return Ok(Err(refusal)),
        };
        let mut items = self.nest.take_items();
        let reply = append_character(loaded, slot, code, &mut items);
        self.nest.refill(NodeList::from_vec(items));
        reply
    }

    /// Appends an item of any kind that may be in every list: a kern, glue or a penalty.
    pub(super) fn append_item(&mut self, item: Node) -> Result<Reply, AllocError>
        ensures reply { IfOk result (λ reply. reply ≡ reply_by (first_refusal (item_checks (before_shipping self.old))) Answer.Done) }
        ensures state { OnOk result (before_shipping self.new ≡ state_by (first_refusal (item_checks (before_shipping self.old)))
            (before_shipping self.old) (with_items (before_shipping self.old) (item ∷ []))) }
        ensures err { OnErr result (self.new ≡ self.old) }
        ensures admitted { OnErr result (first_refusal (item_checks (before_shipping self.old)) ≡ None) }
    {
        let Some(innermost) = self.nest.innermost() else {
            return Ok(Err(Refusal::NoOpenList));
        };
        if innermost.list.len() >= MAX_ITEMS {
            return Ok(Err(Refusal::ListTooLong));
        }
        self.nest.append(item)?;
        Ok(Ok(Answer::Done))
    }

    /// Appends a rule. A running size is the box's own, so it is allowed only in the direction in which packing finds the size of the box.
    pub(super) fn append_rule(&mut self, rule: Rule) -> Result<Reply, AllocError>
        ensures reply { IfOk result (λ reply. reply ≡ reply_to (before_shipping self.old) (commands.Rule rule)) }
        ensures state { OnOk result (before_shipping self.new ≡ state_after (before_shipping self.old) (commands.Rule rule)) }
        ensures err { OnErr result (self.new ≡ self.old) }
        ensures admitted { OnErr result (first_refusal (checks (before_shipping self.old) (commands.Rule rule)) ≡ None) }
    {
        let Some(innermost) = self.nest.innermost() else {
            return Ok(Err(Refusal::NoOpenList));
        };
        if is_misplaced(innermost.purpose.kind(), &rule) {
            return Ok(Err(Refusal::WrongMode));
        }
        if innermost.list.len() >= MAX_ITEMS {
            return Ok(Err(Refusal::ListTooLong));
        }
        self.nest.append_rule(rule)?;
        Ok(Ok(Answer::Done))
    }

    /// Appends a special. Its text is copied only after all checks, so that no refusal takes memory.
    pub(super) fn append_special(&mut self, text: &Characters) -> Result<Reply, AllocError>
        ensures reply { IfOk result (λ reply. reply ≡ reply_to (before_shipping self.old) (commands.Special text.now)) }
        ensures state { OnOk result (before_shipping self.new ≡ state_after (before_shipping self.old) (commands.Special text.now)) }
        ensures err { OnErr result (self.new ≡ self.old) }
        ensures admitted { OnErr result (first_refusal (checks (before_shipping self.old) (commands.Special text.now)) ≡ None) }
    {
        let Some(innermost) = self.nest.innermost() else {
            return Ok(Err(Refusal::NoOpenList));
        };
        let bytes = text.codes();
        if bytes.len() > MAX_SPECIAL_TEXT {
            return Ok(Err(Refusal::TooMuchSpecial));
        }
        if innermost.list.len() >= MAX_ITEMS {
            return Ok(Err(Refusal::ListTooLong));
        }
        let copy = bytes.to_vec(*self.files.allocator())?;
        let special = Node::Special(SpecialText::from_vec(copy));
        self.nest.append(special)?;
        Ok(Ok(Answer::Done))
    }
}

/// Whether a rule may not be in a list of that kind: a running size is the box's own, and in this direction packing is about to find it.
fn is_misplaced(kind: Kind, rule: &Rule) -> bool
    ensures { result ≡ is_misplaced kind rule.now }
{
    match kind {
        Kind::Horizontal => rule.width == RuleSize::Running,
        Kind::Vertical => rule.height == RuleSize::Running || rule.depth == RuleSize::Running,
    }
}
