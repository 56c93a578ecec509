//! Characters are shaped, and the items that they become are appended to those of an open list.

ghost use Rattle.std.specs.Prelude.{◌≡◌, ◌≢◌, ◌≤◌, ◌++◌, [], List, Some, length, IfOk, OnOk, OnErr};
ghost use Rattle.node_core.specs.declared.tree.Node.{Node as ANode};
ghost use Rattle.job_machine.specs.FontSlots.{text_items_in, character_in};
ghost use Rattle.job_machine.specs.Checks.{count_checks, first_refusal};
ghost use Rattle.job_machine.specs.Answers.{shaped_answer};
ghost use Rattle.job_machine.specs.Machine.{reply_by, state_by};

use job_machine::{Answer, Refusal, Reply};
use node_core::Node;
use node_core::limits::MAX_ITEMS;
use shape_core::{Missing, ShapeFault, shape_character, shape_text};
use std::alloc::AllocError;
use tfm_core::LoadedFont;

/// The reply to characters whose items were appended after the first `before` ones. Where the list is then longer than `MAX_ITEMS`, it is cut back.
fn keep_shaped(items: &mut Vec<Node>, before: usize, missing: Missing) -> Reply
    requires before_bounded { before ≤ length items.old.items }
    ensures reply { (list added : List ANode) → items.old.items ≡ list ++ added → before ≡ length list → result
        ≡ reply_by (first_refusal (count_checks (length list) added)) (shaped_answer (record { items = added; missing = missing.characters })) }
    ensures items { (list added : List ANode) → items.old.items ≡ list ++ added → before ≡ length list
        → items.new.items ≡ state_by (first_refusal (count_checks (length list) added)) list (list ++ added) }
{
    if items.len() > MAX_ITEMS {
        items.truncate(before);
        return Err(Refusal::ListTooLong);
    }
    Ok(Answer::Shaped {
        items: items.len() - before,
        missing: missing.characters,
    })
}

/// Shapes a text, and appends its items to those of an open list.
///
/// Space for one glyph a character is made first, but for no more than the list may hold: most texts then need no further growth, and a text that is
/// far too long does not ask for space for all its characters at once. An empty text takes no memory.
/// Where the list would be too long, or memory is refused, the items are unchanged.
pub fn append_text(
    loaded: &LoadedFont,
    slot: u8,
    text: &[u8],
    items: &mut Vec<Node>,
) -> Result<Reply, AllocError>
    requires { length items.old.items ≤ MAX_ITEMS }
    ensures reply { IfOk result
        (λ reply. reply ≡ reply_by (first_refusal (count_checks (length items.old.items) (text_items_in (Some loaded.now) slot text.now).items))
        (shaped_answer (text_items_in (Some loaded.now) slot text.now))) }
    ensures items { OnOk result
        (items.new.items ≡ state_by (first_refusal (count_checks (length items.old.items) (text_items_in (Some loaded.now) slot text.now).items))
        items.old.items (items.old.items ++ (text_items_in (Some loaded.now) slot text.now).items)) }
    ensures err { OnErr result (items.new.items ≡ items.old.items) }
    ensures takes { OnErr result (text.now ≢ []) }
{
    if text.is_empty() {
        return Ok(Ok(Answer::Shaped {
            items: 0,
            missing: 0,
        }));
    }
    let before = items.len();
    items.reserve(text.len().min(MAX_ITEMS - before))?;
    match shape_text(&loaded.font, slot, text, items) {
        Ok(missing) => Ok(keep_shaped(items, before, missing)),
        Err(ShapeFault::ListTooLong) => Ok(Err(Refusal::ListTooLong)),
        Err(ShapeFault::OutOfMemory) => Err(AllocError),
    }
}

/// Shapes one character as a word of its own, and appends its items to those of an open list.
/// Where the list would be too long, or memory is refused, the items are unchanged.
pub fn append_character(
    loaded: &LoadedFont,
    slot: u8,
    code: u8,
    items: &mut Vec<Node>,
) -> Result<Reply, AllocError>
    requires { length items.old.items ≤ MAX_ITEMS }
    ensures reply { IfOk result
        (λ reply. reply ≡ reply_by (first_refusal (count_checks (length items.old.items) (character_in (Some loaded.now) slot code).items))
        (shaped_answer (character_in (Some loaded.now) slot code))) }
    ensures items { OnOk result
        (items.new.items ≡ state_by (first_refusal (count_checks (length items.old.items) (character_in (Some loaded.now) slot code).items))
        items.old.items (items.old.items ++ (character_in (Some loaded.now) slot code).items)) }
    ensures err { OnErr result (items.new.items ≡ items.old.items) }
{
    let before = items.len();
    let missing = shape_character(&loaded.font, slot, code, items)?;
    Ok(keep_shaped(items, before, missing))
}
