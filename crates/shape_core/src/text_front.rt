//! The front of a text, which is shaped in one loop over its characters.

ghost use Rattle.std.specs.Prelude.{◌≡◌, ◌≤◌, ◌<◌, ◌+◌, ◌++◌, ◌∷◌, [], ℕ, List, true, false, Some, IfSome, length, drop, take, vec_len, vec_capacity};
ghost use Rattle.shape_core.specs.Shaping.{outcome_items, outcome_missing, outcome_next, step_to};
ghost use Rattle.tfm_core.specs.declared.font.Step.TheVariants.{Kern};
ghost use Rattle.shape_core.specs.Texts.{text_items, text_missing};

use crate::metrics::Metrics;
use crate::word::{Outcome, glyph_node, last_outcome};
use node_core::Node;
use scaled_core::Dimen;
use std::mem::replace;
use tfm_core::Step;

/// Appends the items of a character of a word, unless it is missing or begins a ligature. Returns whether they were appended.
#[inline(always)]
fn append_outcome(slot: u8, code: u8, outcome: Outcome, items: &mut Vec<Node>) -> bool
    requires space { vec_len items.old + 2 ≤ vec_capacity items.old }
    ensures items { result ≡ true → items.new.items ≡ items.old.items ++ outcome_items slot code outcome }
    ensures none_missing { result ≡ true → outcome_missing outcome ≡ 0 }
    ensures next { result ≡ true → (following : ℕ) → outcome_next following outcome ≡ following }
    ensures kept { result ≡ false → items.new.items ≡ items.old.items }
    ensures capacity { vec_capacity items.new ≡ vec_capacity items.old }
{
    match outcome {
        Outcome::Alone(size) => {
            items.push_reserved(glyph_node(slot, code, size));
            true
        }
        Outcome::Kerned(size, width) => {
            items.push_reserved(glyph_node(slot, code, size));
            items.push_reserved(Node::FontKern(width));
            true
        }
        Outcome::Dropped => false,
        Outcome::Joined(_) => false,
    }
}

/// The width of the kern between a character and the one that follows. `None` says nothing. It is rarely asked for, and the loop has more registers
/// where it is not inlined.
#[inline(never)]
fn kern_before<M: Metrics>(metrics: &M, code: u8, following: u8) -> Option<Dimen>
    ensures { IfSome result
        (λ width. step_to (M.sizes metrics.now) (M.steps metrics.now) code (Some following) ≡ Some (Kern width)) }
{
    if metrics.glyph(following).is_none() {
        return None;
    }
    match metrics.step(code, following)? {
        Step::Kern(width) => Some(width),
        Step::Ligature(_) => None,
    }
}

/// Goes on past a character that is not the last one of a text. Returns whether its items were appended.
#[inline(always)]
fn append_next<M: Metrics>(
    metrics: &M,
    slot: u8,
    code: u8,
    following: u8,
    items: &mut Vec<Node>,
) -> bool
    requires space { vec_len items.old + 2 ≤ vec_capacity items.old }
    ensures items { result ≡ true → (text : List ℕ) →
        items.new.items ++ text_items slot (M.sizes metrics.now) (M.steps metrics.now) (M.blank metrics.now) (following ∷ text)
        ≡ items.old.items ++ text_items slot (M.sizes metrics.now) (M.steps metrics.now) (M.blank metrics.now) (code ∷ following ∷ text) }
    ensures number { result ≡ true → (text : List ℕ) → text_missing (M.sizes metrics.now) (M.steps metrics.now) (following ∷ text)
        ≡ text_missing (M.sizes metrics.now) (M.steps metrics.now) (code ∷ following ∷ text) }
    ensures front { take (length items.old.items) items.new.items ≡ items.old.items }
    ensures kept { result ≡ false → items.new.items ≡ items.old.items }
    ensures capacity { vec_capacity items.new ≡ vec_capacity items.old }
{
    if following == b' ' {
        if code == b' ' {
            return true;
        }
        return append_outcome(slot, code, last_outcome(metrics, code), items);
    }
    if code == b' ' {
        items.push_reserved(Node::Glue(metrics.space()));
        return true;
    }
    if let Some(size) = metrics.alone(code, following) {
        return append_outcome(slot, code, Outcome::Alone(size), items);
    }
    let Some(size) = metrics.glyph(code) else {
        return false;
    };
    let Some(width) = kern_before(metrics, code, following) else {
        return false;
    };
    append_outcome(slot, code, Outcome::Kerned(size, width), items)
}

/// Goes on past the last character of a text. Returns whether its items were appended.
#[inline(always)]
fn append_last<M: Metrics>(metrics: &M, slot: u8, code: u8, items: &mut Vec<Node>) -> bool
    requires space { vec_len items.old + 2 ≤ vec_capacity items.old }
    ensures items { result ≡ true → items.new.items ≡ items.old.items
        ++ text_items slot (M.sizes metrics.now) (M.steps metrics.now) (M.blank metrics.now) (code ∷ []) }
    ensures number { result ≡ true → text_missing (M.sizes metrics.now) (M.steps metrics.now) (code ∷ []) ≡ 0 }
    ensures front { take (length items.old.items) items.new.items ≡ items.old.items }
    ensures kept { result ≡ false → items.new.items ≡ items.old.items }
    ensures capacity { vec_capacity items.new ≡ vec_capacity items.old }
{
    if code == b' ' {
        items.push_reserved(Node::Glue(metrics.space()));
        return true;
    }
    append_outcome(slot, code, last_outcome(metrics, code), items)
}

/// Goes on past the characters of a text before its last one, up to one that is missing or begins a ligature, or as far as there is space. Returns
/// their number.
#[inline(always)]
fn append_before_last<M: Metrics>(
    metrics: &M,
    slot: u8,
    text: &[u8],
    items: &mut Vec<Node>,
) -> usize
    requires { 0 < length text.now }
    ensures items { items.new.items
        ++ text_items slot (M.sizes metrics.now) (M.steps metrics.now) (M.blank metrics.now) (drop result text.now)
        ≡ items.old.items ++ text_items slot (M.sizes metrics.now) (M.steps metrics.now) (M.blank metrics.now) text.now }
    ensures number { text_missing (M.sizes metrics.now) (M.steps metrics.now) (drop result text.now)
        ≡ text_missing (M.sizes metrics.now) (M.steps metrics.now) text.now }
    ensures within { result < length text.now }
    ensures front { take (length items.old.items) items.new.items ≡ items.old.items }
    ensures capacity { vec_capacity items.new ≡ vec_capacity items.old }
{
    // Two items are appended at most, for a kern.
    let last = items.capacity().saturating_sub(1);
    let mut code = text[0];
    let mut index = 1;
    while index < text.len() && items.len() < last {
        let following = text[index];
        if !append_next(metrics, slot, code, following, items) {
            break;
        }
        code = following;
        index += 1;
    }
    index - 1
}

/// Goes on past the last character of a text if it is at this index. Returns the index from which the text is left.
#[inline(always)]
fn append_end<M: Metrics>(
    metrics: &M,
    slot: u8,
    text: &[u8],
    index: usize,
    items: &mut Vec<Node>,
) -> usize
    requires { index < length text.now }
    ensures items { items.new.items
        ++ text_items slot (M.sizes metrics.now) (M.steps metrics.now) (M.blank metrics.now) (drop result text.now)
        ≡ items.old.items ++ text_items slot (M.sizes metrics.now) (M.steps metrics.now) (M.blank metrics.now) (drop index text.now) }
    ensures number { text_missing (M.sizes metrics.now) (M.steps metrics.now) (drop result text.now)
        ≡ text_missing (M.sizes metrics.now) (M.steps metrics.now) (drop index text.now) }
    ensures within { result ≤ length text.now }
    ensures front { take (length items.old.items) items.new.items ≡ items.old.items }
    ensures capacity { vec_capacity items.new ≡ vec_capacity items.old }
{
    if index + 1 != text.len() {
        return index;
    }
    if items.len() >= items.capacity().saturating_sub(1) {
        return index;
    }
    if append_last(metrics, slot, text[index], items) {
        return index + 1;
    }
    index
}

/// Appends the items of the front of a text, and returns its length. It ends before a character that is missing or begins a ligature, and where there
/// is no more space; most texts end before. The vector is moved here and never grows: no call has its address then, so it stays in registers.
#[inline(never)]
pub(crate) fn append_text_front<M: Metrics>(
    metrics: &M,
    slot: u8,
    text: &[u8],
    nodes: &mut Vec<Node>,
) -> usize
    requires { 0 < length text.now }
    ensures items { nodes.new.items
        ++ text_items slot (M.sizes metrics.now) (M.steps metrics.now) (M.blank metrics.now) (drop result text.now)
        ≡ nodes.old.items ++ text_items slot (M.sizes metrics.now) (M.steps metrics.now) (M.blank metrics.now) text.now }
    ensures number { text_missing (M.sizes metrics.now) (M.steps metrics.now) (drop result text.now)
        ≡ text_missing (M.sizes metrics.now) (M.steps metrics.now) text.now }
    ensures within { result ≤ length text.now }
    ensures front { take (length nodes.old.items) nodes.new.items ≡ nodes.old.items }
    ensures capacity { vec_capacity nodes.new ≡ vec_capacity nodes.old }
{
    let alloc = *nodes.allocator();
    let mut items = replace(nodes, Vec::new(alloc));
    let index = append_before_last(metrics, slot, text, &mut items);
    let front = append_end(metrics, slot, text, index, &mut items);
    *nodes = items;
    front
}
