//! Texts: words with spaces between them.

ghost use Rattle.std.specs.Prelude.{◌≡◌, ◌≢◌, ◌≤◌, ◌<◌, ◌+◌, ◌++◌, ◌∷◌, [], Err, length, take, vec_capacity, OnOk, OnErr};
ghost use Rattle.std.specs.Prelude.{IfOk};
ghost use Rattle.std.specs.List.{prefix_len};
ghost use Rattle.node_core.specs.declared.limits.TheConstants.{MAX_ITEMS};
ghost use Rattle.shape_core.specs.Shaping.{shaped_items, shaped_missing};
ghost use Rattle.shape_core.specs.Private.Fronts.{first_part};
ghost use Rattle.shape_core.specs.Texts.{is_space, part_items, part_missing, text_items, text_missing};
ghost use Rattle.shape_core.specs.Private.Texts.{part_length};

use crate::fault::ShapeFault;
use crate::metrics::Metrics;
use crate::text_front::append_text_front;
use crate::word::{Missing, ShapedFront, admit, push, shape, shape_front};
use node_core::Node;
use node_core::limits::MAX_ITEMS;
use std::alloc::AllocError;

/// The number of spaces at the beginning of a text.
#[inline(always)]
#[tactic(auto, using(crate::proofs::TextLemmas::prefixes))]
fn space_count(text: &[u8]) -> usize
    ensures value { result ≡ prefix_len is_space text.now }
    ensures length_bounded { result ≤ length text.now }
{
    text.iter().take_while(|c| **c == b' ').count()
}

/// Appends the items of the run of spaces or of the word that begins a text; if one is refused, only those before it.
#[inline(always)]
#[tactic(auto, using(crate::proofs::FrontLemmas::parts))]
fn shape_part<M: Metrics>(
    metrics: &M,
    slot: u8,
    text: &[u8],
    limit: usize,
    nodes: &mut Vec<Node>,
) -> Result<ShapedFront, AllocError>
    requires { 0 < length text.now }
    ensures ok { OnOk result (nodes.new.items ≡ nodes.old.items ++ part_items slot (M.sizes metrics.now) (M.steps metrics.now) (M.blank metrics.now)
        (first_part text.now)) }
    ensures number { IfOk result (λ shaped. shaped.missing ≡ part_missing (M.sizes metrics.now) (M.steps metrics.now) (first_part text.now)) }
    ensures length { IfOk result (λ shaped. shaped.length ≡ part_length text.now) }
    ensures missing_bounded { IfOk result (λ shaped. shaped.missing ≤ shaped.length) }
    ensures front { take (length nodes.old.items) nodes.new.items ≡ nodes.old.items }
    ensures fewer { OnErr result (length nodes.new.items < length nodes.old.items
        + length (part_items slot (M.sizes metrics.now) (M.steps metrics.now) (M.blank metrics.now) (first_part text.now))) }
    ensures capacity { vec_capacity nodes.old ≤ vec_capacity nodes.new }
    ensures full { OnErr result (vec_capacity nodes.old ≤ length nodes.new.items) }
{
    if text[0] == b' ' {
        admit(limit, nodes)?;
        push(Node::Glue(metrics.space()), nodes)?;
        return Ok(ShapedFront {
            missing: 0,
            length: space_count(text),
        });
    }
    shape_front(metrics, slot, text, true, limit, nodes)
}

/// Appends the items of a text; if one is refused, only those before it.
#[inline(always)]
#[tactic(auto, using(crate::proofs::TextLemmas::turns))]
fn shape_parts<M: Metrics>(
    metrics: &M,
    slot: u8,
    mut text: &[u8],
    limit: usize,
    nodes: &mut Vec<Node>,
) -> Result<Missing, AllocError>
    ensures ok { OnOk result (nodes.new.items ≡ nodes.old.items ++ text_items slot (M.sizes metrics.now) (M.steps metrics.now)
        (M.blank metrics.now) text.now) }
    ensures number { IfOk result (λ missing. missing.characters ≡ text_missing (M.sizes metrics.now) (M.steps metrics.now) text.now) }
    ensures missing_bounded { IfOk result (λ missing. missing.characters ≤ length text.now) }
    ensures front { take (length nodes.old.items) nodes.new.items ≡ nodes.old.items }
    ensures fewer { OnErr result (length nodes.new.items < length nodes.old.items
        + length (text_items slot (M.sizes metrics.now) (M.steps metrics.now) (M.blank metrics.now) text.now)) }
    ensures capacity { vec_capacity nodes.old ≤ vec_capacity nodes.new }
    ensures full { OnErr result (vec_capacity nodes.old ≤ length nodes.new.items) }
{
    let mut characters = 0;
    while !text.is_empty() {
        let front = append_text_front(metrics, slot, text, nodes);
        let rest = text.split_at(front).1;
        if rest.is_empty() {
            break;
        }
        let part = shape_part(metrics, slot, rest, limit, nodes)?;
        characters += part.missing;
        text = rest.split_at(part.length).1;
    }
    Ok(Missing { characters })
}

/// Appends the items of a text in the font of this slot, and returns how many of its characters the font does not have. Each run of spaces becomes
/// one glue of the font, and the words between them are shaped. If memory is refused, `nodes` is as it was before the call. A text without items
/// takes no memory. ListTooLong is answered where memory would have to be taken for an item above `MAX_ITEMS`: shaping ends there, and `nodes` is as
/// it was before the call. A vector with space for `MAX_ITEMS` items is never refused memory.
pub fn shape_text<M: Metrics>(
    metrics: &M,
    slot: u8,
    text: &[u8],
    nodes: &mut Vec<Node>,
) -> Result<Missing, ShapeFault>
    ensures ok { OnOk result (nodes.new.items ≡ nodes.old.items ++ text_items slot (M.sizes metrics.now) (M.steps metrics.now)
        (M.blank metrics.now) text.now) }
    ensures number { IfOk result (λ missing. missing.characters ≡ text_missing (M.sizes metrics.now) (M.steps metrics.now) text.now) }
    ensures missing_bounded { IfOk result (λ missing. missing.characters ≤ length text.now) }
    ensures err { OnErr result (nodes.new.items ≡ nodes.old.items) }
    ensures growth { OnErr result (text_items slot (M.sizes metrics.now) (M.steps metrics.now) (M.blank metrics.now) text.now ≢ []) }
    ensures too_long { result ≡ Err ShapeFault.ListTooLong → MAX_ITEMS < length nodes.old.items
        + length (text_items slot (M.sizes metrics.now) (M.steps metrics.now) (M.blank metrics.now) text.now) }
    ensures memory { result ≡ Err ShapeFault.OutOfMemory → vec_capacity nodes.old < MAX_ITEMS }
{
    let held = nodes.len();
    let limit = MAX_ITEMS;
    let shaped = shape_parts(metrics, slot, text, limit, nodes);
    match shaped {
        Ok(missing) => Ok(missing),
        Err(AllocError) => {
            let is_full = nodes.len() >= limit;
            nodes.truncate(held);
            if is_full {
                Err(ShapeFault::ListTooLong)
            } else {
                Err(ShapeFault::OutOfMemory)
            }
        }
    }
}

/// Appends the glyph of one character in the font of this slot; it counts as missing if the font does not have it. A space is treated like any other
/// character. If memory is refused, `nodes` is as it was before the call. A missing character takes no memory.
pub fn shape_character<M: Metrics>(
    metrics: &M,
    slot: u8,
    code: u8,
    nodes: &mut Vec<Node>,
) -> Result<Missing, AllocError>
    ensures ok { OnOk result (nodes.new.items ≡ nodes.old.items ++ shaped_items slot (M.sizes metrics.now) (M.steps metrics.now) (code ∷ [])) }
    ensures number { IfOk result (λ missing. missing.characters ≡ shaped_missing (M.sizes metrics.now) (M.steps metrics.now) (code ∷ [])) }
    ensures missing_bounded { IfOk result (λ missing. missing.characters ≤ 1) }
    ensures err { OnErr result (nodes.new.items ≡ nodes.old.items) }
    ensures growth { OnErr result (shaped_items slot (M.sizes metrics.now) (M.steps metrics.now) (code ∷ []) ≢ []) }
{
    shape(metrics, slot, &[code], nodes)
}
