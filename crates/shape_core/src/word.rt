//! Shaping of words.

ghost use Rattle.std.specs.Prelude.{◌≡◌, ◌≢◌, ◌≤◌, ◌<◌, ◌+◌, ◌++◌, ◌∷◌, [], List, None, Some, length, slice_get, take, vec_capacity, OnOk, OnErr};
ghost use Rattle.std.specs.Prelude.{IfOk};
ghost use Rattle.node_core.specs.declared.tree.Node.{Node};
ghost use Rattle.shape_core.specs.Private.Fronts.{front_of};
ghost use Rattle.shape_core.specs.Shaping.{Shaping, glyph_node, outcome_at, outcome_items, outcome_missing, outcome_next, outcome_of, shaped_items};
ghost use Rattle.shape_core.specs.Shaping.{shaped_missing};

use crate::metrics::Metrics;
use node_core::{Glyph, Node};
use scaled_core::Dimen;
use std::alloc::AllocError;
use tfm_core::{GlyphSize, Step};

/// The number of characters of a word that the font does not have.
#[derive(Clone, Copy, Debug, PartialEq, Eq)]
pub struct Missing {
    pub characters: usize,
}

/// What a character of a word becomes.
#[derive(Clone, Copy, Debug, PartialEq, Eq)]
pub enum Outcome {
    /// The font does not have the character, and it is dropped.
    Dropped,
    /// A glyph of these sizes.
    Alone(GlyphSize),
    /// A glyph of these sizes, with a kern of this width after it.
    Kerned(GlyphSize, Dimen),
    /// This character takes the place of the character and the one that follows.
    Joined(u8),
}

/// The glyph of a character.
#[inline(always)]
pub(crate) fn glyph_node(slot: u8, code: u8, size: GlyphSize) -> Node
    ensures { result ≡ glyph_node slot code size }
{
    Node::Glyph(Glyph {
        slot,
        code,
        width: size.width,
        height: size.height,
        depth: size.depth,
    })
}

/// What a character becomes that the font has.
fn outcome_of(size: GlyphSize, step: Option<Step>) -> Outcome
    ensures { result ≡ outcome_of (Some size) step }
{
    let Some(step) = step else {
        return Outcome::Alone(size);
    };
    match step {
        Step::Kern(width) => Outcome::Kerned(size, width),
        Step::Ligature(character) => Outcome::Joined(character),
    }
}

/// What a character becomes before the one that follows. Most characters stand alone, and one look says so.
#[inline(always)]
#[tactic(auto, using(crate::proofs::ShapingLemmas::outcomes), unfolding(crate::specs::Shaping::outcome_at))]
fn outcome_before<M: Metrics>(metrics: &M, code: u8, following: u8) -> Outcome
    ensures { result ≡ outcome_at (M.sizes metrics.now) (M.steps metrics.now) code (Some following) }
{
    if let Some(size) = metrics.alone(code, following) {
        return Outcome::Alone(size);
    }
    let Some(size) = metrics.glyph(code) else {
        return Outcome::Dropped;
    };
    if metrics.glyph(following).is_none() {
        return Outcome::Alone(size);
    }
    outcome_of(size, metrics.step(code, following))
}

/// What a character becomes at the end of a word.
#[inline(always)]
#[tactic(auto, unfolding(crate::specs::Shaping::outcome_at))]
pub(crate) fn last_outcome<M: Metrics>(metrics: &M, code: u8) -> Outcome
    ensures { result ≡ outcome_at (M.sizes metrics.now) (M.steps metrics.now) code None }
{
    match metrics.glyph(code) {
        Some(size) => Outcome::Alone(size),
        None => Outcome::Dropped,
    }
}

/// Refuses an item above the limit where memory would have to be taken for it. There is nearly always space, and then the limit costs nothing.
#[inline(always)]
pub(crate) fn admit(limit: usize, nodes: &Vec<Node>) -> Result<(), AllocError>
    ensures limited { OnErr result (limit ≤ length nodes.now.items) }
    ensures full { OnErr result (vec_capacity nodes.now ≤ length nodes.now.items) }
{
    if nodes.len() >= nodes.capacity() && nodes.len() >= limit {
        return Err(AllocError);
    }
    Ok(())
}

/// Appends an item. There is nearly always space for it, and then it is written in place.
#[inline(always)]
pub(crate) fn push(node: Node, nodes: &mut Vec<Node>) -> Result<(), AllocError>
    ensures ok { OnOk result (nodes.new.items ≡ nodes.old.items ++ node ∷ []) }
    ensures err { OnErr result (nodes.new.items ≡ nodes.old.items) }
    ensures capacity { vec_capacity nodes.old ≤ vec_capacity nodes.new }
    ensures full { OnErr result (vec_capacity nodes.old ≤ length nodes.new.items) }
{
    if nodes.len() < nodes.capacity() {
        nodes.push_reserved(node);
        return Ok(());
    }
    nodes.push(node)?;
    Ok(())
}

impl Outcome {
    /// The number of missing characters: 1 if the character is dropped, and otherwise 0.
    #[inline(always)]
    fn missing(&self) -> usize
        ensures value { result ≡ outcome_missing self.now }
        ensures missing_bounded { result ≤ 1 }
    {
        match self {
            Outcome::Dropped => 1,
            Outcome::Alone(_) => 0,
            Outcome::Kerned(_, _) => 0,
            Outcome::Joined(_) => 0,
        }
    }

    /// The character with which shaping goes on.
    #[inline(always)]
    fn next(&self, following: u8) -> u8
        ensures { result ≡ outcome_next following self.now }
    {
        match self {
            Outcome::Dropped => following,
            Outcome::Alone(_) => following,
            Outcome::Kerned(_, _) => following,
            Outcome::Joined(character) => *character,
        }
    }

    /// Appends the items of a character; if one is refused, only those before it.
    #[inline(always)]
    fn append(
        &self,
        slot: u8,
        code: u8,
        limit: usize,
        nodes: &mut Vec<Node>,
    ) -> Result<(), AllocError>
        ensures ok { OnOk result (nodes.new.items ≡ nodes.old.items ++ outcome_items slot code self.now) }
        ensures front { take (length nodes.old.items) nodes.new.items ≡ nodes.old.items }
        ensures fewer { OnErr result (length nodes.new.items < length nodes.old.items + length (outcome_items slot code self.now)) }
        ensures capacity { vec_capacity nodes.old ≤ vec_capacity nodes.new }
        ensures full { OnErr result (vec_capacity nodes.old ≤ length nodes.new.items) }
    {
        match self {
            Outcome::Dropped => Ok(()),
            Outcome::Alone(size) => {
                admit(limit, nodes)?;
                push(glyph_node(slot, code, *size), nodes)
            }
            Outcome::Kerned(size, width) => {
                admit(limit, nodes)?;
                push(glyph_node(slot, code, *size), nodes)?;
                admit(limit, nodes)?;
                push(Node::FontKern(*width), nodes)
            }
            Outcome::Joined(_) => Ok(()),
        }
    }
}

/// What was shaped at the beginning of a text: the number of its characters that the font does not have, and its length.
#[derive(Clone, Copy, Debug, PartialEq, Eq)]
pub(crate) struct ShapedFront {
    pub missing: usize,
    pub length: usize,
}

/// The character of a text at an index, or `None` at the end.
#[inline(always)]
fn character_at(text: &[u8], index: usize) -> Option<u8>
    ensures { result ≡ slice_get text.now index }
{
    text.get(index).copied()
}

/// The character of a text at an index, or `None` at the end. If `until_space` is true, the text ends before its first space.
/// No space stands before the index then.
#[inline(always)]
fn following_at(text: &[u8], index: usize, until_space: bool) -> Option<u8>
    requires { index ≤ length (front_of until_space text.now) }
    ensures { result ≡ slice_get (front_of until_space text.now) index }
{
    let Some(following) = character_at(text, index) else {
        return None;
    };
    if until_space && following == b' ' {
        return None;
    }
    Some(following)
}

/// Appends the items of a word that begins a text: it ends before the first space if `until_space` is true, and is the whole text otherwise.
/// If one of the items is refused, only those before it are appended.
#[inline(always)]
#[tactic(auto, using(crate::proofs::FrontLemmas::starts))]
pub(crate) fn shape_front<M: Metrics>(
    metrics: &M,
    slot: u8,
    text: &[u8],
    until_space: bool,
    limit: usize,
    nodes: &mut Vec<Node>,
) -> Result<ShapedFront, AllocError>
    requires { 0 < length (front_of until_space text.now) }
    ensures ok { OnOk result (nodes.new.items ≡ nodes.old.items ++ shaped_items slot (M.sizes metrics.now) (M.steps metrics.now)
        (front_of until_space text.now)) }
    ensures number { IfOk result (λ shaped. shaped.missing ≡ shaped_missing (M.sizes metrics.now) (M.steps metrics.now)
        (front_of until_space text.now)) }
    ensures length { IfOk result (λ shaped. shaped.length ≡ length (front_of until_space text.now)) }
    ensures missing_bounded { IfOk result (λ shaped. shaped.missing ≤ length (front_of until_space text.now)) }
    ensures front { take (length nodes.old.items) nodes.new.items ≡ nodes.old.items }
    ensures fewer { OnErr result (length nodes.new.items < length nodes.old.items
        + length (shaped_items slot (M.sizes metrics.now) (M.steps metrics.now) (front_of until_space text.now))) }
    ensures capacity { vec_capacity nodes.old ≤ vec_capacity nodes.new }
    ensures full { OnErr result (vec_capacity nodes.old ≤ length nodes.new.items) }
{
    let mut code = text[0];
    let mut index = 1;
    let mut missing = 0;
    while let Some(following) = following_at(text, index, until_space) {
        let outcome = outcome_before(metrics, code, following);
        outcome.append(slot, code, limit, nodes)?;
        missing += outcome.missing();
        code = outcome.next(following);
        index += 1;
    }
    let outcome = last_outcome(metrics, code);
    outcome.append(slot, code, limit, nodes)?;
    Ok(ShapedFront {
        missing: missing + outcome.missing(),
        length: index,
    })
}

/// Appends the items of a word in the font of this slot, and returns how many of its characters the font does not have (TeX: The Program, part 46,
/// §1029 to §1045; TFtoPL, 13). If memory is refused, `nodes` is as it was before the call. A word without items takes no memory.
#[tactic(auto, using(crate::proofs::FrontLemmas::wholes))]
pub fn shape<M: Metrics>(
    metrics: &M,
    slot: u8,
    word: &[u8],
    nodes: &mut Vec<Node>,
) -> Result<Missing, AllocError>
    ensures ok { OnOk result (nodes.new.items ≡ nodes.old.items ++ shaped_items slot (M.sizes metrics.now) (M.steps metrics.now) word.now) }
    ensures number { IfOk result (λ missing. missing.characters ≡ shaped_missing (M.sizes metrics.now) (M.steps metrics.now) word.now) }
    ensures shaping { IfOk result (λ missing. (items : List Node) × (nodes.new.items ≡ nodes.old.items ++ items)
        × Shaping slot (M.sizes metrics.now) (M.steps metrics.now) word.now items missing.characters) }
    ensures missing_bounded { IfOk result (λ missing. missing.characters ≤ length word.now) }
    ensures err { OnErr result (nodes.new.items ≡ nodes.old.items) }
    ensures growth { OnErr result (shaped_items slot (M.sizes metrics.now) (M.steps metrics.now) word.now ≢ []) }
{
    if word.is_empty() {
        return Ok(Missing { characters: 0 });
    }
    let held = nodes.len();
    // No vector has so many items: a word has no limit.
    match shape_front(metrics, slot, word, false, usize::MAX, nodes) {
        Ok(shaped) => Ok(Missing {
            characters: shaped.missing,
        }),
        Err(error) => {
            nodes.truncate(held);
            Err(error)
        }
    }
}
