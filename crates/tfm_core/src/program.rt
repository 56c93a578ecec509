//! The ligature/kern program of a character (TFtoPL, 13; TeX: The Program, part 30, §545).

ghost use Rattle.std.specs.Prelude.{◌≡◌, ◌<◌, ◌||◌, ℕ, is_some, slice_get};
ghost use Rattle.tfm_core.specs.Private.FontView.{is_in, tag_start};
ghost use Rattle.tfm_core.specs.Program.{first_for, first_step, is_for, taken_steps};

use crate::character_set::CharacterSet;
use crate::record::{KERN_FLAG, LigKernStep, STOP_FLAG, Tag};

/// The step with this number, if there is one.
fn step_at(steps: &[LigKernStep], k: usize) -> Option<LigKernStep>
    ensures { result ≡ slice_get steps.now k }
{
    steps.get(k).copied()
}

/// The step at which a character's program begins, when its tag names step k: a first step with a high skip redirects to another one.
#[tactic(auto, unfolding(crate::specs::Program::first_step))]
fn first_step(steps: &[LigKernStep], k: u8) -> u16
    ensures { result ≡ first_step steps.now k }
{
    let Some(step) = step_at(steps, usize::from(k)) else {
        return u16::from(k);
    };
    if STOP_FLAG < step.skip {
        return 256 * u16::from(step.op) + u16::from(step.remainder);
    }
    u16::from(k)
}

/// Whether a step applies to this following character.
#[tactic(auto, unfolding(crate::specs::Program::is_for))]
fn is_for(following: u8, step: LigKernStep) -> bool
    ensures { result ≡ is_for following step }
{
    step.next == following && step.skip <= STOP_FLAG && (step.op == 0 || KERN_FLAG <= step.op)
}

/// The first step for the following character among those that are taken from step k on.
#[tactic(auto, using(crate::proofs::ProgramLemmas::programs))]
pub fn first_from(steps: &[LigKernStep], mut k: usize, following: u8) -> Option<LigKernStep>
    ensures { result ≡ first_for steps.now following (taken_steps steps.now k) }
{
    while let Some(step) = step_at(steps, k) {
        if is_for(following, step) {
            return Some(step);
        }
        if STOP_FLAG <= step.skip {
            return None;
        }
        k += usize::from(step.skip) + 1;
    }
    None
}

/// Adds the following character to which a step applies, if it applies to one.
#[tactic(auto, unfolding(crate::specs::Program::is_for))]
fn add_follower(followers: &mut CharacterSet, step: LigKernStep)
    ensures { (f : ℕ) → f < 256 → is_in followers.new f ≡ (is_for f step || is_in followers.old f) }
{
    if is_for(step.next, step) {
        followers.insert(step.next);
    }
}

/// The following characters for which there is a step among those that are taken from step `at` on.
pub fn followers_from(steps: &[LigKernStep], mut at: usize) -> CharacterSet
    ensures { (f : ℕ) → f < 256 → is_in result f ≡ is_some (first_for steps.now f (taken_steps steps.now at)) }
{
    let mut followers = CharacterSet::new();
    while let Some(step) = step_at(steps, at) {
        add_follower(&mut followers, step);
        if STOP_FLAG <= step.skip {
            return followers;
        }
        at += usize::from(step.skip) + 1;
    }
    followers
}

/// The step at which a tag's program begins, if the tag has a program.
pub fn start(steps: &[LigKernStep], tag: Tag) -> Option<u16>
    ensures { result ≡ tag_start steps.now tag }
{
    match tag {
        Tag::Program(k) => Some(first_step(steps, k)),
        Tag::Plain | Tag::Larger(_) | Tag::Recipe(_) => None,
    }
}
