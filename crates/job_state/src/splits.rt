//! Splitting a box, with the refusals of a job.

ghost use Rattle.std.specs.Prelude.{◌≡◌, None, Some, IfOk, IfErr, OnOk, IsSome};
ghost use Rattle.node_core.specs.Nodes.{nodes_of};
ghost use Rattle.vert_core.specs.Split.{front_of, rest_of};
ghost use Rattle.vert_core.specs.Tails.{AreTailsOfRest};
ghost use Rattle.job_state.specs.Private.Registers.{HasTails};
ghost use Rattle.job_machine.specs.Checks.{split_checks, first_refusal};
ghost use Rattle.job_state.specs.Private.SplitFaults.{split_refusal};

use job_machine::Refusal;
use node_core::{BoxNode, Kind, SplitParams};
use scaled_core::Dimen;
use vert_core::{Split, SplitFault, Tails, split_list};

/// A box that was not split, with the tails of its list, if they were known, and its refusal; None if memory was refused.
#[derive(Debug, Drop)]
pub struct UnsplitBox {
    pub box_node: BoxNode,
    pub tails: Option<Tails>,
    pub refusal: Option<Refusal>,
}

/// The refusal for a fault; None if memory was refused.
fn split_refusal(fault: SplitFault) -> Option<Refusal>
    ensures { result ≡ split_refusal fault }
{
    match fault {
        SplitFault::InfiniteShrink => Some(Refusal::InfiniteShrink),
        SplitFault::DimensionTooLarge => Some(Refusal::DimensionTooLarge),
        SplitFault::OutOfMemory => None,
    }
}

/// Splits a vbox at that height, or returns it unchanged with the refusal. The tails are those of its list, if they are known.
#[tactic(auto, using(crate::proofs::SplitRefusals::fault_refused, job_machine::proofs::OtherKinds::other_kinds_reversed))]
pub fn split_box(
    box_node: BoxNode,
    tails: Option<Tails>,
    height: Dimen,
    params: &SplitParams,
) -> Result<Split, UnsplitBox>
    requires { HasTails tails (Some box_node) }
    ensures front { IfOk result (λ parts. parts.front ≡ front_of params.now height (nodes_of box_node.list)) }
    ensures rest_part { IfOk result (λ parts. parts.rest ≡ rest_of params.now height (nodes_of box_node.list)) }
    ensures ok { OnOk result (first_refusal (split_checks params.now height (Some box_node)) ≡ None) }
    ensures err { IfErr result (λ unsplit. unsplit.refusal ≡ first_refusal (split_checks params.now height (Some box_node))) }
    // Only a split that leaves a rest takes memory.
    ensures growth { IfErr result (λ unsplit. unsplit.refusal ≡ None → IsSome (rest_of params.now height (nodes_of box_node.list))) }
    ensures tails { IfOk result (λ parts. AreTailsOfRest parts.tails parts.rest) }
    ensures box_returned { IfErr result (λ unsplit. unsplit.box_node ≡ box_node) }
    ensures tails_returned { IfErr result (λ unsplit. unsplit.tails ≡ tails) }
{
    if box_node.kind != Kind::Vertical {
        return Err(UnsplitBox {
            box_node,
            tails,
            refusal: Some(Refusal::WrongKind),
        });
    }
    match split_list(box_node.list, tails, height, params) {
        Ok(parts) => Ok(parts),
        Err(unsplit) => Err(UnsplitBox {
            box_node: BoxNode {
                list: unsplit.list,
                ..box_node
            },
            tails: unsplit.tails,
            refusal: split_refusal(unsplit.fault),
        }),
    }
}
