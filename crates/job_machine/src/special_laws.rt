//! A law about the command `special`.

ghost use Rattle.std.specs.Prelude.{◌≡◌, ◌++◌, ◌∷◌, [], ℕ, List, None, Some, Ok};
ghost use Rattle.node_core.specs.declared.tree.Node.TheVariants as nodes;
ghost use Rattle.node_core.specs.Nodes.{items_of, nodes_of};
ghost use Rattle.job_machine.specs.declared.replies.Answer.TheVariants as answers;
ghost use Rattle.job_machine.specs.declared.command.Command.TheVariants as commands;
ghost use Rattle.job_machine.specs.declared.OpenList.{OpenList};
ghost use Rattle.job_machine.specs.State.{State, innermost};
ghost use Rattle.job_machine.specs.Checks.{checks, first_refusal};
ghost use Rattle.job_machine.specs.Machine.{reply_to, state_after};

/// A special that is accepted is the last item of the innermost list, whatever the kind of the list. The purpose and the previous depth of the list
/// stay.
pub fn specials_are_appended()
    ensures answer { (s : State) (text : List ℕ) → first_refusal (checks s (commands.Special text)) ≡ None
        → reply_to s (commands.Special text) ≡ Ok answers.Done }
    ensures list { (s : State) (l : OpenList) (text : List ℕ) → first_refusal (checks s (commands.Special text)) ≡ None → innermost s.nest ≡ Some l
        → innermost (state_after s (commands.Special text)).nest ≡ Some (record l { list = items_of (nodes_of l.list ++ nodes.Special text ∷ []) }) }
{}
