ghost use Rattle.plan.specs.Examples.{Examples};

// The worked examples hold of the definitions: the check computes them. There is nothing to do at run time.
#[tactic(auto, unfolding(crate::specs::Sizes::sizes_of))]
pub fn examples_stand()
    ensures { Examples }
{}
