// What the definitions come to on worked examples and on small runs: the check computes them. There is nothing to do at run time.
ghost use Rattle.model.specs.Examples.{Examples};
ghost use Rattle.model.specs.Runs.{RunsAreRight};

// The worked examples hold of the definitions.
pub fn examples_stand()
    ensures { Examples }
{}

// Every call of the small runs is answered as it is written there, down to the bytes of each reply.
pub fn runs_stand()
    ensures { RunsAreRight }
{}
